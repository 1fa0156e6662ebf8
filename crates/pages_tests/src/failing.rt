//! Peers that fail at each byte, and the next ones.
use crate::peers::{ALL, Peer, Peers};
use crate::serving::{GET, GETS, LISTS, MOST, fill, joined, today};
use archive_port::ArchiveStore;
use archive_serve::{ServingContext, serve_on};
use desk_tests::checks::expect_equal;
use mbox_core::device::Tap;
use policy_core::Policy;
use std::alloc::Global;
use std::test::Fail;
use thread_core::PlainThreader;

/// A peer that fails is told in this line and gets this much, with `+` where its reply broke off, and the next one gets its page.
fn is_followed<A: ArchiveStore>(
    alloc: Global,
    store: &mut A,
    peer: Peer,
    got: &[u8],
    line: &[u8],
) -> Result<(), Fail> {
    let peers = [peer, GETS];
    let mut listener = Peers::new(alloc, &peers);
    let mut faults = Tap::new(alloc, b"", 1000)?;
    let policy = Policy::open();
    let terms = ServingContext {
        alloc,
        policy: &policy,
        threader: &PlainThreader,
        day: today()?,
        most: MOST,
    };
    let outcome = serve_on(store, &terms, &mut listener, 2, &mut faults);
    expect_equal(outcome, Ok(()))?;
    expect_equal(
        listener.got.as_slice(),
        joined(alloc, &[got, LISTS])?.as_slice(),
    )?;
    expect_equal(faults.bytes(), line)?;
    Ok(())
}

/// One peer for each byte of the request and of the reply.
pub fn all_fail<A: ArchiveStore>(alloc: Global, store: &mut A) -> Result<(), Fail> {
    fill(alloc, store)?;
    for reads in 0..GET.len() {
        let peer = Peer::Says {
            text: GET,
            reads,
            writes: ALL,
        };
        is_followed(alloc, store, peer, b"", b"archive: S1 Read\n")?;
    }
    for writes in 0..LISTS.len() {
        let peer = Peer::Says {
            text: GET,
            reads: ALL,
            writes,
        };
        let got = joined(alloc, &[&LISTS[..writes], b"+"])?;
        is_followed(alloc, store, peer, &got, b"archive: S2 Write\n")?;
    }
    Ok(())
}
