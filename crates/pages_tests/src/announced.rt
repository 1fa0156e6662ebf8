//! What is said before the first connection.
use crate::peers::{Peer, Peers};
use crate::serving::{GETS, LISTS, MOST, fill, today};
use archive_listen::{ROOM, WriteBuffer};
use archive_port::ArchiveStore;
use archive_serve::{ServingContext, ServingError, serve};
use desk_tests::checks::{expect, expect_equal};
use mbox_core::device::Tap;
use policy_core::Policy;
use std::alloc::Global;
use std::test::Fail;
use thread_core::PlainThreader;

/// An output that takes so many bytes, and what comes of one peer that is asked for so often.
#[derive(Clone, Copy)]
struct Case {
    port: u16,
    room: usize,
    count: u32,
    outcome: Result<(), ServingError>,
    said: &'static [u8],
    got: &'static [u8],
}

/// The peer comes, and gets its page.
const COMES: Case = Case {
    port: 8080,
    room: 100,
    count: 1,
    outcome: Ok(()),
    said: b"listening on 127.0.0.1:8080\n",
    got: LISTS,
};

const CASES: [Case; 5] = [
    COMES,
    Case {
        port: 7,
        room: 100,
        count: 0,
        outcome: Ok(()),
        said: b"listening on 127.0.0.1:7\n",
        got: b"",
    },
    Case {
        port: 65535,
        room: 100,
        count: 2,
        outcome: Err(ServingError::Listen),
        said: b"listening on 127.0.0.1:65535\n",
        got: LISTS,
    },
    Case {
        port: 8080,
        room: 9,
        count: 1,
        outcome: Err(ServingError::Write),
        said: b"listening",
        got: b"",
    },
    Case {
        port: 8080,
        room: 0,
        count: 1,
        outcome: Err(ServingError::Write),
        said: b"",
        got: b"",
    },
];

const PEERS: [Peer; 1] = [GETS];

fn says_where<A: ArchiveStore>(alloc: Global, store: &mut A, case: &Case) -> Result<(), Fail> {
    let mut listener = Peers::new(alloc, &PEERS);
    let mut output: WriteBuffer<Tap, ROOM> = WriteBuffer::new(Tap::new(alloc, b"", case.room)?);
    let mut faults = Tap::new(alloc, b"", 1000)?;
    let policy = Policy::open();
    let terms = ServingContext {
        alloc,
        policy: &policy,
        threader: &PlainThreader,
        day: today()?,
        most: MOST,
    };
    let outcome = serve(
        store,
        &terms,
        &mut listener,
        case.port,
        case.count,
        &mut output,
        &mut faults,
    );
    expect_equal(outcome, case.outcome)?;
    expect_equal(output.into_inner().bytes(), case.said)?;
    expect_equal(listener.got.as_slice(), case.got)?;
    expect(faults.bytes().is_empty(), "a line of a fault")
}

/// The first case, for an archive as `fill` leaves it.
pub fn says_where_once<A: ArchiveStore>(alloc: Global, store: &mut A) -> Result<(), Fail> {
    says_where(alloc, store, &COMES)
}

/// Each case in turn.
pub fn all_say_where<A: ArchiveStore>(alloc: Global, store: &mut A) -> Result<(), Fail> {
    fill(alloc, store)?;
    for case in &CASES {
        says_where(alloc, store, case)?;
    }
    Ok(())
}
