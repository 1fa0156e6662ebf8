//! A peer of this process, on the loopback interface.
use archive_listen::Loopback;
use archive_memory::MemoryArchive;
use archive_port::ArchiveStore;
use archive_serve::{ServingContext, serve_on};
use mbox_core::device::Tap;
use pages_tests::serving::{GET, LISTS, MOST, fill, today};
use policy_core::Policy;
use std::alloc::Global;
use std::io::{Read, Write};
use std::net::{Ipv4Addr, TcpStream};
use std::test::Fail;
use thread_core::PlainThreader;

/// A peer connects and asks, is answered, and reads its page to the end: what came.
fn asks<A: ArchiveStore>(rt: &HostRuntime, alloc: Global, store: &mut A) -> Result<Vec<u8>, Fail> {
    fill(alloc, store)?;
    let mut listener = Loopback::bind(rt, alloc, 0).map_err(|_| "no port")?;
    let port = listener.port();
    let mut peer = TcpStream::connect(rt, (Ipv4Addr::LOCALHOST, port))?;
    peer.write_all(GET)?;
    let mut faults = Tap::new(alloc, b"", 1000)?;
    let policy = Policy::open();
    let terms = ServingContext {
        alloc,
        policy: &policy,
        threader: &PlainThreader,
        day: today()?,
        most: MOST,
    };
    let outcome = serve_on(store, &terms, &mut listener, 1, &mut faults);
    let mut got = Vec::new(alloc);
    peer.read_to_end(&mut got)?;
    if outcome.is_err() || !faults.bytes().is_empty() {
        return Err(Fail::from("a connection without a fault"));
    }
    Ok(got)
}

#[test]
fn a_peer_on_the_loopback_interface_gets_its_page(rt: HostRuntime) -> Result<(), Fail> {
    let mut archive = MemoryArchive::new(rt.alloc());
    let got = asks(&rt, rt.alloc(), &mut archive)?;
    assert_eq!(rt; got.as_slice(), LISTS);
    Ok(())
}
