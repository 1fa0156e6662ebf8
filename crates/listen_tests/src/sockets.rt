//! Peers of this process, on the loopback interface.
use crate::words::{BEGUN, FOUND, LONG, MISSED, Words};
use archive_listen::{Listener, Loopback, serve_each};
use mbox_core::device::Tap;
use std::alloc::Global;
use std::io::{Read, Write};
use std::net::{Ipv4Addr, Net, OpenStream, Shutdown, TcpStream};
use std::process::Abort;
use std::test::Fail;

/// What a peer says, whether it then ends what it says, and what it gets.
struct Case {
    says: &'static [u8],
    ends: bool,
    gets: &'static [u8],
    told: &'static [u8],
}

const CASES: [Case; 6] = [
    Case {
        says: b"GET",
        ends: false,
        gets: FOUND,
        told: b"",
    },
    Case {
        says: b"PUT",
        ends: false,
        gets: MISSED,
        told: b"",
    },
    // Its reply goes out in pieces, each within the time that is left for the whole.
    Case {
        says: b"LONG",
        ends: false,
        gets: LONG,
        told: b"",
    },
    Case {
        says: b"",
        ends: true,
        gets: MISSED,
        told: b"",
    },
    // It says more than the service reads, and is read on before its connection is closed.
    Case {
        says: b"GET, and then so much that more than the sixty-four bytes which are read have come",
        ends: false,
        gets: FOUND,
        told: b"",
    },
    // It says nothing, and is waited for two seconds.
    Case {
        says: b"",
        ends: false,
        gets: b"",
        told: b"archive: S1 Read\n",
    },
];

/// A peer that says something, and may end what it says.
fn says<R: Net>(rt: &R, port: u16, text: &[u8], ends: bool) -> Result<R::Stream, Fail> {
    let mut stream = TcpStream::connect(rt, (Ipv4Addr::LOCALHOST, port))?;
    stream.write_all(text)?;
    if ends {
        stream.shutdown(Shutdown::Write)?;
    }
    Ok(stream)
}

/// What a peer gets, to the end.
fn heard<S: Read>(alloc: Global, stream: &mut S) -> Result<Vec<u8>, Fail> {
    let mut text = Vec::new(alloc);
    stream.read_to_end(&mut text)?;
    Ok(text)
}

fn is_text(got: &[u8], wanted: &[u8]) -> bool {
    got == wanted
}

/// Answers two peers, and tells the lines of their faults.
fn answers_two<L: Listener>(alloc: Global, listener: &mut L) -> Result<Tap, Fail> {
    let mut words = Words { found: 0 };
    let mut answered = 0;
    let mut faults = Tap::new(alloc, b"", 1000)?;
    match serve_each(&mut words, &mut answered, listener, 2, &mut faults) {
        Ok(()) => Ok(faults),
        Err(_) => Err(Fail::from("no connection")),
    }
}

/// A peer connects, says something and is answered, and so is the next one.
fn is_answered<R: Net + Abort, L: Listener>(
    rt: &R,
    alloc: Global,
    listener: &mut L,
    port: u16,
    case: &Case,
) -> Result<(), Fail> {
    let mut first = says(rt, port, case.says, case.ends)?;
    let mut second = says(rt, port, b"GET", false)?;
    let faults = answers_two(alloc, listener)?;
    let got = heard(alloc, &mut first)?;
    let next = heard(alloc, &mut second)?;
    assert!(rt; is_text(&got, case.gets));
    assert!(rt; is_text(&next, FOUND));
    assert!(rt; is_text(faults.bytes(), case.told));
    Ok(())
}

#[test]
fn each_peer_gets_its_reply(rt: HostRuntime) -> Result<(), Fail> {
    let mut listener = Loopback::bind(&rt, rt.alloc(), 0).map_err(|_| "no port")?;
    let port = listener.port();
    for case in &CASES {
        is_answered(&rt, rt.alloc(), &mut listener, port, case)?;
    }
    Ok(())
}

#[test]
fn a_reply_that_breaks_off_ends_in_no_order(rt: HostRuntime) -> Result<(), Fail> {
    let mut listener = Loopback::bind(&rt, rt.alloc(), 0).map_err(|_| "no port")?;
    let port = listener.port();
    let mut first = says(&rt, port, b"BREAK", false)?;
    let mut second = says(&rt, port, b"GET", false)?;
    let faults = answers_two(rt.alloc(), &mut listener)?;
    let mut text = Vec::new(rt.alloc());
    let ended = first.read_to_end(&mut text);
    let next = heard(rt.alloc(), &mut second)?;
    assert!(rt; ended.is_err());
    assert!(rt; BEGUN.starts_with(&text));
    assert!(rt; is_text(&next, FOUND));
    assert!(rt; is_text(faults.bytes(), b"archive: S3 Broken\n"));
    Ok(())
}
