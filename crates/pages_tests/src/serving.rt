//! Peers one after the other, and what comes of them.
use crate::peers::{ALL, Peer, Peers};
use archive_desk::import;
use archive_port::{ArchiveStore, Key};
use archive_serve::{ServingContext, ServingError, serve_on};
use civil_time::Day;
use desk_tests::checks::expect_equal;
use desk_tests::commands::{list_add, withdraw};
use mbox_core::cut;
use mbox_core::device::Tap;
use policy_core::{Policy, WithdrawnBy};
use std::alloc::Global;
use std::test::Fail;
use thread_core::PlainThreader;

/// Two messages, of which the first is withdrawn.
const TWO: &[u8] =
    b"From anna@example.org Tue Mar  4 10:00:00 2003\nFrom: Anna <anna@example.org>\nSubject: Hello\n\nOne.\n\n\
      From bob@example.org Wed Mar 12 10:30:00 2003\nSubject: Re: Hello\n\nTwo.\n\n";

/// What was withdrawn is denied, and all else allowed.
const POLICY: &str =
    "[[rule]]\nname = \"withdrawn\"\neffect = \"deny\"\nwithdrawn = [\"author\", \"board\"]\n\
                      [[rule]]\nname = \"all\"\neffect = \"allow\"\n";

/// Asks for all lists.
pub const GET: &[u8] = b"GET / HTTP/1.1\r\n\r\n";

/// Their page.
pub const LISTS: &[u8] =
    b"HTTP/1.1 200 OK\r\nContent-Type: text/html; charset=us-ascii\r\nContent-Length: 178\r\nConnection: close\r\n\r\n\
      <!DOCTYPE html>\n<html><head><title>Lists</title></head><body>\n<h1>Lists</h1>\n<div class=\"d0\">\
      <a href=\"/l/soc/threads\">soc</a> <a href=\"/l/soc/mbox\">mbox</a></div>\n</body></html>\n";

/// Asks for all lists, and gets its page.
pub const GETS: Peer = Peer::Says {
    text: GET,
    reads: ALL,
    writes: ALL,
};

/// Asks for the message that was withdrawn.
const ASKS_FIRST: Peer = Peer::Says {
    text: b"GET /l/soc/m/a9fda901d43094a70ddaab56f97a3ed4ab7d9e3f14e4c1717930bee493395661 HTTP/1.1\r\n\r\n",
    reads: ALL,
    writes: ALL,
};

const DENIED: &[u8] =
    b"HTTP/1.1 403 Forbidden\r\nContent-Type: text/plain; charset=us-ascii\r\nContent-Length: 25\r\n\
      Connection: close\r\n\r\n403 Forbidden: withdrawn\n";

/// Asks for the other one.
const ASKS_SECOND: Peer = Peer::Says {
    text: b"GET /l/soc/m/d41bdfeadb4b458370ddcfa1a3a8aa91197973a0a547288c06ee2a2ae4dbf327 HTTP/1.1\r\n\r\n",
    reads: ALL,
    writes: ALL,
};

const SERVED: &[u8] =
    b"HTTP/1.1 200 OK\r\nContent-Type: message/rfc822\r\nContent-Length: 25\r\nConnection: close\r\n\r\n\
      Subject: Re: Hello\n\nTwo.\n";

/// Ends within its head.
const STOPS: Peer = Peer::Says {
    text: b"GET / HT",
    reads: ALL,
    writes: ALL,
};

const BAD_REQUEST: &[u8] =
    b"HTTP/1.1 400 Bad Request\r\nContent-Type: text/plain; charset=us-ascii\r\nContent-Length: 16\r\n\
      Connection: close\r\n\r\n400 Bad Request\n";

/// Breaks off within its head, and so within its first read.
const BREAKS: Peer = Peer::Says {
    text: GET,
    reads: 8,
    writes: ALL,
};

/// Takes no more than the status of its reply.
const LEAVES: Peer = Peer::Says {
    text: GET,
    reads: ALL,
    writes: 15,
};

/// What comes of some peers: what each of them gets, with `+` where its reply broke off, and the lines of faults.
#[derive(Clone, Copy)]
struct Case {
    peers: &'static [Peer],
    count: u32,
    outcome: Result<(), ServingError>,
    got: &'static [&'static [u8]],
    told: &'static [u8],
}

/// Each gets its reply.
const MANY: Case = Case {
    peers: &[GETS, ASKS_FIRST, ASKS_SECOND, ASKS_FIRST, GETS],
    count: 5,
    outcome: Ok(()),
    got: &[LISTS, DENIED, SERVED, DENIED, LISTS],
    told: b"",
};

const CASES: [Case; 7] = [
    Case {
        peers: &[GETS],
        count: 0,
        outcome: Ok(()),
        got: &[],
        told: b"",
    },
    Case {
        peers: &[GETS, GETS],
        count: 1,
        outcome: Ok(()),
        got: &[LISTS],
        told: b"",
    },
    MANY,
    Case {
        peers: &[Peer::Gone, STOPS, GETS],
        count: 3,
        outcome: Ok(()),
        got: &[BAD_REQUEST, LISTS],
        told: b"archive: S1 Read\n",
    },
    Case {
        peers: &[BREAKS, LEAVES, BREAKS, ASKS_SECOND],
        count: 4,
        outcome: Ok(()),
        got: &[b"HTTP/1.1 200 OK", b"+", SERVED],
        told: b"archive: S1 Read\narchive: S2 Write\narchive: S1 Read\n",
    },
    Case {
        peers: &[GETS, Peer::Gone],
        count: 3,
        outcome: Err(ServingError::Listen),
        got: &[LISTS],
        told: b"archive: S1 Read\n",
    },
    Case {
        peers: &[],
        count: 1,
        outcome: Err(ServingError::Listen),
        got: &[],
        told: b"",
    },
];

/// How many bytes of lists are kept at most.
pub const MOST: usize = 1 << 20;

/// The day of each request.
pub fn today() -> Result<Day, Fail> {
    Ok(Day::read(b"2003-03-20").ok_or("a day")?)
}

/// An empty store gets the two messages, of which the first is withdrawn.
pub fn fill<A: ArchiveStore>(alloc: Global, store: &mut A) -> Result<(), Fail> {
    list_add(store, "soc")?;
    import(store, alloc, "soc", TWO)?;
    let first = Key::of(&cut(TWO)?.next().ok_or("a first message")?);
    withdraw(store, "soc", &first, WithdrawnBy::Author)?;
    Ok(())
}

/// What peers got, one behind the other.
pub fn joined(alloc: Global, pieces: &[&[u8]]) -> Result<Vec<u8>, Fail> {
    let mut all = Vec::new(alloc);
    for piece in pieces {
        all.extend_from_slice(piece)?;
    }
    Ok(all)
}

/// Peers come to a store that was filled.
fn comes<A: ArchiveStore>(
    alloc: Global,
    store: &mut A,
    policy: &Policy,
    case: &Case,
) -> Result<(), Fail> {
    let mut listener = Peers::new(alloc, case.peers);
    let mut faults = Tap::new(alloc, b"", 1000)?;
    let terms = ServingContext {
        alloc,
        policy,
        threader: &PlainThreader,
        day: today()?,
        most: MOST,
    };
    let outcome = serve_on(store, &terms, &mut listener, case.count, &mut faults);
    expect_equal(outcome, case.outcome)?;
    expect_equal(listener.got.as_slice(), joined(alloc, case.got)?.as_slice())?;
    expect_equal(faults.bytes(), case.told)?;
    Ok(())
}

/// Some peers come to an archive as `fill` leaves it, and each gets its reply.
pub fn some_come<A: ArchiveStore>(alloc: Global, store: &mut A) -> Result<(), Fail> {
    let policy = Policy::read(alloc, POLICY)?;
    comes(alloc, store, &policy, &MANY)
}

/// The peers of each case come to an empty archive that is filled.
pub fn all_come<A: ArchiveStore>(alloc: Global, store: &mut A) -> Result<(), Fail> {
    fill(alloc, store)?;
    let policy = Policy::read(alloc, POLICY)?;
    for case in &CASES {
        comes(alloc, store, &policy, case)?;
    }
    Ok(())
}
