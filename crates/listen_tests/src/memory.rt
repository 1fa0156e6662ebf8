//! Peers of memory, some of which fail.
ghost use Rattle.std.specs.Prelude.{◌≡◌, ◌++◌, [], ◌∷◌};
ghost use Rattle.archive_listen.specs.Connections.{exchange};
ghost use Rattle.listen_tests.specs.Taps.{exchanges_of_taps};

use crate::words::Words;
use archive_listen::{
    AcceptError, Connection, ListenError, Listener, ROOM, WriteBuffer, serve_each,
};
use http_server::Log;
use mbox_core::device::Tap;
use std::alloc::Global;
use std::process::Abort;
use std::test::Fail;

/// A peer that a listener gives, or does not.
#[derive(Clone, Copy)]
enum Peer {
    /// It is gone before it is taken.
    Gone,
    /// It says this, and each direction passes so many bytes.
    Says {
        text: &'static [u8],
        reads: usize,
        writes: usize,
    },
}

/// Asks for what is there.
const GETS: Peer = Peer::Says {
    text: b"GET",
    reads: 1000,
    writes: 1000,
};

/// Asks for something else.
const PUTS: Peer = Peer::Says {
    text: b"PUT",
    reads: 1000,
    writes: 1000,
};

/// Asks for what breaks off.
const BREAKS: Peer = Peer::Says {
    text: b"BREAK",
    reads: 1000,
    writes: 1000,
};

/// Says nothing, to its end.
const ENDS: Peer = Peer::Says {
    text: b"",
    reads: 1000,
    writes: 1000,
};

/// Gives these peers, and then no more. What each of them got is kept, with `+` behind it where its reply broke off.
#[derive(Drop)]
struct Peers<'a> {
    alloc: Global,
    peers: &'a [Peer],
    at: usize,
    got: Vec<u8>,
    taken: Log<Tap, WriteBuffer<Tap, ROOM>>,
}

impl<'a> Listener for Peers<'a> {
    ghost use Rattle.std.specs.Prelude.{◌≡◌, ◌++◌, [], ◌∷◌};
    ghost use Rattle.listen_tests.specs.Taps.{exchanges_of_taps};

    type Input = Tap;

    type Output = WriteBuffer<Tap, ROOM>;

    ghost over = { λ p. exchanges_of_taps p.taken.items };

    ghost accepts = { λ old new fault. exchanges_of_taps new.taken.items ≡ exchanges_of_taps old.taken.items };

    ghost closes = { λ old new went broke_off. exchanges_of_taps new.taken.items ≡ exchanges_of_taps old.taken.items ++ went ∷ [] };

    ghost accepts_none = { λ old new fault same. same };

    ghost closes_one = { λ old new went broke_off more. more };

    fn accept(&mut self) -> Result<Connection<Tap, WriteBuffer<Tap, ROOM>>, AcceptError> {
        let Some(peer) = self.peers.get(self.at) else {
            return Err(AcceptError::Listener);
        };
        self.at += 1;
        let Peer::Says {
            text,
            reads,
            writes,
        } = *peer
        else {
            return Err(AcceptError::Peer);
        };
        let Ok(input) = Tap::new(self.alloc, text, reads) else {
            return Err(AcceptError::Listener);
        };
        let Ok(output) = Tap::new(self.alloc, b"", writes) else {
            return Err(AcceptError::Listener);
        };
        Ok(Connection {
            input,
            output: WriteBuffer::new(output),
        })
    }

    fn close(&mut self, connection: Connection<Tap, WriteBuffer<Tap, ROOM>>, breaks_off: bool)
        ensures closes { exchanges_of_taps self.new.taken.items ≡ exchanges_of_taps self.old.taken.items
            ++ exchange connection.input.read connection.output.inner.written ∷ [] }
    {
        self.taken = self.taken.and(&connection.input, &connection.output);
        let output = connection.output.into_inner();
        let _ = self.got.extend_from_slice(output.bytes());
        if breaks_off {
            let _ = self.got.push(b'+');
        }
    }
}

/// What comes of some peers.
struct Case {
    peers: &'static [Peer],
    count: u32,
    outcome: Result<(), ListenError>,
    answered: u32,
    found: u32,
    got: &'static [u8],
    told: &'static [u8],
}

const CASES: [Case; 7] = [
    Case {
        peers: &[],
        count: 0,
        outcome: Ok(()),
        answered: 0,
        found: 0,
        got: b"",
        told: b"",
    },
    Case {
        peers: &[GETS, PUTS, GETS, GETS],
        count: 3,
        outcome: Ok(()),
        answered: 3,
        found: 2,
        got: b"200 yes\n404 no\n200 yes\n",
        told: b"",
    },
    Case {
        peers: &[Peer::Gone, GETS],
        count: 2,
        outcome: Ok(()),
        answered: 1,
        found: 1,
        got: b"200 yes\n",
        told: b"archive: S1 Read\n",
    },
    Case {
        peers: &[
            Peer::Says {
                text: b"GET",
                reads: 0,
                writes: 1000,
            },
            Peer::Says {
                text: b"GET",
                reads: 1000,
                writes: 5,
            },
            GETS,
        ],
        count: 3,
        outcome: Ok(()),
        answered: 2,
        found: 2,
        got: b"200 y+200 yes\n",
        told: b"archive: S1 Read\narchive: S2 Write\n",
    },
    Case {
        peers: &[BREAKS, GETS],
        count: 2,
        outcome: Ok(()),
        answered: 2,
        found: 1,
        got: b"+200 yes\n",
        told: b"archive: S3 Broken\n",
    },
    Case {
        peers: &[ENDS, GETS],
        count: 2,
        outcome: Ok(()),
        answered: 2,
        found: 1,
        got: b"404 no\n200 yes\n",
        told: b"",
    },
    Case {
        peers: &[GETS, Peer::Gone],
        count: 4,
        outcome: Err(ListenError),
        answered: 1,
        found: 1,
        got: b"200 yes\n",
        told: b"archive: S1 Read\n",
    },
];

fn comes(rt: &impl Abort, alloc: Global, case: &Case) -> Result<(), Fail> {
    let mut words = Words { found: 0 };
    let mut answered = 0;
    let mut listener = Peers {
        alloc,
        peers: case.peers,
        at: 0,
        got: Vec::new(alloc),
        taken: Log::new(),
    };
    let mut faults = Tap::new(alloc, b"", 1000)?;
    let outcome = serve_each(
        &mut words,
        &mut answered,
        &mut listener,
        case.count,
        &mut faults,
    );
    assert_eq!(rt; outcome, case.outcome);
    assert_eq!(rt; answered, case.answered);
    assert_eq!(rt; words.found, case.found);
    assert_eq!(rt; listener.got.as_slice(), case.got);
    assert_eq!(rt; faults.bytes(), case.told);
    Ok(())
}

#[test]
fn each_peer_is_answered_once(rt: HostRuntime) -> Result<(), Fail> {
    for case in &CASES {
        comes(&rt, rt.alloc(), case)?;
    }
    Ok(())
}
