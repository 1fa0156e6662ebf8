//! Peers of memory, which say something and whose directions pass so many bytes.
ghost use Rattle.std.specs.Prelude.{◌≡◌, ◌++◌, [], ◌∷◌};
ghost use Rattle.archive_listen.specs.Connections.{exchange};
ghost use Rattle.pages_tests.specs.Taps.{exchanges_of_taps};

use archive_listen::{AcceptError, Connection, Listener, ROOM, WriteBuffer};
use http_server::Log;
use mbox_core::device::Tap;
use std::alloc::Global;

/// More bytes than a reply has.
pub const ALL: usize = 4000;

/// A peer that a listener gives, or does not.
#[derive(Clone, Copy)]
pub enum Peer {
    /// It is gone before it is taken.
    Gone,
    /// It says this, and each direction passes so many bytes.
    Says {
        text: &'static [u8],
        reads: usize,
        writes: usize,
    },
}

/// Gives these peers, and then no more. What each of them got is kept, with `+` behind it where its connection lingered.
#[derive(Drop)]
pub struct Peers<'a> {
    /// Where the bytes are kept.
    pub alloc: Global,
    /// Those that have not come yet.
    pub peers: &'a [Peer],
    /// What all of them got.
    pub got: Vec<u8>,
    taken: Log<Tap, WriteBuffer<Tap, ROOM>>,
}

impl<'a> Peers<'a> {
    /// Nobody got anything yet.
    pub fn new(alloc: Global, peers: &'a [Peer]) -> Peers<'a> {
        Peers {
            alloc,
            peers,
            got: Vec::new(alloc),
            taken: Log::new(),
        }
    }
}

impl<'a> Listener for Peers<'a> {
    ghost use Rattle.std.specs.Prelude.{◌≡◌, ◌++◌, [], ◌∷◌};
    ghost use Rattle.pages_tests.specs.Taps.{exchanges_of_taps};

    type Input = Tap;

    type Output = WriteBuffer<Tap, ROOM>;

    ghost over = { λ p. exchanges_of_taps p.taken.items };

    ghost accepts = { λ old new fault. exchanges_of_taps new.taken.items ≡ exchanges_of_taps old.taken.items };

    ghost closes = { λ old new went broke_off. exchanges_of_taps new.taken.items ≡ exchanges_of_taps old.taken.items ++ went ∷ [] };

    ghost accepts_none = { λ old new fault same. same };

    ghost closes_one = { λ old new went broke_off more. more };

    fn accept(&mut self) -> Result<Connection<Tap, WriteBuffer<Tap, ROOM>>, AcceptError> {
        let Some((first, rest)) = self.peers.split_first() else {
            return Err(AcceptError::Listener);
        };
        self.peers = rest;
        let Peer::Says {
            text,
            reads,
            writes,
        } = *first
        else {
            return Err(AcceptError::Peer);
        };
        let Ok(input) = Tap::new(self.alloc, text, reads) else {
            return Err(AcceptError::Listener);
        };
        let Ok(output) = Tap::new(self.alloc, b"", writes) else {
            return Err(AcceptError::Listener);
        };
        Ok(Connection {
            input,
            output: WriteBuffer::new(output),
        })
    }

    fn close(&mut self, connection: Connection<Tap, WriteBuffer<Tap, ROOM>>, breaks_off: bool)
        ensures closes { exchanges_of_taps self.new.taken.items ≡ exchanges_of_taps self.old.taken.items
            ++ exchange connection.input.read connection.output.inner.written ∷ [] }
    {
        self.taken = self.taken.and(&connection.input, &connection.output);
        let output = connection.output.into_inner();
        let _ = self.got.extend_from_slice(output.bytes());
        if breaks_off {
            let _ = self.got.push(b'+');
        }
    }
}
