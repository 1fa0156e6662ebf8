//! Files, databases, a clock, ports and threaders of memory.
ghost use Rattle.std.specs.Prelude.{◌≡◌, ◌++◌, [], ◌∷◌};
ghost use Rattle.archive_listen.specs.Connections.{exchange};
ghost use Rattle.run_tests.specs.Taps.{exchanges_of_taps};

use archive_listen::{
    AcceptError, BoundListener, Connection, ListenError, Listener, Ports, ROOM, WriteBuffer,
};
use archive_port::Databases;
use archive_run::{Platform, Threaders};
use archive_store::{Store, StoreFault};
use civil_time::Day;
use http_server::Log;
use mbox_core::device::Tap;
use sift_run::{DayClock, FileError, ReadFiles, StreamedFiles};
use sqlite::MemStore;
use std::alloc::{AllocError, Global};
use thread_core::NodeThreader;

/// A file that writes a policy.
pub const POLICY: &str = "policy.toml";

/// A file that writes another one, which hides what was withdrawn from everybody.
pub const HIDING: &str = "hiding.toml";

/// A file that writes none.
pub const NO_POLICY: &str = "archive.mbox";

/// A file of two messages.
pub const MBOX: &str = "two.mbox";

/// The same file, of which a read fails behind the second separator line.
pub const BROKEN: &str = "broken.mbox";

/// A file for which there is no memory.
pub const NO_MEMORY: &str = "no-memory.mbox";

/// The two messages, the second an answer to the first.
const TWO: &[u8] =
    b"From anna@example.org Tue Mar  4 10:00:00 2003\nFrom: Anna <anna@example.org>\nSubject: Hello\n\nOne.\n\nFrom bob@example.org Wed Mar 12 10:30:00 2003\nSubject: Re: Hello\n\nTwo.\n\n";

/// Where the second separator line of the two messages ends.
const SECOND: usize = 145;

/// The one database.
pub const ARCHIVE: &str = "archive.db";

/// A port that is taken.
const TAKEN: u16 = 22;

/// What port 0 stands for.
const PICKED: u16 = 49152;

/// Policies, of which one is none, and mboxes.
#[derive(Drop)]
pub struct KnownFiles;

impl ReadFiles for KnownFiles {
    fn read_file(&self, alloc: Global, name: &str) -> Result<Vec<u8>, FileError> {
        let text: &[u8] = match name {
            POLICY => b"[[rule]]\nname = \"all\"\neffect = \"allow\"\n",
            HIDING =>
                b"[[rule]]\nname = \"withdrawn\"\neffect = \"deny\"\nwithdrawn = [\"author\", \"board\"]\n\n[[rule]]\nname = \"all\"\neffect = \"allow\"\n",
            NO_POLICY => b"From anna@example.org Tue Mar  4 10:00:00 2003\n",
            _ => return Err(FileError::Read),
        };
        let mut bytes = Vec::new(alloc);
        match bytes.extend_from_slice(text) {
            Ok(()) => Ok(bytes),
            Err(_full) => Err(FileError::Memory),
        }
    }
}

impl StreamedFiles for KnownFiles {
    type Input = Tap;

    fn open_file(&self, alloc: Global, name: &str) -> Result<Tap, FileError> {
        let passes = match name {
            MBOX => 1000,
            BROKEN => SECOND,
            NO_MEMORY => return Err(FileError::Memory),
            _ => return Err(FileError::Read),
        };
        match Tap::new(alloc, TWO, passes) {
            Ok(input) => Ok(input),
            Err(_full) => Err(FileError::Memory),
        }
    }
}

/// One database, which is empty at first, and kept while it is not open; how often it was opened, and closed.
#[derive(Drop)]
pub struct Shelf {
    /// The connection to the database, while no store has it.
    pub connection: Option<sqlite::Connection<MemStore>>,
    /// How often it was opened.
    pub opened: u32,
    /// How often it was closed.
    pub closed: u32,
}

impl Shelf {
    /// It was not opened yet.
    pub fn new() -> Shelf {
        Shelf {
            connection: None,
            opened: 0,
            closed: 0,
        }
    }
}

impl Databases<Store<MemStore>> for Shelf {
    ghost use Rattle.std.specs.Prelude.{◌≡◌, Some, IfErr, IfOk, codes};
    ghost use Rattle.archive_store.specs.Held.{store_connection};
    ghost use Rattle.run_tests.specs.Shelf.{KeepsUnopenedDatabase, KeptDatabaseHoldsArchive, OpensKeptOrEmptyDatabase};

    ghost holds = { λ shelf name archive. (name ≡ codes "archive.db") × KeptDatabaseHoldsArchive shelf.connection archive };

    ghost opens = { λ old new name result. IfOk result (λ store. OpensKeptOrEmptyDatabase old.connection store)
        × IfErr result (λ _. KeepsUnopenedDatabase old.connection new.connection) };

    ghost closes = { λ old new store. new.connection ≡ Some (store_connection store) };

    fn open(&mut self, alloc: Global, name: &str) -> Result<Store<MemStore>, StoreFault> {
        if name != ARCHIVE {
            return Err(StoreFault::Store);
        }
        let store = match self.connection.take() {
            Some(connection) => match Store::adopt(connection) {
                Ok(store) => store,
                Err(stop) => {
                    let fault = stop.fault;
                    self.connection = Some(stop.connection);
                    return Err(fault);
                }
            },
            None => Store::open_in_memory(alloc)?,
        };
        self.opened = self.opened.saturating_add(1);
        Ok(store)
    }

    fn close(&mut self, store: Store<MemStore>)
        ensures { self.new.connection ≡ Some (store_connection store) }
    {
        self.connection = Some(store.into_connection());
        self.closed = self.closed.saturating_add(1);
    }
}

/// A clock that stands still, or tells nothing.
#[derive(Drop)]
pub struct Still(pub Option<Day>);

impl DayClock for Still {
    fn today(&mut self) -> Option<Day> {
        self.0
    }
}

/// One threader, or none.
#[derive(Drop)]
pub struct Nodes(pub Option<NodeThreader>);

impl Threaders for Nodes {
    type Threader = NodeThreader;

    fn threader(&self) -> Option<NodeThreader> {
        self.0
    }
}

/// A peer that a listener gives, or does not.
#[derive(Clone, Copy)]
pub enum Peer {
    /// It is gone before it is taken.
    Gone,
    /// It says this.
    Says(&'static [u8]),
}

/// Gives these peers, and then no more. What each of them was sent is kept.
#[derive(Drop)]
pub struct Peers {
    alloc: Global,
    peers: &'static [Peer],
    /// What each was sent.
    pub sent: Vec<Tap>,
    taken: Log<Tap, WriteBuffer<Tap, ROOM>>,
}

impl Listener for Peers {
    ghost use Rattle.std.specs.Prelude.{◌≡◌, ◌++◌, [], ◌∷◌};
    ghost use Rattle.run_tests.specs.Taps.{exchanges_of_taps};

    type Input = Tap;

    type Output = WriteBuffer<Tap, ROOM>;

    ghost over = { λ p. exchanges_of_taps p.taken.items };

    ghost accepts = { λ old new fault. exchanges_of_taps new.taken.items ≡ exchanges_of_taps old.taken.items };

    ghost closes = { λ old new went broke_off. exchanges_of_taps new.taken.items ≡ exchanges_of_taps old.taken.items ++ went ∷ [] };

    ghost accepts_none = { λ old new fault same. same };

    ghost closes_one = { λ old new went broke_off more. more };

    fn accept(&mut self) -> Result<Connection<Tap, WriteBuffer<Tap, ROOM>>, AcceptError> {
        let Some((first, rest)) = self.peers.split_first() else {
            return Err(AcceptError::Listener);
        };
        self.peers = rest;
        let Peer::Says(text) = *first else {
            return Err(AcceptError::Peer);
        };
        let Ok(input) = Tap::new(self.alloc, text, 1000) else {
            return Err(AcceptError::Listener);
        };
        let Ok(output) = Tap::new(self.alloc, b"", 4000) else {
            return Err(AcceptError::Listener);
        };
        Ok(Connection {
            input,
            output: WriteBuffer::new(output),
        })
    }

    fn close(&mut self, connection: Connection<Tap, WriteBuffer<Tap, ROOM>>, breaks_off: bool)
        ensures closes { exchanges_of_taps self.new.taken.items ≡ exchanges_of_taps self.old.taken.items
            ++ exchange connection.input.read connection.output.inner.written ∷ [] }
    {
        self.taken = self.taken.and(&connection.input, &connection.output);
        let _breaks_off = breaks_off;
        let _ = self.sent.push(connection.output.into_inner());
    }
}

/// Ports, at all of which the same peers come, but the one that is taken. The listeners that were ended are in it, in their order.
#[derive(Drop)]
pub struct Quay {
    alloc: Global,
    peers: &'static [Peer],
    listeners: Vec<Peers>,
    ended: Log<Peers, ()>,
}

impl Quay {
    /// No listener was ended yet.
    pub fn new(alloc: Global, peers: &'static [Peer]) -> Quay {
        Quay {
            alloc,
            peers,
            listeners: Vec::new(alloc),
            ended: Log::new(),
        }
    }

    /// What the peers of all listeners were sent, one after the other.
    pub fn sent(&self) -> Result<Vec<u8>, AllocError> {
        let mut all = Vec::new(self.alloc);
        for peers in &self.listeners {
            for sent in &peers.sent {
                all.extend_from_slice(sent.bytes())?;
            }
        }
        Ok(all)
    }
}

impl Ports for Quay {
    ghost use Rattle.std.specs.Prelude.{◌≡◌, [], IfOk, flat_map};
    ghost use Rattle.run_tests.specs.Taps.{no_connection_no_exchange, exchanges_of_taps};

    type Listener = Peers;

    ghost went = { λ q. flat_map (λ e. exchanges_of_taps e.0.taken.items) q.ended.items };

    ghost listens = { λ old new port result. (new ≡ old) × IfOk result (λ it. it.listener.taken.items ≡ []) };

    ghost listens_none = { λ old new port listening given.
        no_connection_no_exchange (λ q. flat_map (λ e. exchanges_of_taps e.0.taken.items) q.ended.items) old new listening.listener.taken.items given.0 given.1 };

    fn listen(&mut self, port: u16) -> Result<BoundListener<Peers>, ListenError> {
        if port == TAKEN {
            return Err(ListenError);
        }
        Ok(BoundListener {
            listener: Peers {
                alloc: self.alloc,
                peers: self.peers,
                sent: Vec::new(self.alloc),
                taken: Log::new(),
            },
            port: if port == 0 { PICKED } else { port },
        })
    }

    fn end(&mut self, listener: Peers) {
        self.ended = self.ended.and(&listener, &());
        let _ = self.listeners.push(listener);
    }
}

/// The kinds of devices of memory.
pub struct Desk;

impl Platform for Desk {
    ghost use Rattle.run_tests.specs.Shelf.{closed_store_holds_its_archive, reopened_test_store_remembers, unopened_database_is_kept};

    type Archive = Store<MemStore>;

    type Files = KnownFiles;

    type Databases = Shelf;

    type Clock = Still;

    type Ports = Quay;

    type Threaders = Nodes;

    type Input = Tap;

    type Output = WriteBuffer<Tap, ROOM>;

    type Faults = Tap;

    ghost opens_held = { λ old new name store archive held given. reopened_test_store_remembers old.connection store archive held.1 given.0 };

    ghost closes_held = { λ old device new name before after archive held given closed returned tables.
        (held.0, closed_store_holds_its_archive new.connection after closed tables) };

    ghost unopened_held = { λ old new name fault archive held given. (held.0, unopened_database_is_kept old.connection new.connection archive given.1 held.1) };
}
