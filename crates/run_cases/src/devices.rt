//! Devices that the runs are over.
ghost use Rattle.std.specs.Prelude.{◌≡◌, ◌++◌, [], ◌∷◌};
ghost use Rattle.archive_listen.specs.Connections.{exchange};
ghost use Rattle.run_cases.specs.Taps.{exchanges_of_taps};

use crate::shelf::TestDatabases;
use crate::short_files::FailingFiles;
use archive_files::ArchiveDatabases;
use archive_listen::{
    AcceptError, BoundListener, Connection, ListenError, Listener, Ports, ROOM, WriteBuffer,
};
use archive_run::{Platform, Threaders};
use archive_store::Store;
use civil_time::Day;
use http_server::Log;
use mbox_core::device::Tap;
use sift_run::DayClock;
use sqlite::{Alter, FileStore};
use sqlite_disk::Memory;
use std::alloc::AllocGlobal;
use std::marker::PhantomData;
use std::rt::Files;
use thread_core::NodeThreader;

/// A clock that stands still, or tells nothing.
#[derive(Drop)]
pub struct FixedClock(pub Option<Day>);

impl DayClock for FixedClock {
    fn today(&mut self) -> Option<Day> {
        self.0
    }
}

/// Nothing that threads messages.
#[derive(Drop)]
pub struct NoThreaders;

impl Threaders for NoThreaders {
    type Threader = NodeThreader;

    fn threader(&self) -> Option<NodeThreader> {
        None
    }
}

/// A listener that gives no connection.
#[derive(Drop)]
pub struct NoListener {
    taken: Log<Tap, WriteBuffer<Tap, ROOM>>,
}

impl Listener for NoListener {
    ghost use Rattle.std.specs.Prelude.{◌≡◌, ◌++◌, [], ◌∷◌};
    ghost use Rattle.run_cases.specs.Taps.{exchanges_of_taps};

    type Input = Tap;

    type Output = WriteBuffer<Tap, ROOM>;

    ghost over = { λ l. exchanges_of_taps l.taken.items };

    ghost accepts = { λ old new fault. exchanges_of_taps new.taken.items ≡ exchanges_of_taps old.taken.items };

    ghost closes = { λ old new went broke_off. exchanges_of_taps new.taken.items ≡ exchanges_of_taps old.taken.items ++ went ∷ [] };

    ghost accepts_none = { λ old new fault same. same };

    ghost closes_one = { λ old new went broke_off more. more };

    fn accept(&mut self) -> Result<Connection<Tap, WriteBuffer<Tap, ROOM>>, AcceptError> {
        Err(AcceptError::Listener)
    }

    fn close(&mut self, connection: Connection<Tap, WriteBuffer<Tap, ROOM>>, breaks_off: bool)
        ensures closes { exchanges_of_taps self.new.taken.items ≡ exchanges_of_taps self.old.taken.items
            ++ exchange connection.input.read connection.output.inner.written ∷ [] }
    {
        self.taken = self.taken.and(&connection.input, &connection.output);
        let _breaks_off = breaks_off;
    }
}

/// Ports that cannot be had.
#[derive(Drop)]
pub struct NoPorts {
    ended: Log<NoListener, ()>,
}

impl NoPorts {
    /// No listener was ended yet.
    pub fn new() -> NoPorts {
        NoPorts { ended: Log::new() }
    }
}

impl Ports for NoPorts {
    ghost use Rattle.std.specs.Prelude.{IfOk, flat_map};
    ghost use Rattle.run_cases.specs.Taps.{exchanges_of_taps};

    type Listener = NoListener;

    ghost went = { λ p. flat_map (λ e. exchanges_of_taps e.0.taken.items) p.ended.items };

    ghost listens = { λ old new port result. IfOk result (λ _. ⊥) };

    ghost listens_none = { λ old new port listening given. absurd given };

    fn listen(&mut self, _port: u16) -> Result<BoundListener<NoListener>, ListenError> {
        Err(ListenError)
    }

    fn end(&mut self, listener: NoListener) {
        self.ended = self.ended.and(&listener, &());
    }
}

// Of these it is not said what they hold.
impl ArchiveDatabases<FileStore<Memory>> for TestDatabases {
    ghost opens_held = { λ old new file store archive held. absurd held };

    ghost closes_held = { λ old device new file before after archive held. absurd held };

    ghost unopened_held = { λ old new file fault archive held. absurd held };
}

/// The kinds of devices that the runs are over, with databases `B` whose pages lie in `T`.
pub struct TestPlatform<'a, RT, T, B> {
    of: PhantomData<(&'a RT, T, B)>,
}

impl<'a, RT: Files + AllocGlobal, T: Alter + Drop, B: ArchiveDatabases<T> + Drop> Platform
    for TestPlatform<'a, RT, T, B> {
    type Archive = Store<T>;

    type Files = FailingFiles<'a, RT>;

    type Databases = B;

    type Clock = FixedClock;

    type Ports = NoPorts;

    type Threaders = NoThreaders;

    type Input = Tap;

    type Output = WriteBuffer<Tap, ROOM>;

    type Faults = Tap;

    ghost opens_held = { B.opens_held };

    ghost closes_held = { B.closes_held };

    ghost unopened_held = { B.unopened_held };
}
