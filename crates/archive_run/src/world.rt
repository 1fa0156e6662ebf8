//! What a run is over: one device of each kind.
use crate::threaders::Threaders;
use archive_listen::{BufferedSink, Ports};
use archive_port::{ArchiveStore, Databases};
use mbox_core::device::{Sink, Source};
use sift_run::{DayClock, ReadFiles, StreamedFiles};

/// The kinds of devices that a run is over. No value of it is ever made.
pub trait Platform {
    ghost use Rattle.archive_port.specs.Remembering.{ClosedDatabaseHoldsArchive, OpenedStoreHoldsArchive, UnopenedDatabaseHoldsArchive};

    /// What an opened archive is.
    type Archive: ArchiveStore + Drop;

    /// The files of policies, which are read whole, and of mboxes, which are read piece by piece.
    type Files: ReadFiles + StreamedFiles + Drop;

    type Databases: Databases<Self::Archive> + Drop;

    type Clock: DayClock + Drop;

    type Ports: Ports + Drop;

    type Threaders: Threaders + Drop;

    type Input: Source + Drop;

    /// It may hold back what it is given: an order that is carried out passes it on.
    type Output: BufferedSink + Drop;

    /// Each line that is written to it goes out at once.
    type Faults: Sink + Drop;

    // A database that holds an archive gives a store that remembers it, if the disk has returned what was written to it, and that has no
    // limit on the steps of a query.
    ghost opens_held: { OpenedStoreHoldsArchive Self.Archive.ArchiveState Self.Databases.Databases };

    // When it is closed, it holds what its store remembers then.
    ghost closes_held: { ClosedDatabaseHoldsArchive Self.Archive.ArchiveState Self.Databases.Databases };

    // If an opening fails, it still holds what it held.
    ghost unopened_held: { UnopenedDatabaseHoldsArchive Self.Databases.Databases };
}

/// What a run is over.
#[derive(Drop)]
pub struct Environment<Y: Platform> {
    /// Policies and mboxes.
    pub files: Y::Files,
    /// The archives.
    pub databases: Y::Databases,
    /// It is asked where an order needs a day and gives none.
    pub clock: Y::Clock,
    /// Where `serve` listens.
    pub ports: Y::Ports,
    /// Makes what threads messages for `serve`.
    pub threaders: Y::Threaders,
    /// Standard input: what `sift` reads.
    pub input: Y::Input,
    /// Standard output.
    pub output: Y::Output,
    /// Standard error: refusals, and what is wrong with bad words.
    pub faults: Y::Faults,
}
