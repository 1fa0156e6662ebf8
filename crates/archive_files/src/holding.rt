//! What the databases of a system hold, from one opening to the next.
use crate::databases::SystemDatabases;
use crate::system::{HasDatabaseFiles, HasRandom};
use archive_port::Databases;
use archive_store::Store;
use sqlite::{Alter, FileFrom, FileStore, Start};
use sqlite_disk::Disk;

/// Databases that hold what the stores which were opened from them remembered when they were closed. `T` is what a store's pages lie in.
pub trait ArchiveDatabases<T: Alter>: Databases<Store<T>> {
    ghost use Rattle.archive_port.specs.Remembering.{ClosedDatabaseHoldsArchive, OpenedStoreHoldsArchive, UnopenedDatabaseHoldsArchive};
    ghost use Rattle.archive_store.specs.State.{state_of};

    // A database that holds an archive gives a store that remembers it, without a limit on the steps of a query.
    ghost opens_held: { OpenedStoreHoldsArchive (state_of T.Store) Self.Databases };

    // When it is closed, it holds what its store remembers then.
    ghost closes_held: { ClosedDatabaseHoldsArchive (state_of T.Store) Self.Databases };

    // If an opening fails, it still holds what it held.
    ghost unopened_held: { UnopenedDatabaseHoldsArchive Self.Databases };
}

impl<'a, S: Start> ArchiveDatabases<FileStore<FileFrom<S>>>
    for SystemDatabases<'a, HostRuntime, S, FileFrom<S>> {
    ghost use Rattle.std.specs.Prelude.{refl, option_map, string_bytes};
    ghost use Rattle.std.proofs.Common.{◌∙◌, inl};
    ghost use Rattle.sqlite_wal.specs.Files.{image_at};
    ghost use Rattle.archive_files.specs.Laws.{closed_database_holds, named_as_opened, opened_store_holds, unopened_database_holds};

    ghost opens_held = { λ old new file store archive held opened.
        opened_store_holds ⟦<FileFrom<S> as Disk>⟧ (λ it. inl refl)
        ⟦<HostRuntime as HasRandom>⟧.seeds ⟦<HostRuntime as HasDatabaseFiles>⟧.opens old.rt.now file (image_at S.Start)
        old.start (option_map string_bytes old.known) (option_map string_bytes new.known) old.left new.left store archive held opened.1 };

    ghost closes_held = { λ old device new file before after archive held opened closed returned tables.
        closed_database_holds (image_at S.Start) new.start (option_map string_bytes new.known) (option_map string_bytes device.known) file new.left after
        (closed.0 ∙ opened.0) closed.1
        (named_as_opened ⟦<FileFrom<S> as Disk>⟧ (λ it. inl refl)
        ⟦<HostRuntime as HasRandom>⟧.seeds ⟦<HostRuntime as HasDatabaseFiles>⟧.opens old.rt.now file (image_at S.Start)
        old.start (option_map string_bytes old.known) (option_map string_bytes device.known) old.left device.left before archive held opened.1)
        closed.2 tables };

    ghost unopened_held = { λ old new file fault archive held unopened.
        unopened_database_holds ⟦<FileFrom<S> as Disk>⟧ (λ it. inl refl)
        ⟦<HostRuntime as HasRandom>⟧.seeds ⟦<HostRuntime as HasDatabaseFiles>⟧.opens old.rt.now file (image_at S.Start)
        old.start new.start (option_map string_bytes old.known) (option_map string_bytes new.known) old.left new.left fault
        unopened.0 unopened.1 archive held };
}
