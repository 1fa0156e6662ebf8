//! Closing a store over files, and opening them again.
ghost use Rattle.std.specs.Prelude.{◌≡◌, None, IfOk, IfErr, IsTrue};
ghost use Rattle.sqlite_wal.specs.Reads.{AreClean};
ghost use Rattle.sqlite.specs.Closing.{IsCopied};
ghost use Rattle.sqlite.specs.Files.{over_files, file_state, Finds, IsOpened};
ghost use Rattle.sqlite.specs.State.{HasCleanDisk, IsLive};
ghost use Rattle.archive_store.specs.Held.{store_connection};
ghost use Rattle.archive_port.specs.Replies.{refusal_of_fault};
ghost use Rattle.archive_store.specs.Told.{HasNoStepLimit};
ghost use Rattle.example_reopened.specs.Reopening.{RemembersSameArchive, StoreAdoptsFiles, WasReopened};

use archive_store::laws::a_file_opened_again_holds_the_same_archive;
use archive_store::{AdoptStop, Store, StoreFault, database_fault};
use sqlite::{Connection, FileStore, Files, Options};
use sqlite_disk::Disk;
use std::alloc::Global;

/// Closes a store, and hands its files back.
fn close<D: Disk + Drop>(store: Store<FileStore<D>>) -> Result<Files<D>, StoreFault>
    ensures live { IsLive (file_state (store_connection store)) }
    ensures usable { IfOk result (λ files. IsTrue (D.Disk.is_usable files.log)
        × IsTrue (D.Disk.is_usable files.db)) }
    ensures copied { IfOk result (λ files. AreClean D.Disk files.log files.db
        → IsCopied (store_connection store) files) }
    ensures fault { IfErr result (λ fault. refusal_of_fault fault ≡ None) }
{
    let connection = store.into_connection();
    // It says that an open connection is to a database.
    let _schema = connection.schema();
    match connection.close_files() {
        Ok(files) => Ok(files),
        Err((error, _left)) => Err(database_fault(error)),
    }
}

/// Connects to files.
fn connect<D: Disk + Drop>(
    alloc: Global,
    files: Files<D>,
    options: Options,
) -> Result<Connection<FileStore<D>>, StoreFault>
    requires log { IsTrue (D.Disk.is_usable files.log) }
    requires db { IsTrue (D.Disk.is_usable files.db) }
    ensures opened { IfOk result (λ c. HasCleanDisk (file_state c) → IsOpened c) }
    ensures found { IfOk result (λ c. HasCleanDisk (file_state c) → Finds files c) }
    ensures fault { IfErr result (λ fault. refusal_of_fault fault ≡ None) }
{
    match Connection::open_files(alloc, files, options) {
        Ok(connection) => Ok(connection),
        Err((error, _left)) => Err(database_fault(error)),
    }
}

/// Opens files, and takes the connection over. E14 or E15 where they cannot be opened.
pub(crate) fn open<D: Disk + Drop>(
    alloc: Global,
    files: Files<D>,
    options: Options,
) -> Result<Store<FileStore<D>>, StoreFault>
    requires log { IsTrue (D.Disk.is_usable files.log) }
    requires db { IsTrue (D.Disk.is_usable files.db) }
    ensures opened { IfOk result (λ store. StoreAdoptsFiles files store) }
    ensures unlimited { IfOk result (λ store. HasNoStepLimit over_files store) }
    ensures fault { IfErr result (λ fault. refusal_of_fault fault ≡ None) }
{
    let connection = match connect(alloc, files, options) {
        Ok(connection) => connection,
        Err(fault) => return Err(fault),
    };
    match Store::adopt(connection) {
        Ok(store) => Ok(store),
        Err(
            AdoptStop {
                connection: _connection,
                fault,
                wants: _wants,
            },
        ) => Err(fault),
    }
}

/// Closes a store, opens its files again and takes the connection over: the store that this gives remembers the same archive.
/// E14 or E15 where the store cannot be closed or its files cannot be opened.
pub fn reopen<D: Disk + Drop>(
    store: Store<FileStore<D>>,
    alloc: Global,
    options: Options,
) -> Result<Store<FileStore<D>>, StoreFault>
    ensures reopened { IfOk result (λ again. WasReopened store again) }
    ensures same { IfOk result (λ again. RemembersSameArchive store again) }
    ensures unlimited { IfOk result (λ again. HasNoStepLimit over_files again) }
    ensures fault { IfErr result (λ fault. refusal_of_fault fault ≡ None) }
{
    a_file_opened_again_holds_the_same_archive::<D>();
    match close(store) {
        Ok(files) => open(alloc, files, options),
        Err(fault) => Err(fault),
    }
}
