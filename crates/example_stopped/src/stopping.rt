//! A machine that stops, and files that are opened again behind it.
ghost use Rattle.std.specs.Prelude.{◌≡◌, None, IfOk, IfErr, IsTrue};
ghost use Rattle.archive_model.specs.Commands.{withdraw};
ghost use Rattle.archive_model.specs.Machine.{step};
ghost use Rattle.archive_port.specs.Replies.{refusal_of_fault, reply_if_done};
ghost use Rattle.policy_core.specs.Numbers.{withdrawn_by_number};
ghost use Rattle.example_stopped.specs.Stopping.{IsReopenedAfterCrash, AreFilesAfterCrash, IsOpenedFrom, CommandSurvivesCrash};

use archive_store::{AdoptStop, Key, Store, StoreFault, database_fault};
use policy_core::WithdrawnBy;
use sqlite::{Connection, FileStore, Files, Options};
use sqlite_disk::{Crash, Disk};
use std::alloc::Global;

/// Opens files, and takes the connection over. E14 or E15 where they cannot be opened.
pub fn open<D: Disk + Drop>(
    alloc: Global,
    files: Files<D>,
    options: Options,
) -> Result<Store<FileStore<D>>, StoreFault>
    requires log { IsTrue (D.Disk.is_usable files.log) }
    requires db { IsTrue (D.Disk.is_usable files.db) }
    ensures opened { IfOk result (λ store. IsOpenedFrom files store) }
    ensures fault { IfErr result (λ fault. refusal_of_fault fault ≡ None) }
{
    let connection = match Connection::open_files(alloc, files, options) {
        Ok(connection) => connection,
        Err((error, _left)) => return Err(database_fault(error)),
    };
    match Store::adopt(connection) {
        Ok(store) => Ok(store),
        Err(
            AdoptStop {
                connection: _connection,
                fault,
                wants: _wants,
            },
        ) => Err(fault),
    }
}

/// The machine stops: what it leaves of the files.
pub fn crash_store<D: Crash + Drop>(store: Store<FileStore<D>>) -> Files<D>
    ensures log { IsTrue (D.Disk.is_usable result.log) }
    ensures db { IsTrue (D.Disk.is_usable result.db) }
    ensures left { AreFilesAfterCrash store result }
{
    let mut files = store.into_connection().into_store().close();
    files.log.crash();
    files.db.crash();
    files
}

/// The machine stops, its files are opened again, and the connection is taken over. E14 or E15 where they cannot be opened.
pub fn stop_and_reopen<D: Crash + Drop>(
    store: Store<FileStore<D>>,
    alloc: Global,
    options: Options,
) -> Result<Store<FileStore<D>>, StoreFault>
    ensures found { IfOk result (λ again. IsReopenedAfterCrash store again) }
    ensures fault { IfErr result (λ fault. refusal_of_fault fault ≡ None) }
{
    let files = crash_store(store);
    open(alloc, files, options)
}

/// Opens files and withdraws a message, and the machine stops in the withdrawal or behind it: over a disk that fails each call
/// from some call on, the withdrawal ends as it would have stopped there. The files are opened again. What the withdrawal
/// answered, and the store that is there now: it remembers the archive before the withdrawal or behind it, and where the
/// withdrawal was answered, the latter. E14 or E15 where the files cannot be opened, or not again.
pub fn withdraw_stop_and_reopen<D: Crash + Drop>(
    alloc: Global,
    files: Files<D>,
    options: Options,
    list: &str,
    key: &Key,
    by: WithdrawnBy,
) -> Result<(Store<FileStore<D>>, Result<(), StoreFault>), StoreFault>
    requires log { IsTrue (D.Disk.is_usable files.log) }
    requires db { IsTrue (D.Disk.is_usable files.db) }
    ensures stopped { IfOk result (λ told. CommandSurvivesCrash files told.0
        (λ a. step a (withdraw list.now key.now (withdrawn_by_number by))) (reply_if_done told.1)) }
    ensures fault { IfErr result (λ fault. refusal_of_fault fault ≡ None) }
{
    let mut store = match open(alloc, files, options) {
        Ok(store) => store,
        Err(fault) => return Err(fault),
    };
    let answer = store.withdraw(list, key, by);
    match stop_and_reopen(store, alloc, options) {
        Ok(again) => Ok((again, answer)),
        Err(fault) => Err(fault),
    }
}
