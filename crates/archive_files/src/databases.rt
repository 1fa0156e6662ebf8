//! The archives in a system's files.
ghost use Rattle.std.specs.Prelude.{◌≡◌, ◌&&◌, false, None, Some, IfErr, IfOk, IfSome, IsTrue, MatchOption, option_map, string_bytes};
ghost use Rattle.sqlite_wal.specs.Files.{image_at};
ghost use Rattle.sqlite.specs.Files.{file_state, over_files, IsClosed, IsOpened};
ghost use Rattle.sqlite.specs.Start.{FindsIn};
ghost use Rattle.sqlite.specs.State.{HasCleanDisk};
ghost use Rattle.archive_port.specs.Replies.{refusal_of_fault};
ghost use Rattle.archive_store.specs.Adopting.{IsAdopted};
ghost use Rattle.archive_files.specs.Opening.{IsOpenedFromFiles, IsOpenedFromImage};
ghost use Rattle.archive_files.specs.Closing.{IsCloseResultOf, IsConnectionCloseResult};
ghost use Rattle.archive_files.specs.Leaving.{may_reopen, AreFilesLeft, MayBeNamed};
ghost use Rattle.archive_files.specs.Refusing.{is_known_as, is_memory_or_uri_name, store_fault_of_open_error};
ghost use Rattle.archive_files.specs.Refusing.{FailsToConnect, FailsToOpenStore, FailsToReopen, FailsToReopenDatabase, IsRefusedAndClosed};
ghost use Rattle.archive_files.specs.Reopening.{ReopensDatabase};

use crate::system::HasDatabaseFiles;
use archive_port::Databases;
use archive_store::{Store, StoreFault, database_fault};
use sqlite::{Connection, Error, FileFrom, FileStore, Files, Leftover, Options, Start};
use sqlite_disk::Disk;
use sqlite_std_file::OpenError;
use std::alloc::Global;
use std::hash::BuildHasher;
use std::io::ErrorKind;

/// How the file of this name is read and written. E15 if the system gave no random bytes.
fn options<R: HasDatabaseFiles>(rt: &R, name: &str) -> Result<Options, StoreFault>
    ensures kept { IfOk result (λ options. R.keeps rt.now name.now options.cache_pages) }
    ensures fault { IfErr result (λ fault. (fault ≡ StoreFault.Store) × R.seeds rt.now false) }
{
    let Some(state) = rt.random_state() else {
        return Err(StoreFault::Store);
    };
    let mut options = Options::new(state.hash_one(&0u8));
    options.cache_pages = rt.pages_for(name);
    Ok(options)
}

/// The refusal for a file that cannot be opened: E14 if there was no memory, E15 for any other cause.
fn fault_of(error: &OpenError) -> StoreFault
    ensures called { result ≡ store_fault_of_open_error error.now }
    ensures fault { refusal_of_fault result ≡ None }
{
    match error {
        OpenError::OutOfMemory => StoreFault::Memory,
        OpenError::Io(cause) => match cause.kind() {
            ErrorKind::OutOfMemory => StoreFault::Memory,
            _ => StoreFault::Store,
        },
        _ => StoreFault::Store,
    }
}

/// Whether a name stands for a database in memory, or for a URI.
fn stands_for_memory(name: &str) -> bool
    ensures { result ≡ is_memory_or_uri_name name.now }
{
    name == ":memory:" || name.as_bytes().starts_with(b"file:")
}

/// What a device has of the files of a database that is not open.
#[derive(Drop)]
pub enum FilesLeft<D: Disk> {
    /// The system did not open them, so nothing was written to them.
    NotOpened,
    /// What is left of them, if no connection came of them.
    Unread(Leftover<D>),
    /// The same of files that had been left, and were opened again.
    Reread(Leftover<D>),
    /// What the close of a connection gave that no store took over.
    NotAdopted(Result<Files<D>, (Error, FileStore<D>)>),
    /// What the close of the database gave.
    Closed(Result<Files<D>, (Error, FileStore<D>)>),
}

/// Why a database was not opened, and what is left of its files.
#[derive(Drop)]
struct OpenStop<D: Disk> {
    fault: StoreFault,
    left: FilesLeft<D>,
}

/// A stop before the files were opened.
fn not_opened<D: Disk>(fault: StoreFault) -> OpenStop<D>
    ensures { result ≡ record { fault = fault; left = FilesLeft.NotOpened } }
{
    OpenStop {
        fault,
        left: FilesLeft::NotOpened,
    }
}

/// A connection to the file of this name, which is made if it is not there, and which held what `start` stands for. E15 if the name
/// stands for a database in memory or is a URI, if the system gave no random bytes or did not open the files, or if the database
/// refused; E14 if there was no memory.
fn connect<R: HasDatabaseFiles, S: Start>(
    alloc: Global,
    rt: &R,
    name: &str,
    start: S,
) -> Result<Connection<FileStore<FileFrom<S>>>, OpenStop<FileFrom<S>>>
    ensures opened { IfOk result (λ c. HasCleanDisk (file_state c) → IsOpened c) }
    ensures found { IfOk result (λ c. HasCleanDisk (file_state c) → FindsIn (image_at S.Start) (file_state c)) }
    ensures named { IfOk result (λ _. R.opens rt.now name.now None) }
    ensures fault { IfErr result (λ stop. refusal_of_fault stop.fault ≡ None) }
    ensures cause { IfErr result (λ stop. FailsToConnect ⟦<FileFrom<S> as Disk>⟧ R.seeds R.opens rt.now name.now (image_at S.Start) stop.left stop.fault) }
{
    if stands_for_memory(name) {
        return Err(not_opened(StoreFault::Store));
    }
    let options = match options(rt, name) {
        Ok(options) => options,
        Err(fault) => return Err(not_opened(fault)),
    };
    let files = match rt.open_pair(name, start) {
        Ok(files) => files,
        Err(error) => return Err(not_opened(fault_of(&error))),
    };
    match Connection::open_files(alloc, files, options) {
        Ok(connection) => Ok(connection),
        Err((error, left)) => Err(OpenStop {
            fault: database_fault(error),
            left: FilesLeft::Unread(left),
        }),
    }
}

/// Closes a connection, and hands its files back. If the log cannot be copied into the database file now, it stays as it is, and the
/// error is handed back with the store that is left.
fn close_connection<D: Disk + Drop>(
    connection: Connection<FileStore<D>>,
) -> Result<Files<D>, (Error, FileStore<D>)>
    ensures last { (last : _) × IsClosed connection last }
    ensures left { IsConnectionCloseResult connection result }
{
    match connection.close_files() {
        Ok(files) => Ok(files),
        Err(failed) => Err(failed),
    }
}

/// The archive that a connection is over; or the connection is closed.
fn adopt_or_close<D: Disk + Drop>(
    connection: Connection<FileStore<D>>,
) -> Result<Store<FileStore<D>>, OpenStop<D>>
    ensures adopted { IfOk result (λ store. IsAdopted over_files connection store) }
    ensures fault { IfErr result (λ stop. refusal_of_fault stop.fault ≡ None) }
    ensures refused { IfErr result (λ stop. IsRefusedAndClosed connection stop.left stop.fault) }
{
    match Store::adopt(connection) {
        Ok(adopted) => Ok(adopted),
        Err(stop) => {
            let fault = stop.fault;
            let closed = close_connection(stop.connection);
            Err(OpenStop {
                fault,
                left: FilesLeft::NotAdopted(closed),
            })
        }
    }
}

/// The archive in the file of this name, which held what `start` stands for: the connection of `connect`, adopted by `Store::adopt`. E14
/// and E15 as of these two, with what is left of the files.
fn take_over<R: HasDatabaseFiles, S: Start>(
    alloc: Global,
    rt: &R,
    name: &str,
    start: S,
) -> Result<Store<FileStore<FileFrom<S>>>, OpenStop<FileFrom<S>>>
    ensures opened { IfOk result (λ store. IsOpenedFromImage (image_at S.Start) store) }
    ensures named { IfOk result (λ _. R.opens rt.now name.now None) }
    ensures fault { IfErr result (λ stop. refusal_of_fault stop.fault ≡ None) }
    ensures cause { IfErr result (λ stop. FailsToOpenStore ⟦<FileFrom<S> as Disk>⟧ R.seeds R.opens rt.now name.now (image_at S.Start) stop.left stop.fault) }
{
    let connection = match connect(alloc, rt, name, start) {
        Ok(connection) => connection,
        Err(stop) => return Err(stop),
    };
    match adopt_or_close(connection) {
        Ok(store) => Ok(store),
        Err(stop) => Err(stop),
    }
}

/// The archive in files that were opened before.
fn reopen<D: Disk + Drop>(
    alloc: Global,
    files: Files<D>,
    options: Options,
) -> Result<Store<FileStore<D>>, OpenStop<D>>
    requires log { IsTrue (D.Disk.is_usable files.log) }
    requires db { IsTrue (D.Disk.is_usable files.db) }
    ensures opened { IfOk result (λ store. IsOpenedFromFiles files store) }
    ensures fault { IfErr result (λ stop. refusal_of_fault stop.fault ≡ None) }
    ensures cause { IfErr result (λ stop. FailsToReopen files stop.left stop.fault) }
{
    let connection = match Connection::open_files(alloc, files, options) {
        Ok(connection) => connection,
        Err((error, left)) => {
            return Err(OpenStop {
                fault: database_fault(error),
                left: FilesLeft::Reread(left),
            });
        }
    };
    match adopt_or_close(connection) {
        Ok(store) => Ok(store),
        Err(stop) => Err(stop),
    }
}

/// The files, in `Ok` if no sync of either has failed.
fn usable<D: Disk + Drop>(files: Files<D>) -> Result<Files<D>, Files<D>>
    ensures ok { IfOk result (λ same. same ≡ files) }
    ensures log { IfOk result (λ same. IsTrue (D.Disk.is_usable same.log)) }
    ensures db { IfOk result (λ same. IsTrue (D.Disk.is_usable same.db)) }
    ensures err { IfErr result (λ same. same ≡ files) }
    ensures refused { IfErr result (λ same. (D.Disk.is_usable same.log && D.Disk.is_usable same.db) ≡ false) }
{
    if files.may_be_used() {
        Ok(files)
    } else {
        Err(files)
    }
}

/// The files, if they can be opened again: no connection has them, and no sync of either has failed. Else what was left, as it was.
fn files_to_reopen<D: Disk + Drop>(left: FilesLeft<D>) -> Result<Files<D>, FilesLeft<D>>
    ensures given { IfOk result (λ files. AreFilesLeft (Some left) files) }
    ensures log { IfOk result (λ files. IsTrue (D.Disk.is_usable files.log)) }
    ensures db { IfOk result (λ files. IsTrue (D.Disk.is_usable files.db)) }
    ensures same { IfErr result (λ same. same ≡ left) }
    ensures refused { IfErr result (λ _. may_reopen (Some left) ≡ false) }
{
    match left {
        FilesLeft::NotOpened => Err(FilesLeft::NotOpened),
        FilesLeft::Unread(leftover) => Err(FilesLeft::Unread(leftover)),
        FilesLeft::Reread(leftover) => Err(FilesLeft::Reread(leftover)),
        FilesLeft::NotAdopted(closed) => match closed {
            Ok(files) => match usable(files) {
                Ok(files) => Ok(files),
                Err(files) => Err(FilesLeft::NotAdopted(Ok(files))),
            },
            Err(failed) => Err(FilesLeft::NotAdopted(Err(failed))),
        },
        FilesLeft::Closed(closed) => match closed {
            Ok(files) => match usable(files) {
                Ok(files) => Ok(files),
                Err(files) => Err(FilesLeft::Closed(Ok(files))),
            },
            Err(failed) => Err(FilesLeft::Closed(Err(failed))),
        },
    }
}

/// Closes a store, and hands its files back: what is committed is in the database file. If it cannot be copied there now, it stays in
/// the log, and the error is handed back with the store that is left.
fn close_store<D: Disk + Drop>(
    store: Store<FileStore<D>>,
) -> Result<Files<D>, (Error, FileStore<D>)>
    ensures { IsCloseResultOf result store }
{
    let connection = store.into_connection();
    // It says that an open connection is to a database.
    let _schema = connection.schema();
    connection.close_files()
}

/// Takes the files that were left, if they can be opened again. Else what was left stays.
fn take_files<D: Disk + Drop>(left: &mut Option<FilesLeft<D>>) -> Option<Files<D>>
    ensures taken { MatchOption result ((left.new ≡ left.old) × (may_reopen left.old ≡ false)) (λ files. AreFilesLeft left.old files × (left.new ≡ None)) }
    ensures log { IfSome result (λ files. IsTrue (D.Disk.is_usable files.log)) }
    ensures db { IfSome result (λ files. IsTrue (D.Disk.is_usable files.db)) }
{
    let Some(was) = left.take() else {
        return None;
    };
    match files_to_reopen(was) {
        Ok(files) => Some(files),
        Err(was) => {
            *left = Some(was);
            None
        }
    }
}

/// Whether a database that was opened by the name that is known, if one is, is the one of this name.
fn is_known(known: &Option<String>, name: &str) -> bool
    ensures { result ≡ is_known_as (option_map string_bytes known.now) name.now }
{
    match known {
        Some(known) => known.as_str() == name,
        None => false,
    }
}

/// The name, if there is memory to keep it.
fn name_to_keep(alloc: Global, name: &str) -> Option<String>
    ensures { MayBeNamed (option_map string_bytes result) name.now }
{
    match String::from_str(alloc, name) {
        Ok(kept) => Some(kept),
        Err(_) => None,
    }
}

/// Opens again the files that were left, if they are known by this name and can be opened again. Else E15, and they stay as they are.
fn reopen_left<R: HasDatabaseFiles, D: Disk + Drop>(
    alloc: Global,
    rt: &R,
    name: &str,
    known: &Option<String>,
    left: &mut Option<FilesLeft<D>>,
) -> Result<Store<FileStore<D>>, StoreFault>
    ensures opened { IfOk result (λ store. ReopensDatabase (option_map string_bytes known.now) name.now left.old left.new store) }
    ensures fault { IfErr result (λ fault. refusal_of_fault fault ≡ None) }
    ensures cause { IfErr result (λ fault. FailsToReopenDatabase R.seeds rt.now (option_map string_bytes known.now) name.now left.old left.new fault) }
{
    if !is_known(known, name) {
        return Err(StoreFault::Store);
    }
    let options = match options(rt, name) {
        Ok(options) => options,
        Err(fault) => return Err(fault),
    };
    let Some(files) = take_files(left) else {
        return Err(StoreFault::Store);
    };
    match reopen(alloc, files, options) {
        Ok(store) => Ok(store),
        Err(stop) => {
            let why = stop.fault;
            *left = Some(stop.left);
            Err(why)
        }
    }
}

/// One of the system's files, as a database. `S` stands for what the file holds before it is opened, which no code can read; its value is
/// used up by the first opening. A later one, by the same name, opens again the files that a close left, or an opening whose connection no
/// store took over; else it is E15. `D` is the type of the opened files.
#[derive(Drop)]
pub struct SystemDatabases<'a, R, S, D: Disk> {
    /// The system whose file it is.
    pub rt: &'a R,
    /// What the file holds, until it is opened.
    pub start: Option<S>,
    /// The name by which it was opened. Without it, as where there was no memory to keep it, the file is not opened again.
    pub known: Option<String>,
    /// Once an opening failed, or the database was closed: what is left of the file and its log.
    pub left: Option<FilesLeft<D>>,
}

impl<'a, R: HasDatabaseFiles, S: Start> Databases<Store<FileStore<FileFrom<S>>>>
    for SystemDatabases<'a, R, S, FileFrom<S>> {
    ghost use Rattle.std.specs.Prelude.{◌≡◌, None, option_map, string_bytes};
    ghost use Rattle.sqlite_wal.specs.Files.{image_at};
    ghost use Rattle.archive_files.specs.Leaving.{DatabaseHoldsArchive, IsLeftByClose};
    ghost use Rattle.archive_files.specs.Reopening.{OpensDatabase};

    // What the file holds before it is opened; once an opening failed, or the database was closed, what a crash leaves of it. While the
    // file is open, it holds no archive.
    ghost holds = { λ it name archive. DatabaseHoldsArchive (image_at S.Start) it.start (option_map string_bytes it.known) it.left name archive };

    // If it was not opened before, the system opened the files of this name; else files that were left are opened again. The store comes of
    // a connection that found what they held. Or it is said why there is none, and what is left of the files.
    ghost opens = { λ old new name result. (new.start ≡ None) × OpensDatabase ⟦<FileFrom<S> as Disk>⟧ R.seeds R.opens old.rt.now name (image_at S.Start)
        old.start (option_map string_bytes old.known) (option_map string_bytes new.known) old.left new.left result };

    ghost closes = { λ old new store. (new.start ≡ old.start) × (option_map string_bytes new.known ≡ option_map string_bytes old.known) × IsLeftByClose new.left store };

    fn open(
        &mut self,
        alloc: Global,
        name: &str,
    ) -> Result<Store<FileStore<FileFrom<S>>>, StoreFault> {
        let Some(start) = self.start.take() else {
            return reopen_left(alloc, self.rt, name, &self.known, &mut self.left);
        };
        self.known = name_to_keep(alloc, name);
        match take_over(alloc, self.rt, name, start) {
            Ok(store) => Ok(store),
            Err(stop) => {
                let why = stop.fault;
                self.left = Some(stop.left);
                Err(why)
            }
        }
    }

    fn close(&mut self, store: Store<FileStore<FileFrom<S>>>) {
        self.left = Some(FilesLeft::Closed(close_store(store)));
    }
}
