//! Stores over files that are held in memory: one function opens them, tells them a case and closes them.
use crate::cases::{Case, OF_EMPTY, tell};
use archive_store::{AdoptStop, Store};
use sqlite::{Alter, Connection, Error, FileStore, Files, Options};
use sqlite_disk::{Disk, Memory};
use std::alloc::Global;
use std::process::Abort;
use std::test::Fail;

/// The tables and the two indexes, as docs/TABLES.md has them: of version 1 the first seven, of version 2 one more.
pub const TABLES: [&str; 9] = [
    "CREATE TABLE version (number INTEGER NOT NULL) STRICT",
    "CREATE TABLE list (name TEXT NOT NULL PRIMARY KEY) STRICT",
    "CREATE TABLE person (name TEXT NOT NULL PRIMARY KEY, token TEXT NOT NULL UNIQUE) STRICT",
    "CREATE TABLE grant_row (person TEXT NOT NULL REFERENCES person (name), list TEXT NOT NULL REFERENCES list (name), \
     kind INTEGER NOT NULL CHECK (kind BETWEEN 1 AND 3), \
     from_day INTEGER NOT NULL CHECK (from_day BETWEEN -25567 AND 2932531), \
     until_day INTEGER NOT NULL CHECK (until_day BETWEEN -25567 AND 2932531), PRIMARY KEY (person, list, kind), \
     CHECK (from_day <= until_day)) STRICT",
    "CREATE TABLE message (pos INTEGER PRIMARY KEY AUTOINCREMENT, list TEXT NOT NULL REFERENCES list (name), \
     key TEXT NOT NULL, sender BLOB NOT NULL, arrival INTEGER NOT NULL, text BLOB NOT NULL, \
     withdrawn INTEGER NOT NULL CHECK (withdrawn BETWEEN 0 AND 2), \
     embargo INTEGER CHECK (embargo BETWEEN -25567 AND 2932531), sent INTEGER NOT NULL, month INTEGER NOT NULL, \
     author BLOB NOT NULL, UNIQUE (list, key)) STRICT",
    "CREATE INDEX message_by_month ON message (list, month, sent, pos)",
    "CREATE INDEX message_by_author ON message (list, author, sent, pos)",
    "CREATE TABLE list_option (list TEXT NOT NULL PRIMARY KEY REFERENCES list (name), merge INTEGER NOT NULL CHECK (merge BETWEEN 0 AND 1)) STRICT",
    "CREATE TABLE address (person TEXT NOT NULL PRIMARY KEY REFERENCES person (name), address TEXT NOT NULL) STRICT",
];

/// A database file and its log, both empty.
pub fn new_files(alloc: Global) -> Files<Memory> {
    Files {
        log: Memory::new(alloc),
        db: Memory::new(alloc),
    }
}

/// A cache of a few pages. Each opening fills it with zeros, which takes most of the time of a small file if it has the usual 2,000.
pub fn few_pages() -> Options {
    Options {
        cache_pages: 64,
        ..Options::new(1)
    }
}

/// Tells a store over these files a case, and hands the files back. `None` where they cannot be opened as a store.
pub fn tell_files<D: Disk + Drop>(
    rt: &impl Abort,
    alloc: Global,
    files: Files<D>,
    case: Case,
) -> Result<(Option<usize>, Files<D>), Fail> {
    if !files.may_be_used() {
        return Err(Fail::from("files that may be used"));
    }
    match Connection::open_files(alloc, files, few_pages()) {
        Ok(connection) => tell_connection(rt, alloc, connection, case),
        Err((_error, left)) => Ok((None, left.into_files())),
    }
}

fn tell_connection<D: Disk + Drop>(
    rt: &impl Abort,
    alloc: Global,
    connection: Connection<FileStore<D>>,
    case: Case,
) -> Result<(Option<usize>, Files<D>), Fail> {
    match Store::adopt(connection) {
        Ok(store) => tell_store(rt, alloc, store, case),
        Err(
            AdoptStop {
                connection,
                fault: _fault,
                wants: _wants,
            },
        ) => Ok((None, connection.into_store().close())),
    }
}

/// The files of three lists, and those that are told nothing, are left as a crash leaves them.
fn tell_store<D: Disk + Drop>(
    rt: &impl Abort,
    alloc: Global,
    mut store: Store<FileStore<D>>,
    case: Case,
) -> Result<(Option<usize>, Files<D>), Fail> {
    let told = tell(rt, alloc, &mut store, case);
    let connection = store.into_connection();
    let (closed, files) = if case == Case::AddThree || case == Case::Nothing {
        (Ok(()), connection.into_store().close())
    } else {
        close(rt, connection)
    };
    let told = told?;
    closed?;
    Ok((Some(told), files))
}

/// Closes a connection whose database has the documented tables.
fn close<D: Disk + Drop>(
    rt: &impl Abort,
    mut connection: Connection<FileStore<D>>,
) -> (Result<(), Error>, Files<D>) {
    let shown = shows_the_documented_tables(rt, &mut connection);
    match connection.close_files() {
        Ok(files) => (shown, files),
        Err((error, store)) => (Err(error), store.close()),
    }
}

fn shows_the_documented_tables<S: Alter>(
    rt: &impl Abort,
    connection: &mut Connection<S>,
) -> Result<(), Error> {
    let rows = connection.query_all(
        "SELECT sql FROM sqlite_schema WHERE sql IS NOT NULL AND name <> 'sqlite_sequence' ORDER BY rowid",
        &[],
    )?;
    assert_eq!(rt; rows.len(), TABLES.len());
    for (row, text) in rows.iter().zip(TABLES) {
        let sql: String = row.get(0)?;
        assert_eq!(rt; sql.as_str(), text);
    }
    Ok(())
}

#[test]
fn stores_over_files(rt: HostRuntime) -> Result<(), Fail> {
    for case in OF_EMPTY {
        let (told, _files) = tell_files(&rt, rt.alloc(), new_files(rt.alloc()), case)?;
        assert_eq!(rt; told, Some(1), "{case:?}");
    }
    Ok(())
}

#[test]
fn what_was_written_is_found_in_the_file_again(rt: HostRuntime) -> Result<(), Fail> {
    let mut files = new_files(rt.alloc());
    for case in [Case::Fill, Case::Filled, Case::Filled] {
        let (told, left) = tell_files(&rt, rt.alloc(), files, case)?;
        assert_eq!(rt; told, Some(1), "{case:?}");
        files = left;
    }
    Ok(())
}
