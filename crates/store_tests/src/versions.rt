//! Databases of other tables, and of a number that is not that of their tables: E15, and the files are byte for byte as before.
use crate::files::{TABLES, few_pages, new_files};
use archive_store::{AdoptStop, Store, StoreFault};
use sqlite::{Connection, Error, FileStore, Files};
use sqlite_disk::Memory;
use std::alloc::Global;
use std::process::Abort;
use std::test::Fail;

/// The table of messages before anything was filed of them, when the number was 0.
const MESSAGES_BEFORE: &str =
    "CREATE TABLE message (pos INTEGER PRIMARY KEY AUTOINCREMENT, list TEXT NOT NULL REFERENCES list (name), \
     key TEXT NOT NULL, sender BLOB NOT NULL, arrival INTEGER NOT NULL, text BLOB NOT NULL, \
     withdrawn INTEGER NOT NULL CHECK (withdrawn BETWEEN 0 AND 2), \
     embargo INTEGER CHECK (embargo BETWEEN -25567 AND 2932531), UNIQUE (list, key)) STRICT";

/// A database that this program does not take over.
#[derive(Clone, Copy, Debug)]
enum Form {
    /// The tables of the number 0.
    Before,
    /// Tables of a version, with another number.
    OtherNumber {
        tables: usize,
        statement: &'static str,
    },
    /// Tables of the newest version, with no number.
    NoNumber,
}

/// The tables of such a database.
fn tables(form: Form) -> usize {
    match form {
        Form::Before => 4,
        Form::OtherNumber {
            tables,
            statement: _statement,
        } => tables,
        Form::NoNumber => TABLES.len(),
    }
}

/// What such a database is made by, behind these tables.
fn fill(connection: &mut Connection<FileStore<Memory>>, form: Form) -> Result<(), Error> {
    match form {
        Form::Before => {
            for text in [
                MESSAGES_BEFORE,
                "INSERT INTO version (number) VALUES (0)",
                "INSERT INTO list (name) VALUES ('soc')",
                "INSERT INTO message (list, key, sender, arrival, text, withdrawn, embargo) VALUES ('soc', 'k', x'2d', 0, x'0a', 0, NULL)",
            ] {
                connection.execute(text, &[])?;
            }
        }
        Form::OtherNumber {
            tables: _tables,
            statement,
        } => {
            connection.execute(statement, &[])?;
        }
        Form::NoNumber => {}
    }
    Ok(())
}

fn open(alloc: Global, files: Files<Memory>) -> Result<Connection<FileStore<Memory>>, Fail> {
    if !files.may_be_used() {
        return Err(Fail::from("files that may be used"));
    }
    match Connection::open_files(alloc, files, few_pages()) {
        Ok(connection) => Ok(connection),
        Err((_error, _left)) => Err(Fail::from("an open file")),
    }
}

fn close(connection: Connection<FileStore<Memory>>) -> Result<Files<Memory>, Fail> {
    match connection.close_files() {
        Ok(files) => Ok(files),
        Err((_error, _store)) => Err(Fail::from("a closed file")),
    }
}

/// The files of a database of this form.
fn made(alloc: Global, form: Form) -> Result<Files<Memory>, Fail> {
    let mut connection = open(alloc, new_files(alloc))?;
    for text in TABLES.iter().take(tables(form)) {
        connection.execute(text, &[])?;
    }
    fill(&mut connection, form)?;
    close(connection)
}

/// Why these files are not taken over, and the files afterwards.
fn refused(
    alloc: Global,
    files: Files<Memory>,
) -> Result<(Option<StoreFault>, Files<Memory>), Fail> {
    match Store::adopt(open(alloc, files)?) {
        Ok(store) => Ok((None, close(store.into_connection())?)),
        Err(
            AdoptStop {
                connection,
                fault,
                wants: _wants,
            },
        ) => Ok((Some(fault), close(connection)?)),
    }
}

const ZERO: &str = "INSERT INTO version (number) VALUES (0)";

const ONE: &str = "INSERT INTO version (number) VALUES (1)";

const TWO: &str = "INSERT INTO version (number) VALUES (2)";

const THREE: &str = "INSERT INTO version (number) VALUES (3)";

const FOUR: &str = "INSERT INTO version (number) VALUES (4)";

/// Tables of a version, seven to nine texts, with the number of another.
static OTHER_NUMBERS: [(usize, &str); 9] = [
    (7, ZERO),
    (7, TWO),
    (7, THREE),
    (8, ONE),
    (8, THREE),
    (9, ZERO),
    (9, ONE),
    (9, TWO),
    (9, FOUR),
];

fn is_left_as_it_is(rt: &impl Abort, alloc: Global, form: Form) -> Result<(), Fail> {
    let files = made(alloc, form)?;
    let db = files.db.bytes().to_vec(alloc)?;
    let log = files.log.bytes().to_vec(alloc)?;
    let (fault, left) = refused(alloc, files)?;
    assert_eq!(rt; fault, Some(StoreFault::Store), "{form:?}");
    assert!(rt; left.db.bytes() == db.as_slice(), "{form:?}");
    assert!(rt; left.log.bytes() == log.as_slice(), "{form:?}");
    Ok(())
}

#[test]
fn files_of_another_version_are_left_as_they_are(rt: HostRuntime) -> Result<(), Fail> {
    for form in [Form::Before, Form::NoNumber] {
        is_left_as_it_is(&rt, rt.alloc(), form)?;
    }
    for (tables, statement) in OTHER_NUMBERS {
        is_left_as_it_is(&rt, rt.alloc(), Form::OtherNumber { tables, statement })?;
    }
    Ok(())
}
