//! Databases in memory, by their names: files of `sqlite_disk` that are opened and closed as those of a system are.
ghost use Rattle.std.specs.Prelude.{◌≡◌, None, IfErr};
ghost use Rattle.archive_port.specs.Replies.{refusal_of_fault};

use anyhow::bail;
use archive_port::Databases;
use archive_store::{AdoptStop, Store, StoreFault, database_fault};
use sqlite::{Connection, FileStore, Files, Options};
use sqlite_disk::Memory;
use std::alloc::Global;

/// A database of this name cannot be opened.
const BROKEN: &str = "broken.db";

/// For a database of this name there is no memory.
const NO_MEMORY: &str = "no-memory.db";

/// A database that is closed.
#[derive(Drop)]
struct Kept {
    name: String,
    files: Files<Memory>,
}

/// The databases that are closed, and the name of the one that is open.
#[derive(Drop)]
pub struct TestDatabases {
    kept: Vec<Kept>,
    open: Option<String>,
}

impl TestDatabases {
    /// No database, and none open.
    pub fn new(alloc: Global) -> TestDatabases {
        TestDatabases {
            kept: Vec::new(alloc),
            open: None,
        }
    }

    /// The files of this name: those that were kept, or new ones, which are empty.
    fn take(&mut self, alloc: Global, name: &str) -> Files<Memory> {
        match self.kept.iter().position(|kept| kept.name.as_str() == name) {
            Some(at) => self.kept.swap_remove(at).files,
            None => Files {
                log: Memory::new(alloc),
                db: Memory::new(alloc),
            },
        }
    }

    /// Carries out a statement of SQL in the database of this name, as another program does.
    pub fn alter(&mut self, alloc: Global, name: &str, sql: &str) -> anyhow::Result<()> {
        let files = self.take(alloc, name);
        if !files.may_be_used() {
            bail!("the files are used");
        }
        let mut connection = match Connection::open_files(alloc, files, few_pages()) {
            Ok(connection) => connection,
            Err(_) => bail!("the database is not opened"),
        };
        let done = connection.execute(sql, &[]);
        let files = match connection.close_files() {
            Ok(files) => files,
            Err((_error, left)) => left.close(),
        };
        self.open = Some(String::from_str(alloc, name)?);
        self.keep(files);
        if done.is_err() {
            bail!("the statement is refused");
        }
        Ok(())
    }

    /// Keeps the files of the database that is open.
    fn keep(&mut self, files: Files<Memory>) {
        if let Some(name) = self.open.take() {
            let _ = self.kept.push(Kept { name, files });
        }
    }
}

/// Files that were not opened, and why.
#[derive(Drop)]
struct Unopened {
    files: Files<Memory>,
    fault: StoreFault,
}

/// A cache of a few pages. Each opening fills it with zeros, which takes most of the time of a small file if it has the usual 2,000.
fn few_pages() -> Options {
    Options {
        cache_pages: 64,
        ..Options::new(1)
    }
}

/// The archive in these files, or the files again.
fn adopt(alloc: Global, files: Files<Memory>) -> Result<Store<FileStore<Memory>>, Unopened>
    ensures { IfErr result (λ stop. refusal_of_fault stop.fault ≡ None) }
{
    if !files.may_be_used() {
        return Err(Unopened {
            files,
            fault: StoreFault::Store,
        });
    }
    let connection = match Connection::open_files(alloc, files, few_pages()) {
        Ok(connection) => connection,
        Err((error, left)) => {
            return Err(Unopened {
                files: left.into_files(),
                fault: database_fault(error),
            });
        }
    };
    match Store::adopt(connection) {
        Ok(store) => Ok(store),
        Err(
            AdoptStop {
                connection,
                fault,
                wants: _wants,
            },
        ) => Err(Unopened {
            files: connection.into_store().close(),
            fault,
        }),
    }
}

impl Databases<Store<FileStore<Memory>>> for TestDatabases {
    ghost use Rattle.std.specs.Prelude.{⊤};

    fn open(&mut self, alloc: Global, name: &str) -> Result<Store<FileStore<Memory>>, StoreFault> {
        if name == BROKEN {
            return Err(StoreFault::Store);
        }
        if name == NO_MEMORY {
            return Err(StoreFault::Memory);
        }
        self.open = Some(String::from_str(alloc, name)?);
        let files = self.take(alloc, name);
        match adopt(alloc, files) {
            Ok(store) => Ok(store),
            Err(Unopened { files, fault }) => {
                self.keep(files);
                Err(fault)
            }
        }
    }

    fn close(&mut self, store: Store<FileStore<Memory>>)
        ensures { ⊤ }
    {
        let files = match store.into_connection().close_files() {
            Ok(files) => files,
            Err((_error, left)) => left.close(),
        };
        self.keep(files);
    }
}
