//! Stores over files that are held in memory, and over disks that stop: one function opens them, imports, exports and closes them.
use crate::disks::few_pages;
use archive_desk::{ImportStop, Report, export, import};
use archive_import::import_from;
use archive_port::ArchiveStore;
use archive_results::{Ask, Reader};
use archive_store::{AdoptStop, Store};
use civil_time::Day;
use desk_tests::commands::list_add;
use mbox_core::device::{Counted, Tap};
use policy_core::Policy;
use sqlite::{Connection, FileStore, Files};
use sqlite_disk::Disk;
use std::alloc::Global;
use std::test::Fail;

/// How an mbox is imported: as a text, or read piece by piece.
#[derive(Clone, Copy)]
pub enum How {
    Whole,
    InPieces,
}

/// What came of an import. `None` where the files were no store.
pub type Outcome = Option<Result<Report, ImportStop>>;

/// Imports a file into the list `soc` of a store over these files, exports that list as far as `held` takes it, and hands the files
/// back as a crash leaves them.
pub fn import_into<D: Disk + Drop>(
    alloc: Global,
    files: Files<D>,
    mbox: &[u8],
    how: How,
    held: &mut Tap,
) -> Result<(Outcome, Files<D>), Fail> {
    if !files.may_be_used() {
        return Err(Fail::from("files that may be used"));
    }
    match Connection::open_files(alloc, files, few_pages()) {
        Ok(connection) => Ok(import_connection(alloc, connection, mbox, how, held)),
        Err((_error, left)) => Ok((None, left.into_files())),
    }
}

fn import_connection<D: Disk + Drop>(
    alloc: Global,
    connection: Connection<FileStore<D>>,
    mbox: &[u8],
    how: How,
    held: &mut Tap,
) -> (Outcome, Files<D>) {
    match Store::adopt(connection) {
        Ok(mut store) => {
            let outcome = import_store(alloc, &mut store, mbox, how);
            export_store(alloc, &mut store, held);
            (Some(outcome), store.into_connection().into_store().close())
        }
        Err(
            AdoptStop {
                connection,
                fault: _fault,
                wants: _wants,
            },
        ) => (None, connection.into_store().close()),
    }
}

/// What the list holds goes out, as far as it can be read and written.
fn export_store<A: ArchiveStore>(alloc: Global, store: &mut A, held: &mut Tap) {
    let Some(day) = Day::of(2003, 3, 20) else {
        return;
    };
    let policy = Policy::open();
    let ask = Ask {
        policy: &policy,
        reader: Reader::Nobody,
        list: "soc",
        day,
    };
    export(store, alloc, &ask, held).ok();
}

/// The list is added where it is not there.
fn import_store<A: ArchiveStore>(
    alloc: Global,
    store: &mut A,
    mbox: &[u8],
    how: How,
) -> Result<Report, ImportStop> {
    list_add(store, "soc").ok();
    match how {
        How::Whole => import(store, alloc, "soc", mbox),
        How::InPieces => import_from(store, alloc, "soc", &mut Counted::new(mbox)),
    }
}
