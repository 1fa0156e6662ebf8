//! Disks in memory: files that hold an archive, and copies of them that stop.
use crate::stopping::open;
use archive_store::{StoreFault, database_fault};
use mbox_core::Item;
use sqlite::{Files, Options};
use sqlite_disk::{Disk, Fuse, Memory};
use std::alloc::Global;

/// More calls than a disk gets here.
const CALLS: u64 = 1_000;

/// Files that hold an archive of one list, with one message.
pub fn files_with_archive(
    alloc: Global,
    list: &str,
    item: &Item<'_>,
) -> Result<Files<Memory>, StoreFault> {
    let files = Files {
        log: Memory::new(alloc),
        db: Memory::new(alloc),
    };
    let mut store = open(alloc, files, Options::new(1))?;
    store.list_add(list)?;
    store.add(alloc, list, item)?;
    match store.into_connection().close_files() {
        Ok(files) => Ok(files),
        Err((error, _left)) => Err(database_fault(error)),
    }
}

/// A disk that holds the same bytes, and fails each call behind so many.
fn fused(alloc: Global, disk: &Memory, calls: u64) -> anyhow::Result<Fuse<Memory>> {
    let mut copy = Memory::new(alloc);
    if !disk.bytes().is_empty() {
        copy.write_at(0, disk.bytes())?;
    }
    copy.sync()?;
    Ok(Fuse::new(copy, calls))
}

/// Files that hold the same bytes, of which the log fails each call behind so many.
pub fn files_with_failing_log(
    alloc: Global,
    files: &Files<Memory>,
    calls: u64,
) -> anyhow::Result<Files<Fuse<Memory>>> {
    Ok(Files {
        log: fused(alloc, &files.log, calls)?,
        db: fused(alloc, &files.db, CALLS)?,
    })
}
