//! Disks that stop: what was said to be done is there, and no more than the command that stopped beside it.
use crate::cases::Case;
use crate::files::{new_files, tell_files};
use sqlite::Files;
use sqlite_disk::{Disk, Fuse, Memory};
use std::alloc::Global;
use std::process::Abort;
use std::test::Fail;

/// A disk that holds the same bytes.
fn copied(alloc: Global, disk: &Memory) -> Result<Memory, Fail> {
    let mut copy = Memory::new(alloc);
    if !disk.bytes().is_empty() {
        copy.write_at(0, disk.bytes())?;
    }
    Ok(copy)
}

/// Files that hold the same bytes, and stop after so many calls of the log and of the database file.
pub fn fused(
    alloc: Global,
    files: &Files<Memory>,
    log_calls: u64,
    db_calls: u64,
) -> Result<Files<Fuse<Memory>>, Fail> {
    Ok(Files {
        log: Fuse::new(copied(alloc, &files.log)?, log_calls),
        db: Fuse::new(copied(alloc, &files.db)?, db_calls),
    })
}

/// What disks that stopped hold.
pub fn left(alloc: Global, files: &Files<Fuse<Memory>>) -> Result<Files<Memory>, Fail> {
    Ok(Files {
        log: copied(alloc, files.log.inner())?,
        db: copied(alloc, files.db.inner())?,
    })
}

/// Whether disks that stopped hold what these hold.
pub fn hold_the_same(stopped: &Files<Fuse<Memory>>, files: &Files<Memory>) -> bool {
    stopped.log.inner().bytes() == files.log.bytes()
        && stopped.db.inner().bytes() == files.db.bytes()
}

/// How many of three lists are found in what is left, which is always a store.
fn found_in(rt: &impl Abort, alloc: Global, files: Files<Memory>) -> Result<usize, Fail> {
    let (found, _files) = tell_files(rt, alloc, files, Case::CountThree)?;
    Ok(found.ok_or("a store")?)
}

/// The log or the database file stops at each call in turn, until all is done. A stop that leaves what the one before left is found to
/// hold the same.
fn stop_at_each_call(
    rt: &impl Abort,
    alloc: Global,
    files: &Files<Memory>,
    is_log: bool,
) -> Result<(), Fail> {
    let (mut seen, mut found) = (new_files(alloc), 0);
    for calls in 0..400 {
        let (log, db) = if is_log {
            (calls, 1_000)
        } else {
            (1_000, calls)
        };
        let stopping = fused(alloc, files, log, db)?;
        let (told, stopped) = tell_files(rt, alloc, stopping, Case::AddThree)?;
        if calls == 0 || !hold_the_same(&stopped, &seen) {
            seen = left(alloc, &stopped)?;
            found = found_in(rt, alloc, left(alloc, &stopped)?)?;
        }
        let done = told.unwrap_or(0);
        assert!(rt;
            done <= found && found - done <= 1,
            "{calls}: {done}, {found}"
        );
        if done == 3 {
            return Ok(());
        }
    }
    Err(Fail::from("a disk that stops no more"))
}

/// Files with the tables, and no list.
fn with_tables(rt: &impl Abort, alloc: Global) -> Result<Files<Memory>, Fail> {
    let (told, files) = tell_files(rt, alloc, new_files(alloc), Case::CountThree)?;
    assert_eq!(rt; told, Some(0));
    Ok(files)
}

#[test]
fn a_log_that_stops_leaves_the_first_commands(rt: HostRuntime) -> Result<(), Fail> {
    let files = with_tables(&rt, rt.alloc())?;
    stop_at_each_call(&rt, rt.alloc(), &files, true)
}

#[test]
fn a_file_that_stops_leaves_the_first_commands(rt: HostRuntime) -> Result<(), Fail> {
    let files = with_tables(&rt, rt.alloc())?;
    stop_at_each_call(&rt, rt.alloc(), &files, false)
}

/// The log stops while the tables are made: all of them are there or none, so the file is opened again.
#[test]
fn the_tables_are_made_whole_or_not_at_all(rt: HostRuntime) -> Result<(), Fail> {
    stop_at_each_call(&rt, rt.alloc(), &new_files(rt.alloc()), true)
}
