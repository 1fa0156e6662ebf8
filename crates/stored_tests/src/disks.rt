//! Files that are held in memory, on disks that can stop.
use sqlite::{Files, Options};
use sqlite_disk::{Disk, Fuse, Memory};
use std::alloc::Global;
use std::test::Fail;

/// A cache of one page, so that the pages of each message are read from a disk.
pub fn one_page() -> Options {
    Options {
        cache_pages: 1,
        ..Options::new(1)
    }
}

/// A cache of a few pages. Each opening fills it with zeros, which takes most of the time of a small file if it has the usual 2,000.
pub fn few_pages() -> Options {
    Options {
        cache_pages: 64,
        ..Options::new(1)
    }
}

/// A database file and its log. All are of one type, because a test is compiled once more for each type of disk.
pub type Held = Files<Fuse<Memory>>;

/// More calls than any disk gets.
const ENDLESS: u64 = u64::MAX;

/// Both files, empty, on disks that do not stop.
pub fn new_files(alloc: Global) -> Held {
    Files {
        log: Fuse::new(Memory::new(alloc), ENDLESS),
        db: Fuse::new(Memory::new(alloc), ENDLESS),
    }
}

/// A disk that holds these bytes.
fn holding(alloc: Global, bytes: &[u8]) -> Result<Memory, Fail> {
    let mut disk = Memory::new(alloc);
    if !bytes.is_empty() {
        disk.write_at(0, bytes)?;
    }
    Ok(disk)
}

/// Copies of files, of which the log and the database file stop after so many calls.
pub fn stopping(alloc: Global, files: &Held, log_calls: u64, db_calls: u64) -> Result<Held, Fail> {
    Ok(Files {
        log: Fuse::new(holding(alloc, files.log.inner().bytes())?, log_calls),
        db: Fuse::new(holding(alloc, files.db.inner().bytes())?, db_calls),
    })
}

/// What disks that stopped hold, on disks that do not stop.
pub fn left(alloc: Global, files: &Held) -> Result<Held, Fail> {
    stopping(alloc, files, ENDLESS, ENDLESS)
}

/// Whether disks that stopped hold what these hold.
pub fn hold_the_same(stopped: &Held, files: &Held) -> bool {
    stopped.log.inner().bytes() == files.log.inner().bytes()
        && stopped.db.inner().bytes() == files.db.inner().bytes()
}
