//! Mboxes that are read piece by piece into a list.
use crate::cases::TWO;
use crate::checks::expect_equal;
use crate::commands::list_add;
use archive_desk::{ImportError, ImportStop, Report, import};
use archive_import::import_from;
use archive_port::{ArchiveStore, StoreFault};
use mbox_core::MboxFault;
use mbox_core::device::{Counted, Tap};
use std::alloc::Global;
use std::fmt::Write;
use std::io::{self, Read};
use std::test::Fail;

/// Where the second separator line of the two messages ends.
const SECOND: usize = 145;

/// A line that is no separator line stands first, at offset 1.
const BROKEN: &[u8] = b"\nhi\nFrom anna@example.org Tue Mar  4 10:00:00 2003\n\nOne.\n";

/// A reader that gives one byte at once.
#[derive(Drop)]
struct Slow<'a> {
    rest: &'a [u8],
}

impl<'a> Read for Slow<'a> {
    fn read(&mut self, buffer: &mut [u8]) -> io::Result<usize> {
        let count = buffer.len().min(self.rest.len()).min(1);
        buffer[..count].copy_from_slice(&self.rest[..count]);
        self.rest = &self.rest[count..];
        Ok(count)
    }
}

fn report(new: u64, known: u64, too_large: u64) -> Report {
    Report {
        new,
        known,
        too_large,
    }
}

/// A reader that fails after so many bytes: the messages that were settled are on the list, and no other.
fn stops<A: ArchiveStore>(alloc: Global, store: &mut A, passes: usize) -> Result<(), Fail> {
    let mut input = Tap::new(alloc, TWO, passes)?;
    let done = if passes < SECOND { 0 } else { 1 };
    let stopped = ImportStop {
        done,
        fault: ImportError::Mbox(MboxFault::Read),
    };
    expect_equal(import_from(store, alloc, "soc", &mut input), Err(stopped))?;
    expect_equal(store.rows(alloc, "soc")?.len() as u64, done)?;
    Ok(())
}

/// A reader that fails after each number of bytes, and then the whole input, twice, by large pieces and by single bytes.
fn streams<A: ArchiveStore>(alloc: Global, store: &mut A) -> Result<(), Fail> {
    list_add(store, "soc")?;
    for passes in 0..=TWO.len() {
        stops(alloc, store, passes)?;
    }
    for wanted in [report(1, 1, 0), report(0, 2, 0)] {
        let mut input = Tap::new(alloc, TWO, TWO.len() + 1)?;
        expect_equal(import_from(store, alloc, "soc", &mut input), Ok(wanted))?;
    }
    list_add(store, "slow")?;
    for wanted in [report(2, 0, 0), report(0, 2, 0)] {
        let mut input = Counted::new(Slow { rest: TWO });
        expect_equal(import_from(store, alloc, "slow", &mut input), Ok(wanted))?;
    }
    Ok(())
}

/// A stream that is no mbox, one of blank lines alone, and one for a list that is not there, which is not read.
fn refused<A: ArchiveStore>(alloc: Global, store: &mut A) -> Result<(), Fail> {
    list_add(store, "bad")?;
    for (list, fault) in [
        ("bad", ImportError::Mbox(MboxFault::Preamble(1))),
        ("xyz", ImportError::Store(StoreFault::NoList)),
    ] {
        let mut input = Tap::new(alloc, BROKEN, 1000)?;
        let stopped = ImportStop { done: 0, fault };
        expect_equal(import_from(store, alloc, list, &mut input), Err(stopped))?;
    }
    let mut failing = Tap::new(alloc, TWO, 0)?;
    let no_list = ImportStop {
        done: 0,
        fault: ImportError::Store(StoreFault::NoList),
    };
    expect_equal(import_from(store, alloc, "xyz", &mut failing), Err(no_list))?;
    let mut blank = Tap::new(alloc, b"\n\n", 1000)?;
    expect_equal(
        import_from(store, alloc, "bad", &mut blank),
        Ok(report(0, 0, 0)),
    )?;
    Ok(())
}

/// More messages than are held at once, and than one transaction takes: all come in their order, as `import` takes them, and
/// the same file brings none more.
pub fn batches<A: ArchiveStore>(alloc: Global, store: &mut A) -> Result<(), Fail> {
    list_add(store, "many")?;
    let mut mbox = String::new(alloc);
    for number in 0..4100 {
        write!(
            mbox,
            "From a@b Tue Mar  4 10:00:00 2003\nSubject: {number}\n\ntext\n\n"
        )?;
    }
    let mut input = Tap::new(alloc, mbox.as_bytes(), mbox.len() + 1)?;
    expect_equal(
        import_from(store, alloc, "many", &mut input),
        Ok(report(4100, 0, 0)),
    )?;
    expect_equal(
        import(store, alloc, "many", mbox.as_bytes()),
        Ok(report(0, 4100, 0)),
    )?;
    let rows = store.rows(alloc, "many")?;
    let last = rows.last().ok_or("a last message")?;
    expect_equal(
        last.item.as_item().text,
        b"Subject: 4099\n\ntext\n".as_slice(),
    )?;
    Ok(())
}

/// A line of about a kilobyte, so that a large message has few of them.
fn long_line(alloc: Global) -> Result<String, Fail> {
    let mut line = String::new(alloc);
    for _ in 0..16 {
        line.push_str("a piece of sixty-four bytes, which is here as often as is needed")?;
    }
    line.push_str("\n")?;
    Ok(line)
}

/// A message that is too large to be taken in, and one of a megabyte after it.
pub fn large<A: ArchiveStore>(alloc: Global, store: &mut A) -> Result<(), Fail> {
    list_add(store, "large")?;
    let line = long_line(alloc)?;
    let mut mbox = String::new(alloc);
    for lines in [17_000, 1000] {
        write!(
            mbox,
            "From a@b Tue Mar  4 10:00:00 2003\nSubject: {lines}\n\n"
        )?;
        for _ in 0..lines {
            mbox.push_str(&line)?;
        }
        mbox.push_str("\n")?;
    }
    let mut input = Tap::new(alloc, mbox.as_bytes(), mbox.len() + 1)?;
    expect_equal(
        import_from(store, alloc, "large", &mut input),
        Ok(report(1, 0, 1)),
    )?;
    Ok(())
}

/// Mboxes that are read piece by piece into an empty archive.
pub fn pieces<A: ArchiveStore>(alloc: Global, store: &mut A) -> Result<(), Fail> {
    streams(alloc, store)?;
    refused(alloc, store)
}
