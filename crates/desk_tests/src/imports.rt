//! Files that are taken into a list.
use crate::cases::TWO;
use crate::checks::{expect, expect_equal};
use crate::commands::list_add;
use archive_desk::{ImportError, ImportStop, Report, import};
use archive_port::{ArchiveStore, Key, StoreFault};
use mbox_core::{MboxFault, cut};
use std::alloc::Global;
use std::test::Fail;

/// The second of the two messages under another separator line, and a third.
const OVERLAPPING: &[u8] =
    b"From eve@example.org Thu Mar 13 10:30:00 2003\nSubject: Re: Hello\n\nTwo.\n\nFrom carl@example.org Fri Mar 14 10:30:00 2003\n\nThree.\n";

/// A line that is no separator line stands first, at offset 1.
const BROKEN: &[u8] = b"\nhi\nFrom anna@example.org Tue Mar  4 10:00:00 2003\n\nOne.\n";

/// What became of so many messages.
pub fn counted(new: u64, known: u64, too_large: u64) -> Result<Report, ImportStop> {
    Ok(Report {
        new,
        known,
        too_large,
    })
}

fn stopped(fault: ImportError) -> Result<Report, ImportStop> {
    Err(ImportStop { done: 0, fault })
}

/// Imports that follow one another on an empty archive.
pub fn imports<A: ArchiveStore>(alloc: Global, store: &mut A) -> Result<(), Fail> {
    list_add(store, "soc")?;
    let no_list = stopped(ImportError::Store(StoreFault::NoList));
    let no_mbox = stopped(ImportError::Mbox(MboxFault::Preamble(1)));
    for (list, mbox, wanted) in [
        ("soc", b"".as_slice(), counted(0, 0, 0)),
        ("soc", b"\n\n".as_slice(), counted(0, 0, 0)),
        ("soc", TWO, counted(2, 0, 0)),
        ("soc", TWO, counted(0, 2, 0)),
        ("soc", OVERLAPPING, counted(1, 1, 0)),
        ("soc", BROKEN, no_mbox),
        ("xyz", TWO, no_list),
        ("xyz", BROKEN, no_list),
    ] {
        expect_equal(import(store, alloc, list, mbox), wanted)?;
    }
    holds_three(alloc, store)
}

/// The list holds the first, the second and the third message, the second as it came first.
fn holds_three<A: ArchiveStore>(alloc: Global, store: &mut A) -> Result<(), Fail> {
    let rows = store.rows(alloc, "soc")?;
    let [first, second, third] = rows.as_slice() else {
        return Err(Fail::from("three messages"));
    };
    for (message, text) in [
        (
            first,
            b"From: Anna <anna@example.org>\nSubject: Hello\n\nOne.\n".as_slice(),
        ),
        (second, b"Subject: Re: Hello\n\nTwo.\n".as_slice()),
        (third, b"\nThree.\n".as_slice()),
    ] {
        expect_equal(message.item.as_item().text, text)?;
    }
    let came = cut(TWO)?.nth(1).ok_or("a second message")?;
    let item = second.item.as_item();
    let (found, wanted) = (&item.envelope, &came.envelope);
    expect_equal(found.sender, wanted.sender)?;
    expect_equal(found.arrival, wanted.arrival)?;
    expect(second.key == Key::of(&came), "another key")
}

/// A whole text of 16,777,216 bytes is kept, one byte more is too large, and the import goes on behind it.
pub fn large<A: ArchiveStore>(alloc: Global, store: &mut A) -> Result<(), Fail> {
    list_add(store, "soc")?;
    let mut mbox = Vec::new(alloc);
    for extra in [0, 1] {
        mbox.extend_from_slice(b"From a@b Tue Mar  4 10:00:00 2003\n")?;
        mbox.resize(mbox.len() + 16_777_215 + extra, b'x')?;
        mbox.extend_from_slice(b"\n\n")?;
    }
    mbox.extend_from_slice(b"From a@b Tue Mar  4 10:00:00 2003\nsmall\n")?;
    expect_equal(import(store, alloc, "soc", &mbox), counted(2, 0, 1))?;
    Ok(())
}
