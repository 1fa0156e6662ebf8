//! Lists of months and of authors, and threads.
use crate::cases::{TWO, WITHDRAWN, by_nobody, day};
use crate::checks::expect_equal;
use crate::commands::{list_add, withdraw};
use archive_desk::{DeskError, author, import, month, thread, threads};
use archive_port::{ArchiveStore, Key};
use archive_results::{Ask, Line, Reader, TreeLine};
use civil_time::Month;
use mbox_core::cut;
use policy_core::{Policy, WithdrawnBy};
use std::alloc::Global;
use std::test::Fail;
use thread_core::PlainThreader;

/// A row as it is to come: its depth, and the first byte of its author, none where the message is missing or has no author.
pub type Row = (usize, Option<u8>);

/// Messages whose authors are numbered, and the rows of their threads.
const THREADS: [(&str, &[u8], &[Row]); 4] = [
    (
        "owners",
        b"From a@b Tue Mar  4 10:00:00 2003\nFrom: 0\nMessage-ID: <a@x>\n\n0\n\n\
          From a@b Tue Mar  4 10:00:01 2003\nFrom: 1\nReferences: <a@x> <b@x>\n\n1\n\n\
          From a@b Tue Mar  4 10:00:02 2003\nFrom: 2\nMessage-ID: <b@x>\n\n2\n\n",
        &[(0, Some(b'0')), (0, Some(b'2')), (1, Some(b'1'))],
    ),
    (
        "loop",
        b"From a@b Tue Mar  4 10:00:00 2003\nFrom: 0\nMessage-ID: <a@x>\nReferences: <b@x>\n\n0\n\n\
          From a@b Tue Mar  4 10:00:01 2003\nFrom: 1\nMessage-ID: <b@x>\nReferences: <a@x>\n\n1\n\n",
        &[(0, Some(b'1')), (1, Some(b'0'))],
    ),
    (
        "missing",
        b"From a@b Tue Mar  4 10:00:00 2003\nFrom: 0\nIn-Reply-To: <p@x>\n\n0\n\n\
          From a@b Tue Mar  4 10:00:01 2003\nFrom: 1\nIn-Reply-To: <p@x>\n\n1\n\n",
        &[(0, None), (1, Some(b'0')), (1, Some(b'1'))],
    ),
    (
        "subjects",
        b"From a@b Tue Mar  4 10:00:00 2003\nFrom: 0\nSubject: x\n\n0\n\n\
          From a@b Tue Mar  4 10:00:01 2003\nFrom: 1\nSubject: Re: x\n\n1\n\n\
          From a@b Tue Mar  4 10:00:02 2003\nFrom: 2\nSubject: x\n\n2\n\n\
          From a@b Tue Mar  4 10:00:03 2003\nFrom: 3\nSubject: Re: x\n\n3\n\n",
        &[
            (0, None),
            (1, Some(b'0')),
            (2, Some(b'1')),
            (1, Some(b'2')),
            (1, Some(b'3')),
        ],
    ),
];

/// Messages of one author in one month, named by their subjects. Those of one sent date came in the order 2, 3, 5, at 10:00 in
/// different zones; 1 was sent before them and came between them, and 4 has no date of its own.
const TIES: &[u8] = b"\
From a@b Wed Mar  5 10:00:00 2003\nFrom: a@b\nDate: Tue, 4 Mar 2003 10:00:00 +0000\nSubject: 2\n\n2\n\n\
From a@b Wed Mar  5 09:00:00 2003\nFrom: A@B\nDate: Tue, 4 Mar 2003 11:00:00 +0100\nSubject: 3\n\n3\n\n\
From a@b Wed Mar  5 11:00:00 2003\nFrom: a@b\nDate: Tue, 4 Mar 2003 09:59:59 +0000\nSubject: 1\n\n1\n\n\
From a@b Tue Mar  4 10:00:01 2003\nFrom: a@b\nSubject: 4\n\n4\n\n\
From a@b Tue Mar  4 09:00:00 2003\nFrom: a@b\nDate: Tue, 4 Mar 2003 05:00:00 -0500\nSubject: 5\n\n5\n\n";

/// A message that was sent in another month than it arrived in.
const LATE: &[u8] =
    b"From a@b Sat Mar  1 00:30:00 2003\nDate: 28 Feb 2003 23:50:00 +0000\nSubject: late\n\n";

/// Threads, months and authors on an empty archive.
pub fn listings<A: ArchiveStore>(alloc: Global, store: &mut A) -> Result<(), Fail> {
    let policy = Policy::open();
    let ask = by_nobody(&policy)?;
    for (list, mbox, wanted) in THREADS.iter() {
        list_add(store, list)?;
        import(store, alloc, list, mbox)?;
        let ask = Ask {
            policy: &policy,
            reader: Reader::Nobody,
            list,
            day: ask.day,
        };
        let rows = threads(store, alloc, &ask, &PlainThreader)?;
        are_rows(&rows, wanted)?;
    }
    list_add(store, "soc")?;
    import(store, alloc, "soc", TWO)?;
    by_month(alloc, store, &ask)?;
    by_author(alloc, store, &ask)?;
    ties(alloc, store, &policy)?;
    late(alloc, store, &policy)?;
    withheld(alloc, store)
}

/// A month is that of the sent date.
fn late<A: ArchiveStore>(alloc: Global, store: &mut A, policy: &Policy) -> Result<(), Fail> {
    list_add(store, "late")?;
    import(store, alloc, "late", LATE)?;
    let ask = Ask {
        policy,
        reader: Reader::Nobody,
        list: "late",
        day: day("2003-03-20")?,
    };
    let february = Month::read(b"2003-02").ok_or("a month")?;
    let march = Month::read(b"2003-03").ok_or("a month")?;
    are_subjects(&month(store, alloc, &ask, february)?, &[b"late".as_slice()])?;
    are_subjects(&month(store, alloc, &ask, march)?, &[])
}

/// Messages of one sent date stand in the order in which they came: in a month, of an author, and as threads of their own.
fn ties<A: ArchiveStore>(alloc: Global, store: &mut A, policy: &Policy) -> Result<(), Fail> {
    list_add(store, "ties")?;
    import(store, alloc, "ties", TIES)?;
    let ask = Ask {
        policy,
        reader: Reader::Nobody,
        list: "ties",
        day: day("2003-03-20")?,
    };
    let wanted = [b"1".as_slice(), b"2", b"3", b"5", b"4"];
    let march = Month::read(b"2003-03").ok_or("a month")?;
    are_subjects(&month(store, alloc, &ask, march)?, &wanted)?;
    are_subjects(&author(store, alloc, &ask, b"a@b")?, &wanted)?;
    let rows = threads(store, alloc, &ask, &PlainThreader)?;
    expect_equal(rows.len(), wanted.len())?;
    for (row, want) in rows.iter().zip(wanted.iter()) {
        let shown = row.line.as_ref().map(|line| line.subject.as_slice());
        expect_equal((row.depth, shown), (0, Some(*want)))?;
    }
    Ok(())
}

/// The rows have these depths and authors, in this order.
pub fn are_rows(rows: &[TreeLine], wanted: &[Row]) -> Result<(), Fail> {
    expect_equal(rows.len(), wanted.len())?;
    for (row, want) in rows.iter().zip(wanted.iter()) {
        let shown = row
            .line
            .as_ref()
            .and_then(|line| line.author.first().copied());
        expect_equal((row.depth, shown), *want)?;
    }
    Ok(())
}

/// The lines have these subjects, in this order.
pub fn are_subjects(lines: &[Line], wanted: &[&[u8]]) -> Result<(), Fail> {
    expect_equal(lines.len(), wanted.len())?;
    for (line, want) in lines.iter().zip(wanted.iter()) {
        expect_equal(line.subject.as_slice(), *want)?;
    }
    Ok(())
}

/// Two messages are of March 2003, and none of April; an unknown list has no month.
pub fn by_month<A: ArchiveStore>(alloc: Global, store: &mut A, ask: &Ask<'_>) -> Result<(), Fail> {
    let march = Month::read(b"2003-03").ok_or("a month")?;
    let april = Month::read(b"2003-04").ok_or("a month")?;
    are_subjects(
        &month(store, alloc, ask, march)?,
        &[b"Hello".as_slice(), b"Re: Hello".as_slice()],
    )?;
    are_subjects(&month(store, alloc, ask, april)?, &[])?;
    let unknown = Ask {
        policy: ask.policy,
        reader: Reader::Nobody,
        list: "xyz",
        day: ask.day,
    };
    expect_equal(
        month(store, alloc, &unknown, march).err(),
        Some(DeskError::NoList),
    )
}

/// The author is compared as the key that it is; the second message has no author.
pub fn by_author<A: ArchiveStore>(alloc: Global, store: &mut A, ask: &Ask<'_>) -> Result<(), Fail> {
    are_subjects(
        &author(store, alloc, ask, b"anna@example.org")?,
        &[b"Hello".as_slice()],
    )?;
    are_subjects(&author(store, alloc, ask, b"Anna@example.org")?, &[])?;
    are_subjects(&author(store, alloc, ask, b"")?, &[b"Re: Hello".as_slice()])
}

/// The thread of a message, and none of one that the policy withholds; it is withdrawn, and the other is as if it were alone.
fn withheld<A: ArchiveStore>(alloc: Global, store: &mut A) -> Result<(), Fail> {
    let policy = Policy::read(alloc, WITHDRAWN)?;
    let ask = by_nobody(&policy)?;
    let first = Key::of(&cut(TWO)?.next().ok_or("a first message")?);
    let second = Key::of(&cut(TWO)?.nth(1).ok_or("a second message")?);
    let rows = thread(store, alloc, &ask, &PlainThreader, &second)?;
    are_rows(&rows, &[(0, Some(b'a')), (1, None)])?;
    withdraw(store, "soc", &first, WithdrawnBy::Board)?;
    expect_equal(
        thread(store, alloc, &ask, &PlainThreader, &first).err(),
        Some(DeskError::NotInView),
    )?;
    let rows = thread(store, alloc, &ask, &PlainThreader, &second)?;
    are_rows(&rows, &[(0, None)])
}
