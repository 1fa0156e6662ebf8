//! Months and authors of a list of four messages, of which the first is withdrawn: to the public, and to a moderator.
use crate::cases::{WITHDRAWN, day};
use crate::commands::{grant, list_add, person_add, withdraw};
use crate::listings::are_subjects;
use archive_desk::{author, import, month};
use archive_port::{ArchiveStore, Key};
use archive_results::{Ask, Reader};
use civil_time::Month;
use mbox_core::cut;
use policy_core::{GrantKind, Policy, WithdrawnBy};
use std::alloc::Global;
use std::test::Fail;

const FOUR: &[u8] = b"\
From anna@example.org Tue Mar  4 10:00:00 2003\nFrom: Anna <ANNA@example.org>\nSubject: Hello\n\nOne.\n\n\
From bob@example.org Wed Mar 12 10:30:00 2003\nFrom: bob@example.org\nSubject: Re: Hello\n\nTwo.\n\n\
From anna@example.org Wed Mar 12 10:31:00 2003\nFrom: anna@example.org\nDate: 12 Mar 2003 10:30 +0000\nSubject:  Re: [soc]\n Hello \n\n\n\
From anna@example.org Wed Mar 12 10:32:00 2003\nFrom: anna@example.org\nDate: 28 Feb 2003 10:00 +0000\nSubject: Tea\n\n\n";

/// What is asked for.
#[derive(Clone, Copy)]
enum Asked {
    Month(&'static [u8]),
    Author(&'static [u8]),
}

/// The reader, what is asked for, and the subjects of the lines.
type Case = (Reader<'static>, Asked, &'static [&'static [u8]]);

const CASES: [Case; 8] = [
    (
        Reader::Nobody,
        Asked::Month(b"2003-03"),
        &[b"Re: Hello", b"Re: [soc] Hello"],
    ),
    (
        Reader::Person("mo"),
        Asked::Month(b"2003-03"),
        &[b"Hello", b"Re: Hello", b"Re: [soc] Hello"],
    ),
    (Reader::Nobody, Asked::Month(b"2003-02"), &[b"Tea"]),
    (Reader::Nobody, Asked::Month(b"2003-04"), &[]),
    (
        Reader::Nobody,
        Asked::Author(b"anna@example.org"),
        &[b"Tea", b"Re: [soc] Hello"],
    ),
    (
        Reader::Person("mo"),
        Asked::Author(b"anna@example.org"),
        &[b"Tea", b"Hello", b"Re: [soc] Hello"],
    ),
    (
        Reader::Person("mo"),
        Asked::Author(b"ANNA@example.org"),
        &[],
    ),
    (Reader::Nobody, Asked::Author(b""), &[]),
];

/// The list of the messages, of which the first is withdrawn; `mo` is a moderator.
fn fill<A: ArchiveStore>(alloc: Global, store: &mut A) -> Result<(), Fail> {
    let today = day("2003-03-20")?;
    list_add(store, "soc")?;
    person_add(store, "mo", "0123456789abcdef")?;
    grant(store, "mo", "soc", GrantKind::Moderator, today, today)?;
    import(store, alloc, "soc", FOUR)?;
    let first = Key::of(&cut(FOUR)?.next().ok_or("a message")?);
    withdraw(store, "soc", &first, WithdrawnBy::Author)?;
    Ok(())
}

fn ask<A: ArchiveStore>(
    alloc: Global,
    store: &mut A,
    policy: &Policy,
    case: &Case,
) -> Result<(), Fail> {
    let (reader, asked, subjects) = *case;
    let ask = Ask {
        policy,
        reader,
        list: "soc",
        day: day("2003-03-20")?,
    };
    let lines = match asked {
        Asked::Month(text) => {
            let number = Month::read(text).ok_or("a month")?;
            month(store, alloc, &ask, number)?
        }
        Asked::Author(key) => author(store, alloc, &ask, key)?,
    };
    are_subjects(&lines, subjects)
}

/// Months and authors, where a message is withdrawn.
pub fn shown<A: ArchiveStore>(alloc: Global, store: &mut A) -> Result<(), Fail> {
    fill(alloc, store)?;
    let policy = Policy::read(alloc, WITHDRAWN)?;
    for case in CASES.iter() {
        ask(alloc, store, &policy, case)?;
    }
    Ok(())
}
