//! Messages that are asked for by their keys, and views.
use crate::cases::{TWO, WITHDRAWN, day};
use crate::checks::expect_equal;
use crate::commands::{embargo, grant, list_add, person_add, withdraw};
use archive_desk::{DeskError, import, message, view};
use archive_port::{ArchiveStore, Key};
use archive_results::{Ask, Asked, Reader};
use civil_time::Day;
use mbox_core::cut;
use policy_core::{GrantKind, Policy, WithdrawnBy};
use std::alloc::Global;
use std::test::Fail;

/// What is held back is denied by the first rule.
const EMBARGO: &str = "
[[rule]]
name = \"embargo\"
effect = \"deny\"
embargo = true

[[rule]]
name = \"old\"
effect = \"allow\"
age_min = 0
";

/// No rule at all.
const NONE: &str = "";

/// What is asked by its key, and what is to come of it: the text, the rule that denies it, or nothing.
#[derive(Clone, Copy, Debug)]
enum Wanted {
    Text(&'static [u8]),
    Rule(&'static str),
    Nothing,
    Fault(DeskError),
}

/// The text of the first message.
const ONE: &[u8] = b"From: Anna <anna@example.org>\nSubject: Hello\n\nOne.\n";

/// A policy, a reader, a list, a day, and what comes of the first message and how many the view holds.
type Case = (
    &'static str,
    Reader<'static>,
    &'static str,
    &'static str,
    Wanted,
    Result<usize, DeskError>,
);

const CASES: [Case; 12] = [
    (
        WITHDRAWN,
        Reader::Nobody,
        "soc",
        "2003-03-20",
        Wanted::Rule("withdrawn"),
        Ok(1),
    ),
    (
        WITHDRAWN,
        Reader::Person("mo"),
        "soc",
        "2003-03-20",
        Wanted::Text(ONE),
        Ok(2),
    ),
    (
        WITHDRAWN,
        Reader::Person("mo"),
        "soc",
        "2003-04-01",
        Wanted::Rule("withdrawn"),
        Ok(1),
    ),
    (
        NONE,
        Reader::Person("mo"),
        "soc",
        "2003-03-20",
        Wanted::Rule("default"),
        Ok(0),
    ),
    (
        EMBARGO,
        Reader::Nobody,
        "soc",
        "2003-03-31",
        Wanted::Rule("embargo"),
        Ok(1),
    ),
    (
        EMBARGO,
        Reader::Nobody,
        "soc",
        "2003-04-01",
        Wanted::Text(ONE),
        Ok(2),
    ),
    (
        EMBARGO,
        Reader::Nobody,
        "soc",
        "2003-03-11",
        Wanted::Rule("embargo"),
        Ok(0),
    ),
    (
        WITHDRAWN,
        Reader::Nobody,
        "other",
        "2003-03-20",
        Wanted::Nothing,
        Ok(0),
    ),
    (
        WITHDRAWN,
        Reader::Person("mo"),
        "other",
        "2003-03-20",
        Wanted::Nothing,
        Ok(0),
    ),
    (
        WITHDRAWN,
        Reader::Person("who"),
        "soc",
        "2003-03-20",
        Wanted::Fault(DeskError::NoPerson),
        Err(DeskError::NoPerson),
    ),
    (
        WITHDRAWN,
        Reader::Nobody,
        "xyz",
        "2003-03-20",
        Wanted::Fault(DeskError::NoList),
        Err(DeskError::NoList),
    ),
    (
        WITHDRAWN,
        Reader::Person("who"),
        "xyz",
        "2003-03-20",
        Wanted::Fault(DeskError::NoList),
        Err(DeskError::NoList),
    ),
];

/// The first message is withdrawn by its author and held back until 1 April 2003; `mo` is a moderator in March.
fn held_back<A: ArchiveStore>(alloc: Global, store: &mut A) -> Result<Key, Fail> {
    let key = Key::of(&cut(TWO)?.next().ok_or("a first message")?);
    list_add(store, "soc")?;
    list_add(store, "other")?;
    person_add(store, "mo", "0123456789abcdef")?;
    grant(
        store,
        "mo",
        "soc",
        GrantKind::Moderator,
        day("2003-03-01")?,
        day("2003-03-31")?,
    )?;
    import(store, alloc, "soc", TWO)?;
    withdraw(store, "soc", &key, WithdrawnBy::Author)?;
    embargo(store, "soc", &key, day("2003-04-01")?)?;
    Ok(key)
}

/// Asks for that message, and for the view.
pub fn messages<A: ArchiveStore>(alloc: Global, store: &mut A) -> Result<(), Fail> {
    let key = held_back(alloc, store)?;
    for case in CASES.iter() {
        told(alloc, store, &key, case)?;
    }
    Ok(())
}

/// The first of the two messages is served by its key, and the view holds both.
pub fn is_served<A: ArchiveStore>(alloc: Global, store: &mut A, ask: &Ask<'_>) -> Result<(), Fail> {
    let key = Key::of(&cut(TWO)?.next().ok_or("a first message")?);
    asked(alloc, store, ask, &key, Wanted::Text(ONE), Ok(2))
}

fn told<A: ArchiveStore>(alloc: Global, store: &mut A, key: &Key, case: &Case) -> Result<(), Fail> {
    let (text, reader, list, on, wanted, count) = *case;
    let on = day(on)?;
    let policy = Policy::read(alloc, text)?;
    let ask = asking(&policy, reader, list, on);
    asked(alloc, store, &ask, key, wanted, count)
}

fn asking<'a>(policy: &'a Policy, reader: Reader<'a>, list: &'a str, day: Day) -> Ask<'a> {
    Ask {
        policy,
        reader,
        list,
        day,
    }
}

fn asked<A: ArchiveStore>(
    alloc: Global,
    store: &mut A,
    ask: &Ask<'_>,
    key: &Key,
    wanted: Wanted,
    count: Result<usize, DeskError>,
) -> Result<(), Fail> {
    match (message(store, alloc, ask, key), wanted) {
        (Ok(Asked::Served(text)), Wanted::Text(want)) => expect_equal(text.as_slice(), want)?,
        (Ok(Asked::Denied(rule)), Wanted::Rule(want)) => expect_equal(rule, want)?,
        (Ok(Asked::Absent), Wanted::Nothing) => {}
        (Err(fault), Wanted::Fault(want)) => expect_equal(fault, want)?,
        _ => return Err(Fail::from("another answer")),
    }
    expect_equal(
        view(store, alloc, ask).map(|messages| messages.len()),
        count,
    )?;
    Ok(())
}
