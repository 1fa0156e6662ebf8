//! What the questions on threads ask a threader: once, and of the messages of the view alone.
use crate::cases::{WITHDRAWN, day};
use crate::checks::{expect, expect_equal};
use crate::commands::{grant, list_add, person_add, withdraw};
use crate::noting::Noting;
use archive_desk::{DeskError, import, thread, threads};
use archive_port::{ArchiveStore, Key};
use archive_results::{Ask, Reader, TreeLine};
use civil_time::Day;
use mbox_core::cut;
use policy_core::{GrantKind, Policy, WithdrawnBy};
use std::alloc::Global;
use std::test::Fail;
use thread_core::{NodeThreader, Threader};

/// A message that is withdrawn, two answers to it, and one of its own.
const MBOX: &[u8] = b"\
From a@b Tue Mar  4 10:00:00 2003\nMessage-ID: <1@x>\nSubject: Hidden\n\nOne.\n\n\
From a@b Wed Mar  5 10:00:00 2003\nMessage-ID: <2@x>\nIn-Reply-To: <1@x>\nSubject: Re: Hello\n\nTwo.\n\n\
From a@b Thu Mar  6 10:00:00 2003\nIn-Reply-To: <1@x>\nSubject: Re: Hello\n\nThree.\n\n\
From a@b Fri Mar  7 10:00:00 2003\nMessage-ID: <4@x>\nSubject: Tea\n\nFour.\n\n";

/// The messages that the public sees, and those that a moderator sees, as a threader notes them.
const PUBLIC: &[u8] = b"|2 <1> hello re|<1> hello re|4 tea";

const ALL: &[u8] = b"|1 hidden|2 <1> hello re|<1> hello re|4 tea";

/// The reader, the place of the message whose thread is asked for, or none for all threads; and how often a threader is asked,
/// of which messages.
type Case = (Reader<'static>, Option<usize>, usize, &'static [u8]);

const CASES: [Case; 5] = [
    (Reader::Nobody, None, 1, PUBLIC),
    (Reader::Person("mo"), None, 1, ALL),
    (Reader::Nobody, Some(2), 1, PUBLIC),
    (Reader::Person("mo"), Some(0), 1, ALL),
    // what the view does not hold has no thread
    (Reader::Nobody, Some(0), 0, b""),
];

/// The depth of each row, and the key of its message.
type Shape = Vec<(usize, Option<Key>)>;

fn shape_of(alloc: Global, rows: &[TreeLine]) -> Result<Shape, Fail> {
    let mut shape = Vec::new(alloc);
    for row in rows {
        shape.push((row.depth, row.line.as_ref().map(|line| line.key)))?;
    }
    Ok(shape)
}

/// All threads, or the thread of the message at a place: none where the view does not hold it.
fn shape<T: Threader, A: ArchiveStore>(
    alloc: Global,
    store: &mut A,
    ask: &Ask<'_>,
    threader: &T,
    place: Option<usize>,
) -> Result<Shape, Fail> {
    let Some(at) = place else {
        return shape_of(alloc, &threads(store, alloc, ask, threader)?);
    };
    let key = Key::of(&cut(MBOX)?.nth(at).ok_or("a message")?);
    match thread(store, alloc, ask, threader, &key) {
        Ok(rows) => shape_of(alloc, &rows),
        Err(DeskError::NotInView) => Ok(Vec::new(alloc)),
        Err(fault) => Err(Fail::from(fault)),
    }
}

/// A case: what the threader is asked, and that the threader of nodes gives the same rows.
fn ask_once<A: ArchiveStore>(
    alloc: Global,
    store: &mut A,
    policy: &Policy,
    nodes: &NodeThreader,
    case: &Case,
) -> Result<(), Fail> {
    let (reader, place, times, entries) = *case;
    let ask = asked_by(policy, reader, day("2003-03-20")?);
    let noting = Noting::new(alloc);
    let rows = shape(alloc, store, &ask, &noting, place)?;
    let noted = noting.into_noted();
    expect_equal((noted.joins, noted.rows), (times, times))?;
    expect_equal(noted.entries.as_slice(), entries)?;
    let by_nodes = shape(alloc, store, &ask, nodes, place)?;
    expect(
        rows.as_slice() == by_nodes.as_slice(),
        "other rows by nodes",
    )?;
    expect_equal(rows.is_empty(), times == 0)
}

fn asked_by<'a>(policy: &'a Policy, reader: Reader<'a>, day: Day) -> Ask<'a> {
    Ask {
        policy,
        reader,
        list: "soc",
        day,
    }
}

/// The list of the messages, of which the first is withdrawn; `mo` is a moderator.
fn fill<A: ArchiveStore>(alloc: Global, store: &mut A) -> Result<(), Fail> {
    let today = day("2003-03-20")?;
    list_add(store, "soc")?;
    person_add(store, "mo", "0123456789abcdef")?;
    grant(store, "mo", "soc", GrantKind::Moderator, today, today)?;
    import(store, alloc, "soc", MBOX)?;
    let first = Key::of(&cut(MBOX)?.next().ok_or("a message")?);
    withdraw(store, "soc", &first, WithdrawnBy::Author)?;
    Ok(())
}

/// Questions on threads, where a message is withdrawn.
pub fn asking<A: ArchiveStore>(
    alloc: Global,
    store: &mut A,
    nodes: &NodeThreader,
) -> Result<(), Fail> {
    fill(alloc, store)?;
    let policy = Policy::read(alloc, WITHDRAWN)?;
    for case in CASES.iter() {
        ask_once(alloc, store, &policy, nodes, case)?;
    }
    Ok(())
}
