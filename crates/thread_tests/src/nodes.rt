//! The threader of numbered nodes: beside the plain one on short lists, and alone on long ones.

ghost use Rattle.std.specs.Prelude.{◌≡◌, ◌<◌};

use civil_time::Instant;
use mail_core::{Memory, MsgId, Octets};
use std::alloc::Global;
use std::cell::Cell;
use std::hash::RandomState;
use std::marker::Brand;
use std::sync::ledger::{Blank, Ledger};
use std::test::Fail;
use thread_core::nodes::{self, Nodes};
use thread_core::{
    Entry, NodeThreader, Pairs, PlainThreader, References, Row, Steps, Threader, threads,
};

/// The id of a number.
fn msg_id(alloc: Global, number: usize) -> Result<MsgId, Fail> {
    let mut left = Vec::new(alloc);
    let mut rest = number;
    for _digit in 0..5 {
        left.push(b"0123456789abcdefghijklmnop"[rest % 26])?;
        rest /= 26;
    }
    Ok(MsgId::new(left, Vec::from_slice(alloc, b"example.org")?))
}

/// A message: the number of its id, if it has one, those of its references, its sent date, its base
/// subject and whether it is a reply.
fn entry(
    alloc: Global,
    id: Option<usize>,
    refs: &[usize],
    sent: i64,
    base: &[u8],
    reply: bool,
) -> Result<Entry, Fail> {
    let mut all = References::new(alloc);
    for number in refs {
        all.push(&msg_id(alloc, *number)?.borrowed())?;
    }
    let id = match id {
        Some(number) => Some(msg_id(alloc, number)?),
        None => None,
    };
    Ok(Entry {
        id,
        refs: all,
        sent: Instant::new(sent).ok_or("no instant")?,
        base: Octets::new(Vec::from_slice(alloc, base)?),
        reply,
    })
}

fn row(depth: usize, place: usize) -> Row {
    Row {
        depth,
        place: Some(place),
    }
}

/// Two messages without ids, references and subjects, the second sent after the first.
fn two_entries(alloc: Global) -> Result<Vec<Entry>, Fail> {
    let mut entries = Vec::new(alloc);
    entries.push(entry(alloc, None, &[], 0, b"", false)?)?;
    entries.push(entry(alloc, None, &[], 1, b"", false)?)?;
    Ok(entries)
}

/// What `link` answers to a child that is above the parent, to one that has a parent, and again
/// after `unlink`.
fn answers_of_links<L: Ledger>(alloc: Global, blank: Blank) -> Result<(bool, bool, bool), Fail>
    requires name { blank.name ≡ L.name }
    requires parts { blank.parts ≡ L.parts }
    requires some { 0 < blank.parts }
{
    let mut steps = Steps::<L>::new(blank);
    let mut chain = Nodes::new(alloc, 4)?;
    let _made = nodes::link(&mut chain, 1, 0, &mut steps);
    let _made = nodes::link(&mut chain, 2, 1, &mut steps);
    let _made = nodes::link(&mut chain, 3, 2, &mut steps);
    let closes = nodes::link(&mut chain, 0, 3, &mut steps);
    let held = nodes::link(&mut chain, 3, 0, &mut steps);
    nodes::unlink(&mut chain, 3, &mut steps);
    Ok((closes, held, nodes::link(&mut chain, 3, 0, &mut steps)))
}

#[test]
fn a_link_that_closes_a_ring_is_refused(rt: HostRuntime) -> Result<(), Fail> {
    let answers = answers_of_links::<Brand>(rt.alloc(), Blank::new(1))?;
    assert_eq!(rt; answers, (false, false, true));
    Ok(())
}

/// Whether `relink` makes a link in place of another, and refuses one that closes a ring.
fn answers_of_relinks<L: Ledger>(alloc: Global, blank: Blank) -> Result<(bool, bool, bool), Fail>
    requires name { blank.name ≡ L.name }
    requires parts { blank.parts ≡ L.parts }
    requires some { 0 < blank.parts }
{
    let mut steps = Steps::<L>::new(blank);
    let mut chain = Nodes::new(alloc, 3)?;
    let _made = nodes::link(&mut chain, 1, 0, &mut steps);
    let moved = nodes::relink(&mut chain, 1, 2, &mut steps);
    let closes = nodes::relink(&mut chain, 2, 1, &mut steps);
    Ok((moved, closes, nodes::relink(&mut chain, 0, 1, &mut steps)))
}

#[test]
fn a_relink_takes_the_old_parent_away(rt: HostRuntime) -> Result<(), Fail> {
    let answers = answers_of_relinks::<Brand>(rt.alloc(), Blank::new(1))?;
    assert_eq!(rt; answers, (true, false, true));
    Ok(())
}

/// The rows of two messages, the second linked under the first or not.
fn rows_of_two<L: Ledger>(
    alloc: Global,
    threader: &NodeThreader,
    linked: bool,
    blank: Blank,
) -> Result<Vec<Row>, Fail>
    requires name { blank.name ≡ L.name }
    requires parts { blank.parts ≡ L.parts }
    requires some { 0 < blank.parts }
{
    let mut steps = Steps::<L>::new(blank);
    let entries = two_entries(alloc)?;
    let mut links = Nodes::new(alloc, 2)?;
    if linked {
        let _made = nodes::link(&mut links, 1, 0, &mut steps);
    }
    Ok(threader.rows(alloc, &entries, true, links, &mut steps)?)
}

#[test]
fn rows_follow_the_given_nodes(rt: HostRuntime) -> Result<(), Fail> {
    let threader = NodeThreader::new(RandomState::new(&rt)?);
    let apart = rows_of_two::<Brand>(rt.alloc(), &threader, false, Blank::new(1))?;
    assert_eq!(rt; apart.as_slice(), [row(0, 0), row(0, 1)].as_slice());
    let linked = rows_of_two::<Brand>(rt.alloc(), &threader, true, Blank::new(1))?;
    assert_eq!(rt; linked.as_slice(), [row(0, 0), row(1, 1)].as_slice());
    Ok(())
}

/// A threader that counts its calls and hands them on to the plain one.
#[derive(Drop)]
struct Counted {
    joins: Cell<usize>,
    rows: Cell<usize>,
}

impl Threader for Counted {
    type Links = Pairs;

    ghost linked = { λ pairs. pairs };

    fn join<L: Ledger>(
        &self,
        alloc: Global,
        entries: &[Entry],
        steps: &mut Steps<L>,
    ) -> Result<Pairs, Memory> {
        self.joins.set(self.joins.get().wrapping_add(1));
        PlainThreader.join(alloc, entries, steps)
    }

    fn rows<L: Ledger>(
        &self,
        alloc: Global,
        entries: &[Entry],
        merge: bool,
        links: Pairs,
        steps: &mut Steps<L>,
    ) -> Result<Vec<Row>, Memory> {
        self.rows.set(self.rows.get().wrapping_add(1));
        PlainThreader.rows(alloc, entries, merge, links, steps)
    }
}

#[test]
fn threads_joins_once_and_makes_rows_once(rt: HostRuntime) -> Result<(), Fail> {
    let counted = Counted {
        joins: Cell::new(0),
        rows: Cell::new(0),
    };
    let entries = two_entries(rt.alloc())?;
    let rows = threads(rt.alloc(), &counted, &entries, true)?;
    assert_eq!(rt; rows.len(), 2);
    assert_eq!(rt; (counted.joins.get(), counted.rows.get()), (1, 1));
    Ok(())
}

/// Whether both threaders give the same rows, with step 5 and without it.
fn is_same(alloc: Global, threader: &NodeThreader, entries: &[Entry]) -> Result<bool, Fail> {
    for merge in [true, false] {
        let fast = threads(alloc, threader, entries, merge)?;
        let plain = threads(alloc, &PlainThreader, entries, merge)?;
        if fast.as_slice() != plain.as_slice() {
            return Ok(false);
        }
    }
    Ok(true)
}

/// References that short lists have.
const SHORT_REFS: [&[usize]; 8] = [&[], &[0], &[1], &[2], &[0, 1], &[1, 0], &[2, 0], &[0, 2]];

/// A message of a short list: its id is one of two, if it has one.
fn short_entry(alloc: Global, kind: usize) -> Result<Entry, Fail> {
    let id = match kind % 3 {
        0 => None,
        1 => Some(0),
        _ => Some(1),
    };
    entry(alloc, id, SHORT_REFS[kind / 3 % 8], 0, b"", false)
}

/// How many lists of so many messages, the first of a kind, have other rows by the plain threader.
fn other_lists(alloc: Global, threader: &NodeThreader, first: usize) -> Result<usize, Fail> {
    let mut other = 0;
    for second in 0..24 {
        for third in 0..24 {
            let mut entries = Vec::new(alloc);
            entries.push(short_entry(alloc, first)?)?;
            entries.push(short_entry(alloc, second)?)?;
            entries.push(short_entry(alloc, third)?)?;
            for length in 1..4 {
                // (the lists of one and two are the same with each third)
                if length == 3 || third == 0 {
                    if !is_same(alloc, threader, &entries[..length])? {
                        other = 1;
                    }
                }
            }
        }
    }
    Ok(other)
}

#[test]
fn both_threaders_agree_on_lists_of_three(rt: HostRuntime) -> Result<(), Fail> {
    let threader = NodeThreader::new(RandomState::new(&rt)?);
    for first in 0..24 {
        assert_eq!(rt; other_lists(rt.alloc(), &threader, first)?, 0);
    }
    Ok(())
}

/// The next of numbers that look random.
fn next(seed: u64) -> u64 {
    seed.wrapping_mul(6364136223846793005)
        .wrapping_add(1442695040888963407)
}

/// A message made of a seed: few ids, dates and subjects, so that they meet often.
fn random_entry(alloc: Global, seed: u64) -> Result<Entry, Fail> {
    let bits = (seed >> 20) as usize;
    let id = if bits % 4 == 0 {
        None
    } else {
        Some(bits / 4 % 7)
    };
    let mut refs = Vec::new(alloc);
    let mut rest = bits >> 6;
    for _ref in 0..bits / 28 % 5 {
        refs.push(rest % 9)?;
        rest /= 9;
    }
    let sent = if bits / 140 % 3 == 0 { 0 } else { 1 };
    let base: &[u8] = match bits / 420 % 4 {
        0 => b"",
        1 => b"x",
        _ => b"y",
    };
    entry(alloc, id, &refs, sent, base, bits / 1680 % 2 == 0)
}

/// Whether both threaders give the same rows of a list made of a seed.
fn agree_on_random(
    alloc: Global,
    threader: &NodeThreader,
    seed: u64,
    length: usize,
) -> Result<bool, Fail> {
    let mut entries = Vec::new(alloc);
    let mut now = seed;
    for _place in 0..length {
        now = next(now);
        entries.push(random_entry(alloc, now)?)?;
    }
    is_same(alloc, threader, &entries)
}

#[test]
fn both_threaders_agree_on_random_lists(rt: HostRuntime) -> Result<(), Fail> {
    for seed in 0..5u64 {
        let threader = NodeThreader::new(RandomState::new(&rt)?);
        for list in 0..600u64 {
            let length = (list % 14) as usize;
            assert!(rt;
                agree_on_random(
                    rt.alloc(),
                    &threader,
                    seed.wrapping_mul(1000003).wrapping_add(list),
                    length
                )?
            );
        }
    }
    Ok(())
}

/// How a long list is made.
#[derive(Clone, Copy)]
enum Shape {
    /// Each message replies to the one before.
    Forward,
    /// Each message replies to the one after, so the newest stands first.
    Backward,
    /// All reply to the first.
    Star,
    /// Each replies to the one after, and the last to the first.
    Ring,
    /// No references; a subject of its own each.
    Alone,
    /// No references; one subject, and all but the first are replies.
    OneSubject,
    /// No references; one subject, no replies.
    OnePlain,
    /// Each refers to an unknown id and replies to the one before through it.
    ThroughDummies,
    /// Threads of ten.
    Ordinary,
    /// The first makes a chain of all others; each other asks for a link under its end, and gives its own link up.
    TakenApart,
}

/// The references of a message of a long list.
fn long_refs(alloc: Global, shape: Shape, place: usize, count: usize) -> Result<Vec<usize>, Fail> {
    let mut refs = Vec::new(alloc);
    match shape {
        Shape::Forward => {
            if place > 0 {
                refs.push(place - 1)?;
            }
        }
        Shape::Backward => {
            if place < count && place < count - 1 {
                refs.push(place + 1)?;
            }
        }
        Shape::Star => {
            if place > 0 {
                refs.push(0)?;
            }
        }
        Shape::Ring => {
            if place < count {
                refs.push(if place < count - 1 { place + 1 } else { 0 })?;
            }
        }
        Shape::ThroughDummies => {
            if place > 0 {
                refs.push(place - 1)?;
            }
            refs.push(place.wrapping_add(1000000))?;
        }
        Shape::Ordinary => {
            if place % 10 > 0 {
                refs.push(place - place % 10)?;
                refs.push(place - 1)?;
            }
        }
        Shape::TakenApart => {
            if place > 0 {
                refs.push(count.wrapping_sub(1))?;
                refs.push(place.wrapping_add(1000000))?;
            } else {
                for other in 1..count {
                    refs.push(other)?;
                }
            }
        }
        Shape::Alone | Shape::OneSubject | Shape::OnePlain => {}
    }
    Ok(refs)
}

/// A base subject of a number.
fn subject(alloc: Global, number: usize) -> Result<Vec<u8>, Fail> {
    let mut base = Vec::new(alloc);
    let mut rest = number;
    for _digit in 0..5 {
        base.push(b"abcdefghij"[rest % 10])?;
        rest /= 10;
    }
    Ok(base)
}

/// A message of a long list.
fn long_entry(alloc: Global, shape: Shape, place: usize, count: usize) -> Result<Entry, Fail> {
    let refs = long_refs(alloc, shape, place, count)?;
    let sent = (place % 1000) as i64;
    match shape {
        Shape::OneSubject => entry(alloc, Some(place), &refs, sent, b"x", place > 0),
        Shape::OnePlain => entry(alloc, Some(place), &refs, sent, b"x", false),
        Shape::TakenApart => entry(alloc, Some(place), &refs, sent, b"", false),
        Shape::Alone => {
            let base = subject(alloc, place)?;
            entry(alloc, Some(place), &refs, 0, &base, false)
        }
        Shape::Ordinary => {
            let base = subject(alloc, place / 10)?;
            entry(alloc, Some(place), &refs, sent, &base, place % 10 > 0)
        }
        _ => entry(alloc, Some(place), &refs, sent, b"x", place > 0),
    }
}

fn long_list(alloc: Global, shape: Shape, count: usize) -> Result<Vec<Entry>, Fail> {
    let mut entries = Vec::new(alloc);
    for place in 0..count {
        entries.push(long_entry(alloc, shape, place, count)?)?;
    }
    Ok(entries)
}

/// How many rows a long list has, and the greatest depth of one, with step 5 or without it.
fn measure_by(
    alloc: Global,
    threader: &NodeThreader,
    shape: Shape,
    count: usize,
    merge: bool,
) -> Result<(usize, usize), Fail> {
    let entries = long_list(alloc, shape, count)?;
    let rows = threads(alloc, threader, &entries, merge)?;
    let mut deepest = 0;
    for row in &rows {
        if row.depth > deepest {
            deepest = row.depth;
        }
    }
    Ok((rows.len(), deepest))
}

/// The same with step 5.
fn measure(
    alloc: Global,
    threader: &NodeThreader,
    shape: Shape,
    count: usize,
) -> Result<(usize, usize), Fail> {
    measure_by(alloc, threader, shape, count, true)
}

/// How many messages a long list has. That time grows with the list alone is measured (`bench/threads.py`).
const LONG: usize = 10_000;

/// How many messages a list of an archive has at most.
const MOST: usize = 50_000;

/// Each shape, and the rows and the greatest depth of `LONG` messages of it without step 5.
const APART: [(Shape, (usize, usize)); 10] = [
    (Shape::Forward, (10000, 9999)),
    (Shape::Backward, (10000, 9999)),
    (Shape::Star, (10000, 1)),
    (Shape::Ring, (10000, 9999)),
    (Shape::Alone, (10000, 0)),
    (Shape::OneSubject, (10000, 0)),
    (Shape::OnePlain, (10000, 0)),
    (Shape::ThroughDummies, (10000, 9999)),
    (Shape::Ordinary, (10000, 9)),
    (Shape::TakenApart, (10000, 1)),
];

#[test]
fn long_lists_without_step_5(rt: HostRuntime) -> Result<(), Fail> {
    let threader = NodeThreader::new(RandomState::new(&rt)?);
    for (number, (shape, wanted)) in APART.iter().enumerate() {
        let found = measure_by(rt.alloc(), &threader, *shape, LONG, false)?;
        assert_eq!(rt; found, *wanted, "shape {number}");
    }
    Ok(())
}

#[test]
fn both_threaders_agree_on_each_shape(rt: HostRuntime) -> Result<(), Fail> {
    let threader = NodeThreader::new(RandomState::new(&rt)?);
    for (number, (shape, _wanted)) in APART.iter().enumerate() {
        for count in [1, 2, 11, 60] {
            let entries = long_list(rt.alloc(), *shape, count)?;
            assert!(rt;
                is_same(rt.alloc(), &threader, &entries)?,
                "shape {number}, {count}"
            );
        }
    }
    Ok(())
}

#[test]
fn a_long_chain_is_one_thread(rt: HostRuntime) -> Result<(), Fail> {
    let threader = NodeThreader::new(RandomState::new(&rt)?);
    assert_eq!(rt;
        measure(rt.alloc(), &threader, Shape::Forward, MOST)?,
        (MOST, 49999)
    );
    Ok(())
}

#[test]
fn a_long_chain_newest_first(rt: HostRuntime) -> Result<(), Fail> {
    let threader = NodeThreader::new(RandomState::new(&rt)?);
    assert_eq!(rt;
        measure(rt.alloc(), &threader, Shape::Backward, LONG)?,
        (10000, 9999)
    );
    Ok(())
}

#[test]
fn many_replies_to_one(rt: HostRuntime) -> Result<(), Fail> {
    let threader = NodeThreader::new(RandomState::new(&rt)?);
    assert_eq!(rt;
        measure(rt.alloc(), &threader, Shape::Star, LONG)?,
        (10000, 1)
    );
    Ok(())
}

#[test]
fn a_long_ring(rt: HostRuntime) -> Result<(), Fail> {
    let threader = NodeThreader::new(RandomState::new(&rt)?);
    assert_eq!(rt;
        measure(rt.alloc(), &threader, Shape::Ring, LONG)?,
        (10000, 9999)
    );
    Ok(())
}

#[test]
fn one_subject_of_all(rt: HostRuntime) -> Result<(), Fail> {
    let threader = NodeThreader::new(RandomState::new(&rt)?);
    assert_eq!(rt;
        measure(rt.alloc(), &threader, Shape::OneSubject, LONG)?,
        (10000, 1)
    );
    Ok(())
}

#[test]
fn many_subjects(rt: HostRuntime) -> Result<(), Fail> {
    let threader = NodeThreader::new(RandomState::new(&rt)?);
    assert_eq!(rt;
        measure(rt.alloc(), &threader, Shape::Alone, LONG)?,
        (10000, 0)
    );
    Ok(())
}

#[test]
fn many_of_one_subject(rt: HostRuntime) -> Result<(), Fail> {
    let threader = NodeThreader::new(RandomState::new(&rt)?);
    assert_eq!(rt;
        measure(rt.alloc(), &threader, Shape::OnePlain, LONG)?,
        (10001, 1)
    );
    Ok(())
}

#[test]
fn a_chain_through_unknown_ids(rt: HostRuntime) -> Result<(), Fail> {
    let threader = NodeThreader::new(RandomState::new(&rt)?);
    assert_eq!(rt;
        measure(rt.alloc(), &threader, Shape::ThroughDummies, LONG)?,
        (10000, 9999)
    );
    Ok(())
}

#[test]
fn ordinary_threads(rt: HostRuntime) -> Result<(), Fail> {
    let threader = NodeThreader::new(RandomState::new(&rt)?);
    assert_eq!(rt;
        measure(rt.alloc(), &threader, Shape::Ordinary, LONG)?,
        (10000, 9)
    );
    Ok(())
}

#[test]
fn a_long_chain_taken_apart(rt: HostRuntime) -> Result<(), Fail> {
    let threader = NodeThreader::new(RandomState::new(&rt)?);
    assert_eq!(rt;
        measure(rt.alloc(), &threader, Shape::TakenApart, LONG)?,
        (10000, 1)
    );
    Ok(())
}

#[test]
fn both_threaders_agree_on_a_chain_taken_apart(rt: HostRuntime) -> Result<(), Fail> {
    let threader = NodeThreader::new(RandomState::new(&rt)?);
    let entries = long_list(rt.alloc(), Shape::TakenApart, 400)?;
    assert!(rt; is_same(rt.alloc(), &threader, &entries)?);
    Ok(())
}

/// A message with so many references, and one before it that has the first of their ids.
fn rows_of_references(
    alloc: Global,
    threader: &NodeThreader,
    count: usize,
) -> Result<Vec<Row>, Fail> {
    let mut refs = Vec::new(alloc);
    for number in 0..count {
        refs.push(number)?;
    }
    let mut entries = Vec::new(alloc);
    entries.push(entry(alloc, Some(0), &[], 0, b"", false)?)?;
    entries.push(entry(alloc, None, &refs, 1, b"", false)?)?;
    Ok(threads(alloc, threader, &entries, true)?)
}

#[test]
fn a_message_with_many_references(rt: HostRuntime) -> Result<(), Fail> {
    let threader = NodeThreader::new(RandomState::new(&rt)?);
    let rows = rows_of_references(rt.alloc(), &threader, 50_000)?;
    assert_eq!(rt; rows.as_slice(), [row(0, 0), row(1, 1)].as_slice());
    Ok(())
}

/// Long lists of one thread, in which each message stands one deeper than the row before: how each is made, how many messages
/// it has, and whether its last message stands first.
const ONE_DEEPER: [(Shape, usize, bool); 2] = [
    (Shape::Forward, 2000, false),
    (Shape::Ring, 500, true),
];

/// Whether the rows of such a list are these, to the last one.
fn goes_one_deeper(
    alloc: Global,
    threader: &NodeThreader,
    shape: Shape,
    count: usize,
    last_first: bool,
) -> Result<bool, Fail> {
    let entries = long_list(alloc, shape, count)?;
    let rows = threads(alloc, threader, &entries, true)?;
    let mut wanted = Vec::new(alloc);
    for depth in 0..count {
        let place = if last_first { count - 1 - depth } else { depth };
        wanted.push(row(depth, place))?;
    }
    Ok(rows.as_slice() == wanted.as_slice())
}

#[test]
fn a_chain_and_a_ring_go_one_deeper_each_row(rt: HostRuntime) -> Result<(), Fail> {
    let threader = NodeThreader::new(RandomState::new(&rt)?);
    for (shape, count, last_first) in &ONE_DEEPER {
        assert!(rt;
            goes_one_deeper(rt.alloc(), &threader, *shape, *count, *last_first)?,
            "{count}"
        );
    }
    Ok(())
}

/// The rows of one message with so many references to ids that no message has.
fn rows_of_unowned(alloc: Global, threader: &NodeThreader, count: usize) -> Result<Vec<Row>, Fail> {
    let mut refs = Vec::new(alloc);
    for number in 0..count {
        refs.push(number)?;
    }
    let mut entries = Vec::new(alloc);
    entries.push(entry(alloc, None, &refs, 0, b"", false)?)?;
    Ok(threads(alloc, threader, &entries, true)?)
}

#[test]
fn references_that_nobody_owns_make_no_row(rt: HostRuntime) -> Result<(), Fail> {
    let threader = NodeThreader::new(RandomState::new(&rt)?);
    let rows = rows_of_unowned(rt.alloc(), &threader, 2000)?;
    assert_eq!(rt; rows.as_slice(), [row(0, 0)].as_slice());
    Ok(())
}
