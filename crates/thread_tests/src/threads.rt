//! Worked threads, and the merge of subjects beside the RFC's walk.

ghost use Rattle.std.specs.Prelude.{◌≡◌, ◌<◌};

use crate::walk::walked_threads;
use civil_time::Instant;
use mail_core::{MsgId, Octets};
use std::alloc::Global;
use std::marker::Brand;
use std::sync::ledger::{Blank, Ledger};
use std::test::Fail;
use thread_core::{
    Entry, Pairs, PlainThreader, References, Row, Steps, Threader, thread_of, threads,
};

/// A message: its own id, if any, its references, its sent date, its base subject and whether it is
/// a reply. An id is one letter.
#[derive(Clone, Copy)]
struct Mail<'a> {
    id: &'a [u8],
    refs: &'a [u8],
    sent: i64,
    base: &'a [u8],
    reply: bool,
}

/// A message without a subject.
fn message<'a>(id: &'a [u8], refs: &'a [u8], sent: i64) -> Mail<'a> {
    Mail {
        id,
        refs,
        sent,
        base: b"",
        reply: false,
    }
}

fn plain<'a>(refs: &'a [u8], sent: i64) -> Mail<'a> {
    Mail {
        id: b"",
        refs,
        sent,
        base: b"x",
        reply: false,
    }
}

fn reply<'a>(refs: &'a [u8], sent: i64) -> Mail<'a> {
    Mail {
        id: b"",
        refs,
        sent,
        base: b"x",
        reply: true,
    }
}

fn row(depth: usize, place: usize) -> Row {
    Row {
        depth,
        place: Some(place),
    }
}

fn dummy() -> Row {
    Row {
        depth: 0,
        place: None,
    }
}

fn msg_id(alloc: Global, letter: u8) -> Result<MsgId, Fail> {
    Ok(MsgId::new(
        Vec::from_slice(alloc, &[letter])?,
        Vec::from_slice(alloc, b"example.org")?,
    ))
}

fn entry(alloc: Global, mail: Mail<'_>) -> Result<Entry, Fail> {
    let mut refs = References::new(alloc);
    for letter in mail.refs {
        refs.push(&msg_id(alloc, *letter)?.borrowed())?;
    }
    let id = match mail.id.first() {
        Some(letter) => Some(msg_id(alloc, *letter)?),
        None => None,
    };
    Ok(Entry {
        id,
        refs,
        sent: Instant::new(mail.sent).ok_or("no instant")?,
        base: Octets::new(Vec::from_slice(alloc, mail.base)?),
        reply: mail.reply,
    })
}

fn entries(alloc: Global, mails: &[Mail<'_>]) -> Result<Vec<Entry>, Fail> {
    let mut entries = Vec::new(alloc);
    for mail in mails {
        entries.push(entry(alloc, *mail)?)?;
    }
    Ok(entries)
}

fn threads_of(alloc: Global, mails: &[Mail<'_>]) -> Result<Vec<Row>, Fail> {
    Ok(threads(alloc, &PlainThreader, &entries(alloc, mails)?, true)?)
}

/// Whether messages have these threads.
fn are_threaded(alloc: Global, mails: &[Mail<'_>], want: &[Row]) -> Result<bool, Fail> {
    Ok(threads_of(alloc, mails)?.as_slice() == want)
}

#[test]
fn a_reply_hangs_below_its_parent(rt: HostRuntime) -> Result<(), Fail> {
    let mails = [
        message(b"a", b"", 0),
        message(b"b", b"a", 1),
        message(b"c", b"ab", 2),
    ];
    assert!(rt; are_threaded(rt.alloc(), &mails, &[row(0, 0), row(1, 1), row(2, 2)])?);
    Ok(())
}

#[test]
fn a_message_without_references_gives_up_its_parent(rt: HostRuntime) -> Result<(), Fail> {
    let mails = [
        message(b"a", b"", 0),
        message(b"", b"ab", 1),
        message(b"b", b"", 2),
    ];
    let rows = threads_of(rt.alloc(), &mails)?;
    assert!(rt; rows.as_slice() == [row(0, 0), row(0, 2), row(1, 1)].as_slice());
    for (place, want) in [(1, Some((1, 3))), (0, Some((0, 1))), (7, None)] {
        assert!(rt; thread_of(&rows, place) == want);
    }
    Ok(())
}

#[test]
fn rings_are_not_closed(rt: HostRuntime) -> Result<(), Fail> {
    let two = [message(b"a", b"b", 0), message(b"b", b"a", 1)];
    assert!(rt; are_threaded(rt.alloc(), &two, &[row(0, 1), row(1, 0)])?);
    let three = [
        message(b"a", b"b", 0),
        message(b"b", b"c", 1),
        message(b"c", b"a", 2),
    ];
    assert!(rt; are_threaded(rt.alloc(), &three, &[row(0, 2), row(1, 1), row(2, 0)])?);
    assert!(rt; are_threaded(rt.alloc(), &[message(b"a", b"aa", 0)], &[row(0, 0)])?);
    assert!(rt; are_threaded(rt.alloc(), &[message(b"", b"bcb", 0)], &[row(0, 0)])?);
    Ok(())
}

#[test]
fn the_first_of_equal_ids_owns_it(rt: HostRuntime) -> Result<(), Fail> {
    let mails = [
        message(b"i", b"", 0),
        message(b"i", b"", 1),
        message(b"", b"i", 2),
    ];
    assert!(rt; are_threaded(rt.alloc(), &mails, &[row(0, 0), row(1, 2), row(0, 1)])?);
    assert!(rt; are_threaded(rt.alloc(), &mails[1..], &[row(0, 0), row(1, 1)])?);
    Ok(())
}

#[test]
fn replies_to_a_missing_message_share_a_dummy(rt: HostRuntime) -> Result<(), Fail> {
    let mails = [message(b"", b"p", 0), message(b"", b"p", 1)];
    assert!(rt; are_threaded(rt.alloc(), &mails[..0], &[])?);
    assert!(rt; are_threaded(rt.alloc(), &mails[..1], &[row(0, 0)])?);
    assert!(rt; are_threaded(rt.alloc(), &mails, &[dummy(), row(1, 0), row(1, 1)])?);
    Ok(())
}

#[test]
fn siblings_stand_by_date_and_then_by_place(rt: HostRuntime) -> Result<(), Fail> {
    for (later, want) in [(4, [row(0, 1), row(0, 0)]), (5, [row(0, 0), row(0, 1)])] {
        let mails = [message(b"", b"", 5), message(b"", b"", later)];
        assert!(rt; are_threaded(rt.alloc(), &mails, &want)?);
    }
    let children = [
        message(b"a", b"", 9),
        message(b"", b"a", 3),
        message(b"", b"a", 2),
        message(b"", b"a", 3),
    ];
    assert!(rt;
        are_threaded(
            rt.alloc(),
            &children,
            &[row(0, 0), row(1, 2), row(1, 1), row(1, 3)]
        )?
    );
    Ok(())
}

#[test]
fn two_messages_of_one_subject(rt: HostRuntime) -> Result<(), Fail> {
    for (mails, want) in [
        (
            [reply(b"", 0), reply(b"", 1)],
            [dummy(), row(1, 0), row(1, 1)],
        ),
        (
            [plain(b"", 0), plain(b"", 1)],
            [dummy(), row(1, 0), row(1, 1)],
        ),
    ] {
        assert!(rt; are_threaded(rt.alloc(), &mails, &want)?);
    }
    let reply_then_plain = [reply(b"", 0), plain(b"", 1)];
    assert!(rt; are_threaded(rt.alloc(), &reply_then_plain, &[row(0, 1), row(1, 0)])?);
    Ok(())
}

#[test]
fn four_messages_of_one_subject(rt: HostRuntime) -> Result<(), Fail> {
    for (mails, want) in [
        (
            [plain(b"", 0), reply(b"", 1), plain(b"", 2), reply(b"", 3)],
            [dummy(), row(1, 0), row(2, 1), row(1, 2), row(1, 3)],
        ),
        (
            [reply(b"", 0), plain(b"", 1), reply(b"", 2), plain(b"", 3)],
            [dummy(), row(1, 1), row(2, 0), row(2, 2), row(1, 3)],
        ),
        (
            [
                reply(b"p", 0),
                reply(b"p", 1),
                reply(b"q", 2),
                reply(b"q", 3),
            ],
            [dummy(), row(1, 0), row(1, 1), row(1, 2), row(1, 3)],
        ),
    ] {
        assert!(rt; are_threaded(rt.alloc(), &mails, &want)?);
    }
    Ok(())
}

#[test]
fn one_subject_with_a_dummy(rt: HostRuntime) -> Result<(), Fail> {
    let mails = [plain(b"", 0), reply(b"p", 1), reply(b"p", 2)];
    assert!(rt;
        are_threaded(
            rt.alloc(),
            &mails,
            &[dummy(), row(1, 0), row(1, 1), row(1, 2)]
        )?
    );
    Ok(())
}

/// The rows of two messages over given pairs: none, or the second message under the first.
fn rows_over_pairs<L: Ledger>(
    alloc: Global,
    blank: Blank,
    is_linked: bool,
) -> Result<Vec<Row>, Fail>
    requires name { blank.name ≡ L.name }
    requires parts { blank.parts ≡ L.parts }
    requires some { 0 < blank.parts }
{
    let entries = entries(alloc, &[message(b"", b"", 0), message(b"", b"", 1)])?;
    if entries.len() > 2 {
        return Err(Fail::from("too many"));
    }
    let mut pairs = Pairs::new(alloc, 2);
    if is_linked {
        pairs.link(1, 0)?;
    }
    let mut steps = Steps::<L>::new(blank);
    Ok(PlainThreader.rows(alloc, &entries, true, pairs, &mut steps)?)
}

#[test]
fn rows_are_those_of_the_given_links(rt: HostRuntime) -> Result<(), Fail> {
    let apart = rows_over_pairs::<Brand>(rt.alloc(), Blank::new(1), false)?;
    assert!(rt; apart.as_slice() == [row(0, 0), row(0, 1)].as_slice());
    let linked = rows_over_pairs::<Brand>(rt.alloc(), Blank::new(1), true)?;
    assert!(rt; linked.as_slice() == [row(0, 0), row(1, 1)].as_slice());
    Ok(())
}

/// How many kinds of messages there are, and how many but the last: those are replies without a subject, which no list gathers. So
/// lists of three have none of them; lists of two and lists by chance do.
const KINDS: usize = 48;

const GATHERED_KINDS: usize = 36;

/// A message of a kind.
fn numbered<'a>(number: usize) -> Mail<'a> {
    let refs: [&'a [u8]; 3] = [b"", b"a", b"p"];
    let subjects: [(&'a [u8], bool); 4] = [(b"", false), (b"x", false), (b"x", true), (b"", true)];
    let (base, reply) = subjects[number / 12 % 4];
    Mail {
        id: if number % 2 == 0 { b"" } else { b"a" },
        refs: refs[number / 2 % 3],
        sent: (number / 6 % 2) as i64,
        base,
        reply,
    }
}

/// Whether each place stands in one row, and no other place does.
fn has_each_place_once(rows: &[Row], count: usize) -> bool {
    (0..count).all(|place| rows.iter().filter(|row| row.place == Some(place)).count() == 1)
        && rows
            .iter()
            .all(|row| row.place.is_none_or(|place| place < count))
}

/// The sent date and the place of a row; those of its first child for a dummy.
fn key(entries: &[Entry], rows: &[Row], at: usize) -> (i64, usize) {
    let own = rows.get(at).and_then(|row| row.place);
    let child = rows.iter().skip(at).find_map(|row| row.place);
    let place = own.or(child).unwrap_or(0);
    (
        entries.get(place).map_or(0, |entry| entry.sent.seconds()),
        place,
    )
}

/// Whether each row stands before its next sibling by key.
fn siblings_rise(entries: &[Entry], rows: &[Row]) -> bool {
    (0..rows.len()).all(|at| {
        let depth = rows[at].depth;
        match (at + 1..rows.len()).find(|next| rows[*next].depth <= depth) {
            Some(next) if rows[next].depth == depth => {
                key(entries, rows, at) < key(entries, rows, next)
            }
            _ => true,
        }
    })
}

/// Whether the threads are those of the RFC's walk, hold each message once and have their siblings
/// in order.
fn are_as_walked(alloc: Global, entries: &[Entry], merge: bool) -> Result<bool, Fail> {
    let rows = threads(alloc, &PlainThreader, entries, merge)?;
    let walked = walked_threads(alloc, entries, merge)?;
    Ok(
        rows.as_slice() == walked.as_slice()
            && has_each_place_once(&rows, entries.len())
            && siblings_rise(entries, &rows),
    )
}

/// The same with step 5 and without it.
fn is_as_walked(alloc: Global, mails: &[Mail<'_>]) -> Result<bool, Fail> {
    let entries = entries(alloc, mails)?;
    Ok(are_as_walked(alloc, &entries, true)? && are_as_walked(alloc, &entries, false)?)
}

/// Whether messages have these threads where those of one subject are not gathered.
fn are_apart(alloc: Global, mails: &[Mail<'_>], want: &[Row]) -> Result<bool, Fail> {
    let rows = threads(alloc, &PlainThreader, &entries(alloc, mails)?, false)?;
    Ok(rows.as_slice() == want)
}

#[test]
fn threads_of_one_subject_stay_apart_without_step_5(rt: HostRuntime) -> Result<(), Fail> {
    let mails = [plain(b"", 0), reply(b"", 1), plain(b"", 2), reply(b"", 3)];
    assert!(rt;
        are_apart(
            rt.alloc(),
            &mails,
            &[row(0, 0), row(0, 1), row(0, 2), row(0, 3)]
        )?
    );
    let mails = [plain(b"", 0), reply(b"p", 1), reply(b"p", 2)];
    assert!(rt;
        are_apart(
            rt.alloc(),
            &mails,
            &[row(0, 0), dummy(), row(1, 1), row(1, 2)]
        )?
    );
    Ok(())
}

#[test]
fn all_short_lists_are_threaded_as_walked(rt: HostRuntime) -> Result<(), Fail> {
    for first in 0..KINDS {
        assert!(rt; is_as_walked(rt.alloc(), &[numbered(first)])?);
        for second in 0..KINDS {
            assert!(rt; is_as_walked(rt.alloc(), &[numbered(first), numbered(second)])?);
        }
    }
    Ok(())
}

#[test]
fn all_lists_of_three_are_threaded_as_walked(rt: HostRuntime) -> Result<(), Fail> {
    for first in 0..GATHERED_KINDS {
        for second in 0..GATHERED_KINDS {
            for third in 0..GATHERED_KINDS {
                let mails = [numbered(first), numbered(second), numbered(third)];
                assert!(rt;
                    is_as_walked(rt.alloc(), &mails)?,
                    "at {first}, {second}, {third}"
                );
            }
        }
    }
    Ok(())
}

/// A message by chance.
fn chance<'a>(seed: u64) -> Mail<'a> {
    let refs: [&'a [u8]; 8] = [b"", b"", b"a", b"p", b"q", b"ab", b"pb", b"qcp"];
    let ids: [&'a [u8]; 4] = [b"", b"a", b"b", b"c"];
    let bases: [&'a [u8]; 4] = [b"", b"x", b"x", b"y"];
    Mail {
        id: ids[(seed >> 20) as usize % 4],
        refs: refs[(seed >> 24) as usize % 8],
        sent: ((seed >> 30) % 4) as i64,
        base: bases[(seed >> 34) as usize % 4],
        reply: (seed >> 38) % 2 == 1,
    }
}

#[test]
fn random_lists_are_threaded_as_walked(rt: HostRuntime) -> Result<(), Fail> {
    let mut seed: u64 = 20_030_304;
    for count in 0..20_000usize {
        let mut mails = Vec::new(rt.alloc());
        for _ in 0..count % 9 {
            seed = seed
                .wrapping_mul(6_364_136_223_846_793_005)
                .wrapping_add(1_442_695_040_888_963_407);
            mails.push(chance(seed))?;
        }
        assert!(rt; is_as_walked(rt.alloc(), &mails)?, "list {count}");
    }
    Ok(())
}
