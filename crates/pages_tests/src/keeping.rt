//! Threads, months and authors that are asked for again and again, out of what is kept.
use crate::cases::{TWO, today};
use crate::links::{
    FIRST, PAGES, POLICY, Past, WITHDRAWN, fill, first_key, message_path, reply, request_for,
    thread_path,
};
use archive_cache::Cache;
use archive_desk::import;
use archive_pages::{Pages, answer_cached};
use archive_port::ArchiveStore;
use archive_requests::Routes;
use desk_tests::checks::{expect, expect_equal};
use desk_tests::commands::{list_add, withdraw};
use desk_tests::noting::Noting;
use mbox_core::device::Tap;
use policy_core::{Policy, WithdrawnBy};
use std::alloc::Global;
use std::test::Fail;
use thread_core::{PlainThreader, Threader};

/// Months and authors: of messages that all are shown, that some are shown, and that nobody is; of a list that is not there; and a
/// month that is none.
const LISTED: [&[u8]; 11] = [
    b"/l/soc/month/2003-03",
    b"/l/soc/month/2003-02",
    b"/l/soc/month/1999-12",
    b"/l/other/month/2003-03",
    b"/l/none/month/2003-03",
    b"/l/soc/month/2003-13",
    b"/l/soc/by/anna%40example.org",
    b"/l/soc/by/eve%40example.org",
    b"/l/soc/by/nobody%40example.org",
    b"/l/other/by/anna%40example.org",
    b"/l/none/by/anna%40example.org",
];

/// The threads of two lists and of one that is not there, those of a message and of one that not everybody is shown, these two, and
/// months and authors.
fn paths(alloc: Global) -> Result<Vec<Vec<u8>>, Fail> {
    let mut paths = Vec::new(alloc);
    paths.push(b"/l/soc/threads".to_vec(alloc)?)?;
    paths.push(b"/l/other/threads".to_vec(alloc)?)?;
    paths.push(b"/l/none/threads".to_vec(alloc)?)?;
    paths.push(thread_path(alloc, &first_key(FIRST)?)?)?;
    paths.push(thread_path(alloc, &first_key(WITHDRAWN)?)?)?;
    paths.push(message_path(alloc, &first_key(FIRST)?)?)?;
    paths.push(message_path(alloc, &first_key(WITHDRAWN)?)?)?;
    for path in LISTED {
        paths.push(path.to_vec(alloc)?)?;
    }
    Ok(paths)
}

/// By what these requests are answered today: nothing is kept yet, and so many bytes at most will be.
pub fn pages_for<'a, T>(
    alloc: Global,
    policy: &'a Policy,
    threader: &'a T,
    most: usize,
) -> Result<Pages<'a, T>, Fail> {
    Ok(Pages {
        alloc,
        policy,
        threader,
        day: today()?,
        routes: Some(Routes::new(alloc)?),
        kept: Cache::new(alloc, most),
    })
}

/// The reply to a request for a path, out of what is kept.
pub fn kept_reply<T: Threader, A: ArchiveStore>(
    store: &mut A,
    pages: &mut Pages<'_, T>,
    token: Option<&str>,
    path: &[u8],
) -> Result<Tap, Fail> {
    let request = request_for(pages.alloc, token, path)?;
    let mut input = Tap::new(pages.alloc, &request, 10_000)?;
    let mut output = Tap::new(pages.alloc, b"", 100_000)?;
    answer_cached(store, pages, &mut input, &mut output)?;
    Ok(output)
}

/// Each reader asks for each path; the replies are those of `answer`.
fn all_ask<T: Threader, A: ArchiveStore>(
    store: &mut A,
    pages: &mut Pages<'_, T>,
    paths: &[Vec<u8>],
) -> Result<(), Fail> {
    for (token, _pages) in PAGES {
        for path in paths {
            let wanted = reply(
                pages.alloc,
                store,
                pages.policy,
                &PlainThreader,
                token,
                path,
            )?;
            let got = kept_reply(store, pages, token, path)?;
            expect(got.bytes() == wanted.bytes(), format_args!("{token:?}"))?;
        }
    }
    Ok(())
}

/// All ask twice, where so much may be kept: the threader is asked so often.
fn asks_twice<A: ArchiveStore>(
    alloc: Global,
    store: &mut A,
    most: usize,
    routes: Option<Routes>,
    joins: usize,
) -> Result<(), Fail> {
    let policy = Policy::read(alloc, POLICY)?;
    let noting = Noting::new(alloc);
    let paths = paths(alloc)?;
    {
        let mut pages = Pages {
            alloc,
            policy: &policy,
            threader: &noting,
            day: today()?,
            routes,
            kept: Cache::new(alloc, most),
        };
        for _ in 0..2 {
            all_ask(store, &mut pages, &paths)?;
        }
    }
    expect_equal(noting.into_noted().joins, joins)?;
    Ok(())
}

/// Where all has room, one list is threaded once for each of the four readers, and the other, where none of them is known, once
/// in all. Where nothing has room, the last outline alone stays: it serves the thread behind a thread, and the month behind that.
pub fn keeping<A: ArchiveStore>(alloc: Global, store: &mut A) -> Result<(), Fail> {
    fill(alloc, store, Past::Withdrawn)?;
    asks_twice(alloc, store, 1 << 20, Some(Routes::new(alloc)?), 5)?;
    asks_twice(alloc, store, 0, None, 80)
}

pub const THREADS: &[u8] = b"/l/soc/threads";

pub const MARCH: &[u8] = b"/l/soc/month/2003-03";

pub const APRIL: &[u8] = b"/l/soc/month/2003-04";

pub const ANNA: &[u8] = b"/l/soc/by/anna%40example.org";

const NOBODY: &[u8] = b"/l/soc/by/nobody%40example.org";

/// A whole list has room in it, and one month or author beside it.
const ROOM_FOR_TWO: usize = 3 * 16_384;

/// What is asked for, and whether the reply is the one of before a change of which what is kept knows nothing, so that no message
/// was read for it.
type Step = (&'static [u8], bool);

/// One reading of the list serves all.
const KEPT: [Step; 3] = [(ANNA, true), (MARCH, true), (THREADS, true)];

/// Months and authors that come now let one another go, and the list stays, out of which each is made anew.
const LIST_STAYS: [Step; 5] = [
    (APRIL, false),
    (NOBODY, false),
    (THREADS, true),
    (MARCH, true),
    (ANNA, true),
];

/// How many bytes may be kept, what is asked for before a message is withdrawn, and the steps after that.
#[derive(Clone, Copy)]
pub struct Reading {
    most: usize,
    before: &'static [u8],
    steps: &'static [Step],
}

/// A list is read once, whatever of it is asked for first; where there is no room, months and authors are let go before it; and where
/// nothing has room, the last alone stays.
pub const READINGS: [Reading; 6] = [
    Reading {
        most: 1 << 20,
        before: THREADS,
        steps: &KEPT,
    },
    Reading {
        most: 1 << 20,
        before: MARCH,
        steps: &KEPT,
    },
    Reading {
        most: 1 << 20,
        before: ANNA,
        steps: &KEPT,
    },
    Reading {
        most: 1 << 20,
        before: NOBODY,
        steps: &KEPT,
    },
    Reading {
        most: ROOM_FOR_TWO,
        before: MARCH,
        steps: &LIST_STAYS,
    },
    Reading {
        most: 0,
        before: MARCH,
        steps: &[(MARCH, true), (THREADS, false)],
    },
];

/// The replies to the steps of a reading, without what is kept.
fn replies<A: ArchiveStore>(
    alloc: Global,
    store: &mut A,
    policy: &Policy,
    steps: &[Step],
) -> Result<Vec<Tap>, Fail> {
    let mut replies = Vec::new(alloc);
    for (path, _kept) in steps {
        replies.push(reply(alloc, store, policy, &PlainThreader, None, path)?)?;
    }
    Ok(replies)
}

/// An empty archive gets the list of two messages, one of which is withdrawn behind the back of what is kept, once something was asked
/// for: then each step's reply is the one of before, or the one of now.
pub fn follow<A: ArchiveStore>(
    alloc: Global,
    store: &mut A,
    reading: &Reading,
) -> Result<(), Fail> {
    let policy = Policy::read(alloc, POLICY)?;
    list_add(store, "soc")?;
    import(store, alloc, "soc", TWO)?;
    let mut pages = pages_for(alloc, &policy, &PlainThreader, reading.most)?;
    kept_reply(store, &mut pages, None, reading.before)?;
    let old = replies(alloc, store, &policy, reading.steps)?;
    withdraw(store, "soc", &first_key(TWO)?, WithdrawnBy::Author)?;
    for ((path, kept), old) in reading.steps.iter().zip(old.iter()) {
        let new = reply(alloc, store, &policy, &PlainThreader, None, path)?;
        let got = kept_reply(store, &mut pages, None, path)?;
        let wanted = if *kept { old } else { &new };
        expect(got.bytes() == wanted.bytes(), format_args!("{path:?}"))?;
        expect(
            !*kept || old.bytes() != new.bytes(),
            "the withdrawal shows nowhere",
        )?;
    }
    Ok(())
}
