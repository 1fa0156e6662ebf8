//! Threads that are kept while the store fails between two requests: over disks that stop, and where a message of another list
//! cannot be read.
use crate::breaking::{Step, UNAVAILABLE, last_shut, over_files};
use crate::damaged::damaged;
use crate::disks::{Held, new_files, one_page, stopping};
use archive_desk::import;
use archive_port::ArchiveStore;
use archive_store::Store;
use desk_tests::commands::list_add;
use desk_tests::noting::Noting;
use pages_tests::cases::TWO;
use pages_tests::keeping::{kept_reply, pages_for};
use pages_tests::links::reply;
use policy_core::Policy;
use sqlite::{Connection, FileStore};
use sqlite_disk::{Fuse, Memory};
use std::alloc::Global;
use std::process::Abort;
use std::test::Fail;
use thread_core::PlainThreader;

/// More bytes than all outlines take.
const MOST: usize = 1 << 20;

const OTHER: &[u8] = b"/l/other/threads";

const DAMAGED: &[u8] = b"/l/soc/threads";

/// The threads of a list and those of another, of which a message cannot be read, in both orders.
const ORDERS: [[&[u8]; 4]; 2] = [
    [OTHER, DAMAGED, OTHER, DAMAGED],
    [DAMAGED, OTHER, DAMAGED, OTHER],
];

/// Each reply is that of `answer`: the page of the one list, which is threaded once, and 503 for the other, each time.
fn stand_in<A: ArchiveStore>(
    rt: &impl Abort,
    alloc: Global,
    store: &mut A,
    paths: &[&[u8]],
) -> Result<(), Fail> {
    list_add(store, "other")?;
    import(store, alloc, "other", TWO)?;
    let policy = Policy::open();
    let noting = Noting::new(alloc);
    {
        let mut pages = pages_for(alloc, &policy, &noting, MOST)?;
        for path in paths {
            let wanted = reply(alloc, store, &policy, &PlainThreader, None, path)?;
            let got = kept_reply(store, &mut pages, None, path)?;
            assert!(rt; got.bytes() == wanted.bytes());
            assert_eq!(rt; got.bytes() == UNAVAILABLE, *path == DAMAGED);
        }
    }
    assert_eq!(rt; noting.into_noted().joins, 1);
    Ok(())
}

#[test]
fn a_list_that_cannot_be_read_takes_nothing_from_one_that_is_kept(
    rt: HostRuntime,
) -> Result<(), Fail> {
    for paths in &ORDERS {
        let mut store = damaged(rt.alloc())?;
        stand_in(&rt, rt.alloc(), &mut store, paths)?;
    }
    Ok(())
}

/// What is asked over disks that stop: a month that is made of what is kept, between two requests for that, and one of which the list
/// is read first, before and behind the list.
const KEPT_FIRST: [&[u8]; 3] = [
    b"/l/soc/threads",
    b"/l/soc/month/2003-03",
    b"/l/soc/threads",
];

const READ_FIRST: [&[u8]; 3] = [
    b"/l/soc/month/2003-03",
    b"/l/soc/threads",
    b"/l/soc/month/2003-03",
];

/// More calls than a disk gets while these are asked.
const CALLS: u64 = 4096;

/// The pages of these paths.
fn pages<A: ArchiveStore>(
    alloc: Global,
    store: &mut A,
    paths: &[&[u8]],
) -> Result<Vec<Vec<u8>>, Fail> {
    let mut pages = Vec::new(alloc);
    for path in paths {
        let output = reply(alloc, store, &Policy::open(), &PlainThreader, None, path)?;
        pages.push(output.bytes().to_vec(alloc)?)?;
    }
    Ok(pages)
}

/// How many replies are pages, before the first 503. Behind it each is 503, whatever is kept.
fn count_pages<A: ArchiveStore>(
    rt: &impl Abort,
    alloc: Global,
    store: &mut A,
    paths: &[&[u8]],
    pages: &[Vec<u8>],
) -> Result<usize, Fail> {
    let policy = Policy::open();
    let mut kept = pages_for(alloc, &policy, &PlainThreader, MOST)?;
    let mut count: usize = 0;
    let mut stopped = false;
    for (path, page) in paths.iter().zip(pages.iter()) {
        let output = kept_reply(store, &mut kept, None, path)?;
        if output.bytes() == UNAVAILABLE {
            stopped = true;
        } else {
            assert!(rt; !stopped && output.bytes() == page.as_slice());
            count = count.saturating_add(1);
        }
    }
    Ok(count)
}

/// A store over copies of these files whose disks stop after so many calls. `None` where none is opened.
fn open_over(
    alloc: Global,
    files: &Held,
    calls: u64,
) -> Result<Option<Store<FileStore<Fuse<Memory>>>>, Fail> {
    let fuses = stopping(alloc, files, calls, calls)?;
    if !fuses.may_be_used() {
        return Err(Fail::from("files that may be used"));
    }
    let Ok(connection) = Connection::open_files(alloc, fuses, one_page()) else {
        return Ok(None);
    };
    match Store::adopt(connection) {
        Ok(store) => Ok(Some(store)),
        Err(_stop) => Ok(None),
    }
}

/// How many replies are pages, if a store is opened.
fn count_over(
    rt: &impl Abort,
    alloc: Global,
    files: &Held,
    calls: u64,
    paths: &[&[u8]],
    pages: &[Vec<u8>],
) -> Result<Option<usize>, Fail> {
    match open_over(alloc, files, calls)? {
        Some(mut store) => count_pages(rt, alloc, &mut store, paths, pages).map(Some),
        None => Ok(None),
    }
}

/// The pages of these paths, over copies of these files that do not stop.
fn pages_over(alloc: Global, files: &Held, paths: &[&[u8]]) -> Result<Vec<Vec<u8>>, Fail> {
    match open_over(alloc, files, CALLS)? {
        Some(mut store) => pages(alloc, &mut store, paths),
        None => Err(Fail::from("an open store")),
    }
}

/// Disks that stop later than after these calls let more replies be pages: none, the first alone, and all in the end.
fn stops_at_each(
    rt: &impl Abort,
    alloc: Global,
    files: &Held,
    shut: u64,
    paths: &[&[u8]],
) -> Result<(), Fail> {
    let pages = pages_over(alloc, files, paths)?;
    let mut reached = Vec::new(alloc);
    for calls in shut..CALLS {
        let Some(count) = count_over(rt, alloc, files, calls, paths, &pages)? else {
            continue;
        };
        if reached.last() != Some(&count) {
            reached.push(count)?;
        }
        if count == paths.len() {
            break;
        }
    }
    assert_eq!(rt; reached.first(), Some(&0));
    assert!(rt; reached.contains(&1));
    assert_eq!(rt; reached.last(), Some(&paths.len()));
    Ok(())
}

/// Where a disk stops, nothing is shown of what is kept: 503, whether it was kept before a reading or is read again behind it.
#[test]
fn what_is_kept_is_not_shown_where_a_disk_stopped(rt: HostRuntime) -> Result<(), Fail> {
    let (_imported, files) = over_files(&rt, rt.alloc(), new_files(rt.alloc()), Step::Import)?;
    let shut = last_shut(&rt, rt.alloc(), &files)?;
    for paths in [&KEPT_FIRST, &READ_FIRST] {
        stops_at_each(&rt, rt.alloc(), &files, shut, paths)?;
    }
    Ok(())
}
