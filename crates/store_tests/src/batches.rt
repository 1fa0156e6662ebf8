//! Many messages at once, and a walk over a list by the messages' numbers.
use archive_store::limits::add_limited;
use archive_store::{AddError, AddReport, Added, Store, StoreFault};
use archive_tables::rows::read_rowid;
use archive_tables::texts::messages;
use civil_time::Instant;
use mbox_core::{Envelope, Item, Sender};
use sqlite::MemStore;
use std::alloc::Global;
use std::process::Abort;
use std::test::Fail;

fn item<'a>(text: &'a [u8]) -> Result<Item<'a>, Fail> {
    let sender = Sender::read(b"a@b").ok_or("a sender")?;
    let arrival = Instant::new(1_046_772_000).ok_or("an instant")?;
    Ok(Item::new(Envelope { sender, arrival }, text).ok_or("a message")?)
}

/// A store with the list `soc`.
fn with_list(alloc: Global) -> Result<Store<MemStore>, Fail> {
    let mut store = Store::open_in_memory(alloc)?;
    store.list_add("soc")?;
    Ok(store)
}

fn added(
    rt: &impl Abort,
    alloc: Global,
    store: &mut Store<MemStore>,
    items: &[Item<'_>],
    wanted: AddReport,
) -> Result<(), Fail> {
    match store.add_all(alloc, "soc", items) {
        Ok(report) => {
            assert_eq!(rt; report, wanted);
            Ok(())
        }
        Err(stop) => Err(Fail::from(stop.fault)),
    }
}

/// Adds the same messages twice.
fn added_twice(
    rt: &impl Abort,
    alloc: Global,
    store: &mut Store<MemStore>,
    items: &[Item<'_>],
) -> Result<(), Fail> {
    let first = AddReport {
        new: 2,
        known: 1,
        too_large: 1,
    };
    added(rt, alloc, store, items, first)?;
    let again = AddReport {
        new: 0,
        known: 3,
        too_large: 1,
    };
    added(rt, alloc, store, items, again)
}

/// Two messages, one that is too large, and the first again.
fn four_messages(
    rt: &impl Abort,
    alloc: Global,
    store: &mut Store<MemStore>,
    large: &[u8],
) -> Result<(), Fail> {
    let one = item(b"one")?;
    let two = item(b"two\n")?;
    let third = item(large)?;
    let same = item(b"one\n")?;
    added_twice(rt, alloc, store, &[one, two, third, same])
}

#[test]
fn new_and_known_and_too_large(rt: HostRuntime) -> Result<(), Fail> {
    let mut store = with_list(rt.alloc())?;
    let mut large = Vec::new(rt.alloc());
    large.resize(16_777_217, b'x')?;
    four_messages(&rt, rt.alloc(), &mut store, &large)?;
    assert_eq!(&rt; store.rows(rt.alloc(), "soc")?.len(), 2);
    Ok(())
}

/// One byte more than a message may have, for a list that has room and for one that is full.
#[test]
fn one_that_is_too_large(rt: HostRuntime) -> Result<(), Fail> {
    let mut store = with_list(rt.alloc())?;
    let large = vec![in rt.alloc(); b'x'; 16_777_216]?;
    let added = store.add(rt.alloc(), "soc", &item(&large)?);
    assert_eq!(&rt; added, Err(StoreFault::TooLarge));
    let limited = add_limited(&mut store, rt.alloc(), "soc", &item(&large)?, 0);
    assert_eq!(&rt; limited, Err(StoreFault::TooLarge));
    Ok(())
}

#[test]
fn none_of_no_messages(rt: HostRuntime) -> Result<(), Fail> {
    let mut store = with_list(rt.alloc())?;
    let none = AddReport {
        new: 0,
        known: 0,
        too_large: 0,
    };
    added(&rt, rt.alloc(), &mut store, &[], none)
}

#[test]
fn no_list_to_add_to(rt: HostRuntime) -> Result<(), Fail> {
    let mut store = with_list(rt.alloc())?;
    let items = [item(b"one")?];
    let stop = AddError {
        done: 0,
        fault: StoreFault::NoList,
    };
    assert!(&rt; store.add_all(rt.alloc(), "a", &items) == Err(stop));
    Ok(())
}

#[test]
fn messages_to_a_list_are_counted(rt: HostRuntime) -> Result<(), Fail> {
    let mut store = with_list(rt.alloc())?;
    store.list_add("a")?;
    let texts: [(&[u8], Added, usize); 4] = [
        (b"one\n", Added::New, 1),
        (b"two\n", Added::New, 2),
        (b"one", Added::Known, 2),
        (b"", Added::New, 3),
    ];
    for (text, wanted, held) in texts {
        let added = store.add(rt.alloc(), "soc", &item(text)?)?;
        assert_eq!(&rt; (added, store.count("soc")?), (wanted, held));
    }
    assert_eq!(&rt; store.count("a")?, 0);
    Ok(())
}

#[test]
fn no_list_to_count(rt: HostRuntime) -> Result<(), Fail> {
    let mut store = with_list(rt.alloc())?;
    assert!(&rt; store.count("a") == Err(StoreFault::NoList));
    Ok(())
}

#[test]
fn lists_by_name(rt: HostRuntime) -> Result<(), Fail> {
    let mut store = with_list(rt.alloc())?;
    assert!(&rt; store.has_list("soc")?);
    assert!(&rt; !store.has_list("so")?);
    Ok(())
}

#[test]
fn a_walk_over_a_list(rt: HostRuntime) -> Result<(), Fail> {
    let mut store = with_list(rt.alloc())?;
    store.list_add("a")?;
    let texts: [&[u8]; 2] = [b"one\n", b"two\n"];
    for text in texts {
        store.add(rt.alloc(), "soc", &item(text)?)?;
        store.add(rt.alloc(), "a", &item(text)?)?;
    }
    let mut conn = store.into_connection();
    let places = messages::places(&mut conn, "soc")?;
    assert_eq!(&rt; places.len(), 2);
    for (place, text) in places.iter().zip(texts) {
        let number = read_rowid(place)?;
        let found = messages::message_at(&mut conn, number)?.ok_or("a message")?;
        assert_eq!(&rt; found.text.as_slice(), text);
    }
    assert!(&rt; messages::message_at(&mut conn, 0)?.is_none());
    Ok(())
}
