//! What is filed of messages: commands keep it right, and questions go by it, also where another program changed it.
use crate::questions::{day, item};
use archive_store::{Added, Key, Message, Store, StoreFault};
use civil_time::Month;
use mbox_core::Item;
use policy_core::WithdrawnBy;
use sqlite::{Alter, Connection, MemStore, params};
use std::alloc::Global;
use std::process::Abort;
use std::test::Fail;

/// The text of a message that arrived on 4 March 2003 at 10:00, and what is filed of it: its sent date, its month and its author key.
type Case = (&'static [u8], i64, i64, &'static [u8]);

/// March 2003: the year times 12, and the month less 1.
const MARCH: i64 = 24038;

/// The first ends without LF, the second has neither a date nor an author, and the last was sent in April by the clock of Greenwich.
const CASES: [Case; 4] = [
    (
        b"Date: Wed, 12 Mar 2003 10:30:00 +0000\nFrom: Bob <BOB@example.org>",
        1_047_465_000,
        MARCH,
        b"bob@example.org",
    ),
    (b"one\n", 1_046_772_000, MARCH, b""),
    (
        b"From: Anna\nDate: 28 Feb 2003 23:50:00 +0000\n\ntwo\n",
        1_046_476_200,
        MARCH - 1,
        b"anna",
    ),
    (
        b"From: bob@example.org\nDate: Mon, 31 Mar 2003 23:30:00 -0100\n\nthree\n",
        1_049_157_000,
        MARCH + 1,
        b"bob@example.org",
    ),
];

/// A store with the lists `soc` and `a`, which hold these messages: `soc` by one call each, `a` by one call for all.
fn filled(alloc: Global) -> Result<Store<MemStore>, Fail> {
    let mut store = Store::open_in_memory(alloc)?;
    store.list_add("soc")?;
    store.list_add("a")?;
    fill(alloc, &mut store)?;
    Ok(store)
}

fn fill<S: Alter>(alloc: Global, store: &mut Store<S>) -> Result<(), Fail> {
    let mut items: Vec<Item<'_>> = Vec::new(alloc);
    for (text, _sent, _month, _author) in CASES.iter() {
        let message = item("c@d", text)?;
        store.add(alloc, "soc", &message)?;
        items.push(message)?;
    }
    match store.add_all(alloc, "a", &items) {
        Ok(_report) => Ok(()),
        Err(stop) => Err(Fail::from(stop.fault)),
    }
}

/// Tells a store each command that a message meets once it is there.
fn mark<S: Alter>(rt: &impl Abort, alloc: Global, store: &mut Store<S>) -> Result<(), Fail> {
    let until = day("2003-04-01")?;
    for (text, _sent, _month, _author) in CASES.iter() {
        let message = item("c@d", text)?;
        let key = Key::of(&message);
        store.withdraw("soc", &key, WithdrawnBy::Board)?;
        store.embargo("soc", &key, until)?;
        assert_eq!(rt;
            store.add(alloc, "soc", &item("e@f", text)?),
            Ok(Added::Known)
        );
        store.restore("soc", &key)?;
        assert!(rt; store.lift("soc", &key)?);
        store.withdraw("a", &key, WithdrawnBy::Author)?;
    }
    Ok(())
}

/// The columns of a list's messages are these.
fn are_filed<S: Alter>(
    rt: &impl Abort,
    connection: &mut Connection<S>,
    list: &str,
) -> Result<(), Fail> {
    let rows = connection.query_all(
        "SELECT sent, month, author FROM message WHERE list = ?1 ORDER BY pos",
        params![list],
    )?;
    assert_eq!(rt; rows.len(), CASES.len());
    for (row, (_text, sent, month, author)) in rows.iter().zip(CASES.iter()) {
        let numbers: (i64, i64) = (row.get(0)?, row.get(1)?);
        let key: Vec<u8> = row.get(2)?;
        assert_eq!(rt; numbers, (*sent, *month));
        assert_eq!(rt; key.as_slice(), *author);
    }
    Ok(())
}

#[test]
fn commands_file_what_texts_say(rt: HostRuntime) -> Result<(), Fail> {
    let mut store = filled(rt.alloc())?;
    mark(&rt, rt.alloc(), &mut store)?;
    let mut connection = store.into_connection();
    for list in ["soc", "a"] {
        are_filed(&rt, &mut connection, list)?;
    }
    Ok(())
}

/// What another program does, a month, an author key, and the places of the messages that are then found by each.
type Changed = (
    &'static str,
    &'static [u8],
    &'static [usize],
    &'static [u8],
    &'static [usize],
);

/// What changes nothing.
const NOTHING: &str = "UPDATE message SET month = month";

const CHANGED: [Changed; 8] = [
    (NOTHING, b"2003-03", &[1, 0], b"bob@example.org", &[0, 3]),
    (NOTHING, b"2003-04", &[3], b"BOB@example.org", &[]),
    (
        "UPDATE message SET month = 24038 WHERE pos > 4",
        b"2003-03",
        &[1, 0],
        b"",
        &[1],
    ),
    (
        "UPDATE message SET month = 24038",
        b"2003-03",
        &[2, 1, 0, 3],
        b"anna",
        &[2],
    ),
    (
        "UPDATE message SET month = -1 WHERE list = 'soc'",
        b"2003-03",
        &[],
        b"anna",
        &[2],
    ),
    (
        "UPDATE message SET sent = 7 WHERE list = 'soc'",
        b"2003-03",
        &[0, 1],
        b"bob@example.org",
        &[0, 3],
    ),
    (
        "UPDATE message SET sent = -9223372036854775807 WHERE month = 24039",
        b"2003-04",
        &[3],
        b"bob@example.org",
        &[3, 0],
    ),
    (
        "UPDATE message SET author = x'616e6e61' WHERE list = 'soc'",
        b"2003-02",
        &[2],
        b"anna",
        &[2, 1, 0, 3],
    ),
];

/// A store whose connection was used by another program.
fn changed_by(alloc: Global, statement: &str) -> Result<Store<MemStore>, Fail> {
    let mut connection = filled(alloc)?.into_connection();
    connection.execute(statement, &[])?;
    match Store::adopt(connection) {
        Ok(store) => Ok(store),
        Err(_stop) => Err(Fail::from("a store")),
    }
}

/// Those of the messages that stand at these places, in this order, as they came.
fn are_of(rt: &impl Abort, found: &[Message], places: &[usize]) -> Result<(), Fail> {
    assert_eq!(rt; found.len(), places.len());
    for (message, place) in found.iter().zip(places.iter()) {
        let (text, _sent, _month, _author) = CASES.get(*place).ok_or("a message")?;
        assert!(rt; message.key == Key::of(&item("c@d", text)?));
    }
    Ok(())
}

#[test]
fn questions_go_by_what_is_filed(rt: HostRuntime) -> Result<(), Fail> {
    for (statement, month, in_month, author, by_author) in CHANGED.iter() {
        let month = Month::read(month).ok_or("a month")?;
        let mut store = changed_by(rt.alloc(), statement)?;
        let found = store.in_month(rt.alloc(), "soc", month)?;
        are_of(&rt, &found, in_month)?;
        let found = store.by_author(rt.alloc(), "soc", author)?;
        are_of(&rt, &found, by_author)?;
        let found = store.rows(rt.alloc(), "soc")?;
        are_of(&rt, &found, &[0, 1, 2, 3])?;
    }
    Ok(())
}

#[test]
fn a_list_that_is_not_there_is_refused(rt: HostRuntime) -> Result<(), Fail> {
    let mut store = filled(rt.alloc())?;
    let month = Month::read(b"2003-03").ok_or("a month")?;
    let found = store.in_month(rt.alloc(), "xyz", month);
    assert!(rt; matches!(found, Err(StoreFault::NoList)));
    let found = store.by_author(rt.alloc(), "xyz", b"");
    assert!(rt; matches!(found, Err(StoreFault::NoList)));
    Ok(())
}
