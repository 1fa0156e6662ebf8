//! What each question answers.
use crate::commands::{TOKEN, add, embargo, run, withdraw};
use archive_store::{Added, Command, Key, Message, Outcome, Store, StoreFault, key_of};
use civil_time::{Day, Instant};
use mbox_core::{Envelope, Item, Sender};
use policy_core::{GrantKind, Standing, Withdrawn, WithdrawnBy};
use sqlite::Alter;
use std::alloc::Global;
use std::process::Abort;
use std::test::Fail;

/// The day of a text.
pub fn day(text: &str) -> Result<Day, Fail> {
    Ok(Day::read(text.as_bytes()).ok_or("a day")?)
}

/// A message of this sender and text.
pub fn item<'a>(sender: &'a str, text: &'a [u8]) -> Result<Item<'a>, Fail> {
    let sender = Sender::read(sender.as_bytes()).ok_or("a sender")?;
    let arrival = Instant::new(1_046_772_000).ok_or("an instant")?;
    Ok(Item::new(Envelope { sender, arrival }, text).ok_or("a message")?)
}

/// The lists have these names and no other, in this order.
pub fn are_names<S: Alter>(
    rt: &impl Abort,
    alloc: Global,
    store: &mut Store<S>,
    wanted: &[&str],
) -> Result<(), Fail> {
    let names = store.lists(alloc)?;
    assert_eq!(rt; names.len(), wanted.len());
    for (name, want) in names.iter().zip(wanted.iter()) {
        assert_eq!(rt; name.as_str(), *want);
    }
    Ok(())
}

/// A member in 2003, and a moderator in June of that year.
pub fn standings<S: Alter>(rt: &impl Abort, store: &mut Store<S>) -> Result<(), Fail> {
    store.list_add("soc")?;
    store.person_add("anna", TOKEN)?;
    for (kind, from, until) in [
        (GrantKind::Member, "2003-01-01", "2003-12-31"),
        (GrantKind::Moderator, "2003-06-01", "2003-06-30"),
    ] {
        store.grant("anna", "soc", kind, day(from)?, day(until)?)?;
    }
    for (person, list, text, standing) in [
        ("anna", "soc", "2003-05-31", Ok(Standing::Member)),
        ("anna", "soc", "2003-06-01", Ok(Standing::Moderator)),
        ("anna", "soc", "2003-06-30", Ok(Standing::Moderator)),
        ("anna", "soc", "2003-07-01", Ok(Standing::Member)),
        ("anna", "soc", "2004-01-01", Ok(Standing::Public)),
        ("eve", "xyz", "2003-06-01", Err(StoreFault::NoPerson)),
        ("anna", "xyz", "2003-06-01", Err(StoreFault::NoList)),
    ] {
        let found = store.standing(person, list, day(text)?);
        assert_eq!(rt; found, standing, "{text}");
    }
    Ok(())
}

/// What each question answers.
pub fn questions<S: Alter>(
    rt: &impl Abort,
    alloc: Global,
    store: &mut Store<S>,
) -> Result<(), Fail> {
    fill(rt, alloc, store)?;
    is_as_filled(rt, alloc, store)
}

/// Two messages on two lists, one withdrawn and one held back.
pub fn fill<S: Alter>(rt: &impl Abort, alloc: Global, store: &mut Store<S>) -> Result<(), Fail> {
    let until = day("2003-04-01")?;
    let two = item("c@d", b"two\n")?;
    let one = item("a at b", b"one")?;
    let keys = (Key::of(&one), Key::of(&two));
    fill_with(rt, alloc, store, (&one, &two), (&keys.0, &keys.1), until)
}

/// Two messages in `soc`, the first withdrawn and the second held back, and the second in another list too.
fn fill_with<'a, S: Alter>(
    rt: &impl Abort,
    alloc: Global,
    store: &mut Store<S>,
    items: (&'a Item<'a>, &'a Item<'a>),
    keys: (&'a Key, &'a Key),
    until: Day,
) -> Result<(), Fail> {
    let told = [
        Command::ListAdd { name: "soc" },
        Command::ListAdd { name: "other" },
        Command::PersonAdd {
            name: "anna",
            token: TOKEN,
        },
        add(alloc, "soc", items.0),
        add(alloc, "other", items.1),
        add(alloc, "soc", items.1),
        withdraw("soc", keys.0, WithdrawnBy::Author),
        embargo("soc", keys.1, until),
    ];
    let wanted = [
        Outcome::Done,
        Outcome::Done,
        Outcome::Done,
        Outcome::Added(Added::New),
        Outcome::Added(Added::New),
        Outcome::Added(Added::New),
        Outcome::Done,
        Outcome::Done,
    ];
    run(rt, alloc, store, &told, &wanted)
}

/// What `fill` put there: the lists by name, the person, and the messages in the order in which they came and by key.
/// A list of a name that is there is refused.
pub fn is_as_filled<S: Alter>(
    rt: &impl Abort,
    alloc: Global,
    store: &mut Store<S>,
) -> Result<(), Fail> {
    are_names(rt, alloc, store, &["other", "soc"])?;
    assert_eq!(rt; store.person_of_token(TOKEN)?.as_deref(), Some("anna"));
    let rows = store.rows(alloc, "soc")?;
    let [first, second] = rows.as_slice() else {
        return Err(Fail::from("two messages"));
    };
    is_first(rt, first)?;
    assert!(rt; second.key == Key::of(&item("c@d", b"two\n")?));
    assert_eq!(rt; second.withdrawn, Withdrawn::No);
    assert_eq!(rt; second.embargo_until, Some(day("2003-04-01")?));
    messages_by_key(rt, store)?;
    marks_by_key(rt, store, &rows)?;
    a_walk_that_is_dropped(rt, alloc, store)?;
    a_walk_to_the_end(rt, alloc, store, &rows)?;
    a_walk_that_passes_by(rt, alloc, store, &rows)?;
    assert_eq!(rt; store.list_add("soc"), Err(StoreFault::ListExists));
    Ok(())
}

/// A walk that is dropped at its first message, and one over a list that is not there.
fn a_walk_that_is_dropped<S: Alter>(
    rt: &impl Abort,
    alloc: Global,
    store: &mut Store<S>,
) -> Result<(), Fail> {
    assert!(rt; matches!(store.each_row(alloc, "xyz"), Err(StoreFault::NoList)));
    let mut walk = store.each_row(alloc, "soc")?;
    let first = walk.next(store)?.ok_or("a message")?;
    is_first(rt, &first)?;
    assert_eq!(rt; walk.left(), 1);
    Ok(())
}

/// A walk gives these messages, one after the other, and then none.
fn a_walk_to_the_end<S: Alter>(
    rt: &impl Abort,
    alloc: Global,
    store: &mut Store<S>,
    rows: &[Message],
) -> Result<(), Fail> {
    let mut walk = store.each_row(alloc, "soc")?;
    assert_eq!(rt; walk.left(), rows.len());
    for row in rows.iter() {
        let message = walk.next(store)?.ok_or("a message")?;
        assert!(rt; message.key == row.key);
        assert_eq!(rt; message.item.as_item().text, row.item.as_item().text);
    }
    for _ in 0..2 {
        assert!(rt; walk.next(store)?.is_none());
    }
    Ok(())
}

/// A walk tells of a message when it came and its marks, and passes it by.
fn a_walk_that_passes_by<S: Alter>(
    rt: &impl Abort,
    alloc: Global,
    store: &mut Store<S>,
    rows: &[Message],
) -> Result<(), Fail> {
    let mut walk = store.each_row(alloc, "soc")?;
    for row in rows.iter() {
        for _ in 0..2 {
            let marks = walk.peek_marks(store)?.ok_or("marks")?;
            assert_eq!(rt; marks.arrival, row.item.arrival());
            assert_eq!(rt;
                (marks.withdrawn, marks.embargo_until),
                (row.withdrawn, row.embargo_until)
            );
        }
        walk.pass();
    }
    walk.pass();
    assert_eq!(rt; walk.left(), 0);
    assert!(rt; walk.peek_marks(store)?.is_none() && walk.next(store)?.is_none());
    let mut walk = store.each_row(alloc, "soc")?;
    walk.pass();
    let second = walk.next(store)?.ok_or("a message")?;
    assert!(rt; rows.get(1).is_some_and(|row| second.key == row.key));
    Ok(())
}

/// The first message, which its author withdrew.
fn is_first(rt: &impl Abort, first: &Message) -> Result<(), Fail> {
    let one = item("a at b", b"one")?;
    let item = first.item.as_item();
    assert!(rt; first.key == Key::of(&one));
    assert_eq!(rt; item.envelope.sender, one.envelope.sender);
    assert_eq!(rt; item.envelope.arrival, one.envelope.arrival);
    assert_eq!(rt; item.text, b"one\n".as_slice());
    assert!(rt; item.complete);
    assert_eq!(rt; first.withdrawn, Withdrawn::Author);
    assert_eq!(rt; first.embargo_until, None);
    Ok(())
}

/// A message by its key: that of one which is not there, of one which is, and of a list that is not there.
fn messages_by_key<S: Alter>(rt: &impl Abort, store: &mut Store<S>) -> Result<(), Fail> {
    let key = Key::of(&item("a at b", b"one\n")?);
    let found = store.row("soc", &key)?.ok_or("a message")?;
    is_first(rt, &found)?;
    let other = Key::of(&item("a at b", b"two")?);
    assert!(rt; store.row("other", &key)?.is_none() && store.row("other", &other)?.is_some());
    assert!(rt; matches!(store.row("xyz", &key), Err(StoreFault::NoList)));
    is_first(rt, &store.find("soc", &key)?.ok_or("a message")?)?;
    assert!(rt; store.find("other", &key)?.is_none() && store.find("xyz", &key)?.is_none());
    Ok(())
}

/// The arrival and the marks of these messages by their keys, of one that is not there, and of a list that is not there.
fn marks_by_key<S: Alter>(
    rt: &impl Abort,
    store: &mut Store<S>,
    rows: &[Message],
) -> Result<(), Fail> {
    for row in rows.iter() {
        let marks = store.marks("soc", &row.key)?.ok_or("marks")?;
        assert_eq!(rt; marks.arrival, row.item.arrival());
        assert_eq!(rt;
            (marks.withdrawn, marks.embargo_until),
            (row.withdrawn, row.embargo_until)
        );
    }
    let other = Key::of(&item("a at b", b"three")?);
    assert!(rt; store.marks("soc", &other)?.is_none());
    assert!(rt; matches!(store.marks("xyz", &other), Err(StoreFault::NoList)));
    Ok(())
}

/// How many of the lists `a`, `b` and `c` are there, where they are the first of the three.
pub fn count_three<S: Alter>(
    rt: &impl Abort,
    alloc: Global,
    store: &mut Store<S>,
) -> Result<usize, Fail> {
    let names = store.lists(alloc)?;
    for (name, first) in names.iter().zip(["a", "b", "c"]) {
        assert_eq!(rt; name.as_str(), first);
    }
    Ok(names.len())
}

#[test]
fn keys_are_those_of_whole_texts(rt: HostRuntime) -> Result<(), Fail> {
    let hello = "5891b5b522d5df086d0ff0b110fbd9d21bb4fc7163af34d08286a2e846f6be03";
    for text in [b"hello".as_slice(), b"hello\n".as_slice()] {
        assert_eq!(rt; key_of(&item("a@b", text)?).as_str(), hello);
    }
    Ok(())
}
