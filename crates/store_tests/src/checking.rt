//! What `check` finds: nothing in what commands made, and else the first message that is not sound, lists by name and then in
//! mailbox order.
use crate::questions::item;
use archive_store::{CheckError, Store};
use sqlite::{Alter, Connection, MemStore};
use std::alloc::Global;
use std::process::Abort;
use std::test::Fail;

/// The keys of the texts `one` and `two`.
const ONE: &[u8] = b"2c8b08da5ce60398e1f19af0e5dccc744df274b826abe585eaba68c525434806";

const TWO: &[u8] = b"27dd8ed44a83ff94d557f9fd0412ed5a8cbca69ea04922d88c01184a07300a5a";

/// What another program does to the messages 1 and 2 of `soc` and 3 and 4 of `a`, and the list and the key that are named, if the
/// store is not whole.
type Case = (&'static str, Option<(&'static [u8], &'static [u8])>);

const CASES: [Case; 19] = [
    ("UPDATE message SET month = month", None),
    ("UPDATE message SET withdrawn = 2, embargo = 7", None),
    ("DELETE FROM message", None),
    ("DELETE FROM message WHERE pos < 4", None),
    // a sender and an arrival that are none
    (
        "UPDATE message SET sender = x'0a' WHERE pos = 2",
        Some((b"soc", TWO)),
    ),
    (
        "UPDATE message SET arrival = 9223372036854775807 WHERE pos = 2",
        Some((b"soc", TWO)),
    ),
    // a text without its last LF, another one, and one that holds a separator line
    (
        "UPDATE message SET text = x'74776f' WHERE pos = 2",
        Some((b"soc", TWO)),
    ),
    (
        "UPDATE message SET text = x'74656e0a' WHERE pos = 2",
        Some((b"soc", TWO)),
    ),
    (
        "UPDATE message SET text = x'74776f0a0a46726f6d2061406220547565204d61722020342031303a30303a303020323030330a' WHERE pos = 2",
        Some((b"soc", TWO)),
    ),
    // another key, none, and one that is no text
    (
        "UPDATE message SET key = 'aaaaaaaaaaaaaaaaaaaaaaaaaaaaaaaaaaaaaaaaaaaaaaaaaaaaaaaaaaaaaaaa' WHERE pos = 2",
        Some((
            b"soc",
            b"aaaaaaaaaaaaaaaaaaaaaaaaaaaaaaaaaaaaaaaaaaaaaaaaaaaaaaaaaaaaaaaa",
        )),
    ),
    (
        "UPDATE message SET key = 'two' WHERE pos = 2",
        Some((b"soc", b"two")),
    ),
    (
        "UPDATE message SET key = CAST(x'c3' AS TEXT) WHERE pos = 2",
        Some((b"soc", b"\xc3")),
    ),
    // another sent date, month and author key
    (
        "UPDATE message SET sent = sent - 1 WHERE pos = 2",
        Some((b"soc", TWO)),
    ),
    (
        "UPDATE message SET month = month + 1 WHERE pos = 2",
        Some((b"soc", TWO)),
    ),
    (
        "UPDATE message SET author = x'61' WHERE pos = 2",
        Some((b"soc", TWO)),
    ),
    // the first of several
    ("UPDATE message SET sent = 0", Some((b"a", ONE))),
    (
        "UPDATE message SET sent = 0 WHERE pos <> 3",
        Some((b"a", TWO)),
    ),
    (
        "UPDATE message SET sent = 0 WHERE pos < 3",
        Some((b"soc", ONE)),
    ),
    (
        "UPDATE message SET sent = 0 WHERE pos = 1",
        Some((b"soc", ONE)),
    ),
];

/// The lists `soc` and `a` with two messages each, once another program has carried this statement out.
fn changed(alloc: Global, statement: &str) -> Result<Store<MemStore>, Fail> {
    let mut store = Store::open_in_memory(alloc)?;
    for list in ["soc", "a"] {
        store.list_add(list)?;
        for text in [b"one\n".as_slice(), b"two\n"] {
            store.add(alloc, list, &item("a@b", text)?)?;
        }
    }
    let mut connection = store.into_connection();
    connection.execute(statement, &[])?;
    adopted(connection)
}

fn adopted(connection: Connection<MemStore>) -> Result<Store<MemStore>, Fail> {
    match Store::adopt(connection) {
        Ok(store) => Ok(store),
        Err(_stop) => Err(Fail::from("a store")),
    }
}

/// The store is whole, or this message is named.
fn finds<S: Alter>(
    rt: &impl Abort,
    alloc: Global,
    store: &mut Store<S>,
    wanted: Option<(&[u8], &[u8])>,
) -> Result<(), Fail> {
    match store.check(alloc) {
        Ok(()) => assert!(rt; wanted.is_none()),
        Err(CheckError::Damaged { list, key }) => {
            assert_eq!(rt; Some((list.as_slice(), key.as_slice())), wanted);
        }
        Err(CheckError::Failed(fault)) => return Err(Fail::from(fault)),
    }
    Ok(())
}

#[test]
fn the_first_message_that_is_not_sound_is_named(rt: HostRuntime) -> Result<(), Fail> {
    for (statement, wanted) in CASES.iter() {
        let mut store = changed(rt.alloc(), statement)?;
        for _ in 0..2 {
            finds(&rt, rt.alloc(), &mut store, *wanted)?;
        }
    }
    Ok(())
}
