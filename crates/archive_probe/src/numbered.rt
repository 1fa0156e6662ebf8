//! Messages whose texts are numbers, and how long a store takes for them. The calls are:
//!
//! - `fill FILE COUNT BYTES` adds so many messages of so many bytes to a list of a new file, each by itself;
//! - `batch FILE COUNT BYTES` adds them in one call;
//! - `ask FILE COUNT BYTES` asks such a file for each of these messages by its key, far from the one before;
//! - `read FILE` reads all messages into memory, and `walk FILE` one after the other;
//! - `open FILE` does nothing: it takes the memory that every call takes;
//! - `grow FILE BYTES` adds a thousand messages to a list of 1,000 and to one of 49,000, in a new file;
//! - `lists FILE BYTES` adds a hundred messages to a list of 25,000 beside another of 24,000, and, where there are 27,000
//!   in the other, a hundred more, in a new file.
use crate::{LIST, tell};
use anyhow::bail;
use archive_store::{AddError, Key, Store, key_of};
use mbox_core::{Item, separator};
use sqlite::Alter;
use std::alloc::Global;
use std::ops::Range;
use std::time::Instant;

const OTHER_LIST: &str = "dev";

const SEPARATOR: &[u8] = b"From anna@example.org Tue Mar  4 10:00:00 2003";

/// How far a message stands from the one that is asked for next.
const STRIDE: usize = 7919;

/// What to time. A file's list has so many messages of so many bytes.
#[derive(Clone, Copy)]
pub enum Call {
    Fill { count: u32, size: usize },
    Batch { count: u32, size: usize },
    Ask { count: u32, size: usize },
    Read,
    Walk,
    Open,
    Grow { size: usize },
    Lists { size: usize },
}

/// A whole text of so many bytes that begins with a number, so that no two are the same.
fn numbered_text(alloc: Global, number: u32, size: usize) -> anyhow::Result<Vec<u8>> {
    let mut text = format!(in alloc; "{number}\n")?.into_bytes();
    text.resize(size.saturating_sub(1), b'x')?;
    text.push(b'\n')?;
    Ok(text)
}

/// A text of each number.
fn numbered_texts(alloc: Global, numbers: Range<u32>, size: usize) -> anyhow::Result<Vec<Vec<u8>>> {
    let mut texts = Vec::new(alloc);
    for number in numbers {
        texts.push(numbered_text(alloc, number, size)?)?;
    }
    Ok(texts)
}

fn item_of(text: &[u8]) -> anyhow::Result<Item<'_>> {
    let Some(envelope) = separator(SEPARATOR) else {
        bail!("no separator line");
    };
    let Some(item) = Item::new(envelope, text) else {
        bail!("no message");
    };
    Ok(item)
}

fn items_of<'a>(alloc: Global, texts: &'a [Vec<u8>]) -> anyhow::Result<Vec<Item<'a>>> {
    let mut items = Vec::with_capacity(alloc, texts.len())?;
    for text in texts.iter() {
        items.push(item_of(text)?)?;
    }
    Ok(items)
}

/// Adds a message of each number, each by itself.
fn add_numbered<S: Alter>(
    alloc: Global,
    store: &mut Store<S>,
    list: &str,
    numbers: Range<u32>,
    size: usize,
) -> anyhow::Result<()> {
    for number in numbers {
        let text = numbered_text(alloc, number, size)?;
        store.add(alloc, list, &item_of(&text)?)?;
    }
    Ok(())
}

fn add_items<S: Alter>(
    alloc: Global,
    store: &mut Store<S>,
    list: &str,
    items: &[Item<'_>],
) -> anyhow::Result<()> {
    match store.add_all(alloc, list, items) {
        Ok(_report) => Ok(()),
        Err(AddError { fault, .. }) => Err(fault.into()),
    }
}

/// Adds a message of each number, all in one call.
fn add_at_once<S: Alter>(
    alloc: Global,
    store: &mut Store<S>,
    list: &str,
    numbers: Range<u32>,
    size: usize,
) -> anyhow::Result<()> {
    let texts = numbered_texts(alloc, numbers, size)?;
    let items = items_of(alloc, &texts)?;
    add_items(alloc, store, list, &items)
}

/// How long it takes to add a message of each number.
fn time_adding<S: Alter>(
    rt: &HostRuntime,
    store: &mut Store<S>,
    numbers: Range<u32>,
    size: usize,
) -> anyhow::Result<()> {
    let begun = Instant::now(rt)?;
    add_numbered(rt.alloc(), store, LIST, numbers, size)?;
    tell(rt, begun.elapsed(rt)?)
}

/// How long it takes to add so many messages in one call, whose texts are there before.
fn time_batches<S: Alter>(
    rt: &HostRuntime,
    store: &mut Store<S>,
    count: u32,
    size: usize,
) -> anyhow::Result<()> {
    let alloc = rt.alloc();
    let texts = numbered_texts(alloc, 0..count, size)?;
    let items = items_of(alloc, &texts)?;
    let begun = Instant::now(rt)?;
    add_items(alloc, store, LIST, &items)?;
    tell(rt, begun.elapsed(rt)?)
}

/// The keys of so many messages.
fn keys(alloc: Global, count: u32, size: usize) -> anyhow::Result<Vec<Key>> {
    let mut keys = Vec::new(alloc);
    for number in 0..count {
        let text = numbered_text(alloc, number, size)?;
        keys.push(key_of(&item_of(&text)?))?;
    }
    Ok(keys)
}

/// Asks for the message of each key, in strides.
fn ask_each<S: Alter>(store: &mut Store<S>, keys: &[Key]) -> anyhow::Result<()> {
    let mut at = 0;
    for _ in 0..keys.len() {
        let Some(key) = keys.get(at) else {
            bail!("no key");
        };
        if store.row(LIST, key)?.is_none() {
            bail!("no message of a key");
        }
        at = (at + STRIDE) % keys.len();
    }
    Ok(())
}

fn time_asking<S: Alter>(
    rt: &HostRuntime,
    store: &mut Store<S>,
    count: u32,
    size: usize,
) -> anyhow::Result<()> {
    let keys = keys(rt.alloc(), count, size)?;
    let begun = Instant::now(rt)?;
    ask_each(store, &keys)?;
    tell(rt, begun.elapsed(rt)?)
}

/// How long it takes to read all messages, and that there are some.
fn time_reading<S: Alter>(rt: &HostRuntime, store: &mut Store<S>) -> anyhow::Result<()> {
    let begun = Instant::now(rt)?;
    let messages = store.rows(rt.alloc(), LIST)?;
    let took = begun.elapsed(rt)?;
    if messages.is_empty() {
        bail!("the list is empty");
    }
    tell(rt, took)
}

/// Reads all messages, and keeps none.
fn walk<S: Alter>(alloc: Global, store: &mut Store<S>) -> anyhow::Result<()> {
    let mut walk = store.each_row(alloc, LIST)?;
    for _ in 0..walk.left() {
        if walk.next(store)?.is_none() {
            bail!("a walk ended early");
        }
    }
    Ok(())
}

fn time_walking<S: Alter>(rt: &HostRuntime, store: &mut Store<S>) -> anyhow::Result<()> {
    let begun = Instant::now(rt)?;
    walk(rt.alloc(), store)?;
    tell(rt, begun.elapsed(rt)?)
}

/// How long a thousand messages take at the beginning of a list, and at its end.
fn time_growth<S: Alter>(
    rt: &HostRuntime,
    store: &mut Store<S>,
    size: usize,
) -> anyhow::Result<()> {
    let alloc = rt.alloc();
    add_at_once(alloc, store, LIST, 0..1_000, size)?;
    time_adding(rt, store, 1_000..2_000, size)?;
    add_at_once(alloc, store, LIST, 2_000..49_000, size)?;
    time_adding(rt, store, 49_000..50_000, size)
}

/// How long a hundred messages take where all lists hold 49,000, and where they hold 52,100.
fn time_lists<S: Alter>(rt: &HostRuntime, store: &mut Store<S>, size: usize) -> anyhow::Result<()> {
    let alloc = rt.alloc();
    store.list_add(OTHER_LIST)?;
    add_at_once(alloc, store, LIST, 0..25_000, size)?;
    add_at_once(alloc, store, OTHER_LIST, 0..24_000, size)?;
    time_adding(rt, store, 25_000..25_100, size)?;
    add_at_once(alloc, store, OTHER_LIST, 24_000..27_000, size)?;
    time_adding(rt, store, 25_100..25_200, size)
}

/// Times a call.
pub fn carry_out<S: Alter>(
    rt: &HostRuntime,
    store: &mut Store<S>,
    call: Call,
) -> anyhow::Result<()> {
    match call {
        Call::Ask { count, size } => time_asking(rt, store, count, size),
        Call::Read => time_reading(rt, store),
        Call::Walk => time_walking(rt, store),
        Call::Open => Ok(()),
        _ => {
            store.list_add(LIST)?;
            fill(rt, store, call)
        }
    }
}

/// Times a call on a new list.
fn fill<S: Alter>(rt: &HostRuntime, store: &mut Store<S>, call: Call) -> anyhow::Result<()> {
    match call {
        Call::Fill { count, size } => time_adding(rt, store, 0..count, size),
        Call::Batch { count, size } => time_batches(rt, store, count, size),
        Call::Grow { size } => time_growth(rt, store, size),
        Call::Lists { size } => time_lists(rt, store, size),
        _ => Ok(()),
    }
}

/// Adds a hundred messages to a new list, and prints how many are read back.
pub fn show<S: Alter>(rt: &HostRuntime, store: &mut Store<S>) -> anyhow::Result<()> {
    let alloc = rt.alloc();
    store.list_add(LIST)?;
    add_numbered(alloc, store, LIST, 0..50, 100)?;
    add_at_once(alloc, store, LIST, 50..100, 100)?;
    let messages = store.rows(alloc, LIST)?;
    println!(rt; "{}", messages.len())?;
    Ok(())
}

/// The call of a name and its numbers.
pub fn call_of(name: &str, numbers: &[String]) -> anyhow::Result<Call> {
    match (name, numbers) {
        ("read", []) => Ok(Call::Read),
        ("walk", []) => Ok(Call::Walk),
        ("open", []) => Ok(Call::Open),
        ("grow", [size]) => Ok(Call::Grow {
            size: size.parse()?,
        }),
        ("lists", [size]) => Ok(Call::Lists {
            size: size.parse()?,
        }),
        ("fill", [count, size]) => Ok(Call::Fill {
            count: count.parse()?,
            size: size.parse()?,
        }),
        ("batch", [count, size]) => Ok(Call::Batch {
            count: count.parse()?,
            size: size.parse()?,
        }),
        ("ask", [count, size]) => Ok(Call::Ask {
            count: count.parse()?,
            size: size.parse()?,
        }),
        _ => bail!("no such call, or not with so many numbers"),
    }
}
