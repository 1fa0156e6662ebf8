//! Calls on an archive in memory.
use crate::texts::{MINE, TWO, WITHDRAWN};
use crate::{Mark, outcome_text, tell};
use anyhow::bail;
use archive_desk::{DeskError, export, import, message};
use archive_pages::{ServeFault, answer};
use archive_results::{Ask, Asked, Reader};
use archive_store::{Key, Store};
use civil_time::Day;
use mbox_core::cut;
use mbox_core::device::Tap;
use policy_core::{Policy, WithdrawnBy};
use sqlite::Alter;
use std::alloc::Global;
use std::hash::RandomState;
use thread_core::NodeThreader;

/// The second of them under another separator line, and a third.
const GROWN: &[u8] =
    b"From carl@example.org Wed Mar 12 11:30:00 2003\nSubject: Re: Hello\n\nTwo.\n\n\
      From dora@example.org Thu Mar 13 09:00:00 2003\nSubject: Third\n\nThree.\n\n";

const ALL_LISTS: &[u8] = b"GET / HTTP/1.1\r\n\r\n";

const ALL_THREADS: &[u8] = b"GET /l/soc/threads HTTP/1.1\r\n\r\n";

const THE_MBOX: &[u8] = b"GET /l/soc/mbox HTTP/1.1\r\n\r\n";

/// An import in which a growth is refused, how many messages the list holds then, and the same import again.
fn import_row<S: Alter>(rt: &HostRuntime, store: &mut Store<S>, mbox: &[u8]) -> anyhow::Result<()> {
    let alloc = rt.alloc();
    tell(rt, Mark::Begin);
    let first = import(store, alloc, "soc", mbox);
    tell(rt, Mark::End);
    let held = store.count("soc")?;
    let second = import(store, alloc, "soc", mbox);
    println!(rt; "import: {first:?}, {held} held, then {second:?}")?;
    Ok(())
}

fn is_denied<S: Alter>(
    alloc: Global,
    store: &mut Store<S>,
    ask: &Ask<'_>,
    key: &Key,
) -> Result<bool, DeskError> {
    match message(store, alloc, ask, key)? {
        Asked::Denied(rule) => Ok(rule == "withdrawn"),
        _ => Ok(false),
    }
}

fn is_served<S: Alter>(
    alloc: Global,
    store: &mut Store<S>,
    ask: &Ask<'_>,
    key: &Key,
) -> Result<bool, DeskError> {
    match message(store, alloc, ask, key)? {
        Asked::Served(text) => Ok(text.as_slice() == b"Subject: Re: Hello\n\nTwo.\n".as_slice()),
        _ => Ok(false),
    }
}

fn message_rows<S: Alter>(
    rt: &HostRuntime,
    store: &mut Store<S>,
    ask: &Ask<'_>,
) -> anyhow::Result<()> {
    let alloc = rt.alloc();
    let mut all = cut(TWO)?;
    let (Some(one), Some(two)) = (all.next(), all.next()) else {
        bail!("no messages");
    };
    let (one, two) = (Key::of(&one), Key::of(&two));
    store.withdraw("soc", &one, WithdrawnBy::Author)?;
    tell(rt, Mark::Begin);
    let first = is_denied(alloc, store, ask, &one);
    tell(rt, Mark::End);
    let (first, second) = (
        outcome_text(alloc, first)?,
        outcome_text(alloc, is_denied(alloc, store, ask, &one))?,
    );
    println!(rt; "denied: {first}, then {second}")?;
    tell(rt, Mark::Begin);
    let first = is_served(alloc, store, ask, &two);
    tell(rt, Mark::End);
    let (first, second) = (
        outcome_text(alloc, first)?,
        outcome_text(alloc, is_served(alloc, store, ask, &two))?,
    );
    println!(rt; "served: {first}, then {second}")?;
    store.restore("soc", &one)?;
    Ok(())
}

/// Exports to an output that passes so many bytes: what came of it, and whether just those went out that it counts.
fn export_to<S: Alter>(
    rt: &HostRuntime,
    store: &mut Store<S>,
    ask: &Ask<'_>,
    passes: usize,
) -> anyhow::Result<()> {
    let alloc = rt.alloc();
    let mut out = Tap::new(alloc, b"", passes)?;
    tell(rt, Mark::Begin);
    let first = export(store, alloc, ask, &mut out);
    tell(rt, Mark::End);
    let counted = match &first {
        Ok(written) => *written,
        Err(stop) => stop.written,
    };
    let is_exact = out.bytes().len() as u64 == counted && TWO.starts_with(out.bytes());
    let mut whole = Tap::new(alloc, b"", passes)?;
    let second = export(store, alloc, ask, &mut whole);
    let again = whole.bytes().len();
    println!(rt; "export: {first:?}, exact {is_exact}, then {second:?} of {again}")?;
    Ok(())
}

/// The two messages are exported to who wrote the first, which is withdrawn.
fn own_row<S: Alter>(rt: &HostRuntime, store: &mut Store<S>, day: Day) -> anyhow::Result<()> {
    let alloc = rt.alloc();
    let Some(one) = cut(TWO)?.next() else {
        bail!("no message");
    };
    let one = Key::of(&one);
    store.person_add("anna", "0123456789abcdef")?;
    store.address_set(alloc, "anna", "Anna@Example.org")?;
    store.withdraw("soc", &one, WithdrawnBy::Board)?;
    let rules = format!(in alloc; "{MINE}{WITHDRAWN}")?;
    let policy = Policy::read(alloc, &rules)?;
    let ask = Ask {
        policy: &policy,
        reader: Reader::Person("anna"),
        list: "soc",
        day,
    };
    export_to(rt, store, &ask, 1000)?;
    store.restore("soc", &one)?;
    Ok(())
}

/// What a request is answered with.
fn reply<S: Alter>(
    rt: &HostRuntime,
    store: &mut Store<S>,
    nodes: &NodeThreader,
    day: Day,
    request: &[u8],
    is_marked: bool,
) -> anyhow::Result<(Result<bool, ServeFault>, Vec<u8>)> {
    let alloc = rt.alloc();
    let mut input = Tap::new(alloc, request, 100)?;
    let mut output = Tap::new(alloc, b"", 3000)?;
    let policy = Policy::open();
    if is_marked {
        tell(rt, Mark::Begin);
    }
    let told = answer(store, alloc, &policy, nodes, day, &mut input, &mut output);
    if is_marked {
        tell(rt, Mark::End);
    }
    let told = match told {
        Ok(status) => Ok(status.as_str() == "200"),
        Err(fault) => Err(fault),
    };
    Ok((told, output.bytes().to_vec(alloc)?))
}

fn reply_row<S: Alter>(
    rt: &HostRuntime,
    store: &mut Store<S>,
    nodes: &NodeThreader,
    day: Day,
    request: &[u8],
) -> anyhow::Result<()> {
    let alloc = rt.alloc();
    let (_, wanted) = reply(rt, store, nodes, day, request, false)?;
    let (first, got) = reply(rt, store, nodes, day, request, true)?;
    let (second, again) = reply(rt, store, nodes, day, request, false)?;
    let is_part = wanted.starts_with(got.as_slice());
    let (is_whole, is_same) = (
        got.as_slice() == wanted.as_slice(),
        again.as_slice() == wanted.as_slice(),
    );
    let unavailable = got.starts_with(b"HTTP/1.1 503 Service Unavailable\r\n".as_slice());
    let (first, second) = (outcome_text(alloc, first)?, outcome_text(alloc, second)?);
    println!(rt;
        "reply: {first}, whole {is_whole}, part {is_part}, 503 {unavailable}, then {second}, same {is_same}"
    )?;
    Ok(())
}

fn rows_of<S: Alter>(rt: &HostRuntime, store: &mut Store<S>) -> anyhow::Result<()> {
    let alloc = rt.alloc();
    store.list_add("soc")?;
    import_row(rt, store, TWO)?;
    import_row(rt, store, TWO)?;
    let Some(day) = Day::read(b"2003-03-20") else {
        bail!("no day");
    };
    let hiding = Policy::read(alloc, WITHDRAWN)?;
    let ask = Ask {
        policy: &hiding,
        reader: Reader::Nobody,
        list: "soc",
        day,
    };
    message_rows(rt, store, &ask)?;
    export_to(rt, store, &ask, 10)?;
    export_to(rt, store, &ask, 1000)?;
    own_row(rt, store, day)?;
    let nodes = NodeThreader::new(RandomState::new(rt)?);
    reply_row(rt, store, &nodes, day, ALL_LISTS)?;
    reply_row(rt, store, &nodes, day, ALL_THREADS)?;
    reply_row(rt, store, &nodes, day, THE_MBOX)?;
    import_row(rt, store, GROWN)
}

/// Each call on an archive that is empty first.
pub fn archive_rows(rt: &HostRuntime) -> anyhow::Result<()> {
    let mut store = Store::open_in_memory(rt.alloc())?;
    rows_of(rt, &mut store)
}
