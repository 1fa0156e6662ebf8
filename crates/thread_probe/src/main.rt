//! Threads the messages of an mbox on standard input, and times it, for the benchmark `bench/threads.py`.
//!
//! `time ROUNDS` prints the nanoseconds of the fastest of so many rounds. `rows` prints the depth and the place of each
//! row, `-` for a dummy. `entries` prints what threads ask of each message: its sent date in seconds, 1 for a reply, its
//! base subject, its id and its references, in hexadecimal, the sides of an id apart. Without words it prints how many
//! rows there are. Where `apart` is one of the words threads of one subject are not joined.
#![tactic(auto)]

use anyhow::bail;
use mail_core::{Header, Memory, MsgIdRef};
use mbox_core::device::{Counted, read_all};
use mbox_core::{Item, cut};
use std::alloc::Global;
use std::env;
use std::hash::RandomState;
use std::time::Instant;
use subject_core::base;
use thread_core::{Entry, NodeThreader, Row, threads};

/// The word that leaves step 5 out.
const APART: &str = "apart";

/// What a message says about threads.
fn entry_of(alloc: Global, item: &Item<'_>) -> Result<Entry, Memory> {
    let header = Header::of(item.text);
    let subject = base(alloc, &header.unfolded_subject(alloc)?)?;
    Ok(Entry {
        id: header.own_id(alloc)?,
        refs: header.references(alloc)?,
        sent: header.sent(item.envelope.arrival),
        base: subject.text,
        reply: subject.reply,
    })
}

fn entry(alloc: Global, item: &Item<'_>) -> anyhow::Result<Entry> {
    let Ok(entry) = entry_of(alloc, item) else {
        bail!("no memory");
    };
    Ok(entry)
}

fn entries(alloc: Global, mbox: &[u8]) -> anyhow::Result<Vec<Entry>> {
    let Ok(messages) = cut(mbox) else {
        bail!("no mbox");
    };
    let mut all = Vec::new(alloc);
    for item in messages {
        all.push(entry(alloc, &item)?)?;
    }
    Ok(all)
}

fn thread(
    alloc: Global,
    state: RandomState,
    entries: &[Entry],
    merge: bool,
) -> anyhow::Result<Vec<Row>> {
    let Ok(rows) = threads(alloc, &NodeThreader::new(state), entries, merge) else {
        bail!("no memory");
    };
    Ok(rows)
}

/// The nanoseconds of the fastest of so many rounds.
fn time(rt: &HostRuntime, rounds: u32, entries: &[Entry], merge: bool) -> anyhow::Result<u128> {
    let state = RandomState::new(rt)?;
    let mut best = u128::MAX;
    for _ in 0..rounds {
        let begun = Instant::now(rt)?;
        let rows = thread(rt.alloc(), state, entries, merge)?;
        best = best.min(begun.elapsed(rt)?.as_nanos());
        if rows.len() < entries.len() {
            bail!("rows are missing");
        }
    }
    Ok(best)
}

fn push_hex(text: &mut String, bytes: &[u8]) -> anyhow::Result<()> {
    for byte in bytes {
        for digit in [byte >> 4, byte & 15] {
            text.push(char::from_digit(u32::from(digit), 16).unwrap_or('-'))?;
        }
    }
    Ok(())
}

fn push_id(text: &mut String, id: &MsgIdRef<'_>) -> anyhow::Result<()> {
    push_hex(text, id.left())?;
    text.push('.')?;
    push_hex(text, id.right())
}

/// What threads ask of a message, as a line.
fn line(alloc: Global, entry: &Entry) -> anyhow::Result<String> {
    let mut text = format!(in alloc; "{} {} ", entry.sent.seconds(), u8::from(entry.reply))?;
    push_hex(&mut text, entry.base.as_slice())?;
    text.push(' ')?;
    match &entry.id {
        None => text.push('-')?,
        Some(id) => push_id(&mut text, &id.borrowed())?,
    }
    for at in 0..entry.refs.len() {
        text.push(' ')?;
        push_id(&mut text, &entry.refs.get(at))?;
    }
    Ok(text)
}

fn print_entries(rt: &HostRuntime, entries: &[Entry]) -> anyhow::Result<()> {
    for entry in entries {
        let text = line(rt.alloc(), entry)?;
        println!(rt; "{text}")?;
    }
    Ok(())
}

fn print_rows(rt: &HostRuntime, rows: &[Row]) -> anyhow::Result<()> {
    for row in rows {
        match row.place {
            Some(place) => println!(rt; "{} {place}", row.depth)?,
            None => println!(rt; "{} -", row.depth)?,
        }
    }
    Ok(())
}

fn main(rt: HostRuntime) -> anyhow::Result<()> {
    let alloc = rt.alloc();
    let words: Vec<String> = env::args(&rt)?.collect(alloc)?;
    let mut input = Counted::new(rt.reader());
    let Ok(mbox) = read_all(alloc, &mut input) else {
        bail!("standard input cannot be read");
    };
    let entries = entries(alloc, &mbox)?;
    let merge = !words.iter().any(|word| word.as_str() == APART);
    let mut words = words.iter().skip(1).filter(|word| word.as_str() != APART);
    match (words.next(), words.next()) {
        (Some(call), Some(rounds)) if call.as_str() == "time" => {
            println!(rt; "{}", time(&rt, rounds.parse()?, &entries, merge)?)?
        }
        (Some(call), None) if call.as_str() == "entries" => print_entries(&rt, &entries)?,
        (Some(call), None) if call.as_str() == "rows" => {
            print_rows(
                &rt,
                &thread(alloc, RandomState::new(&rt)?, &entries, merge)?,
            )?
        }
        (None, None) => println!(rt;
            "{}",
            thread(alloc, RandomState::new(&rt)?, &entries, merge)?.len()
        )?,
        _ => bail!("words: time ROUNDS, rows, or entries; and apart"),
    }
    Ok(())
}
