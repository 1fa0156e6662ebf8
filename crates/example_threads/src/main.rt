//! Threads the messages of an mbox on standard input (RFC 5256, REFERENCES), and prints their places, each row at its depth.
#![tactic(auto)]

use anyhow::bail;
use mail_core::{Header, Memory};
use mbox_core::{Item, cut, device};
use std::alloc::Global;
use std::hash::RandomState;
use subject_core::base;
use thread_core::{Entry, NodeThreader, threads};

/// What a message says about threads.
fn entry_of(alloc: Global, item: &Item<'_>) -> Result<Entry, Memory> {
    let header = Header::of(item.text);
    let subject = base(alloc, &header.unfolded_subject(alloc)?)?;
    Ok(Entry {
        id: header.own_id(alloc)?,
        refs: header.references(alloc)?,
        sent: header.sent(item.envelope.arrival),
        base: subject.text,
        reply: subject.reply,
    })
}

fn main(rt: HostRuntime) -> anyhow::Result<()> {
    let alloc = rt.alloc();
    let mut input = device::Counted::new(rt.reader());
    let Ok(mbox) = device::read_all(alloc, &mut input) else {
        bail!("the input cannot be read");
    };
    let mut entries = Vec::new(alloc);
    for item in cut(&mbox)? {
        entries.push(entry_of(alloc, &item)?)?;
    }
    let threader = NodeThreader::new(RandomState::new(&rt)?);
    for row in threads(alloc, &threader, &entries, true)? {
        println!(rt; "{} {:?}", row.depth, row.place)?;
    }
    Ok(())
}
