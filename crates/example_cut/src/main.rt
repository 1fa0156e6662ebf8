//! Cuts an mbox on standard input, and prints when each message arrived and how many bytes its text has.
#![tactic(auto)]

use anyhow::bail;
use mbox_core::device::{Counted, read_all};
use mbox_core::{Item, cut};
use std::alloc::Global;

/// The line of a message.
fn line_of(alloc: Global, item: &Item<'_>) -> anyhow::Result<String> {
    let arrival = item.envelope.arrival.text();
    let mut line = String::from_utf8(arrival.to_vec(alloc)?)?;
    line.push_str(format!(in alloc; " {} bytes", item.text.len())?.as_str())?;
    Ok(line)
}

fn main(rt: HostRuntime) -> anyhow::Result<()> {
    let alloc = rt.alloc();
    let mut input = Counted::new(rt.reader());
    let Ok(mbox) = read_all(alloc, &mut input) else {
        bail!("the input cannot be read");
    };
    match cut(&mbox) {
        Ok(messages) => {
            for item in messages {
                println!(rt; "{}", line_of(alloc, &item)?)?;
            }
        }
        // the first line that is not empty is no separator line: M1, and where it begins
        Err(fault) => println!(rt; "{fault}")?,
    }
    Ok(())
}
