//! Makes one call of the libraries on standard input, so many times, for the benchmarks of `bench/`.
//!
//! Words: the call, and how often. It prints the sum of what the calls counted.
#![tactic(auto)]

use civil_time::Instant;
use mail_core::{Memory, author_key, fields, first, ids, sent, unfold};
use mbox_core::cut;
use mbox_core::device::{Counted, read_all};
use std::alloc::Global;
use std::env;
use std::process::ExitCode;
use subject_core::base;

/// What one call counts of a text: how much it found, or how long its answer is.
fn count(alloc: Global, call: &str, text: &[u8]) -> Result<usize, Memory> {
    Ok(match call {
        "author_key" => author_key(alloc, text)?.len(),
        "base" => base_len(alloc, text)?,
        "cut" => items(text),
        "fields" => field_count(text),
        "first" => first(text, b"subject").map_or(0, |body| body.len()),
        "ids" => ids(alloc, text)?.len(),
        "sent" => sent_or_none(text),
        "unfold" => unfold(alloc, text)?.len(),
        _ => 0,
    })
}

fn base_len(alloc: Global, text: &[u8]) -> Result<usize, Memory> {
    match base(alloc, text) {
        Ok(base) => Ok(base.text.as_slice().len()),
        Err(_) => Err(Memory),
    }
}

fn field_count(text: &[u8]) -> usize {
    let mut count: usize = 0;
    for _ in fields(text) {
        count = count.wrapping_add(1);
    }
    count
}

fn items(text: &[u8]) -> usize {
    let mut count: usize = 0;
    if let Ok(messages) = cut(text) {
        for _ in messages {
            count = count.wrapping_add(1);
        }
    }
    count
}

/// 1 where the text is a date of its own, and not the arrival's.
fn sent_or_none(text: &[u8]) -> usize {
    let Some(arrival) = Instant::new(0) else {
        return 0;
    };
    usize::from(sent(text, arrival) != arrival)
}

/// The sum of what so many calls count.
fn counts(alloc: Global, call: &str, rounds: u32, text: &[u8]) -> Result<usize, Memory> {
    let mut sum: usize = 0;
    for _ in 0..rounds {
        sum = sum.wrapping_add(count(alloc, call, text)?);
    }
    Ok(sum)
}

fn main(rt: HostRuntime) -> anyhow::Result<ExitCode> {
    let alloc = rt.alloc();
    let words: Vec<String> = env::args(&rt)?.collect(alloc)?;
    let (Some(call), Some(rounds)) = (words.get(1), words.get(2)) else {
        return Ok(ExitCode::from(2));
    };
    let rounds = rounds.as_str().parse::<u32>()?;
    let mut input = Counted::new(rt.reader());
    let Ok(text) = read_all(alloc, &mut input) else {
        return Ok(ExitCode::from(1));
    };
    match counts(alloc, call.as_str(), rounds, text.as_slice()) {
        Ok(sum) => println!(rt; "{sum}")?,
        Err(_) => return Ok(ExitCode::from(1)),
    }
    Ok(ExitCode::SUCCESS)
}
