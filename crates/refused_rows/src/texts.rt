//! Calls on texts and on entries.
use crate::{Mark, outcome_text, tell};
use anyhow::bail;
use civil_time::{Day, Instant};
use mail_core::{Memory, MsgId, Octets, ids};
use mbox_core::device::Tap;
use policy_core::{Policy, PolicyFault, Standing};
use sift_run::{SiftFault, SiftWords, sift};
use std::alloc::{AllocError, Global};
use std::hash::RandomState;
use subject_core::base;
use thread_core::{Entry, NodeThreader, PlainThreader, References, Row, Threader, threads};

/// Two messages, the second an answer to the first.
pub const TWO: &[u8] =
    b"From anna@example.org Tue Mar  4 10:00:00 2003\nFrom: Anna <anna@example.org>\nSubject: Hello\n\nOne.\n\n\
      From bob@example.org Wed Mar 12 10:30:00 2003\nSubject: Re: Hello\n\nTwo.\n\n";

/// A policy under which what was withdrawn is hidden from the public.
pub const WITHDRAWN: &str =
    "[[rule]]\nname = \"withdrawn\"\neffect = \"deny\"\nstandings = [\"public\"]\nwithdrawn = [\"author\", \"board\"]\n\n\
     [[rule]]\nname = \"all\"\neffect = \"allow\"\n";

/// The rule by which one's own messages may be read.
pub const MINE: &str = "[[rule]]\nname = \"mine\"\neffect = \"allow\"\nown = true\n\n";

/// Passes the two messages on: whether all of it went out.
fn sifted(alloc: Global, day: Day, input: &mut Tap, output: &mut Tap) -> Result<bool, SiftFault> {
    let words = SiftWords {
        list: "soc",
        standing: Standing::Public,
        day,
        min_age: None,
    };
    sift(alloc, &Policy::open(), &words, input, output)?;
    Ok(output.bytes() == TWO)
}

/// `sift` of the two messages: what it came to, and whether a beginning of them went out.
pub fn sift_row(rt: &HostRuntime) -> anyhow::Result<()> {
    let alloc = rt.alloc();
    let Some(day) = Day::read(b"2003-03-20") else {
        bail!("no day");
    };
    let (mut input, mut output) = (Tap::new(alloc, TWO, 1000)?, Tap::new(alloc, b"", 1000)?);
    tell(rt, Mark::Begin);
    let first = sifted(alloc, day, &mut input, &mut output);
    tell(rt, Mark::End);
    let is_exact = TWO.starts_with(output.bytes());
    let (mut again, mut whole) = (Tap::new(alloc, TWO, 1000)?, Tap::new(alloc, b"", 1000)?);
    let second = sifted(alloc, day, &mut again, &mut whole);
    let (first, second) = (outcome_text(alloc, first)?, outcome_text(alloc, second)?);
    println!(rt; "sift: {first}, exact {is_exact}, then {second}")?;
    Ok(())
}

fn two_ids(alloc: Global) -> Result<bool, Memory> {
    let found = ids(alloc, b" (see <x@y>) <\"a\"@b> <c@d>")?;
    if found.len() != 2 {
        return Ok(false);
    }
    let (one, two) = (found.get(0), found.get(1));
    Ok(
        (one.left(), one.right()) == (b"a".as_slice(), b"b".as_slice())
            && (two.left(), two.right()) == (b"c".as_slice(), b"d".as_slice()),
    )
}

/// The identifiers of a field, twice (RFC 5322, 3.6.4).
pub fn ids_row(rt: &HostRuntime) -> anyhow::Result<()> {
    let alloc = rt.alloc();
    tell(rt, Mark::Begin);
    let first = two_ids(alloc);
    tell(rt, Mark::End);
    let (first, second) = (
        outcome_text(alloc, first)?,
        outcome_text(alloc, two_ids(alloc))?,
    );
    println!(rt; "ids: {first}, then {second}")?;
    Ok(())
}

fn a_base(alloc: Global) -> Result<bool, Memory> {
    let found = base(alloc, b"Re: [soc] Hello (fwd)")?;
    Ok(found.text.as_slice() == b"hello".as_slice() && found.reply)
}

/// The base subject of a subject, twice (RFC 5256, 2.1).
pub fn base_row(rt: &HostRuntime) -> anyhow::Result<()> {
    let alloc = rt.alloc();
    tell(rt, Mark::Begin);
    let first = a_base(alloc);
    tell(rt, Mark::End);
    let (first, second) = (
        outcome_text(alloc, first)?,
        outcome_text(alloc, a_base(alloc))?,
    );
    println!(rt; "base: {first}, then {second}")?;
    Ok(())
}

fn a_policy(alloc: Global) -> Result<bool, PolicyFault> {
    let _policy = Policy::read(alloc, WITHDRAWN)?;
    Ok(true)
}

/// The policy of a text, twice.
pub fn policy_row(rt: &HostRuntime) -> anyhow::Result<()> {
    let alloc = rt.alloc();
    tell(rt, Mark::Begin);
    let first = a_policy(alloc);
    tell(rt, Mark::End);
    let (first, second) = (
        outcome_text(alloc, first)?,
        outcome_text(alloc, a_policy(alloc))?,
    );
    println!(rt; "policy: {first}, then {second}")?;
    Ok(())
}

fn msg_id(alloc: Global, letter: u8) -> Result<MsgId, AllocError> {
    Ok(MsgId::new(
        Vec::from_slice(alloc, &[letter])?,
        Vec::from_slice(alloc, b"example.org")?,
    ))
}

fn entry(alloc: Global, id: Option<u8>, refs: &[u8], sent: Instant) -> Result<Entry, Memory> {
    let mut all = References::new(alloc);
    for letter in refs {
        all.push(&msg_id(alloc, *letter)?.borrowed())?;
    }
    let id = match id {
        Some(letter) => Some(msg_id(alloc, letter)?),
        None => None,
    };
    Ok(Entry {
        id,
        refs: all,
        sent,
        base: Octets::new(Vec::new(alloc)),
        reply: false,
    })
}

/// A message, an answer to it and to the next one, and that one, which has no references.
fn entries(alloc: Global) -> anyhow::Result<Vec<Entry>> {
    let mut all = Vec::new(alloc);
    let ids: [(Option<u8>, &[u8]); 3] = [(Some(b'a'), b""), (None, b"ab"), (Some(b'b'), b"")];
    let mut second = 0;
    for (id, refs) in &ids {
        let Some(sent) = Instant::new(second) else {
            bail!("no instant");
        };
        all.push(entry(alloc, *id, refs, sent)?)?;
        second = second.saturating_add(1);
    }
    Ok(all)
}

fn three_rows<T: Threader>(alloc: Global, threader: &T, entries: &[Entry]) -> Result<bool, Memory> {
    let rows = threads(alloc, threader, entries, true)?;
    let wanted = [
        Row {
            depth: 0,
            place: Some(0),
        },
        Row {
            depth: 0,
            place: Some(2),
        },
        Row {
            depth: 1,
            place: Some(1),
        },
    ];
    Ok(rows.as_slice() == wanted.as_slice())
}

/// The threads of some messages, twice by each threader (RFC 5256, 3).
pub fn threads_rows(rt: &HostRuntime) -> anyhow::Result<()> {
    let alloc = rt.alloc();
    let all = entries(alloc)?;
    let nodes = NodeThreader::new(RandomState::new(rt)?);
    tell(rt, Mark::Begin);
    let first = three_rows(alloc, &nodes, &all);
    tell(rt, Mark::End);
    let (first, second) = (
        outcome_text(alloc, first)?,
        outcome_text(alloc, three_rows(alloc, &nodes, &all))?,
    );
    println!(rt; "threads: {first}, then {second}")?;
    tell(rt, Mark::Begin);
    let first = three_rows(alloc, &PlainThreader, &all);
    tell(rt, Mark::End);
    let (first, second) = (
        outcome_text(alloc, first)?,
        outcome_text(alloc, three_rows(alloc, &PlainThreader, &all))?,
    );
    println!(rt; "plain threads: {first}, then {second}")?;
    Ok(())
}
