//! A list of two messages, both withdrawn by the board, of which the second has no author; and who may read their own.
use crate::views::{ask, message};
use archive_model::{Message, normalize_address};
use archive_results::{Asked, ReaderFacts, is_shown, lookup_message};
use mbox_core::cut;
use policy_core::{Policy, Standing, Withdrawn};
use std::alloc::Global;
use std::test::Fail;

/// The rules behind which one's own messages come first.
const OTHERS: &str = "
[[rule]]
name = \"withdrawn\"
effect = \"deny\"
standings = [\"public\", \"member\", \"subscriber\"]
withdrawn = [\"author\", \"board\"]

[[rule]]
name = \"all\"
effect = \"allow\"
";

const MINE: &str = "
[[rule]]
name = \"mine\"
effect = \"allow\"
own = true
";

const MBOX: &[u8] = b"From anna@example.org Tue Mar  4 10:00:00 2003
From: Anna <anna@example.org>
Subject: Hello

One.

From bob@example.org Wed Mar 12 10:30:00 2003
Subject: Re: Hello

Two.

";

fn held(alloc: Global, place: usize) -> Result<Option<Message>, Fail> {
    let item = cut(MBOX)?.nth(place).ok_or("no message")?;
    Ok(Some(message(alloc, &item, Withdrawn::Board)?))
}

/// A reader of this standing with an address, as the archive keeps it.
fn reader(alloc: Global, standing: Standing, address: Option<&str>) -> Result<ReaderFacts, Fail> {
    let kept = match address {
        Some(address) => Some(normalize_address(alloc, address)?),
        None => None,
    };
    Ok(ReaderFacts {
        standing,
        address: kept,
    })
}

/// What a reader gets of the message at a place, and whether the reader's view has it.
fn told(
    alloc: Global,
    rules: &str,
    reader: &ReaderFacts,
    place: usize,
) -> Result<(Vec<u8>, bool), Fail> {
    let policy = Policy::read(alloc, rules)?;
    let ask = ask(&policy)?;
    let held = held(alloc, place)?;
    let shown = match &held {
        Some(message) => is_shown(alloc, &ask, reader, message)?,
        None => false,
    };
    match lookup_message(alloc, &ask, reader, &held)? {
        Asked::Served(text) => Ok((text, shown)),
        Asked::Denied(rule) => Ok((rule.as_bytes().to_vec(alloc)?, shown)),
        Asked::Absent => Ok((Vec::new(alloc), shown)),
    }
}

#[test]
fn who_wrote_a_withdrawn_message_may_read_it(rt: HostRuntime) -> Result<(), Fail> {
    let alloc = rt.alloc();
    let first: &[u8] = b"From: Anna <anna@example.org>\nSubject: Hello\n\nOne.\n";
    let denied: &[u8] = b"withdrawn";
    let cases: [(Standing, Option<&str>, usize, &[u8]); 8] = [
        // the author, whatever the case of the letters in the address
        (Standing::Public, Some("Anna@Example.org"), 0, first),
        (Standing::Member, Some("anna@example.org"), 0, first),
        // without an address
        (Standing::Public, None, 0, denied),
        (Standing::Member, None, 0, denied),
        // another address, also one that begins alike
        (Standing::Public, Some("bob@example.org"), 0, denied),
        (Standing::Public, Some("anna@example.or"), 0, denied),
        // a message without an author
        (Standing::Public, Some("anna@example.org"), 1, denied),
        (Standing::Public, None, 1, denied),
    ];
    let rules = format!(in alloc; "{MINE}{OTHERS}")?;
    for (number, (standing, address, place, want)) in cases.iter().enumerate() {
        let reader = reader(alloc, *standing, *address)?;
        let (text, shown) = told(alloc, &rules, &reader, *place)?;
        assert!(rt; text.as_slice() == *want, "case {number}");
        assert!(rt; shown == (*want == first), "case {number}");
    }
    Ok(())
}

#[test]
fn a_rule_that_stands_before_still_decides(rt: HostRuntime) -> Result<(), Fail> {
    let alloc = rt.alloc();
    let anna = reader(alloc, Standing::Public, Some("anna@example.org"))?;
    let rules = format!(in alloc; "{OTHERS}{MINE}")?;
    for rules in [OTHERS, rules.as_str()] {
        let (text, shown) = told(alloc, rules, &anna, 0)?;
        assert!(rt; text.as_slice() == b"withdrawn".as_slice() && !shown);
    }
    Ok(())
}
