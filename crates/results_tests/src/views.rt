//! A list of four messages, of which the first is withdrawn.
use archive_model::{Key, Message};
use archive_results::{
    Ask, Asked, MessageSummary, Reader, ReaderFacts, TreeLine, is_shown, lookup_message,
    summary_of, thread_lines, tree_lines,
};
use civil_time::Day;
use mbox_core::{Item, OwnedItem, cut};
use policy_core::{Policy, Standing, Withdrawn};
use std::alloc::Global;
use std::test::Fail;
use thread_core::PlainThreader;

const POLICY: &str = "
[[rule]]
name = \"withdrawn\"
effect = \"deny\"
standings = [\"public\"]
withdrawn = [\"author\", \"board\"]

[[rule]]
name = \"all\"
effect = \"allow\"
";

const MBOX: &[u8] = b"From anna@example.org Tue Mar  4 10:00:00 2003
From: Anna <ANNA@example.org>
Message-ID: <1@x>
Subject: Hello

One.

From bob@example.org Wed Mar 12 10:30:00 2003
From: bob@example.org
In-Reply-To: <1@x>
Subject: Re: Hello

Two.

From anna@example.org Wed Mar 12 10:31:00 2003
From: anna@example.org
Date: 12 Mar 2003 10:30 +0000
In-Reply-To: <1@x>
Subject:  Re: [soc]
 Hello 

From anna@example.org Wed Mar 12 10:32:00 2003
From: anna@example.org
Date: 28 Feb 2003 10:00 +0000
Subject: Tea

";

/// What a policy is asked of the list `soc` on 20 March 2003, by nobody.
pub fn ask<'a>(policy: &'a Policy) -> Result<Ask<'a>, Fail> {
    Ok(Ask {
        policy,
        reader: Reader::Nobody,
        list: "soc",
        day: Day::read(b"2003-03-20").ok_or("no day")?,
    })
}

/// The message of an item, withdrawn as given and held back by no embargo.
pub fn message(alloc: Global, item: &Item<'_>, withdrawn: Withdrawn) -> Result<Message, Fail> {
    Ok(Message {
        key: Key::of(item),
        item: OwnedItem::of(alloc, item)?,
        withdrawn,
        embargo_until: None,
    })
}

/// The messages of the mbox, the first withdrawn by its author.
fn messages(alloc: Global) -> Result<Vec<Message>, Fail> {
    let mut found = Vec::new(alloc);
    let mut withdrawn = Withdrawn::Author;
    for item in cut(MBOX)? {
        found.push(message(alloc, &item, withdrawn)?)?;
        withdrawn = Withdrawn::No;
    }
    Ok(found)
}

/// A reader of this standing, without an address.
fn nobody(standing: Standing) -> ReaderFacts {
    ReaderFacts {
        standing,
        address: None,
    }
}

/// The headers of what a reader of this standing may read.
pub fn view(alloc: Global, standing: Standing) -> Result<Vec<MessageSummary>, Fail> {
    let policy = Policy::read(alloc, POLICY)?;
    let ask = ask(&policy)?;
    let reader = nobody(standing);
    let mut found = Vec::new(alloc);
    for message in messages(alloc)? {
        if is_shown(alloc, &ask, &reader, &message)? {
            found.push(summary_of(alloc, &message)?)?;
        }
    }
    Ok(found)
}

/// The subjects of the lines of these headers, each after `|`.
fn subjects(alloc: Global, headers: &[MessageSummary]) -> Result<Vec<u8>, Fail> {
    let mut text = Vec::new(alloc);
    for header in headers {
        text.push(b'|')?;
        text.extend_from_slice(header.line.subject.as_slice())?;
    }
    Ok(text)
}

fn push_row(text: &mut Vec<u8>, row: &TreeLine) -> Result<(), Fail> {
    text.push(match row.depth {
        0 => b'0',
        1 => b'1',
        _ => b'2',
    })?;
    match &row.line {
        Some(line) => text.extend_from_slice(line.subject.as_slice())?,
        None => text.push(b'-')?,
    }
    Ok(())
}

/// Depth and subject of each row, `-` for a message that is missing.
pub fn outline(alloc: Global, rows: &[TreeLine]) -> Result<Vec<u8>, Fail> {
    let mut text = Vec::new(alloc);
    for row in rows {
        push_row(&mut text, row)?;
    }
    Ok(text)
}

fn list(alloc: Global, standing: Standing) -> Result<Vec<u8>, Fail> {
    subjects(alloc, &view(alloc, standing)?)
}

fn tree(alloc: Global, standing: Standing) -> Result<Vec<u8>, Fail> {
    let rows = tree_lines(alloc, &PlainThreader, view(alloc, standing)?, true)?;
    outline(alloc, &rows)
}

/// The key of the message at a place of the mbox.
pub fn key(alloc: Global, place: usize) -> Result<Key, Fail> {
    let messages = messages(alloc)?;
    match messages.get(place) {
        Some(message) => Ok(message.key),
        None => Ok(Key::read("").ok_or("no message")?),
    }
}

fn thread(alloc: Global, standing: Standing, place: usize) -> Result<Vec<u8>, Fail> {
    let key = key(alloc, place)?;
    match thread_lines(alloc, &PlainThreader, view(alloc, standing)?, true, &key)? {
        Some(rows) => outline(alloc, &rows),
        None => Ok(b"none".to_vec(alloc)?),
    }
}

#[test]
fn lines_are_those_of_the_view_in_its_order(rt: HostRuntime) -> Result<(), Fail> {
    let cases: [(Standing, &[u8]); 2] = [
        (Standing::Public, b"|Re: Hello|Re: [soc] Hello|Tea"),
        (Standing::Moderator, b"|Hello|Re: Hello|Re: [soc] Hello|Tea"),
    ];
    for (number, (standing, want)) in cases.iter().enumerate() {
        assert!(rt;
            list(rt.alloc(), *standing)?.as_slice() == *want,
            "case {number}"
        );
    }
    Ok(())
}

#[test]
fn threads_are_as_if_the_withdrawn_message_had_never_come(rt: HostRuntime) -> Result<(), Fail> {
    let cases: [(Standing, &[u8]); 2] = [
        (Standing::Public, b"0Tea0-1Re: Hello1Re: [soc] Hello"),
        (Standing::Moderator, b"0Tea0Hello1Re: Hello1Re: [soc] Hello"),
    ];
    for (number, (standing, want)) in cases.iter().enumerate() {
        assert!(rt;
            tree(rt.alloc(), *standing)?.as_slice() == *want,
            "case {number}"
        );
    }
    Ok(())
}

#[test]
fn one_thread_is_that_of_its_message(rt: HostRuntime) -> Result<(), Fail> {
    let cases: [(Standing, usize, &[u8]); 4] = [
        (Standing::Public, 0, b"none"),
        (Standing::Public, 2, b"0-1Re: Hello1Re: [soc] Hello"),
        (Standing::Moderator, 0, b"0Hello1Re: Hello1Re: [soc] Hello"),
        (Standing::Public, 3, b"0Tea"),
    ];
    for (number, (standing, place, want)) in cases.iter().enumerate() {
        assert!(rt;
            thread(rt.alloc(), *standing, *place)?.as_slice() == *want,
            "case {number}"
        );
    }
    Ok(())
}

/// What a reader of this standing gets of the first message, and whether the view has it.
fn first(alloc: Global, standing: Standing) -> Result<(Vec<u8>, bool), Fail> {
    let policy = Policy::read(alloc, POLICY)?;
    let item = cut(MBOX)?.next().ok_or("no message")?;
    let held = Some(message(alloc, &item, Withdrawn::Board)?);
    let ask = ask(&policy)?;
    let reader = nobody(standing);
    let shown = match &held {
        Some(message) => is_shown(alloc, &ask, &reader, message)?,
        None => false,
    };
    match lookup_message(alloc, &ask, &reader, &held)? {
        Asked::Served(text) => Ok((text, shown)),
        Asked::Denied(rule) => Ok((rule.as_bytes().to_vec(alloc)?, shown)),
        Asked::Absent => Ok((Vec::new(alloc), shown)),
    }
}

#[test]
fn one_message_is_served_or_denied_by_its_rule(rt: HostRuntime) -> Result<(), Fail> {
    let (text, shown) = first(rt.alloc(), Standing::Public)?;
    assert!(rt; text.as_slice() == b"withdrawn".as_slice() && !shown);
    let (text, shown) = first(rt.alloc(), Standing::Moderator)?;
    assert!(rt; text.ends_with(b"\n\nOne.\n") && shown);
    Ok(())
}
