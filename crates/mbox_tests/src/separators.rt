//! Contents of separator lines and of none, and senders.
use crate::plain::{plain_seconds, plain_tokens};
use civil_time::Instant;
use mbox_core::device::Tap;
use mbox_core::{Item, Sender, separator, write_item};
use std::alloc::Global;
use std::test::Fail;

/// Contents, and the seconds of their arrival, or `None` where they are no separator lines.
static CONTENTS: [(&[u8], Option<i64>); 46] = [
    (
        b"From anna at example.org  Tue Mar  4 10:00:00 2003",
        Some(1046772000),
    ),
    (
        b"From 12@xxx Tue Mar 04 10:00:00 +0100 2003",
        Some(1046768400),
    ),
    (b"From - Tue Mar  4 10:00 2003", Some(1046772000)),
    (
        b"From  a  at  b  MON mar 4 23:59:60 pdt 2003 ",
        Some(1046847599),
    ),
    (b"From at at at Tue Mar 4 10:00 GMT 2003", Some(1046772000)),
    (b"From - Sun Dec 31 23:30:00 -0030 1899", Some(-2208988800)),
    (b"From - Sun Dec 31 23:29:59 -0030 1899", None),
    (b"From - Sun Dec 31 23:30:00 1899", None),
    (b"From - Fri Jan  1 00:29:59 +0030 9999", Some(253370764799)),
    (b"From - Fri Jan  1 00:30:00 +0030 9999", None),
    (b"From - Fri Jan  1 00:00:00 9999", None),
    (b"From - Mon Jan  1 00:00:00 +0001 1900", None),
    (b"From - Thu Dec 31 23:59:59 -0001 9998", None),
    (b"From a@b Tue Mar  4 10:00:00 2003\r", None),
    (b"from a@b Tue Mar  4 10:00:00 2003", None),
    (b"From\ta@b Tue Mar  4 10:00:00 2003", None),
    (b"From a@b Tue Mar  4 10:00:00", None),
    (b"From a@b Tue Mar 30 10:00:00 2003 x", None),
    (b"From a@b Tue Feb 30 10:00:00 2003", None),
    (b"From a@b Tue Mar  0 10:00:00 2003", None),
    (b"From a@b Tue Mar 004 10:00:00 2003", None),
    (b"From a@b Tue Mar  4 24:00:00 2003", None),
    (b"From a@b Tue Mar  4 10:60:00 2003", None),
    (b"From a@b Tue Mar  4 10:00:61 2003", None),
    (b"From a@b Tue Mar  4 1:00:00 2003", None),
    (b"From a@b Tuesday Mar  4 10:00:00 2003", None),
    (b"From a@b Tue Mar  4 10:00:00 1899", None),
    (b"From a@b Tue Mar  4 10:00:00 9999", None),
    (b"From a@b Tue Mar  4 10:00:00 03", None),
    (b"", None),
    (b"From a@b Tue Mar 4 10:00:00 2003 +0100", None),
    (b"From a@b Tue Mar 4 +0100 10:00:00 2003", None),
    (b"From a@b Tue Mar 4 10:00:00 +0160 2003", None),
    (b"From a@b Tue Mar 4 10:00:00 0100 2003", None),
    (b"From a@b Tue Mar 4 10:00:00 +100 2003", None),
    (b"From a@b Tue Mar 4 10:00:00 +0100 +0100 2003", None),
    (b"From a AT b Tue Mar 4 10:00:00 2003", None),
    (b"From a to b Tue Mar 4 10:00:00 2003", None),
    (b"From a at Tue Mar 4 10:00:00 2003", None),
    (b"From a b Tue Mar 4 10:00:00 2003", None),
    (b"From a at b c Tue Mar 4 10:00:00 2003", None),
    (b"From a at b Tue Mar 4 10:00:00 +0100 2003 x", None),
    (b"From a at b\n Tue Mar 4 10:00:00 2003", None),
    (b"From a@b Tue Mar 4 10:00:00 2003 remote from c", None),
    (b"From ", None),
    (b"From a@b Tue Mar  4 10:00:00 2003", Some(1046772000)),
];

/// Written forms of senders, and texts that are none.
static SENDERS: [(&[u8], Option<Sender<'static>>); 18] = [
    (b"a\t@\xffb\r", Some(Sender::One(b"a\t@\xffb\r"))),
    (b"", None),
    (b"a b", None),
    (b"a\n", None),
    (b" a", None),
    (
        b"anna at example.org",
        Some(Sender::At(b"anna", b"example.org")),
    ),
    (b"at at at", Some(Sender::At(b"at", b"at"))),
    (b"a at  b", None),
    (b"a  at b", None),
    (b"a at b ", None),
    (b" a at b", None),
    (b"a AT b", None),
    (b"a to b", None),
    (b"a at ", None),
    (b"a at", None),
    (b" at b", None),
    (b"a at b\n", None),
    (b"a at b at c", None),
];

#[test]
fn separator_lines_as_tools_write_them_and_other_lines(rt: HostRuntime) {
    for (number, (content, seconds)) in CONTENTS.iter().enumerate() {
        let found = separator(content).map(|envelope| envelope.arrival.seconds());
        assert!(rt; found == *seconds, "line {number}");
    }
}

/// Whether a text is read as this sender, or as none.
fn reads_as(text: &[u8], sender: &Option<Sender<'_>>) -> bool {
    Sender::read(text) == *sender
}

#[test]
fn senders_are_read(rt: HostRuntime) {
    for (number, (text, sender)) in SENDERS.iter().enumerate() {
        assert!(rt; reads_as(text, sender), "text {number}");
    }
}

/// Words with a space behind each.
fn joined(alloc: Global, words: &[&[u8]]) -> Result<Vec<u8>, Fail> {
    let mut text = Vec::new(alloc);
    for word in words {
        text.extend_from_slice(word)?;
        text.push(b' ')?;
    }
    Ok(text)
}

/// The arrival that the plain program reads.
fn plain_arrival(alloc: Global, content: &[u8]) -> Result<Option<Instant>, Fail> {
    let tokens = plain_tokens(alloc, &content[content.len().min(5)..])?;
    Ok(Instant::new(plain_seconds(&tokens).unwrap_or(i64::MAX)))
}

/// Whether an envelope, written, is read again as the same.
fn is_read_again(alloc: Global, item: &Item) -> Result<bool, Fail> {
    let mut out = Tap::new(alloc, b"", 999)?;
    write_item(&mut out, item)?;
    let line = out.bytes().strip_suffix(b"\n\n").ok_or("no empty line")?;
    let again = separator(line).ok_or("no separator line")?;
    Ok(again.sender == item.envelope.sender && again.arrival == item.envelope.arrival)
}

/// Compares the reader with the plain program on one content, and an envelope that is found with what is read again.
fn compare(alloc: Global, content: &[u8]) -> Result<bool, Fail> {
    let plain = plain_arrival(alloc, content)?;
    let Some(envelope) = separator(content) else {
        return if plain.is_none() {
            Ok(false)
        } else {
            Err(Fail::from("the plain program finds an envelope"))
        };
    };
    if plain != Some(envelope.arrival) {
        return Err(Fail::from("another arrival"));
    }
    let item = Item::new(envelope, b"").ok_or("no item")?;
    if is_read_again(alloc, &item)? {
        Ok(true)
    } else {
        Err(Fail::from("another envelope"))
    }
}

static FROM: [&[u8]; 6] = [b"a@b", b"a at b", b"at at  at", b"a At b", b"a b", b""];

static DATES: [&[u8]; 4] = [
    b"Tue Mar 4 10:00",
    b"sun DEC 31 23:59:60",
    b"Tue Feb 29 00:00:00",
    b"Mar 4 10:00:00",
];

static ZONES: [&[u8]; 8] = [b"", b"+0100", b"-9959", b"EST", b"z", b"+0060", b"at", b"1"];

static YEARS: [&[u8]; 5] = [b"1899", b"2000", b"9999", b"2003 +0100", b"03"];

/// How many contents of this sender and date are separator lines, and how many are none.
fn counted(alloc: Global, sender: &[u8], date: &[u8]) -> Result<(usize, usize), Fail> {
    let mut found = 0usize;
    let mut missed = 0usize;
    for zone in &ZONES {
        for year in &YEARS {
            let content = joined(alloc, &[b"From", sender, date, zone, year])?;
            if compare(alloc, &content)? {
                found = found.saturating_add(1);
            } else {
                missed = missed.saturating_add(1);
            }
        }
    }
    Ok((found, missed))
}

#[test]
fn the_reader_and_the_plain_program_find_the_same(rt: HostRuntime) -> Result<(), Fail> {
    let mut found = 0usize;
    let mut missed = 0usize;
    for sender in &FROM {
        for date in &DATES {
            let (some, none) = counted(rt.alloc(), sender, date)?;
            found = found.saturating_add(some);
            missed = missed.saturating_add(none);
        }
    }
    assert!(rt; found > 50 && missed > 500, "{found} and {missed}");
    Ok(())
}
