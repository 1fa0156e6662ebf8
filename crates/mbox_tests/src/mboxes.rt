//! Mboxes that are cut, written, cut short and refused.
use crate::plain::first_part;
use civil_time::Instant;
use mail_core::Memory;
use mail_core::lines::line_content;
use mbox_core::device::Tap;
use mbox_core::{Envelope, Item, MboxFault, Sender, cut, separator, write_item, written_len};
use std::alloc::{AllocError, Global};
use std::test::Fail;

/// Two messages; the last line is empty.
const TWO: &[u8] =
    b"From anna@example.org Tue Mar  4 10:00:00 2003\nFrom: Anna <anna@example.org>\nSubject: Hello\n\nOne.\n\nFrom bob@example.org Wed Mar 12 10:30:00 2003\nSubject: Re: Hello\n\nTwo.\n\n";

/// One message, with lines that look like separator lines.
const ALIKE: &[u8] =
    b"From a@b Tue Mar  4 10:00:00 2003\n\nFrom here on we sail.\nFrom bob@example.org Wed Mar 12 10:30:00 2003\n\nFrom a b Tue Mar 4 10:00:00 2003\n";

/// Mboxes, the number of their messages, and what these are written as.
static MBOXES: [(&[u8], usize, &[u8]); 15] = [
    (b"", 0, b""),
    (b"\n\n", 0, b""),
    (b"\r\n\n\r", 0, b""),
    (
        b"From a@b Tue Mar  4 10:00:00 2003\n\n",
        1,
        b"From a@b Tue Mar  4 10:00:00 2003\n\n",
    ),
    (
        b"From a@b Tue Mar  4 10:00:00 2003\n",
        1,
        b"From a@b Tue Mar  4 10:00:00 2003\n\n",
    ),
    (
        b"From a@b Tue Mar  4 10:00:00 2003",
        1,
        b"From a@b Tue Mar  4 10:00:00 2003\n\n",
    ),
    (TWO, 2, TWO),
    (
        b"From a@b Tue Mar  4 10:00:00 2003\nhello",
        1,
        b"From a@b Tue Mar  4 10:00:00 2003\nhello\n\n",
    ),
    (
        b"From - Tue Mar  4 10:00 2003",
        1,
        b"From - Tue Mar  4 10:00:00 2003\n\n",
    ),
    (
        b"\n\nFrom   x  MON  mar 04  23:59:60  2003  \r\nhi\r\n\r\n",
        1,
        b"From x Tue Mar  4 23:59:59 2003\nhi\r\n\n",
    ),
    (
        b"From anna at example.org  Tue Mar  4 10:00:00 2003",
        1,
        b"From anna at example.org Tue Mar  4 10:00:00 2003\n\n",
    ),
    (
        b"From 12@xxx Tue Mar 04 10:00:00 +0100 2003",
        1,
        b"From 12@xxx Tue Mar  4 09:00:00 2003\n\n",
    ),
    (
        b"From  a  at  b  MON mar 4 23:59:60 pdt 2003 ",
        1,
        b"From a at b Wed Mar  5 06:59:59 2003\n\n",
    ),
    (
        b"From at at at Tue Mar 4 10:00 GMT 2003",
        1,
        b"From at at at Tue Mar  4 10:00:00 2003\n\n",
    ),
    (
        b"From a@b Tue Mar  4 10:00:00 2003\nx\n\n\n",
        1,
        b"From a@b Tue Mar  4 10:00:00 2003\nx\n\n\n",
    ),
];

/// Mboxes of one message, its text, and whether that adds no LF.
static TEXTS: [(&[u8], &[u8], bool); 6] = [
    (b"From a@b Tue Mar  4 10:00:00 2003\n\n", b"", true),
    (b"From a@b Tue Mar  4 10:00:00 2003\n", b"", true),
    (b"From a@b Tue Mar  4 10:00:00 2003", b"", true),
    (
        ALIKE,
        b"\nFrom here on we sail.\nFrom bob@example.org Wed Mar 12 10:30:00 2003\n\nFrom a b Tue Mar 4 10:00:00 2003\n",
        true,
    ),
    (b"From a@b Tue Mar  4 10:00:00 2003\nhello", b"hello", false),
    (
        b"From a@b Tue Mar  4 10:00:00 2003\n>From x\n\n\n",
        b">From x\n\n",
        true,
    ),
];

/// Whether an mbox has so many messages, and these are written, and measured, as these bytes.
fn is_written(alloc: Global, bytes: &[u8], messages: usize, written: &[u8]) -> Result<bool, Fail> {
    let mut out = Tap::new(alloc, b"", 999)?;
    let mut count = 0usize;
    let mut len = 0u64;
    for item in cut(bytes)? {
        count = count.saturating_add(1);
        len = len.saturating_add(written_len(&item));
        write_item(&mut out, &item)?;
    }
    Ok(out.bytes() == written && count == messages && len == written.len() as u64)
}

#[test]
fn mboxes_are_cut_and_written(rt: HostRuntime) -> Result<(), Fail> {
    for (number, (bytes, messages, written)) in MBOXES.iter().enumerate() {
        assert!(rt;
            is_written(rt.alloc(), bytes, *messages, written)?,
            "mbox {number}"
        );
    }
    Ok(())
}

/// Whether an mbox has one message, with this text, which came on 2003-03-04 at 10:00:00.
fn is_message(bytes: &[u8], text: &[u8], complete: bool) -> bool {
    let Ok(mut items) = cut(bytes) else {
        return false;
    };
    let Some(item) = items.next() else {
        return false;
    };
    item.text == text
        && item.complete == complete
        && item.envelope.arrival.seconds() == 1046772000
        && items.next().is_none()
}

#[test]
fn a_message_has_its_text_and_its_arrival(rt: HostRuntime) {
    for (number, (bytes, text, complete)) in TEXTS.iter().enumerate() {
        assert!(rt; is_message(bytes, text, *complete), "mbox {number}");
    }
}

/// Whether an mbox is refused at this offset.
fn is_refused(bytes: &[u8], offset: u64) -> bool {
    match cut(bytes) {
        Ok(_) => false,
        Err(fault) => fault == MboxFault::Preamble(offset),
    }
}

#[test]
fn a_line_before_the_first_separator_line_is_refused(rt: HostRuntime) {
    let mboxes: [(&[u8], u64); 3] = [
        (b"\nhi\nFrom a@b Tue Mar  4 10:00:00 2003\n", 1),
        (b"hi", 0),
        (b"\r\n\n>From a@b Tue Mar  4 10:00:00 2003\n", 3),
    ];
    for (bytes, offset) in mboxes {
        assert!(rt; is_refused(bytes, offset), "at {offset}");
    }
}

#[test]
fn faults_are_printed_by_number_and_name(rt: HostRuntime) -> Result<(), Fail> {
    let faults = [
        (MboxFault::Preamble(7), "M1 Preamble at 7"),
        (MboxFault::Read, "M2 Read"),
        (MboxFault::Memory, "M3 Memory"),
        (MboxFault::Failed, "M4 Failed"),
    ];
    for (fault, text) in faults {
        let printed = format!(in rt.alloc(); "{fault}")?;
        assert!(rt; printed.as_str() == text, "{text}");
    }
    Ok(())
}

#[test]
fn a_message_may_not_hold_a_separator_line_after_an_empty_line(
    rt: HostRuntime,
) -> Result<(), Fail> {
    let texts: [(&[u8], bool); 5] = [
        (b"", true),
        (b"From a@b Tue Mar  4 10:00:00 2003\n", true),
        (b"\n>From a@b Tue Mar  4 10:00:00 2003\n", true),
        (b"\nFrom a@b Tue Mar  4 10:00:00 2003\n", false),
        (b"x\n\r\nFrom a@b Tue Mar  4 10:00:00 2003", false),
    ];
    for (text, fits) in texts {
        let envelope = Envelope {
            sender: Sender::One(b"a@b"),
            arrival: Instant::new(0).ok_or("no instant")?,
        };
        assert!(rt; Item::new(envelope, text).is_some() == fits);
    }
    Ok(())
}

/// Where writing the messages of an mbox stops, counted from the first byte of the first.
fn stops_at(out: &mut Tap, bytes: &[u8]) -> Result<Option<u64>, MboxFault> {
    let mut before = 0u64;
    for item in cut(bytes)? {
        if let Err(fault) = write_item(out, &item) {
            return Ok(Some(before.saturating_add(fault.written)));
        }
        before = before.saturating_add(written_len(&item));
    }
    Ok(None)
}

/// Whether just so many bytes of two messages go out to a device that passes so many.
fn two_go_out(alloc: Global, passes: usize) -> Result<bool, Fail> {
    let mut out = Tap::new(alloc, b"", passes)?;
    let passed = passes.min(TWO.len());
    let well = match stops_at(&mut out, TWO)? {
        Some(at) => passes < TWO.len() && at == passes as u64,
        None => passes >= TWO.len(),
    };
    Ok(well && out.bytes() == &TWO[..passed])
}

#[test]
fn a_writer_that_fails_after_each_number_of_bytes(rt: HostRuntime) -> Result<(), Fail> {
    for passes in 0..TWO.len() + 2 {
        assert!(rt; two_go_out(rt.alloc(), passes)?, "after {passes}");
    }
    Ok(())
}

/// Whether a message goes out as these bytes, to a device that fails after `passes` of them.
fn goes_out(alloc: Global, item: &Item, whole: &[u8], passes: usize) -> Result<bool, Memory> {
    let mut out = Tap::new(alloc, b"", passes)?;
    let well = match write_item(&mut out, item) {
        Ok(()) => passes >= whole.len(),
        Err(fault) => passes < whole.len() && fault.written == passes as u64,
    };
    Ok(
        well && out.bytes() == &whole[..passes.min(whole.len())]
            && written_len(item) == whole.len() as u64,
    )
}

/// A message at the last second of 1969 from a sender of so many letters, as it is written.
fn from_long(alloc: Global, sender: &[u8]) -> Result<Vec<u8>, AllocError> {
    let mut whole = b"From ".to_vec(alloc)?;
    whole.extend_from_slice(sender)?;
    whole.extend_from_slice(b" Wed Dec 31 23:59:59 1969\nhi\n\n")?;
    Ok(whole)
}

/// The same message, read from its parts.
fn item_from<'a>(sender: &'a [u8]) -> Option<Item<'a>> {
    let envelope = Envelope {
        sender: Sender::read(sender)?,
        arrival: Instant::new(-1)?,
    };
    Item::new(envelope, b"hi")
}

/// Whether a message with this sender goes out as far as the device lets it, at each of some places.
fn long_goes_out(alloc: Global, sender: &[u8]) -> Result<bool, Fail> {
    let whole = from_long(alloc, sender)?;
    let item = item_from(sender).ok_or("no item")?;
    let mut well = true;
    for passes in [3usize, 5 + sender.len(), 12 + sender.len(), 400] {
        well = goes_out(alloc, &item, &whole, passes)? && well;
    }
    Ok(well)
}

#[test]
fn senders_of_every_length_are_written(rt: HostRuntime) -> Result<(), Fail> {
    let long = [b'x'; 300];
    for len in [1usize, 224, 225, 226, 300] {
        assert!(rt; long_goes_out(rt.alloc(), &long[..len])?, "{len}");
    }
    Ok(())
}

#[test]
fn a_sender_of_two_tokens_to_a_writer_that_fails(rt: HostRuntime) -> Result<(), Fail> {
    let envelope = Envelope {
        sender: Sender::read(b"anna at example.org").ok_or("no sender")?,
        arrival: Instant::new(1046772000).ok_or("no instant")?,
    };
    let item = Item::new(envelope, b"hi\n").ok_or("no item")?;
    let whole = b"From anna at example.org Tue Mar  4 10:00:00 2003\nhi\n\n".as_slice();
    for passes in 0..whole.len() + 2 {
        assert!(rt;
            goes_out(rt.alloc(), &item, whole, passes)?,
            "after {passes}"
        );
    }
    Ok(())
}

/// What follows a separator line.
static RESTS: [&[u8]; 11] = [
    TWO,
    ALIKE,
    b"",
    b"\n",
    b"x",
    b"\nFrom a@b Tue Mar  4 10:00:00 2003",
    b"x\n\nFrom a@b Tue Mar  4 10:00:00 2003\ny\n\n\n",
    b"x\n\r\nFrom a@b Tue Mar  4 10:00:00 2003\r\n",
    b"x\n\nFrom \n\nFrom \n\nFrom a@b Tue Mar  4 10:00:00 2003\r\n",
    b"x\r",
    b"x\n\r",
];

/// Whether two envelopes are the same.
fn is_same(a: &Envelope, b: &Envelope) -> bool {
    a.sender == b.sender && a.arrival == b.arrival
}

/// Whether cutting finds the messages that the plain program finds behind the first separator line.
fn is_found(mbox: &[u8], heading: usize) -> Result<bool, MboxFault> {
    let (line, mut rest) = mbox.split_at(heading.min(mbox.len()));
    let mut next = separator(line_content(line));
    for item in cut(mbox)? {
        let part = first_part(rest);
        let Some(envelope) = next else {
            return Ok(false);
        };
        if !is_same(&item.envelope, &envelope) || item.text != part.text {
            return Ok(false);
        }
        next = part.next;
        rest = part.rest;
    }
    Ok(next.is_none())
}

#[test]
fn the_search_and_the_plain_program_find_the_same(rt: HostRuntime) -> Result<(), Fail> {
    let heading = b"From x Fri Jan  2 00:00:00 1970\n".as_slice();
    for (number, rest) in RESTS.iter().enumerate() {
        let mut mbox = heading.to_vec(rt.alloc())?;
        mbox.extend_from_slice(rest)?;
        assert!(rt; is_found(&mbox, heading.len())?, "bytes {number}");
    }
    Ok(())
}
