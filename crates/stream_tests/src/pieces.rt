//! Mboxes that come in pieces.
use mbox_core::device::Tap;
use mbox_core::{MboxFault, OwnedItem, cut};
use mbox_stream::Cutter;
use std::alloc::Global;
use std::test::Fail;

/// Two messages; the last line is empty.
const TWO: &[u8] =
    b"From anna@example.org Tue Mar  4 10:00:00 2003\nFrom: Anna <anna@example.org>\nSubject: Hello\n\nOne.\n\nFrom bob@example.org Wed Mar 12 10:30:00 2003\nSubject: Re: Hello\n\nTwo.\n\n";

/// Where the second separator line of the two messages ends.
const SECOND: usize = 145;

/// Mboxes of every kind.
static MBOXES: [&[u8]; 13] = [
    b"",
    b"\n\r\n",
    b"\n\nFrom a@b Tue Mar  4 10:00:00 2003",
    TWO,
    b"From a@b Tue Mar  4 10:00:00 2003\n\nFrom c@d Wed Mar 12 10:30:00 2003",
    b"From a@b Tue Mar  4 10:00:00 2003\r\nx\r\n\r\nFrom c@d Wed Mar 12 10:30:00 2003\r\ny",
    b"From a@b Tue Mar  4 10:00:00 2003\nFrom c@d Wed Mar 12 10:30:00 2003\n\nFrom here\n\nFrom c@d Wed Mar 12 10:30:00 2003\n",
    b"From a@b Tue Mar  4 10:00:00 2003\nx\n\n\nFrom c@d Wed Mar 12 10:30:00 2003\n\n\n",
    b"From a@b Tue Mar  4 10:00:00 2003\nx\n\nFrom c@d Wed Mar 12 10:30:00 2003x\ny\n",
    b"From a@b Tue Mar  4 10:00:00 2003\n\n\nFrom \n\nFrom\n\nFrom c at d Wed Mar 12 10:30:00 2003\nz\n\n",
    b"\n\nx",
    b"x\n\nFrom a@b Tue Mar  4 10:00:00 2003\n",
    b"\r\n From a@b Tue Mar  4 10:00:00 2003\n\nFrom a@b Tue Mar  4 10:00:00 2003\n",
];

/// Whether a message is the next one of an mbox.
fn is_next(taken: &OwnedItem, next: Option<mbox_core::Item<'_>>) -> bool {
    let item = taken.as_item();
    match next {
        Some(next) => {
            item.text == next.text
                && item.complete == next.complete
                && item.envelope.sender == next.envelope.sender
                && item.envelope.arrival == next.envelope.arrival
        }
        None => false,
    }
}

/// Whether the messages that wait are those of an mbox, in order.
fn waits_as_cut(cutter: &mut Cutter, bytes: &[u8]) -> Result<bool, MboxFault> {
    let mut same = true;
    for item in cut(bytes)? {
        same = match cutter.take() {
            Some(taken) => is_next(&taken, Some(item)) && same,
            None => false,
        };
    }
    Ok(same && cutter.take().is_none())
}

/// Whether a cutter that ended holds what `cut` says of these bytes; `fed` is what it answered to them.
fn ends_as_cut(
    cutter: &mut Cutter,
    fed: Result<(), MboxFault>,
    bytes: &[u8],
) -> Result<bool, MboxFault> {
    let ended = match fed {
        Ok(()) => cutter.finish(),
        Err(fault) => Err(fault),
    };
    match cut(bytes) {
        Ok(_) => Ok(ended.is_ok() && waits_as_cut(cutter, bytes)?),
        Err(fault) => Ok(ended == Err(fault) && cutter.finish() == Err(MboxFault::Failed)),
    }
}

/// Feeds pieces of so many bytes.
fn feed_by(cutter: &mut Cutter, bytes: &[u8], size: usize) -> Result<(), MboxFault> {
    for piece in bytes.chunks(size.max(1)) {
        cutter.feed(piece)?;
    }
    Ok(())
}

#[test]
fn pieces_of_each_size_give_the_messages_of_the_whole(rt: HostRuntime) -> Result<(), Fail> {
    for (number, bytes) in MBOXES.iter().enumerate() {
        for size in 1..8usize {
            let mut cutter = Cutter::new(rt.alloc());
            let fed = feed_by(&mut cutter, bytes, size);
            assert!(rt;
                ends_as_cut(&mut cutter, fed, bytes)?,
                "mbox {number} by {size}"
            );
        }
    }
    Ok(())
}

/// Feeds two pieces.
fn feed_two(cutter: &mut Cutter, bytes: &[u8], at: usize) -> Result<(), MboxFault> {
    let (first, second) = bytes.split_at(at.min(bytes.len()));
    cutter.feed(first)?;
    cutter.feed(second)
}

#[test]
fn a_cut_at_each_place_gives_the_messages_of_the_whole(rt: HostRuntime) -> Result<(), Fail> {
    for (number, bytes) in MBOXES.iter().enumerate() {
        for at in 0..bytes.len() {
            let mut cutter = Cutter::new(rt.alloc());
            let fed = feed_two(&mut cutter, bytes, at);
            assert!(rt;
                ends_as_cut(&mut cutter, fed, bytes)?,
                "mbox {number} at {at}"
            );
        }
    }
    Ok(())
}

/// How many messages wait after these bytes.
fn count_after(alloc: Global, bytes: &[u8]) -> Result<usize, MboxFault> {
    let mut cutter = Cutter::new(alloc);
    cutter.feed(bytes)?;
    let mut count = 0usize;
    for _ in 0..9usize {
        if cutter.take().is_some() {
            count = count.saturating_add(1);
        }
    }
    Ok(count)
}

#[test]
fn a_message_waits_once_the_next_separator_line_is_whole(rt: HostRuntime) -> Result<(), Fail> {
    for end in 0..TWO.len() {
        let count = count_after(rt.alloc(), &TWO[..end])?;
        assert!(rt; count == usize::from(end >= SECOND), "after {end}");
    }
    let mut cutter = Cutter::new(rt.alloc());
    cutter.feed(&TWO[..SECOND])?;
    let first = cutter.take().ok_or("no message")?;
    assert!(rt; is_next(&first, cut(TWO)?.next()));
    assert!(rt; cutter.take().is_none());
    Ok(())
}

#[test]
fn a_faulty_line_is_told_with_its_lf_and_then_m4(rt: HostRuntime) -> Result<(), Fail> {
    let texts: [(&[u8], u64); 3] = [(b"x\n", 0), (b"\n\r\n\nhi\n", 4), (b"From a\n", 0)];
    for (text, at) in texts {
        let mut cutter = Cutter::new(rt.alloc());
        feed_by(&mut cutter, &text[..text.len() - 1], 1)?;
        assert!(rt; cutter.feed(b"\n") == Err(MboxFault::Preamble(at)), "{at}");
        assert!(rt; cutter.feed(b"") == Err(MboxFault::Failed), "{at}");
        assert!(rt; cutter.finish() == Err(MboxFault::Failed), "{at}");
    }
    Ok(())
}

/// How reading to the end or to a fault ended.
fn read_all_from(cutter: &mut Cutter, input: &mut Tap) -> Result<(), MboxFault> {
    for _ in 0..9usize {
        if !cutter.read_from(input)? {
            return cutter.finish();
        }
    }
    Ok(())
}

/// Whether reading two messages from a device that passes so many bytes gives those that are settled, and M2.
fn reads_until(alloc: Global, passes: usize) -> Result<bool, Fail> {
    let mut input = Tap::new(alloc, TWO, passes)?;
    let mut cutter = Cutter::new(alloc);
    let ended = read_all_from(&mut cutter, &mut input);
    if passes > TWO.len() {
        return Ok(ended.is_ok() && waits_as_cut(&mut cutter, TWO)?);
    }
    let first = match cutter.take() {
        Some(taken) => passes >= SECOND && is_next(&taken, cut(TWO)?.next()),
        None => passes < SECOND,
    };
    Ok(ended == Err(MboxFault::Read) && first && cutter.take().is_none())
}

#[test]
fn a_reader_that_fails_after_each_number_of_bytes(rt: HostRuntime) -> Result<(), Fail> {
    for passes in 0..TWO.len() + 2 {
        assert!(rt; reads_until(rt.alloc(), passes)?, "after {passes}");
    }
    Ok(())
}

#[test]
fn a_cutter_that_finished_takes_no_more(rt: HostRuntime) -> Result<(), Fail> {
    let mut cutter = Cutter::new(rt.alloc());
    cutter.feed(TWO)?;
    cutter.finish()?;
    assert!(rt; cutter.feed(b"x") == Err(MboxFault::Failed));
    assert!(rt; waits_as_cut(&mut cutter, TWO)?);
    Ok(())
}
