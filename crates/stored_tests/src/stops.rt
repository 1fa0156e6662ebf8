//! Imports over disks that stop, and then again over what is left.
use crate::disks::{Held, hold_the_same, left, new_files, stopping};
use crate::files::{How, Outcome, import_into};
use archive_desk::Report;
use mbox_core::device::Tap;
use std::alloc::Global;
use std::process::Abort;
use std::test::Fail;

/// How many messages the file holds: one more than stand in one transaction of an import.
const COUNT: u64 = 501;

/// How many messages stand in one transaction.
const AT_ONCE: u64 = 500;

/// A file of messages, no two the same.
fn numbered(alloc: Global) -> Result<Vec<u8>, Fail> {
    let mut mbox = Vec::new(alloc);
    for number in 0..COUNT {
        let text = format!(in alloc;
            "From a@b Tue Mar  4 10:00:00 2003\nSubject: {number}\n\nx\n\n"
        )?;
        mbox.extend_from_slice(text.as_bytes())?;
    }
    Ok(mbox)
}

/// More calls than a disk gets here.
const CALLS: u64 = 10_000;

/// Takes nothing of an export.
fn nothing(alloc: Global) -> Result<Tap, Fail> {
    Ok(Tap::new(alloc, b"", 0)?)
}

/// How many messages an import said it had done, and whether these are all.
fn done(outcome: Outcome) -> (u64, bool) {
    match outcome {
        None => (0, false),
        Some(Ok(report)) => (report.new, true),
        Some(Err(stop)) => (stop.done, false),
    }
}

/// Imports over files whose log stops, and then once more over what is left: what was said to be done is known then, with no
/// more than the transaction beside it that stopped, and the rest is new. How many messages the first import said it had done, and whether these are all.
fn again(
    rt: &impl Abort,
    alloc: Global,
    files: Held,
    mbox: &[u8],
    how: How,
) -> Result<(u64, bool), Fail> {
    let mut none = nothing(alloc)?;
    let (first, stopped) = import_into(alloc, files, mbox, how, &mut none)?;
    let (said, is_whole) = done(first);
    let (second, _files) = import_into(alloc, left(alloc, &stopped)?, mbox, How::Whole, &mut none)?;
    let Some(Ok(report)) = second else {
        return Err(Fail::from("an import of the same file"));
    };
    assert_eq!(rt; report.new.checked_add(report.known), Some(COUNT));
    assert!(rt;
        said <= report.known && report.known - said <= AT_ONCE,
        "{said}, {}",
        report.known
    );
    Ok((said, is_whole))
}

/// The latest call at which a log that stops ended an import of the text when this was written.
const LAST: u64 = 161;

/// The latest call at which a log that stops ends an import of the text: `LAST`, if that and the next call say so, and else by halving. That of
/// an import in pieces comes no earlier, or `stops_late` fails.
fn last_stop(alloc: Global, files: &Held, mbox: &[u8]) -> Result<u64, Fail> {
    let (mut stops, mut lasts, mut calls) = (0u64, 2048u64, LAST);
    for _turn in 0..13 {
        let fuses = stopping(alloc, files, calls, CALLS)?;
        let (first, _files) = import_into(alloc, fuses, mbox, How::Whole, &mut nothing(alloc)?)?;
        if done(first).1 {
            lasts = calls;
        } else {
            stops = calls;
        }
        let between = lasts.wrapping_sub(stops);
        if between == 1 {
            return Ok(stops);
        }
        calls = if stops == LAST {
            LAST.wrapping_add(1)
        } else {
            stops.wrapping_add(between / 2)
        };
    }
    Err(Fail::from("a latest call"))
}

/// An import stops at this late call, in its second transaction: the first transaction stands. One that stops at half of the calls is made
/// again too.
fn stops_late(
    rt: &impl Abort,
    alloc: Global,
    files: &Held,
    mbox: &[u8],
    how: How,
    last: u64,
) -> Result<(), Fail> {
    let (_said, is_whole) = again(
        rt,
        alloc,
        stopping(alloc, files, last / 2, CALLS)?,
        mbox,
        how,
    )?;
    assert!(rt; !is_whole, "{last}");
    let late = again(rt, alloc, stopping(alloc, files, last, CALLS)?, mbox, how)?;
    assert_eq!(rt; late, (AT_ONCE, false), "{last}");
    Ok(())
}

/// Files with a list and no message.
fn with_a_list(rt: &impl Abort, alloc: Global) -> Result<Held, Fail> {
    let (none, files) = import_into(
        alloc,
        new_files(alloc),
        b"",
        How::Whole,
        &mut nothing(alloc)?,
    )?;
    let nothing_new = Report {
        new: 0,
        known: 0,
        too_large: 0,
    };
    assert_eq!(rt; none, Some(Ok(nothing_new)));
    Ok(files)
}

#[test]
fn an_import_that_stopped_is_made_again(rt: HostRuntime) -> Result<(), Fail> {
    let mbox = numbered(rt.alloc())?;
    let files = with_a_list(&rt, rt.alloc())?;
    let last = last_stop(rt.alloc(), &files, &mbox)?;
    stops_late(&rt, rt.alloc(), &files, &mbox, How::Whole, last)?;
    stops_late(&rt, rt.alloc(), &files, &mbox, How::InPieces, last)
}

/// Three messages, each as an mbox has it.
const THREE: [&[u8]; 3] = [
    b"From anna@example.org Tue Mar  4 10:00:00 2003\nSubject: one\n\nOne.\n\n",
    b"From bob@example.org Wed Mar 12 10:30:00 2003\nSubject: two\n\nTwo.\n\n",
    b"From cleo@example.org Thu Mar 13 11:00:00 2003\nSubject: three\n\nThree.\n\n",
];

/// The first of the three messages, as an mbox.
fn first_of_three(alloc: Global, count: usize) -> Result<Vec<u8>, Fail> {
    let mut mbox = Vec::new(alloc);
    for text in THREE.iter().take(count) {
        mbox.extend_from_slice(text)?;
    }
    Ok(mbox)
}

/// How many of the three messages an mbox holds, where these are the first ones, byte for byte.
fn count_of_three(alloc: Global, mbox: &[u8]) -> Result<u64, Fail> {
    for (number, count) in [0, 1, 2, 3].iter().enumerate() {
        if first_of_three(alloc, number)?.as_slice() == mbox {
            return Ok(*count);
        }
    }
    Err(Fail::from("the first messages"))
}

/// How many of the three messages are in what is left, the first ones. The same import knows these, and the others are new.
fn known_in(rt: &impl Abort, alloc: Global, files: Held, mbox: &[u8]) -> Result<u64, Fail> {
    let (mut none, mut held) = (nothing(alloc)?, Tap::new(alloc, b"", 1000)?);
    let (_nothing, files) = import_into(alloc, files, b"", How::Whole, &mut held)?;
    let known = count_of_three(alloc, held.bytes())?;
    assert!(rt; known <= 3, "{known}");
    let (again, _files) = import_into(alloc, files, mbox, How::Whole, &mut none)?;
    let rest = Report {
        new: 3 - known,
        known,
        too_large: 0,
    };
    assert_eq!(rt; again, Some(Ok(rest)));
    Ok(known)
}

/// The log, or the database file, stops at each call in turn of an import of the three messages, until none is met: what is left
/// holds as many as were said to be done or more. It is looked at where it is not what the stop before left.
fn stop_at_each_call(
    rt: &impl Abort,
    alloc: Global,
    files: &Held,
    is_log: bool,
) -> Result<(), Fail> {
    let mbox = first_of_three(alloc, 3)?;
    let (mut seen, mut known) = (new_files(alloc), 0);
    for calls in 0..CALLS {
        let (log, db) = if is_log {
            (calls, CALLS)
        } else {
            (CALLS, calls)
        };
        let fuses = stopping(alloc, files, log, db)?;
        let (outcome, stopped) = import_into(
            alloc,
            fuses,
            &mbox,
            How::Whole,
            &mut nothing(alloc)?,
        )?;
        if !hold_the_same(&stopped, &seen) {
            seen = left(alloc, &stopped)?;
            known = known_in(rt, alloc, left(alloc, &stopped)?, &mbox)?;
        }
        let (said, is_whole) = done(outcome);
        assert!(rt; said <= known, "{calls}: {said}, {known}");
        if is_whole {
            assert!(rt; calls > 0, "a disk that is called");
            return Ok(());
        }
    }
    Err(Fail::from("a disk that stops no more"))
}

#[test]
fn an_import_of_three_stops_at_each_call(rt: HostRuntime) -> Result<(), Fail> {
    let files = with_a_list(&rt, rt.alloc())?;
    stop_at_each_call(&rt, rt.alloc(), &files, true)?;
    stop_at_each_call(&rt, rt.alloc(), &files, false)
}
