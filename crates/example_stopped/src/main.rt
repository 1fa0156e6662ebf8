//! A withdrawal that a stop of the machine cuts off: the log takes so many calls and no more, the machine comes back, and the files
//! are opened again. Prints for some counts of calls whether the withdrawal was answered, and what was found.
#![tactic(auto)]

mod disks;
mod stopping;

use crate::disks::{files_with_archive, files_with_failing_log as files_that_stop};
use crate::stopping::withdraw_stop_and_reopen;
use anyhow::bail;
use archive_store::{Key, key_of};
use mbox_core::cut;
use policy_core::{Withdrawn, WithdrawnBy};
use sqlite::{Files, Options};
use sqlite_disk::Memory;
use std::alloc::Global;

const LIST: &str = "soc";

const MBOX: &[u8] = b"From anna@example.org Tue Mar  4 10:00:00 2003\nSubject: hello\n\nHello.\n";

/// How many calls the log takes: none, those of an open but the last, those of an open, all but the last of a withdrawal, all of
/// them, and more.
const COUNTS: [u64; 6] = [0, 27, 28, 33, 34, 60];

/// What is found behind a withdrawal, where the log takes so many calls.
fn found(
    alloc: Global,
    files: &Files<Memory>,
    key: &Key,
    calls: u64,
) -> anyhow::Result<&'static str> {
    let files = files_that_stop(alloc, files, calls)?;
    if !files.may_be_used() {
        bail!("a disk that may not be used");
    }
    let options = Options::new(1);
    let told = withdraw_stop_and_reopen(alloc, files, options, LIST, key, WithdrawnBy::Author);
    let Ok((mut store, answer)) = told else {
        return Ok("not opened");
    };
    let Some(message) = store.row(LIST, key)? else {
        bail!("the message is gone");
    };
    Ok(match (answer.is_ok(), message.withdrawn) {
        (true, Withdrawn::Author) => "answered, and found withdrawn",
        (true, _) => "answered, and found as before",
        (false, Withdrawn::Author) => "not answered, and found withdrawn",
        (false, _) => "not answered, and found as before",
    })
}

fn main(rt: HostRuntime) -> anyhow::Result<()> {
    let alloc = rt.alloc();
    let Some(item) = cut(MBOX)?.next() else {
        bail!("no mail");
    };
    let files = files_with_archive(alloc, LIST, &item)?;
    for calls in COUNTS {
        let now = found(alloc, &files, &key_of(&item), calls)?;
        println!(rt; "{calls} calls: {now}")?;
    }
    Ok(())
}
