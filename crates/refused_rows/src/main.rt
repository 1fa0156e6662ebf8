//! Worked calls, each made twice: for a driver that refuses a growth in the first.
//!
//! What stands between the lines `begin` and `end` on standard error is the call in which the driver refuses a growth; all
//! else has the memory that there is. A line of standard output says what the first call came to, and what the second one
//! did: `answer` where it is the worked answer, `another answer`, or the refusal.
#![tactic(auto)]

mod archives;
mod texts;

use mbox_core::device::{Counted, write_bytes};
use std::alloc::{AllocError, Global};
use std::fmt;

/// Before and behind the call in which a growth is refused.
#[derive(Clone, Copy)]
pub enum Mark {
    Begin,
    End,
}

/// Tells the driver where the call begins and ends.
pub fn tell(rt: &HostRuntime, mark: Mark) {
    let word: &[u8] = match mark {
        Mark::Begin => b"begin\n",
        Mark::End => b"end\n",
    };
    let _told = write_bytes(&mut Counted::new(rt.stderr()), word);
}

/// What a call came to, in words.
pub fn outcome_text<F: fmt::Debug + Drop>(
    alloc: Global,
    came: Result<bool, F>,
) -> Result<String, AllocError> {
    match came {
        Ok(true) => String::from_str(alloc, "answer"),
        Ok(false) => String::from_str(alloc, "another answer"),
        Err(fault) => format!(in alloc; "{fault:?}"),
    }
}

fn main(rt: HostRuntime) -> anyhow::Result<()> {
    texts::sift_row(&rt)?;
    texts::ids_row(&rt)?;
    texts::base_row(&rt)?;
    texts::threads_rows(&rt)?;
    texts::policy_row(&rt)?;
    archives::archive_rows(&rt)
}
