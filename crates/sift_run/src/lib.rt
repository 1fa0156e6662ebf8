//! Carrying out `sift`, over any devices: the policy is read, the day asked, and the messages of an mbox that pass are written. What
//! stops this stops other orders too; how words that order nothing are answered, and refusals told, is the same for all.
#![tactic(auto)]

mod clock;
mod command_line;
mod faults;
mod files;
mod policies;
mod running;
mod sifting;
mod system;
mod telling;

pub use clock::{DayClock, SystemClock};
pub use command_line::{OUTPUT_ROOM, borrowed, command_words};
pub use faults::{CommandError, PrintsError, put_number, write_piece};
pub use files::{FileError, ReadFiles, StreamedFiles, SystemFiles};
pub use policies::read_policy_or_open;
pub use running::{run, run_sift};
pub use sifting::{SiftFault, SiftWords, sift};
pub use system::{HasArguments, HasClock, HasFiles};
pub use telling::{BAD_WORDS, DONE, REFUSED, finish, report_error, report_parse_error, send};
