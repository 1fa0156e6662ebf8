//! Why an mbox is refused.
use std::error::Error;
use std::fmt;

/// Why bytes are not read as an mbox. It prints its number and its name.
#[derive(Debug, Clone, Copy, PartialEq, Eq, Drop)]
pub enum MboxFault {
    /// M1: the first line that is not empty is no separator line. It begins at this offset, in bytes from 0.
    Preamble(u64),
    /// M2: the reader failed.
    Read,
    /// M3: a growth of memory was refused.
    Memory,
    /// M4: more was fed after a fault, or after the end.
    Failed,
}

impl fmt::Display for MboxFault {
    fn fmt<W: fmt::Write>(&self, f: &mut fmt::Formatter<W>) -> fmt::Result {
        match self {
            MboxFault::Preamble(offset) => write!(f, "M1 Preamble at {offset}"),
            MboxFault::Read => f.write_str("M2 Read"),
            MboxFault::Memory => f.write_str("M3 Memory"),
            MboxFault::Failed => f.write_str("M4 Failed"),
        }
    }
}

impl Error for MboxFault {}
