//! Why a request is not answered.
use mbox_core::device::WriteFault;
use std::error::Error;
use std::fmt;

/// Why a request is not answered, or not to its end. It prints its number and its name.
#[derive(Clone, Copy, Debug, PartialEq, Eq, Drop)]
pub enum ServeFault {
    /// S1: the input failed before it told a whole head. Nothing was written.
    Read,
    /// S2: the output failed. Exactly the first `written` bytes of a reply went out.
    Write { written: u64 },
    /// S3: memory or the database refused behind the first byte of an mbox. Exactly its first `written` bytes went out, and
    /// no other reply behind them.
    Broken { written: u64 },
}

impl From<WriteFault> for ServeFault {
    ghost use Rattle.std.specs.Prelude.{◌≡◌};
    ghost use Rattle.archive_pages.specs.declared.faults.ServeFault.TheVariants as serving;

    ghost from_gives = { λ fault stop. stop ≡ serving.Write fault.written };

    fn from(fault: WriteFault) -> ServeFault {
        ServeFault::Write {
            written: fault.written,
        }
    }
}

impl fmt::Display for ServeFault {
    fn fmt<W: fmt::Write>(&self, f: &mut fmt::Formatter<W>) -> fmt::Result {
        f.write_str(match self {
            ServeFault::Read => "S1 Read",
            ServeFault::Write { .. } => "S2 Write",
            ServeFault::Broken { .. } => "S3 Broken",
        })
    }
}

impl Error for ServeFault {}
