//! Why serving ends early.
use mail_core::Memory;
use std::error::Error;
use std::fmt;

/// Why serving ended early, or did not begin. It prints its number and its name.
#[derive(Clone, Copy, Debug, PartialEq, Eq, Drop)]
pub enum ServingError {
    /// F2: the line that says where the archive listens could not be written. No connection was taken.
    Write,
    /// F4: the listener gave no more connections.
    Listen,
    /// F5: there was no memory for the routes of the pages. Nothing was written, and no connection was taken.
    Memory,
}

impl fmt::Display for ServingError {
    fn fmt<W: fmt::Write>(&self, f: &mut fmt::Formatter<W>) -> fmt::Result {
        f.write_str(match self {
            ServingError::Write => "F2 Write",
            ServingError::Listen => "F4 Net",
            ServingError::Memory => "F5 Memory",
        })
    }
}

impl Error for ServingError {}

impl From<Memory> for ServingError {
    ghost use Rattle.std.specs.Prelude.{◌≡◌};
    ghost use Rattle.archive_serve.specs.declared.faults.ServingError.TheVariants as stops;

    ghost from_gives = { λ _ stop. stop ≡ stops.Memory };

    fn from(_refused: Memory) -> ServingError {
        ServingError::Memory
    }
}
