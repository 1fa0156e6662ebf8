//! Why a question is not answered.
ghost use Rattle.archive_desk.specs.Faults.{desk_error_of};

use archive_port::StoreFault;
use std::error::Error;
use std::fmt;

/// Why a question is not answered. It prints its number and its name.
#[derive(Clone, Copy, Debug, PartialEq, Eq, Drop)]
pub enum DeskError {
    /// G1: there is no list of this name.
    NoList,
    /// G2: there is no person of this name.
    NoPerson,
    /// G3: the view does not hold the message whose thread is asked for.
    NotInView,
    /// G4: the store refused, for E14 or E15.
    Store(StoreFault),
    /// G5: no memory was left.
    Memory,
    /// G6: the writer failed.
    Write,
}

impl From<StoreFault> for DeskError {
    ghost use Rattle.std.specs.Prelude.{◌≡◌};

    ghost from_gives = { λ fault desk. desk ≡ desk_error_of fault };

    fn from(fault: StoreFault) -> DeskError {
        match fault {
            StoreFault::NoList => DeskError::NoList,
            StoreFault::NoPerson => DeskError::NoPerson,
            _ => DeskError::Store(fault),
        }
    }
}

impl DeskError {
    ghost use Rattle.std.specs.Prelude.{◌≡◌};
    ghost use Rattle.archive_desk.specs.Names.{desk_error_text};

    /// Its number and its name; of G4 without the store's refusal.
    pub fn name(self) -> &'static str
        ensures { result.now ≡ desk_error_text self }
    {
        match self {
            DeskError::NoList => "G1 NoList",
            DeskError::NoPerson => "G2 NoPerson",
            DeskError::NotInView => "G3 NotInView",
            DeskError::Store(_) => "G4 Store",
            DeskError::Memory => "G5 Memory",
            DeskError::Write => "G6 Write",
        }
    }
}

impl fmt::Display for DeskError {
    fn fmt<W: fmt::Write>(&self, f: &mut fmt::Formatter<W>) -> fmt::Result {
        f.write_str(self.name())
    }
}

impl Error for DeskError {}
