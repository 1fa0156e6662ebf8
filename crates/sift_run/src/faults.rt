//! What stops a run, whatever it does.
ghost use Rattle.std.specs.Prelude.{◌++◌, decimal};
ghost use Rattle.sift_run.specs.Refusals.{WritesErrorTextOrFails};

use itoa::Buffer;
use mbox_core::MboxFault;
use mbox_core::device::{DeviceFailure, Sink, write_bytes};
use policy_core::PolicyFault;

/// Why something is refused. It says so piece by piece, and takes no memory for it: so that what is told is always the refusal's own.
pub trait PrintsError {
    ghost use Rattle.std.specs.Prelude.{ℕ, List};
    ghost use Rattle.sift_run.specs.Refusals.{WritesErrorTextOrFails};

    // The number and the name, and where the fault is.
    ghost text: { Self → List ℕ };

    /// Writes the number and the name.
    fn say<E: Sink>(&self, faults: &mut E) -> Result<(), DeviceFailure>
        ensures { WritesErrorTextOrFails E.Sink faults.old faults.new (text self.now) result };
}

/// What stops a run, whatever it does. It says its number and its name.
#[derive(Debug, Clone, Copy, PartialEq, Eq, Drop)]
pub enum CommandError {
    /// M1 to M4: the mbox on standard input.
    Mbox(MboxFault),
    /// P1 to P8: the policy.
    Policy(PolicyFault),
    /// F1: a file could not be read, or not be opened to be read piece by piece; or what threads messages could not be made.
    Read,
    /// F2: standard output failed.
    Write,
    /// F3: the clock did not tell the day.
    Clock,
    /// F5: no memory.
    Memory,
}

/// Writes a piece of what is said.
pub fn write_piece<E: Sink>(faults: &mut E, piece: &[u8]) -> Result<(), DeviceFailure>
    ensures { WritesErrorTextOrFails E.Sink faults.old faults.new piece.now result }
{
    match write_bytes(faults, piece) {
        Ok(()) => Ok(()),
        Err(_) => Err(DeviceFailure),
    }
}

/// Writes a piece, and a number in decimal digits behind it.
pub fn put_number<E: Sink>(faults: &mut E, piece: &[u8], number: u64) -> Result<(), DeviceFailure>
    ensures { WritesErrorTextOrFails E.Sink faults.old faults.new (piece.now ++ decimal number) result }
{
    write_piece(faults, piece)?;
    let mut digits = Buffer::new();
    write_piece(faults, digits.format(number).as_bytes())
}

impl PrintsError for MboxFault {
    ghost use Rattle.sift_run.specs.Refusals.{mbox_fault_text};

    ghost text = { λ fault. mbox_fault_text fault };

    fn say<E: Sink>(&self, faults: &mut E) -> Result<(), DeviceFailure> {
        match *self {
            MboxFault::Preamble(offset) => put_number(faults, b"M1 Preamble at ", offset),
            MboxFault::Read => write_piece(faults, b"M2 Read"),
            MboxFault::Memory => write_piece(faults, b"M3 Memory"),
            MboxFault::Failed => write_piece(faults, b"M4 Failed"),
        }
    }
}

impl PrintsError for PolicyFault {
    ghost use Rattle.sift_run.specs.Refusals.{policy_fault_text};

    ghost text = { λ fault. policy_fault_text fault };

    fn say<E: Sink>(&self, faults: &mut E) -> Result<(), DeviceFailure> {
        match *self {
            PolicyFault::NotToml => write_piece(faults, b"P1 NotToml"),
            PolicyFault::UnknownKey(rule) => put_number(
                faults,
                b"P2 UnknownKey in rule ",
                rule as u64,
            ),
            PolicyFault::WrongType(rule) => put_number(
                faults,
                b"P3 WrongType in rule ",
                rule as u64,
            ),
            PolicyFault::BadName(rule) => put_number(faults, b"P4 BadName in rule ", rule as u64),
            PolicyFault::DuplicateName(rule) => {
                put_number(faults, b"P5 DuplicateName in rule ", rule as u64)
            }
            PolicyFault::BadValue(rule) => put_number(faults, b"P6 BadValue in rule ", rule as u64),
            PolicyFault::TooManyRules => write_piece(faults, b"P7 TooManyRules"),
            PolicyFault::Memory => write_piece(faults, b"P8 Memory"),
        }
    }
}

impl PrintsError for CommandError {
    ghost use Rattle.sift_run.specs.Refusals.{command_error_text};

    ghost text = { λ fault. command_error_text fault };

    fn say<E: Sink>(&self, faults: &mut E) -> Result<(), DeviceFailure> {
        match self {
            CommandError::Mbox(fault) => fault.say(faults),
            CommandError::Policy(fault) => fault.say(faults),
            CommandError::Read => write_piece(faults, b"F1 Read"),
            CommandError::Write => write_piece(faults, b"F2 Write"),
            CommandError::Clock => write_piece(faults, b"F3 Clock"),
            CommandError::Memory => write_piece(faults, b"F5 Memory"),
        }
    }
}
