//! What the program says where it refuses.
ghost use Rattle.std.specs.Prelude.{◌≡◌, ◌++◌, codes, decimal};
ghost use Rattle.sift_run.specs.Refusals.{WritesErrorTextOrFails};
ghost use Rattle.archive_run.specs.Refusals.{import_error_text, visible_bytes, visible_byte};

use archive_desk::{DeskError, ImportError, ImportStop};
use archive_port::StoreFault;
use mbox_core::device::{DeviceFailure, Sink};
use sift_run::{CommandError, PrintsError, put_number, write_piece};

/// Why an order was not carried out. It says its number and its name.
#[derive(Debug, PartialEq, Eq, Drop)]
pub enum RunError {
    /// M1 to M4, P1 to P8, F1 to F3, F5: what stops any run.
    Run(CommandError),
    /// E1 to E15: a command, or a database that is not opened.
    Store(StoreFault),
    /// G1 to G6: a question of a reader.
    Desk(DeskError),
    /// M1 to M3, E4, E12, E14, E15: an import, with the number of messages that were done.
    Import(ImportStop),
    /// E16: the message of this list and key is damaged.
    Damaged { list: Vec<u8>, key: Vec<u8> },
    /// The rule of this name denies a message.
    Denied(String),
    /// F4: the network.
    Net,
}

/// Says why an import stopped.
fn say_taking<E: Sink>(faults: &mut E, fault: ImportError) -> Result<(), DeviceFailure>
    ensures { WritesErrorTextOrFails E.Sink faults.old faults.new (import_error_text fault) result }
{
    match fault {
        ImportError::Mbox(fault) => fault.say(faults),
        ImportError::Store(fault) => write_piece(faults, fault.name().as_bytes()),
    }
}

/// Says why an import stopped, and behind how many messages.
fn say_import<E: Sink>(faults: &mut E, stop: ImportStop) -> Result<(), DeviceFailure>
    ensures { WritesErrorTextOrFails E.Sink faults.old faults.new
        (import_error_text stop.fault ++ (codes " after " ++ decimal stop.done)) result }
{
    say_taking(faults, stop.fault)?;
    put_number(faults, b" after ", stop.done)
}

/// A byte as a line shows it: `?` where it is not visible.
fn visible_byte(byte: u8) -> u8
    ensures { result ≡ visible_byte byte }
{
    match byte {
        b'!'..=b'~' => byte,
        _ => b'?',
    }
}

/// Writes bytes of a database as a line shows them.
fn put_visible<E: Sink>(faults: &mut E, bytes: &[u8]) -> Result<(), DeviceFailure>
    ensures { WritesErrorTextOrFails E.Sink faults.old faults.new (visible_bytes bytes.now) result }
{
    for byte in bytes.iter() {
        write_piece(faults, &[visible_byte(*byte)])?;
    }
    Ok(())
}

/// Says which message is damaged.
fn say_damaged<E: Sink>(faults: &mut E, list: &[u8], key: &[u8]) -> Result<(), DeviceFailure>
    ensures { WritesErrorTextOrFails E.Sink faults.old faults.new
        (codes "E16 Damaged " ++ (visible_bytes list.now ++ (codes " " ++ visible_bytes key.now))) result }
{
    write_piece(faults, b"E16 Damaged ")?;
    put_visible(faults, list)?;
    write_piece(faults, b" ")?;
    put_visible(faults, key)
}

/// Says which rule denies a message.
fn say_denied<E: Sink>(faults: &mut E, rule: &str) -> Result<(), DeviceFailure>
    ensures { WritesErrorTextOrFails E.Sink faults.old faults.new (codes "denied by " ++ rule.now) result }
{
    write_piece(faults, b"denied by ")?;
    write_piece(faults, rule.as_bytes())
}

impl PrintsError for RunError {
    ghost use Rattle.archive_run.specs.Refusals.{refusal_text};

    ghost text = { λ refusal. refusal_text refusal };

    fn say<E: Sink>(&self, faults: &mut E) -> Result<(), DeviceFailure> {
        match self {
            RunError::Run(fault) => fault.say(faults),
            RunError::Store(fault) => write_piece(faults, fault.name().as_bytes()),
            RunError::Desk(fault) => write_piece(faults, fault.name().as_bytes()),
            RunError::Import(stop) => say_import(faults, *stop),
            RunError::Damaged { list, key } => say_damaged(faults, list, key),
            RunError::Denied(rule) => say_denied(faults, rule.as_str()),
            RunError::Net => write_piece(faults, b"F4 Net"),
        }
    }
}
