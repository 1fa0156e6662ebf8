//! What is told of words that order nothing.
ghost use Rattle.std.specs.Prelude.{◌≡◌, ◌≢◌, ◌⊎◌, if◌then◌else◌, MatchResult};
ghost use Rattle.clap.specs.Values.{kind_of};
ghost use Rattle.archive_args.specs.Orders.{IsOutOfMemoryStop, IsOrderStopOfKind};

use crate::orders::OrderStop;
use archive_usage::command_named;
use clap::Error;
use clap::error::ErrorKind;
use std::alloc::{AllocError, Global};

/// A value that its reader refuses.
#[derive(Debug, Clone, Copy, Drop)]
pub(crate) struct BadValue<'a> {
    /// The argument, as the usage shows it.
    pub option: &'a str,
    /// The value, as it was given.
    pub text: &'a str,
    /// What its values are.
    pub wanted: &'a str,
}

/// What stops the order where `clap` refuses the words, or was asked for help.
pub(crate) fn stop_of(alloc: Global, error: &Error) -> OrderStop
    ensures memory { IsOutOfMemoryStop result ⊎ (kind_of error.now ≢ ErrorKind.OutOfMemory) }
    ensures kind { IsOrderStopOfKind (kind_of error.now) result }
{
    if error.kind() == ErrorKind::OutOfMemory {
        return OrderStop::Memory;
    }
    stop_with(error.to_string(alloc), error.use_stderr())
}

/// The stop with a text, of a fault or of help. Memory: there was none for the text.
pub(crate) fn stop_with(text: Result<String, AllocError>, is_fault: bool) -> OrderStop
    ensures { MatchResult text
        (λ made. result ≡ (if is_fault then OrderStop.Words made else OrderStop.Help made))
        (λ _. result ≡ OrderStop.Memory) }
{
    match text {
        Ok(text) => {
            if is_fault {
                OrderStop::Words(text)
            } else {
                OrderStop::Help(text)
            }
        }
        Err(_) => OrderStop::Memory,
    }
}

/// The text of a value that its reader refuses, with the usage of its command, as `clap` writes it for its own.
pub(crate) fn bad_value_text(
    alloc: Global,
    name: &str,
    bad: &BadValue<'_>,
) -> Result<String, AllocError> {
    let option = bad.option;
    let text = bad.text;
    let wanted = bad.wanted;
    let message = format!(in alloc; "invalid value '{text}' for '{option}': {wanted}")?;
    let mut command = command_named(alloc, name)?;
    let error = command.error(ErrorKind::ValueValidation, message.as_str())?;
    error.to_string(alloc)
}
