//! What goes out of a run beside its work: refusals, what is said of words that order nothing, and the exit status. None of it takes memory.
ghost use Rattle.std.specs.Prelude.{◌≡◌, MatchResult};
ghost use Rattle.sift_run.specs.Refusals.{WritesErrorTextOrFails, ReportsOrderStop, WritesErrorLine, refusal_line};
ghost use Rattle.archive_listen.specs.Connections.{error_stream_state};
ghost use Rattle.sift_run.specs.Streams.{WritesAndFlushesOrFails, output_stream_state};

use crate::faults::{CommandError, PrintsError, write_piece};
use archive_args::OrderStop;
use archive_listen::BufferedSink;
use mbox_core::device::{DeviceFailure, Sink, write_bytes};

/// Exit status: the order was carried out.
pub const DONE: u8 = 0;

/// Exit status: the order was refused, for the reason on standard error.
pub const REFUSED: u8 = 1;

/// Exit status: the words order nothing.
pub const BAD_WORDS: u8 = 2;

/// Writes a text to the output, and passes it on (F2).
pub fn send<O: BufferedSink>(output: &mut O, text: &[u8]) -> Result<(), CommandError>
    ensures { WritesAndFlushesOrFails CommandError.Write (output_stream_state O.Sink O.BufferedSink.own output.old) (output_stream_state O.Sink O.BufferedSink.own output.new) text.now result }
{
    match write_bytes(output, text) {
        Ok(()) => {}
        Err(_) => return Err(CommandError::Write),
    }
    match output.flush() {
        Ok(()) => Ok(()),
        Err(_) => Err(CommandError::Write),
    }
}

/// Writes the line of a refusal.
fn say_line<E: Sink, T: PrintsError>(faults: &mut E, refusal: &T) -> Result<(), DeviceFailure>
    ensures { WritesErrorTextOrFails E.Sink faults.old faults.new (refusal_line (T.text refusal.now)) result }
{
    write_piece(faults, b"archive: ")?;
    refusal.say(faults)?;
    write_piece(faults, b"\n")
}

/// Tells a refusal in one line, which takes no memory. Where that line fails there is nowhere left to say so.
pub fn report_error<E: Sink, T: PrintsError>(faults: &mut E, refusal: &T)
    ensures { WritesErrorLine (T.text refusal.now) (error_stream_state E.Sink faults.old) (error_stream_state E.Sink faults.new) }
{
    let _ = say_line(faults, refusal);
}

/// The exit status, with a line where there is a refusal.
pub fn finish<E: Sink, T: PrintsError>(faults: &mut E, done: &Result<(), T>) -> u8
    ensures { MatchResult done.now (λ _. (result ≡ 0) × (faults.new ≡ faults.old))
        (λ refusal. (result ≡ 1) × WritesErrorLine (T.text refusal) (error_stream_state E.Sink faults.old) (error_stream_state E.Sink faults.new)) }
{
    match done {
        Ok(()) => DONE,
        Err(refusal) => {
            report_error(faults, refusal);
            REFUSED
        }
    }
}

/// Says what is to be said where the words gave no order, and answers the exit status. Help and the version go to the output; what is
/// wrong with bad words, and want of memory, to the stream of faults.
pub fn report_parse_error<O: BufferedSink, E: Sink>(
    output: &mut O,
    faults: &mut E,
    stop: &OrderStop,
) -> u8
    ensures { ReportsOrderStop O.Sink O.BufferedSink.own E.Sink output.old output.new faults.old faults.new stop.now result }
{
    match stop {
        OrderStop::Help(text) => {
            let said = send(output, text.as_bytes());
            finish(faults, &said)
        }
        OrderStop::Words(text) => {
            let _ = write_bytes(faults, text.as_bytes());
            BAD_WORDS
        }
        OrderStop::Memory => {
            report_error(faults, &CommandError::Memory);
            REFUSED
        }
    }
}
