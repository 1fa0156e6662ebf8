//! The archive's program, of `sift` alone: standard input to standard output by the arguments of its command line.
#![tactic(auto)]

ghost use Rattle.std.specs.Prelude.{map, string_bytes};
ghost use Rattle.std.specs.Process.{exit_status};
ghost use Rattle.sift.specs.Program.{RunsSiftProgram, RunsSiftOnArgs};

use archive_args::OrderStop;
use archive_listen::{BufferedSink, WriteBuffer};
use mbox_core::device::{Counted, Sink, Source};
use sift_run::{
    DayClock, HasArguments, OUTPUT_ROOM, ReadFiles, SystemClock, SystemFiles, borrowed,
    command_words, report_parse_error, run,
};
use std::alloc::{AllocGlobal, Global};
use std::io;
use std::process::ExitCode;

/// Carries out what these arguments order. What a sift that is refused left in the output is passed on here.
fn run_words<F: ReadFiles, C: DayClock, R: Source, O: BufferedSink, E: Sink>(
    alloc: Global,
    files: &F,
    clock: &mut C,
    input: &mut R,
    output: &mut O,
    faults: &mut E,
    words: &[String],
) -> u8
    ensures { RunsSiftOnArgs C.DayClock R.Source O.Sink O.BufferedSink.own E.Sink F.ReadFiles files.now clock.old clock.new input.old input.new
        output.old faults.old faults.new (map string_bytes words.now) output.new result }
{
    let Ok(words) = borrowed(alloc, words) else {
        return report_parse_error(output, faults, &OrderStop::Memory);
    };
    let status = run(alloc, files, clock, input, output, faults, words.as_slice());
    let _ = output.flush();
    status
}

/// Carries out what the command line orders.
fn run_line<
    Y: HasArguments + AllocGlobal,
    F: ReadFiles,
    C: DayClock,
    R: Source,
    O: BufferedSink,
    E: Sink,
>(rt: &Y, files: &F, clock: &mut C, input: &mut R, output: &mut O, faults: &mut E) -> u8
    ensures { RunsSiftProgram C.DayClock R.Source O.Sink O.BufferedSink.own E.Sink F.ReadFiles files.now clock.old clock.new input.old input.new
        output.old faults.old faults.new Y.gave rt.now output.new result }
{
    match command_words(rt) {
        Ok(words) => run_words(
            rt.alloc(),
            files,
            clock,
            input,
            output,
            faults,
            words.as_slice(),
        ),
        Err(stop) => report_parse_error(output, faults, &stop),
    }
}

/// Carries out what the command line orders, over these devices, and ends with its status.
fn carry_out<
    Y: HasArguments + AllocGlobal,
    F: ReadFiles,
    C: DayClock,
    R: Source,
    O: BufferedSink,
    E: Sink,
>(rt: &Y, files: &F, clock: &mut C, input: &mut R, output: &mut O, faults: &mut E) -> ExitCode
    ensures { RunsSiftProgram C.DayClock R.Source O.Sink O.BufferedSink.own E.Sink F.ReadFiles files.now clock.old clock.new input.old input.new
        output.old faults.old faults.new Y.gave rt.now output.new (exit_status result) }
{
    ExitCode::from(run_line(rt, files, clock, input, output, faults))
}

/// Makes the devices of the system.
fn main(rt: HostRuntime) -> ExitCode {
    let mut output: WriteBuffer<_, OUTPUT_ROOM> = WriteBuffer::new(Counted::new(io::writer(&rt)));
    carry_out(
        &rt,
        &SystemFiles { rt: &rt },
        &mut SystemClock { rt: &rt },
        &mut Counted::new(rt.reader()),
        &mut output,
        &mut Counted::new(rt.stderr()),
    )
}
