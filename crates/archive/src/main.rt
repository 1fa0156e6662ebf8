//! The archive's program: what the words of its command line order, over the system's devices.
#![tactic(auto)]

ghost use Rattle.std.specs.Prelude.{map, string_bytes};
ghost use Rattle.std.specs.Process.{exit_status};
ghost use Rattle.archive_run.specs.Environments.{devices};
ghost use Rattle.archive.specs.Program.{RunsArchiveProgram, RunsArchiveOnArgs};

mod machine;
mod threaders;

use archive_args::OrderStop;
use archive_files::{ArchiveDatabases, SystemDatabases};
use archive_listen::{BufferedSink, WriteBuffer};
use archive_run::{Environment, Platform, run};
use machine::make_environment;
use mbox_core::device::Counted;
use sift_run::{HasArguments, OUTPUT_ROOM, borrowed, command_words, report_parse_error};
use sqlite::{Alter, FileFrom, FileStore, Start, Unknown};
use std::alloc::{AllocGlobal, Global};
use std::io;
use std::process::ExitCode;

/// Carries out what these words order. What an order that is refused left in the output is passed on here.
fn run_words<Y: Platform>(alloc: Global, world: &mut Environment<Y>, words: &[String]) -> u8
    ensures { RunsArchiveOnArgs (devices Y.Archive.ArchiveState Y.Files.ReadFiles Y.Files.StreamedFiles Y.Files.Input.Source Y.Databases.Databases Y.Clock.DayClock
        Y.Ports.listens Y.Ports.Listener.accepts Y.Ports.Listener.closes Y.Ports.Listener.over Y.Ports.went Y.Threaders.makes Y.Input.Source Y.Output.Sink Y.Output.BufferedSink.own Y.Faults.Sink)
        world.old (map string_bytes words.now) world.new result }
{
    let Ok(words) = borrowed(alloc, words) else {
        return report_parse_error(&mut world.output, &mut world.faults, &OrderStop::Memory);
    };
    let status = run(alloc, world, words.as_slice());
    let _ = world.output.flush();
    status
}

/// Carries out what the command line orders.
fn run_line<R: HasArguments + AllocGlobal, Y: Platform>(rt: &R, world: &mut Environment<Y>) -> u8
    ensures { RunsArchiveProgram (devices Y.Archive.ArchiveState Y.Files.ReadFiles Y.Files.StreamedFiles Y.Files.Input.Source Y.Databases.Databases Y.Clock.DayClock
        Y.Ports.listens Y.Ports.Listener.accepts Y.Ports.Listener.closes Y.Ports.Listener.over Y.Ports.went Y.Threaders.makes Y.Input.Source Y.Output.Sink Y.Output.BufferedSink.own Y.Faults.Sink)
        world.old R.gave rt.now world.new result }
{
    match command_words(rt) {
        Ok(words) => run_words(rt.alloc(), world, words.as_slice()),
        Err(stop) => report_parse_error(&mut world.output, &mut world.faults, &stop),
    }
}

/// Carries out what the command line orders, over these devices, and ends with its status.
fn carry_out<R: HasArguments + AllocGlobal, Y: Platform>(
    rt: &R,
    world: &mut Environment<Y>,
) -> ExitCode
    ensures { RunsArchiveProgram (devices Y.Archive.ArchiveState Y.Files.ReadFiles Y.Files.StreamedFiles Y.Files.Input.Source Y.Databases.Databases Y.Clock.DayClock
        Y.Ports.listens Y.Ports.Listener.accepts Y.Ports.Listener.closes Y.Ports.Listener.over Y.Ports.went Y.Threaders.makes Y.Input.Source Y.Output.Sink Y.Output.BufferedSink.own Y.Faults.Sink)
        world.old R.gave rt.now world.new (exit_status result) }
{
    ExitCode::from(run_line(rt, world))
}

/// Makes the devices of the system, over these databases and the standard streams, and carries out what the command line orders.
fn run_over<T: Alter + Drop, B: ArchiveDatabases<T> + Drop>(
    rt: &HostRuntime,
    databases: B,
) -> ExitCode {
    let output: WriteBuffer<_, OUTPUT_ROOM> = WriteBuffer::new(Counted::new(io::writer(rt)));
    let faults = Counted::new(rt.stderr());
    let mut world = make_environment::<T, B, _, _, _>(
        rt,
        databases,
        Counted::new(rt.reader()),
        output,
        faults,
    );
    carry_out(rt, &mut world)
}

/// Makes the databases of the system, and runs over them. `start` stands for what the file of a database holds before it is opened.
fn run_from<S: Start>(rt: &HostRuntime, start: S) -> ExitCode {
    let databases = SystemDatabases {
        rt,
        start: Some(start),
        known: None,
        left: None,
    };
    run_over::<FileStore<FileFrom<S>>, _>(rt, databases)
}

// What is proved of a run for any `S` holds of this one, whatever the file held, since no code can read that. `Unknown` supposes that a
// write which a stop of the machine tears leaves each byte old or new, so a commit syncs once.
fn main(rt: HostRuntime) -> ExitCode {
    run_from(&rt, Unknown)
}
