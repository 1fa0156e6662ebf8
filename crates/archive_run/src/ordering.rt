//! Orders over a database: what is read before it is opened, and what is written when it is closed.
ghost use Rattle.std.specs.Prelude.{◌≡◌, ◌++◌, decimal, true, IfErr, IfOk, Some};
ghost use Rattle.sift_run.specs.Running.{IsReadingDay, IsPolicyErrorCause, AreRulesOfPolicyFile};
ghost use Rattle.sift_run.specs.Streams.{WritesAndFlushesOrFails, output_stream_state};
ghost use Rattle.archive_run.specs.Crashing.{CrashCarriesOutCommand, CrashImportsFile};
ghost use Rattle.archive_run.specs.Databases.{LeavesOrUsesDatabase, UsesDatabaseIfOpened};
ghost use Rattle.archive_port.specs.Crashes.{WritesNothing};
ghost use Rattle.archive_run.specs.Refusals.{IsCommandErrorWith};
ghost use Rattle.archive_run.specs.Orders.{RunExportsListOnDay, RunGetsMessageOnDay, RunsCheck, RunsExport, RunsGet, RunsImport, RunsStoreCommand, ask_of_values};
ghost use Rattle.archive_run.specs.Working.{WritesTextOrFails, report_line};

use crate::faults::RunError;
use crate::working::{work_check, work_export, work_get, work_import, work_table};
use crate::world::{Environment, Platform};
use archive_args::{CheckArgs, GetArgs, ImportArgs, ReaderArgs, StoreArgs};
use archive_desk::Report;
use archive_listen::BufferedSink;
use archive_results::{Ask, Reader};
use civil_time::Day;
use itoa::Buffer;
use mbox_core::device::write_bytes;
use policy_core::Policy;
use sift_run::{CommandError, DayClock, ReadFiles, read_policy_or_open};
use std::alloc::Global;

/// Writes a text to the output, and passes it on (F2).
pub(crate) fn send<O: BufferedSink>(output: &mut O, text: &[u8]) -> Result<(), RunError>
    ensures { WritesAndFlushesOrFails (RunError.Run CommandError.Write) (output_stream_state O.Sink O.BufferedSink.own output.old)
        (output_stream_state O.Sink O.BufferedSink.own output.new) text.now result }
{
    match sift_run::send(output, text) {
        Ok(()) => Ok(()),
        Err(fault) => Err(RunError::Run(fault)),
    }
}

/// The policy of the file of this name.
pub(crate) fn named_policy<F: ReadFiles>(
    alloc: Global,
    files: &F,
    name: &str,
) -> Result<Policy, RunError>
    ensures ok { IfOk result (AreRulesOfPolicyFile F.ReadFiles files.now (Some name.now)) }
    ensures refused { IfErr result (IsCommandErrorWith (IsPolicyErrorCause F.ReadFiles files.now (Some name.now))) }
{
    match read_policy_or_open(alloc, files, Some(name)) {
        Ok(policy) => Ok(policy),
        Err(fault) => Err(RunError::Run(fault)),
    }
}

/// Carries a command out, and writes its word.
pub(crate) fn run_table<Y: Platform>(
    alloc: Global,
    world: &mut Environment<Y>,
    order: &StoreArgs<'_>,
) -> Result<(), RunError>
    ensures runs { RunsStoreCommand world.old world.new Y.Output.Sink Y.Output.BufferedSink.own Y.Archive.ArchiveState Y.Databases.Databases order.now result }
    ensures crash { UsesDatabaseIfOpened Y.Databases.Databases world.old.databases world.new.databases order.now.file
        (λ o c. CrashCarriesOutCommand Y.Archive.ArchiveState o c order.now.command) }
{
    match work_table(alloc, &mut world.databases, order) {
        Ok(answer) => send(&mut world.output, answer.line().as_bytes()),
        Err(fault) => Err(RunError::Store(fault)),
    }
}

/// Takes the messages of a file into a list, and writes how many they were.
pub(crate) fn run_import<Y: Platform>(
    alloc: Global,
    world: &mut Environment<Y>,
    order: &ImportArgs<'_>,
) -> Result<(), RunError>
    ensures runs { RunsImport world.old world.new Y.Output.Sink Y.Output.BufferedSink.own Y.Archive.ArchiveState Y.Databases.Databases
        Y.Files.StreamedFiles Y.Files.Input.Source order.now result }
    ensures crash { UsesDatabaseIfOpened Y.Databases.Databases world.old.databases world.new.databases order.now.file
        (λ o c. CrashImportsFile Y.Archive.ArchiveState o c Y.Files.StreamedFiles Y.Files.Input.Source world.old.files order.now.list order.now.mbox) }
{
    match work_import(alloc, &mut world.databases, &world.files, order) {
        Ok(report) => send_report(&mut world.output, report),
        Err(refusal) => Err(refusal),
    }
}

/// Writes a text to the output (F2).
fn put_text<O: BufferedSink>(output: &mut O, text: &[u8]) -> Result<(), RunError>
    ensures { WritesTextOrFails (output_stream_state O.Sink O.BufferedSink.own output.old)
        (output_stream_state O.Sink O.BufferedSink.own output.new) text.now result }
{
    match write_bytes(output, text) {
        Ok(()) => Ok(()),
        Err(_) => Err(RunError::Run(CommandError::Write)),
    }
}

/// Writes a text, and a number in decimal digits after it (F2).
fn put_count<O: BufferedSink>(output: &mut O, text: &[u8], count: u64) -> Result<(), RunError>
    ensures { WritesTextOrFails (output_stream_state O.Sink O.BufferedSink.own output.old)
        (output_stream_state O.Sink O.BufferedSink.own output.new) (text.now ++ decimal count) result }
{
    let mut digits = Buffer::new();
    put_text(output, text)?;
    put_text(output, digits.format(count).as_bytes())
}

/// Writes how many messages an import took in, and passes that on (F2). It takes no memory.
fn send_report<O: BufferedSink>(output: &mut O, report: Report) -> Result<(), RunError>
    ensures { WritesAndFlushesOrFails (RunError.Run CommandError.Write) (output_stream_state O.Sink O.BufferedSink.own output.old)
        (output_stream_state O.Sink O.BufferedSink.own output.new) (report_line report) result }
{
    let Report {
        new,
        known,
        too_large,
    } = report;
    put_count(output, b"new ", new)?;
    put_count(output, b" known ", known)?;
    put_count(output, b" too-large ", too_large)?;
    send(output, b"\n")
}

/// Looks whether a database is whole, and says so.
pub(crate) fn run_check<Y: Platform>(
    alloc: Global,
    world: &mut Environment<Y>,
    order: &CheckArgs<'_>,
) -> Result<(), RunError>
    ensures runs { RunsCheck world.old world.new Y.Output.Sink Y.Output.BufferedSink.own Y.Archive.ArchiveState Y.Databases.Databases order.now result }
    ensures crash { UsesDatabaseIfOpened Y.Databases.Databases world.old.databases world.new.databases order.now.file
        (WritesNothing Y.Archive.ArchiveState) }
{
    match work_check(alloc, &mut world.databases, order) {
        Ok(()) => send(&mut world.output, b"ok\n"),
        Err(refusal) => Err(refusal),
    }
}

/// The day that was given, or the clock's.
pub(crate) fn asking_day<C: DayClock>(given: Option<Day>, clock: &mut C) -> Option<Day>
    ensures { IsReadingDay C.DayClock given true clock.old clock.new result }
{
    match given {
        Some(day) => Some(day),
        None => clock.today(),
    }
}

/// What the order asks under a policy on a day.
fn ask_of<'a>(order: &ReaderArgs<'a>, policy: &'a Policy, day: Day) -> Ask<'a>
    ensures { result ≡ ask_of_values order.entry.now policy.entry.now day }
{
    Ask {
        policy,
        reader: match order.person {
            Some(name) => Reader::Person(name),
            None => Reader::Nobody,
        },
        list: order.list,
        day,
    }
}

/// Writes what the reader gets of a message under a policy, on the day of the order.
fn get_by<Y: Platform>(
    alloc: Global,
    world: &mut Environment<Y>,
    policy: &Policy,
    order: &GetArgs<'_>,
) -> Result<(), RunError>
    ensures runs { RunGetsMessageOnDay world.old world.new Y.Output.Sink Y.Output.BufferedSink.own Y.Archive.ArchiveState Y.Databases.Databases
        Y.Clock.DayClock order.now policy.now result }
    ensures crash { LeavesOrUsesDatabase Y.Databases.Databases world.old.databases world.new.databases order.now.ask.file
        (WritesNothing Y.Archive.ArchiveState) }
{
    let Some(day) = asking_day(order.asked.day, &mut world.clock) else {
        return Err(RunError::Run(CommandError::Clock));
    };
    let ask = ask_of(&order.asked, policy, day);
    let text = work_get(
        alloc,
        &mut world.databases,
        order.asked.file,
        &ask,
        order.key,
    )?;
    send(&mut world.output, &text)
}

/// Reads the policy, asks the day, and then writes what the reader gets of a message.
pub(crate) fn run_get<Y: Platform>(
    alloc: Global,
    world: &mut Environment<Y>,
    order: &GetArgs<'_>,
) -> Result<(), RunError>
    ensures runs { RunsGet world.old world.new Y.Output.Sink Y.Output.BufferedSink.own Y.Archive.ArchiveState Y.Databases.Databases
        Y.Clock.DayClock Y.Files.ReadFiles order.now result }
    ensures crash { LeavesOrUsesDatabase Y.Databases.Databases world.old.databases world.new.databases order.now.ask.file
        (WritesNothing Y.Archive.ArchiveState) }
{
    let policy = named_policy(alloc, &world.files, order.asked.policy)?;
    get_by(alloc, world, &policy, order)
}

/// Writes the messages that the reader may see under a policy, on the day of the order.
fn export_by<Y: Platform>(
    alloc: Global,
    world: &mut Environment<Y>,
    policy: &Policy,
    order: &ReaderArgs<'_>,
) -> Result<(), RunError>
    ensures runs { RunExportsListOnDay world.old world.new Y.Output.Sink Y.Output.BufferedSink.own Y.Archive.ArchiveState Y.Databases.Databases
        Y.Clock.DayClock order.now policy.now result }
    ensures crash { LeavesOrUsesDatabase Y.Databases.Databases world.old.databases world.new.databases order.now.file
        (WritesNothing Y.Archive.ArchiveState) }
{
    let Some(day) = asking_day(order.day, &mut world.clock) else {
        return Err(RunError::Run(CommandError::Clock));
    };
    let ask = ask_of(order, policy, day);
    work_export(
        alloc,
        &mut world.databases,
        order.file,
        &ask,
        &mut world.output,
    )
}

/// Reads the policy, asks the day, and then writes the messages that the reader may see.
pub(crate) fn run_export<Y: Platform>(
    alloc: Global,
    world: &mut Environment<Y>,
    order: &ReaderArgs<'_>,
) -> Result<(), RunError>
    ensures runs { RunsExport world.old world.new Y.Output.Sink Y.Output.BufferedSink.own Y.Archive.ArchiveState Y.Databases.Databases
        Y.Clock.DayClock Y.Files.ReadFiles order.now result }
    ensures crash { LeavesOrUsesDatabase Y.Databases.Databases world.old.databases world.new.databases order.now.file
        (WritesNothing Y.Archive.ArchiveState) }
{
    let policy = named_policy(alloc, &world.files, order.policy)?;
    export_by(alloc, world, &policy, order)
}
