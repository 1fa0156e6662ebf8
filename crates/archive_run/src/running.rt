//! Running the order that words give.
ghost use Rattle.std.specs.Prelude.{◌≡◌, ◌≤◌, ◌⊎◌, map, false, None};
ghost use Rattle.clap.specs.Words.{takes};
ghost use Rattle.archive_args.specs.Program.{archive_app};
ghost use Rattle.archive_args.specs.Orders.{IsUsageError, IsOrderStopOf, order_of_args};
ghost use Rattle.archive_args.specs.declared.orders.OrderStop.{OrderStop};
ghost use Rattle.archive_args.specs.declared.orders.Order.{Order};
ghost use Rattle.sift_run.specs.Running.{ParseAsOrder};
ghost use Rattle.archive_run.specs.Orders.{RunsSift};
ghost use Rattle.archive_run.specs.Crashing.{CrashRunsOrder};
ghost use Rattle.archive_run.specs.Runs.{OrderIsCarriedOut, OrderIsRefused, RunsOrder, RunReportsOrderStop};
ghost use Rattle.archive_run.specs.Environments.{devices};

use crate::faults::RunError;
use crate::ordering::{run_check, run_export, run_get, run_import, run_table};
use crate::serving::run_serve;
use crate::world::{Environment, Platform};
use archive_args::{Order, SiftArgs, order};
use sift_run::{finish, report_parse_error};
use std::alloc::Global;

/// Reads the policy, asks the day, and then sifts.
fn run_sift<Y: Platform>(
    alloc: Global,
    world: &mut Environment<Y>,
    asked: &SiftArgs<'_>,
) -> Result<(), RunError>
    ensures { RunsSift world.old world.new Y.Output.Sink Y.Output.BufferedSink.own Y.Files.ReadFiles Y.Clock.DayClock Y.Input.Source
        asked.now result }
{
    match sift_run::run_sift(
        alloc,
        &world.files,
        &mut world.clock,
        &mut world.input,
        &mut world.output,
        asked,
    ) {
        Ok(()) => Ok(()),
        Err(fault) => Err(RunError::Run(fault)),
    }
}

/// Carries out an order.
fn run_order<Y: Platform>(
    alloc: Global,
    world: &mut Environment<Y>,
    asked: &Order<'_>,
) -> Result<(), RunError>
    ensures runs { RunsOrder (devices Y.Archive.ArchiveState Y.Files.ReadFiles Y.Files.StreamedFiles Y.Files.Input.Source Y.Databases.Databases Y.Clock.DayClock
        Y.Ports.listens Y.Ports.Listener.accepts Y.Ports.Listener.closes Y.Ports.Listener.over Y.Ports.went Y.Threaders.makes Y.Input.Source Y.Output.Sink Y.Output.BufferedSink.own Y.Faults.Sink)
        world.old world.new asked.now result }
    ensures crash { CrashRunsOrder (devices Y.Archive.ArchiveState Y.Files.ReadFiles Y.Files.StreamedFiles Y.Files.Input.Source Y.Databases.Databases Y.Clock.DayClock
        Y.Ports.listens Y.Ports.Listener.accepts Y.Ports.Listener.closes Y.Ports.Listener.over Y.Ports.went Y.Threaders.makes Y.Input.Source Y.Output.Sink Y.Output.BufferedSink.own Y.Faults.Sink)
        world.old world.new asked.now }
{
    match asked {
        Order::Sift(asked) => run_sift(alloc, world, asked),
        Order::Table(asked) => run_table(alloc, world, asked),
        Order::Import(asked) => run_import(alloc, world, asked),
        Order::Get(asked) => run_get(alloc, world, asked),
        Order::Export(asked) => run_export(alloc, world, asked),
        Order::Check(asked) => run_check(alloc, world, asked),
        Order::Serve(asked) => run_serve(alloc, world, asked),
    }
}

/// Carries out what the words order, which do not begin with the program's name, and answers the exit status: 0 done,
/// 1 refused, 2 bad words. Help and the version go to the output; a refusal is one line, and what is wrong with bad
/// words is a text, both to the stream of faults. At 0 all that went out was passed on; what an order that is refused left in the
/// output the caller passes on.
pub fn run<Y: Platform>(alloc: Global, world: &mut Environment<Y>, words: &[&str]) -> u8
    // At 0 an order is carried out, whole. Its database holds what the order makes of the archive that it held, and what went out is of
    // that archive.
    ensures done { (order : Order) → ParseAsOrder (map (λ w. w.now) words.now) order → result ≡ 0
        → OrderIsCarriedOut (devices Y.Archive.ArchiveState Y.Files.ReadFiles Y.Files.StreamedFiles Y.Files.Input.Source Y.Databases.Databases Y.Clock.DayClock
        Y.Ports.listens Y.Ports.Listener.accepts Y.Ports.Listener.closes Y.Ports.Listener.over Y.Ports.went Y.Threaders.makes Y.Input.Source Y.Output.Sink Y.Output.BufferedSink.own Y.Faults.Sink)
        world.old world.new order }

    // At 1 it is refused: for a reason that holds, or for want of memory to read the words. One line tells the refusal.
    ensures refused { (order : Order) → ParseAsOrder (map (λ w. w.now) words.now) order → result ≡ 1
        → OrderIsRefused (devices Y.Archive.ArchiveState Y.Files.ReadFiles Y.Files.StreamedFiles Y.Files.Input.Source Y.Databases.Databases Y.Clock.DayClock
        Y.Ports.listens Y.Ports.Listener.accepts Y.Ports.Listener.closes Y.Ports.Listener.over Y.Ports.went Y.Threaders.makes Y.Input.Source Y.Output.Sink Y.Output.BufferedSink.own Y.Faults.Sink)
        world.old world.new order }

    // At each status, and at each moment while the database of the order is open: a crash leaves the archive as it was, or the one that
    // the command makes; of an import, some first messages of the mbox were added.
    ensures crash { (order : Order) → ParseAsOrder (map (λ w. w.now) words.now) order
        → CrashRunsOrder (devices Y.Archive.ArchiveState Y.Files.ReadFiles Y.Files.StreamedFiles Y.Files.Input.Source Y.Databases.Databases Y.Clock.DayClock
        Y.Ports.listens Y.Ports.Listener.accepts Y.Ports.Listener.closes Y.Ports.Listener.over Y.Ports.went Y.Threaders.makes Y.Input.Source Y.Output.Sink Y.Output.BufferedSink.own Y.Faults.Sink)
        world.old world.new order }

    // At 2 the words order nothing, for they are bad.
    ensures bad { result ≡ 2 → IsUsageError (map (λ w. w.now) words.now)
        × ((takes archive_app (map (λ w. w.now) words.now) ≡ false)
        ⊎ (order_of_args (map (λ w. w.now) words.now) ≡ None)) }

    // Words order something, and the status is 0 or 1. Or they order nothing, which has a cause, and then that alone is said of which
    // the cause is, with its status: help 0, bad words 2, want of memory 1.
    ensures stopped { ((order : Order) × ParseAsOrder (map (λ w. w.now) words.now) order
        × (result ≤ 1))
        ⊎ ((stop : OrderStop) × IsOrderStopOf (map (λ w. w.now) words.now) stop
        × RunReportsOrderStop (devices Y.Archive.ArchiveState Y.Files.ReadFiles Y.Files.StreamedFiles Y.Files.Input.Source Y.Databases.Databases Y.Clock.DayClock
        Y.Ports.listens Y.Ports.Listener.accepts Y.Ports.Listener.closes Y.Ports.Listener.over Y.Ports.went Y.Threaders.makes Y.Input.Source Y.Output.Sink Y.Output.BufferedSink.own Y.Faults.Sink)
        world.old world.new stop result) }
{
    match order(alloc, words) {
        Ok(asked) => {
            let done = run_order(alloc, world, &asked);
            finish(&mut world.faults, &done)
        }
        Err(stop) => report_parse_error(&mut world.output, &mut world.faults, &stop),
    }
}
