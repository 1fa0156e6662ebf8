//! Serving an archive: the policy is read, the day asked and the database opened once, and then connections are answered.
ghost use Rattle.std.specs.Prelude.{◌≡◌, ◌≤◌, Ok, Err, MatchResult};
ghost use Rattle.archive_port.specs.Crashes.{WritesNothing};
ghost use Rattle.archive_listen.specs.declared.faults.ListenError.{ListenError};
ghost use Rattle.archive_run.specs.Databases.{LeavesOrUsesDatabase};
ghost use Rattle.archive_run.specs.Serving.{AnnouncesThenServesAll, RunsServe, RunServesDatabase, RefusesServing, ServesOpenStore, RunServesDatabaseOnDay, max_cache_bytes, server_output};

use crate::faults::RunError;
use crate::ordering::{asking_day, named_policy};
use crate::threaders::Threaders;
use crate::world::{Environment, Platform};
use archive_args::ServeArgs;
use archive_listen::{BoundListener, BufferedSink, Ports};
use archive_port::{ArchiveStore, Databases};
use archive_serve::{ServingContext, ServingError, serve};
use civil_time::Day;
use mbox_core::device::Sink;
use policy_core::Policy;
use sift_run::CommandError;
use std::alloc::Global;
use thread_core::Threader;

/// How many bytes of lists, months and authors are kept at most while an archive is served, or one of them alone.
const KEPT_BYTES: usize = 256 << 20;

/// Listens on a port. F4: it cannot be had.
fn listen_on<P: Ports>(ports: &mut P, port: u16) -> Result<BoundListener<P::Listener>, RunError>
    ensures { MatchResult result (λ listening. P.listens ports.old ports.new port (Ok listening))
        (λ refusal. (refusal ≡ RunError.Net) × (fault : ListenError)
        × P.listens ports.old ports.new port (Err fault)) }
{
    match ports.listen(port) {
        Ok(listening) => Ok(listening),
        Err(_fault) => Err(RunError::Net),
    }
}

/// By what an archive is served.
fn serving_terms<'a, T>(
    alloc: Global,
    policy: &'a Policy,
    threader: &'a T,
    day: Day,
) -> ServingContext<'a, T>
    ensures rules { result.policy.now ≡ policy.now }
    ensures day { result.day ≡ day }
    ensures most { result.most ≡ max_cache_bytes }
{
    ServingContext {
        alloc,
        policy,
        threader,
        day,
        most: KEPT_BYTES,
    }
}

/// Says where a listener listens, answers so many of its connections out of an open store, and ends it. F4: no more connections come.
/// F2: it could not be said where. F5: the memory of the routes of the pages was refused, which the store counts.
fn serve_listening<T: Threader, S: ArchiveStore, P: Ports, O: BufferedSink, E: Sink>(
    alloc: Global,
    store: &mut S,
    policy: &Policy,
    threader: &T,
    day: Day,
    ports: &mut P,
    listening: BoundListener<P::Listener>,
    count: u32,
    output: &mut O,
    faults: &mut E,
) -> Result<(), RunError>
    ensures served { MatchResult result
        (λ _. AnnouncesThenServesAll S.ArchiveState P.Listener.accepts P.Listener.closes P.Listener.over P.went ports.old ports.new policy.now day listening
        store.old store.new
        (server_output O.Sink O.BufferedSink.own E.Sink output.old faults.old)
        (server_output O.Sink O.BufferedSink.own E.Sink output.new faults.new) count)
        (RefusesServing S.ArchiveState P.Listener.accepts P.Listener.closes P.Listener.over P.went ports.old ports.new policy.now day listening
        store.old store.new
        (server_output O.Sink O.BufferedSink.own E.Sink output.old faults.old)
        (server_output O.Sink O.BufferedSink.own E.Sink output.new faults.new) count) }
    ensures failures { E.failures faults.old ≤ E.failures faults.new }
    ensures writes_nothing { WritesNothing S.ArchiveState store.old store.new }
{
    let BoundListener { listener, port } = listening;
    let mut listener = listener;
    let terms = serving_terms(alloc, policy, threader, day);
    let served = serve(store, &terms, &mut listener, port, count, output, faults);
    ports.end(listener);
    match served {
        Ok(()) => Ok(()),
        Err(ServingError::Listen) => Err(RunError::Net),
        Err(ServingError::Write) => Err(RunError::Run(CommandError::Write)),
        Err(ServingError::Memory) => Err(RunError::Run(CommandError::Memory)),
    }
}

/// Listens on the port of an order, serves so many connections out of an open store, and ends the listener.
fn serve_store<Y: Platform, T: Threader>(
    alloc: Global,
    world: &mut Environment<Y>,
    store: &mut Y::Archive,
    policy: &Policy,
    threader: &T,
    day: Day,
    order: &ServeArgs<'_>,
) -> Result<(), RunError>
    ensures served { ServesOpenStore world.old world.new Y.Output.Sink Y.Output.BufferedSink.own Y.Faults.Sink Y.Archive.ArchiveState
        Y.Ports.listens Y.Ports.Listener.accepts Y.Ports.Listener.closes Y.Ports.Listener.over Y.Ports.went store.old store.new order.now policy.now day result }
    ensures failures { Y.Faults.failures world.old.faults ≤ Y.Faults.failures world.new.faults }
    ensures writes_nothing { WritesNothing Y.Archive.ArchiveState store.old store.new }
{
    let listening = listen_on(&mut world.ports, order.port)?;
    serve_listening(
        alloc,
        store,
        policy,
        threader,
        day,
        &mut world.ports,
        listening,
        order.count,
        &mut world.output,
        &mut world.faults,
    )
}

/// Serves the database of an order: opens it, listens on the port, answers so many connections, and closes it.
fn work_serve<Y: Platform, T: Threader>(
    alloc: Global,
    world: &mut Environment<Y>,
    policy: &Policy,
    threader: &T,
    day: Day,
    order: &ServeArgs<'_>,
) -> Result<(), RunError>
    ensures served { RunServesDatabase world.old world.new Y.Output.Sink Y.Output.BufferedSink.own Y.Faults.Sink Y.Archive.ArchiveState
        Y.Ports.listens Y.Ports.Listener.accepts Y.Ports.Listener.closes Y.Ports.Listener.over Y.Ports.went Y.Databases.Databases order.now policy.now day result }
    ensures failures { Y.Faults.failures world.old.faults ≤ Y.Faults.failures world.new.faults }
    ensures crash { LeavesOrUsesDatabase Y.Databases.Databases world.old.databases world.new.databases order.now.file
        (WritesNothing Y.Archive.ArchiveState) }
{
    let mut store = match world.databases.open(alloc, order.file) {
        Ok(store) => store,
        Err(fault) => return Err(RunError::Store(fault)),
    };
    let served = serve_store(alloc, world, &mut store, policy, threader, day, order);
    world.databases.close(store);
    served
}

/// Serves under a policy, on the day of the order.
fn serve_by<Y: Platform, T: Threader>(
    alloc: Global,
    world: &mut Environment<Y>,
    policy: &Policy,
    threader: &T,
    order: &ServeArgs<'_>,
) -> Result<(), RunError>
    ensures served { RunServesDatabaseOnDay world.old world.new Y.Output.Sink Y.Output.BufferedSink.own Y.Faults.Sink Y.Archive.ArchiveState Y.Ports.listens
        Y.Ports.Listener.accepts Y.Ports.Listener.closes Y.Ports.Listener.over Y.Ports.went Y.Databases.Databases Y.Clock.DayClock order.now policy.now result }
    ensures failures { Y.Faults.failures world.old.faults ≤ Y.Faults.failures world.new.faults }
    ensures crash { LeavesOrUsesDatabase Y.Databases.Databases world.old.databases world.new.databases order.now.file
        (WritesNothing Y.Archive.ArchiveState) }
{
    let Some(day) = asking_day(order.day, &mut world.clock) else {
        return Err(RunError::Run(CommandError::Clock));
    };
    work_serve(alloc, world, policy, threader, day, order)
}

/// Serves an archive: sees to what threads messages (F1), reads the policy, asks the day, opens the database, listens, says where,
/// and answers so many connections, each that fails in one line to the stream of faults.
pub(crate) fn run_serve<Y: Platform>(
    alloc: Global,
    world: &mut Environment<Y>,
    order: &ServeArgs<'_>,
) -> Result<(), RunError>
    ensures runs { RunsServe world.old world.new Y.Output.Sink Y.Output.BufferedSink.own Y.Faults.Sink Y.Archive.ArchiveState Y.Ports.listens
        Y.Ports.Listener.accepts Y.Ports.Listener.closes Y.Ports.Listener.over Y.Ports.went Y.Databases.Databases Y.Clock.DayClock Y.Files.ReadFiles Y.Threaders.makes order.now result }
    ensures crash { LeavesOrUsesDatabase Y.Databases.Databases world.old.databases world.new.databases order.now.file
        (WritesNothing Y.Archive.ArchiveState) }
{
    let Some(threader) = world.threaders.threader() else {
        return Err(RunError::Run(CommandError::Read));
    };
    let policy = named_policy(alloc, &world.files, order.policy)?;
    serve_by(alloc, world, &policy, &threader, order)
}
