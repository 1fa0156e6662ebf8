//! An import, a withdrawal and a server over one database, and a second server that is started when the first one ended.
ghost use Rattle.std.specs.Prelude.{◌≡◌, ◌≢◌, [], ◌∷◌, map, IfErr, IfOk};
ghost use Rattle.archive_run.specs.Environments.{devices};
ghost use Rattle.example_served.specs.Publishing.{StopsAtFirstFailure};
ghost use Rattle.example_served.specs.Restarting.{AreRestartedCommandLinesOf, PublishesOverRestarts, RestartedPublishing, TwoSucceedAndTwoEnd};

use archive_life::laws::a_hidden_message_reaches_no_peer;
use archive_pages::laws::a_withheld_message_leaves_no_trace;
use archive_run::{Environment, Platform, run};
use std::alloc::Global;

/// The exit statuses of two servers.
#[derive(Clone, Copy)]
pub struct ServerStatuses {
    /// How the first one ended.
    pub first: u8,
    /// How the second one ended.
    pub second: u8,
}

/// Carries out what four command lines order, one after the other, as the program does. If the first or the second is not carried out, it
/// begins nothing else and answers that status as an error. The fourth is begun when the third ended, whatever its status was.
pub fn publish_over_restarts<Y: Platform>(
    alloc: Global,
    world: &mut Environment<Y>,
    import: &[&str],
    withdrawal: &[&str],
    first_service: &[&str],
    second_service: &[&str],
) -> Result<ServerStatuses, u8>
    // Where they order an import, a withdrawal and two servers over one database: both servers hide the withdrawn message.
    ensures published { IfOk result (λ statuses. (it : RestartedPublishing)
        → AreRestartedCommandLinesOf (map (λ w. w.now) import.now) (map (λ w. w.now) withdrawal.now)
        (map (λ w. w.now) first_service.now) (map (λ w. w.now) second_service.now) it
        → PublishesOverRestarts (devices Y.Archive.ArchiveState Y.Files.ReadFiles Y.Files.StreamedFiles Y.Files.Input.Source Y.Databases.Databases Y.Clock.DayClock
        Y.Ports.listens Y.Ports.Listener.accepts Y.Ports.Listener.closes Y.Ports.Listener.over Y.Ports.went Y.Threaders.makes Y.Input.Source Y.Output.Sink Y.Output.BufferedSink.own Y.Faults.Sink)
        world.old world.new it statuses.first statuses.second) }

    // Whatever they order: each of the last two ended with its status, after two that were carried out.
    ensures ended { IfOk result (λ statuses.
        TwoSucceedAndTwoEnd (devices Y.Archive.ArchiveState Y.Files.ReadFiles Y.Files.StreamedFiles Y.Files.Input.Source Y.Databases.Databases Y.Clock.DayClock
        Y.Ports.listens Y.Ports.Listener.accepts Y.Ports.Listener.closes Y.Ports.Listener.over Y.Ports.went Y.Threaders.makes Y.Input.Source Y.Output.Sink Y.Output.BufferedSink.own Y.Faults.Sink)
        world.old world.new (map (λ w. w.now) import.now) (map (λ w. w.now) withdrawal.now)
        (map (λ w. w.now) first_service.now) (map (λ w. w.now) second_service.now) statuses.first statuses.second) }

    // Else one of the first two was refused, or orders nothing, and nothing was begun after it.
    ensures stopped { IfErr result (λ status. (status ≢ 0)
        × StopsAtFirstFailure (devices Y.Archive.ArchiveState Y.Files.ReadFiles Y.Files.StreamedFiles Y.Files.Input.Source Y.Databases.Databases Y.Clock.DayClock
        Y.Ports.listens Y.Ports.Listener.accepts Y.Ports.Listener.closes Y.Ports.Listener.over Y.Ports.went Y.Threaders.makes Y.Input.Source Y.Output.Sink Y.Output.BufferedSink.own Y.Faults.Sink)
        world.old world.new (map (λ w. w.now) import.now ∷ map (λ w. w.now) withdrawal.now ∷ []) status) }
{
    a_withheld_message_leaves_no_trace();
    a_hidden_message_reaches_no_peer();
    let imported = run(alloc, world, import);
    if imported != 0 {
        return Err(imported);
    }
    let withdrawn = run(alloc, world, withdrawal);
    if withdrawn != 0 {
        return Err(withdrawn);
    }
    let first = run(alloc, world, first_service);
    let second = run(alloc, world, second_service);
    Ok(ServerStatuses { first, second })
}
