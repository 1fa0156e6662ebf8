//! An import, a withdrawal and a server, over one database, one behind the other.
ghost use Rattle.std.specs.Prelude.{◌≡◌, ◌≢◌, [], ◌∷◌, map};
ghost use Rattle.archive_run.specs.Environments.{devices};
ghost use Rattle.example_served.specs.Publishing.{AreCommandLinesOf, ImportsWithdrawsAndServes, Publishing, StopsAtFirstFailure};

use archive_run::{Environment, Platform, run};
use std::alloc::Global;

/// Carries out what three commands of words order, one after the other, as the program does, and answers the status of the first that is
/// not carried out, or 0. Behind such a one nothing is begun.
pub fn import_withdraw_and_serve<Y: Platform>(
    alloc: Global,
    world: &mut Environment<Y>,
    import: &[&str],
    withdrawal: &[&str],
    service: &[&str],
) -> u8
    // Where they order an import, a withdrawal and a server over one database: it is all of one archive.
    ensures published { result ≡ 0 → (it : Publishing)
        → AreCommandLinesOf (map (λ w. w.now) import.now) (map (λ w. w.now) withdrawal.now) (map (λ w. w.now) service.now) it
        → ImportsWithdrawsAndServes (devices Y.Archive.ArchiveState Y.Files.ReadFiles Y.Files.StreamedFiles Y.Files.Input.Source Y.Databases.Databases Y.Clock.DayClock
        Y.Ports.listens Y.Ports.Listener.accepts Y.Ports.Listener.closes Y.Ports.Listener.over Y.Ports.went Y.Threaders.makes Y.Input.Source Y.Output.Sink Y.Output.BufferedSink.own Y.Faults.Sink)
        world.old world.new it }

    // Whatever they order: at another status one of them was refused, or orders nothing.
    ensures stopped { result ≢ 0
        → StopsAtFirstFailure (devices Y.Archive.ArchiveState Y.Files.ReadFiles Y.Files.StreamedFiles Y.Files.Input.Source Y.Databases.Databases Y.Clock.DayClock
        Y.Ports.listens Y.Ports.Listener.accepts Y.Ports.Listener.closes Y.Ports.Listener.over Y.Ports.went Y.Threaders.makes Y.Input.Source Y.Output.Sink Y.Output.BufferedSink.own Y.Faults.Sink)
        world.old world.new
        (map (λ w. w.now) import.now ∷ map (λ w. w.now) withdrawal.now ∷ map (λ w. w.now) service.now ∷ []) result }
{
    let imported = run(alloc, world, import);
    if imported != 0 {
        return imported;
    }
    let withdrawn = run(alloc, world, withdrawal);
    if withdrawn != 0 {
        return withdrawn;
    }
    run(alloc, world, service)
}
