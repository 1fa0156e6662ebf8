//! Laws of runs that come one after the other: each contract is a law over the definitions of `specs/` alone, and no call does
//! anything. A run is cut off by a kill, a crash of the machine or a failing disk. `IsTrustedRun` and `FindsAfter` say what is trusted
//! of the system. Of the program's files, one law joins all runs over one device, which opens them again; two processes have devices of
//! two types, and one law speaks of a run and the next.
ghost use Rattle.archive_run.specs.Environments.{devices};
ghost use Rattle.archive_life.specs.Histories.{RunsHaveHistory, WithdrawalStaysInLaterRuns};
ghost use Rattle.archive_life.specs.Sequences.{ProgramRunsHaveHistory, PrintedWithdrawalIsDone, RunAnswersFromFound, RunLeavesCarriedOut, WithdrawalStaysAfterRestarts};
ghost use Rattle.archive_life.specs.Peers.{HiddenMessageReachesNoPeer};

use archive_model::laws::commands_keep_index_columns_correct;
use archive_pages::laws::a_withheld_message_leaves_no_trace;
use archive_run::{Environment, Platform};

/// One run, whatever its order is and however it ends, and the next run, which may be over devices of other types, as in another
/// process over the same files: there the types name what the file held at first. The next run finds the archive that the machine makes
/// of the one that this run found (`leaves`): by all commands of the order if the run printed its word, and else by some first ones, or
/// none. What a run printed that ended with status 0, and what a server sent to each peer, is of the archive that it found (`answers`).
/// A run that printed `withdrawn` withdrew the message (`withdrawn`).
pub fn a_run_leaves_what_it_carried_out<Y: Platform, Z: Platform>(
    before: &Environment<Y>,
    after: &Environment<Y>,
    next: &Environment<Z>,
)
    ensures leaves { RunLeavesCarriedOut (devices Y.Archive.ArchiveState Y.Files.ReadFiles Y.Files.StreamedFiles Y.Files.Input.Source Y.Databases.Databases Y.Clock.DayClock
        Y.Ports.listens Y.Ports.Listener.accepts Y.Ports.Listener.closes Y.Ports.Listener.over Y.Ports.went Y.Threaders.makes Y.Input.Source Y.Output.Sink Y.Output.BufferedSink.own Y.Faults.Sink)
        before.now after.now (Z.Databases.Databases.holds next.now.databases) }
    ensures answers { RunAnswersFromFound (devices Y.Archive.ArchiveState Y.Files.ReadFiles Y.Files.StreamedFiles Y.Files.Input.Source Y.Databases.Databases Y.Clock.DayClock
        Y.Ports.listens Y.Ports.Listener.accepts Y.Ports.Listener.closes Y.Ports.Listener.over Y.Ports.went Y.Threaders.makes Y.Input.Source Y.Output.Sink Y.Output.BufferedSink.own Y.Faults.Sink)
        before.now after.now }
    ensures withdrawn { PrintedWithdrawalIsDone (devices Y.Archive.ArchiveState Y.Files.ReadFiles Y.Files.StreamedFiles Y.Files.Input.Source Y.Databases.Databases Y.Clock.DayClock
        Y.Ports.listens Y.Ports.Listener.accepts Y.Ports.Listener.closes Y.Ports.Listener.over Y.Ports.went Y.Threaders.makes Y.Input.Source Y.Output.Sink Y.Output.BufferedSink.own Y.Faults.Sink)
        before.now after.now }
{}

/// If each run found what the run before it left, each found the archive that the machine makes by all commands that the runs before it
/// carried out, in their order (`history`). If a run withdrew a message, then in each later run the replies to readers who did not write
/// it, and to whom the policy denies it, are as if it had never come, until a run restores it (`withdrawn`). This is said of every reply
/// except to a request for one message by its key.
pub fn runs_in_turn_have_a_history()
    ensures history { RunsHaveHistory }
    ensures withdrawn { WithdrawalStaysInLaterRuns }
{
    a_withheld_message_leaves_no_trace();
}

/// The two laws above together, over devices whose databases can be opened again, as those of the program's files can (`SystemDatabases`
/// of `archive`): whatever orders are given over one database, one after the other, and wherever each is cut off.
pub fn program_runs_have_a_history<Y: Platform>(first_environment: &Environment<Y>)
    ensures history { ProgramRunsHaveHistory (devices Y.Archive.ArchiveState Y.Files.ReadFiles Y.Files.StreamedFiles Y.Files.Input.Source Y.Databases.Databases Y.Clock.DayClock
        Y.Ports.listens Y.Ports.Listener.accepts Y.Ports.Listener.closes Y.Ports.Listener.over Y.Ports.went Y.Threaders.makes Y.Input.Source Y.Output.Sink Y.Output.BufferedSink.own Y.Faults.Sink)
        first_environment.now }
    ensures withdrawn { WithdrawalStaysAfterRestarts (devices Y.Archive.ArchiveState Y.Files.ReadFiles Y.Files.StreamedFiles Y.Files.Input.Source Y.Databases.Databases Y.Clock.DayClock
        Y.Ports.listens Y.Ports.Listener.accepts Y.Ports.Listener.closes Y.Ports.Listener.over Y.Ports.went Y.Threaders.makes Y.Input.Source Y.Output.Sink Y.Output.BufferedSink.own Y.Faults.Sink)
        first_environment.now }
{
    commands_keep_index_columns_correct();
    a_withheld_message_leaves_no_trace();
}

/// What went over a connection to a peer from whom a withdrawn message is hidden, and who asked for no message by its key, is an answer
/// from the archive in which the message never came: the reply of that archive, 503, or a prefix of one of them.
pub fn a_hidden_message_reaches_no_peer()
    ensures { HiddenMessageReachesNoPeer }
{}
