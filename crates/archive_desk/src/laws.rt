//! Laws of the desk: each contract is a law over definitions, or over what it is given, and no call does anything.
ghost use Rattle.std.specs.Prelude.{◌≡◌, ℕ, List, Result, map};
ghost use Rattle.std.specs.List.{All};
ghost use Rattle.mbox_core.specs.Division.{Item};
ghost use Rattle.mbox_core.specs.Written.{IsItem};
ghost use Rattle.archive_model.specs.Records.{Archive};
ghost use Rattle.archive_model.specs.Commands.{Command as Told};
ghost use Rattle.archive_model.specs.Machine.{step};
ghost use Rattle.archive_model.specs.Runs.{run, taken};
ghost use Rattle.archive_port.specs.Commands.{spec_command};
ghost use Rattle.archive_port.specs.declared.faults.StoreFault.{StoreFault};
ghost use Rattle.archive_results.specs.Access.{Ask};
ghost use Rattle.archive_port.specs.Adding.{HasAddedAtLeast};
ghost use Rattle.archive_desk.specs.Crashes.{HasImportedAtLeast};
ghost use Rattle.archive_desk.specs.Importing.{IsImported};
ghost use Rattle.archive_desk.specs.Readable.{BreaksNoQuestion, CanBeRead, QuestionHasNoDatabaseFault, ExportHasNoDatabaseFault};
ghost use Rattle.archive_desk.specs.Readable.{StoreQuestionHasNoFault, IsWellFormedCommand, MeetsNoDiskFault};
ghost use Rattle.archive_desk.specs.declared.exporting.ExportStop.{ExportStop};
ghost use Rattle.archive_desk.specs.declared.importing.Report.{Report};
ghost use Rattle.archive_desk.specs.declared.faults.DeskError.{DeskError};

use archive_port::{ArchiveStore, Command};
use mbox_core::laws::whole_items_stay_items;

/// Where an archive can be read, it can be after a command for which `IsWellFormedCommand` holds, as it does for each of the code, after any
/// number of them, and after messages that can be written are added.
pub fn commands_write_readable_archives()
    ensures step { (a : Archive) (command : Told) → IsWellFormedCommand command → CanBeRead a
        → CanBeRead (step a command).0 }
    ensures run { (a : Archive) (commands : List Told) → All IsWellFormedCommand commands → CanBeRead a
        → CanBeRead (run a commands).archive }
    ensures taken { (a : Archive) (list : List ℕ) (items : List Item) → All IsItem items
        → CanBeRead a → CanBeRead (taken a list items).archive }
{
    whole_items_stay_items();
}

/// What is repeated is known. Where so many first messages of a file were added and no other, as a stop of the machine leaves it,
/// the same file imported again ends with the archive that an import ends with which was not stopped.
pub fn a_repeated_import_ends_with_the_same_archive()
    ensures added { (list : List ℕ) (items : List Item) (done : ℕ) (a b : Archive)
        → HasAddedAtLeast list items done a b
        → (taken b list items).archive ≡ (taken a list items).archive }
    ensures imported { (list text : List ℕ) (done : ℕ) (a b c d : Archive) (report whole : Report)
        → HasImportedAtLeast list text done a b → IsImported list text b c report
        → IsImported list text a d whole → c ≡ d }
{}

/// Of each command of the code this is so: what it adds can be written, what it grants is of rank 1 to 3, it withdraws for the author
/// or the board, and holds back up to a day.
pub fn each_command_is_well_formed(command: &Command<'_>)
    ensures { IsWellFormedCommand (spec_command command.now) }
{
    match command {
        Command::Add { item, .. } => {
            let _text = item.text;
            let _arrival = item.envelope.arrival;
        }
        Command::Embargo { until, .. } => {
            let _number = until.number();
        }
        _ => {}
    }
}

/// `IsWellFormedCommand` holds of all commands of a run.
pub fn commands_of_a_run_are_well_formed(commands: &[Command<'_>])
    ensures { All IsWellFormedCommand (map spec_command commands.now) }
{
    for command in commands.iter() {
        each_command_is_well_formed(command);
    }
}

/// Where an archive can be read, nothing is so of it that E15 of a question could mean: not of the messages of a list, of a month or of
/// an author, nor of the message of a key, nor of who asks, nor of the names of lists and of who has a token.
pub fn a_readable_archive_fails_no_question()
    ensures { (a : Archive) → CanBeRead a → BreaksNoQuestion a }
{}

/// Over a disk that does not fail in a call, no question of an archive that can be read is answered by G4 that carries E15, no export
/// stops with it, and neither the lists nor who has a token are refused with E15.
pub fn only_a_disk_fault_fails_a_question<S: ArchiveStore, A>()
    ensures question { (old new : S) (result : Result A DeskError) (ask : Ask)
        → MeetsNoDiskFault S.ArchiveState old new
        → QuestionHasNoDatabaseFault S.ArchiveState old new result ask }
    ensures export { (old new : S) (result : Result A ExportStop) (ask : Ask)
        → MeetsNoDiskFault S.ArchiveState old new
        → ExportHasNoDatabaseFault S.ArchiveState old new result ask }
    ensures names { (old new : S) (result : Result A StoreFault)
        → MeetsNoDiskFault S.ArchiveState old new → StoreQuestionHasNoFault S.ArchiveState old new result }
{}
