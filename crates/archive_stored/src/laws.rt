//! Laws of what is answered from files and from memory: each contract is a law over definitions, and no call does anything.
ghost use Rattle.std.specs.Prelude.{◌≡◌, ℕ, ℤ, List, Option, Result};
ghost use Rattle.sqlite_disk.specs.declared.Files.{Files};
ghost use Rattle.sqlite_store.specs.declared.store.FileStore.{FileStore};
ghost use Rattle.sqlite_trees.specs.declared.memory.MemStore.{MemStore};
ghost use Rattle.sqlite.specs.Held.{Held};
ghost use Rattle.sqlite.specs.Steps.{over_memory};
ghost use Rattle.policy_core.specs.Rules.{Rule};
ghost use Rattle.archive_model.specs.Commands.{CommandReply};
ghost use Rattle.archive_model.specs.Machine.{StepOutcome};
ghost use Rattle.archive_model.specs.Records.{Archive};
ghost use Rattle.archive_tables.specs.Making.{empty_archive};
ghost use Rattle.archive_port.specs.Told.{MemoryWasRefused};
ghost use Rattle.archive_port.specs.declared.faults.StoreFault.{StoreFault};
ghost use Rattle.archive_store.specs.State.{state_of};
ghost use Rattle.archive_store.specs.Told.{HasNoStepLimit, HoldsTables, archive_in};
ghost use Rattle.archive_store.specs.declared.store.Store.{Store};
ghost use Rattle.archive_results.specs.Access.{Ask};
ghost use Rattle.archive_desk.specs.Holding.{RelatesTableArchives};
ghost use Rattle.archive_desk.specs.Readable.{CanBeRead, ExportHasNoDatabaseFault, IsFullyReadableStore, QuestionHasNoDatabaseFault, StoreQuestionHasNoFault};
ghost use Rattle.archive_desk.specs.declared.exporting.ExportStop.{ExportStop};
ghost use Rattle.archive_desk.specs.declared.faults.DeskError.{DeskError};
ghost use Rattle.archive_pages.specs.Causes.{IsInputDataUnreadable, Sent503OrBrokeOff, ServesOr503};
ghost use Rattle.archive_pages.specs.Serving.{StoreKeepsArchive};
ghost use Rattle.archive_pages.specs.declared.faults.ServeFault.{ServeFault};
ghost use Rattle.archive_stored.specs.Reopened.{AnswersFromReopenedFile};
ghost use Rattle.archive_stored.specs.Stopped.{AnswersAfterCrash};

use archive_store::laws::{
    a_crash_leaves_the_archive_before_a_command_or_after_it,
    a_file_opened_again_holds_the_same_archive,
};
use sqlite_disk::Disk;

/// A request to a file that was closed, opened again and adopted is answered from the archive that
/// the file held when it was closed: over any disk that keeps the clauses of `Disk` and returned what
/// was written to it.
pub fn a_reopened_file_gives_the_same_replies<D: Disk>()
    ensures { (closed opened : Held (FileStore D D.Disk)) (files : Files D)
        (store new : Store (FileStore D D.Disk)) (archive : Archive)
        → AnswersFromReopenedFile closed opened files store new archive }
{
    a_file_opened_again_holds_the_same_archive::<D>();
}

/// Wherever a crash cut a command off, each request to the file that is opened again is answered from one archive: the one before the
/// command or the one after it, and if the command was answered, the one after it. The clauses `step` and `crash` of the command speak of
/// the end of a call, over any disk: over a disk that fails from some access on, a command ends with what a crash at that access leaves.
pub fn a_file_opened_after_a_crash_gives_replies_of_before_or_after<D: Disk>()
    ensures { (old cut opened : Held (FileStore D D.Disk)) (files : Files D)
        (store : Store (FileStore D D.Disk)) (step : Archive → StepOutcome) (reply : Option CommandReply)
        → AnswersAfterCrash old cut opened files store step reply }
{
    a_crash_leaves_the_archive_before_a_command_or_after_it::<sqlite::FileStore<D>>();
}

/// In memory a store that held an archive before a request holds the same one after it, at rest,
/// whatever was answered, 503 too. So the next request can follow.
pub fn in_memory_each_request_leaves_the_store_ready()
    ensures { (old new : Store MemStore) (result : Result ℕ ServeFault)
        → StoreKeepsArchive (state_of over_memory) old new result
        → RelatesTableArchives (state_of over_memory) old new (λ a b. b ≡ a) }
{}

/// In memory, for an archive that can be read, and without a limit on the steps of a query, 503 and S3
/// mean that memory was refused in that call, by the count of the store. An archive that commands wrote
/// can be read, and a disk does not fail there.
pub fn in_memory_503_means_that_memory_was_refused()
    ensures { (old new : Store MemStore) (result : Result ℕ ServeFault)
        (told_before told_after : List ℕ) (rules : List Rule) (day : ℤ)
        → HoldsTables over_memory old → HasNoStepLimit over_memory old
        → CanBeRead (archive_in over_memory old) → ServesOr503 (state_of over_memory) old new result
        (IsInputDataUnreadable told_before told_after rules day) → Sent503OrBrokeOff result → MemoryWasRefused (state_of over_memory) old new }
{}

/// In memory no question about an archive that can be read gets E15, if no limit is set on the steps of a query: no question of the desk
/// (`question`), no export (`export`), and neither the names of all lists nor who has a token (`names`).
pub fn in_memory_no_question_fails<A>()
    ensures question { (old new : Store MemStore) (result : Result A DeskError) (ask : Ask)
        → IsFullyReadableStore (state_of over_memory) old → QuestionHasNoDatabaseFault (state_of over_memory) old new result ask }
    ensures export { (old new : Store MemStore) (result : Result A ExportStop) (ask : Ask)
        → IsFullyReadableStore (state_of over_memory) old → ExportHasNoDatabaseFault (state_of over_memory) old new result ask }
    ensures names { (old new : Store MemStore) (result : Result A StoreFault)
        → IsFullyReadableStore (state_of over_memory) old → StoreQuestionHasNoFault (state_of over_memory) old new result }
{}

/// The empty archive, which a new file holds, can be read.
pub fn an_empty_archive_can_be_read()
    ensures { CanBeRead empty_archive }
{}
