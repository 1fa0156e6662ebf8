//! Laws of the store: each contract is a law over what a database holds, and no call does anything.
ghost use Rattle.sqlite.specs.Held.{Held, state};
ghost use Rattle.sqlite_disk.specs.declared.Files.{Files};
ghost use Rattle.sqlite_store.specs.declared.store.FileStore.{FileStore};
ghost use Rattle.sqlite_wal.specs.Reads.{AreClean};
ghost use Rattle.sqlite.specs.State.{IsLive};
ghost use Rattle.sqlite.specs.Files.{over_files, file_state, Finds, IsOpened};
ghost use Rattle.sqlite.specs.Closing.{IsCopied};
ghost use Rattle.archive_model.specs.Records.{Archive};
ghost use Rattle.archive_model.specs.Commands.{CommandReply};
ghost use Rattle.archive_model.specs.Machine.{StepOutcome};
ghost use Rattle.archive_tables.specs.Tables.{IsArchiveAtRest};
ghost use Rattle.archive_tables.specs.Crashes.{CrashLeavesArchiveWhere, IsCrashSafe};
ghost use Rattle.archive_store.specs.Crashes.{CrashSteps, CrashAfterCommand};
ghost use Rattle.archive_store.specs.Replies.{PerformsModelStep};
ghost use Rattle.std.specs.Prelude.{◌⊎◌, ⊤, Option};
ghost use Rattle.sqlite.specs.Steps.{over_memory};
ghost use Rattle.sqlite_trees.specs.declared.memory.MemStore.{MemStore};
ghost use Rattle.sqlite_disk.specs.Disk.{MoreFaults};
ghost use Rattle.archive_store.specs.Told.{HoldsArchive, StaysOpenUnlessDiskFails, IsOpen, StoreHasCleanDisk, faults_of};
ghost use Rattle.archive_store.specs.declared.store.Store.{Store};

use sqlite::Alter;
use sqlite_disk::Disk;

/// A file that is closed and opened again holds the same archive: where a connection held one and was closed to files whose
/// disk has returned what was written to it (`close_files`), a connection that is opened from these files (`open_files`)
/// holds it. It is so over any disk that keeps the clauses of `Disk`.
pub fn a_file_opened_again_holds_the_same_archive<D: Disk>()
    ensures { (old new : Held (FileStore D D.Disk)) (files : Files D) (archive : Archive)
        → HoldsArchive over_files old archive → IsLive (file_state old)
        → (AreClean D.Disk files.log files.db → IsCopied old files) → Finds files new → IsOpened new
        → HoldsArchive over_files new archive }
{}

/// In memory nothing shuts a store that is open, whatever a call answers: so each call is followed by the next.
pub fn in_memory_an_open_store_stays_open()
    ensures { (old new : Store MemStore) → StaysOpenUnlessDiskFails over_memory old new → IsOpen over_memory old
        → IsOpen over_memory new }
{}

/// Over a disk too, unless the disk failed or refused once more in that call.
pub fn an_open_store_stays_open_unless_its_disk_fails<S: Alter>()
    ensures { (old new : Store S) → StaysOpenUnlessDiskFails S.Store old new → StoreHasCleanDisk S.Store new
        → IsOpen S.Store old → IsOpen S.Store new
        ⊎ MoreFaults (faults_of S.Store old) (faults_of S.Store new) }
{}

/// A crash between two calls leaves what an open archive remembers, and nothing else: so whatever was answered is there.
/// `open_files` says that what it opens is live; and if a call left an archive open, each clause on what a crash leaves
/// (`CrashAfterCommand`, `CrashRuns`, `CrashAddsAllBatches`) says enough.
pub fn a_crash_between_calls_leaves_what_is_remembered<S: Alter>()
    ensures opened { (connection : Held S) → IsArchiveAtRest (state S.Store connection)
        → IsLive (state S.Store connection) → IsCrashSafe (state S.Store connection) }
    ensures called { (connection : Held S) → IsArchiveAtRest (state S.Store connection)
        → CrashLeavesArchiveWhere (state S.Store connection) (λ _. ⊤) → IsCrashSafe (state S.Store connection) }
{}

/// A crash in a command leaves the archive before it or the one that the machine makes, and after a command that was answered
/// the latter alone: if the command does and leaves what its clauses `step` and `crash` say. They are said of the end of a call,
/// over any disk: over one that is frozen from some access on, a command ends with what a crash at that access leaves.
pub fn a_crash_leaves_the_archive_before_a_command_or_after_it<S: Alter>()
    ensures { (old new : Held S) (step : Archive → StepOutcome) (reply : Option CommandReply)
        → PerformsModelStep S.Store old new step reply → CrashSteps S.Store old new step
        → CrashAfterCommand S.Store old new step reply }
{}
