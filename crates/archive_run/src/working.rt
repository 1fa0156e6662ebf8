//! Orders over a database: each opens the database of the name, does one thing, and closes it.
ghost use Rattle.std.specs.Prelude.{◌≡◌, ◌⊎◌, Ok, Err, MatchResult};
ghost use Rattle.archive_commands.specs.Working.{CarriesOutCommand, GetsMessage};
ghost use Rattle.archive_run.specs.Crashing.{CrashCarriesOutCommand, CrashImportsFile};
ghost use Rattle.archive_run.specs.Databases.{UsesDatabase, UsesDatabaseIfOpened, GivesNoDatabase};
ghost use Rattle.archive_run.specs.Working.{AnswersOrFails, RefusesCommand, RefusesCheck, RefusesExport, RefusesGet, ImportsFile, RefusesImport, ExportsWholeList, RefusesOpening};
ghost use Rattle.sift_run.specs.Streams.{output_stream_state};
ghost use Rattle.archive_port.specs.Checking.{ChecksArchive};
ghost use Rattle.archive_port.specs.Crashes.{WritesNothing};

use crate::faults::RunError;
use archive_args::{CheckArgs, ImportArgs, StoreArgs};
use archive_commands::{Answer, GetError, carry_out, get};
use archive_desk::{DeskError, Report, export};
use archive_import::import_from;
use archive_listen::BufferedSink;
use archive_port::{ArchiveStore, CheckError, Databases, StoreFault};
use archive_results::Ask;
use sift_run::{CommandError, FileError, StreamedFiles};
use std::alloc::Global;

/// Carries a command out in the database of the order.
pub(crate) fn work_table<S: ArchiveStore, D: Databases<S>>(
    alloc: Global,
    databases: &mut D,
    order: &StoreArgs<'_>,
) -> Result<Answer, StoreFault>
    ensures worked { MatchResult result
        (λ answer. UsesDatabase D.Databases databases.old databases.new order.now.file
        (λ o c. CarriesOutCommand S.ArchiveState o c order.now.command (Ok answer)))
        (λ fault. GivesNoDatabase D.Databases databases.old databases.new order.now.file fault
        ⊎ UsesDatabase D.Databases databases.old databases.new order.now.file
        (λ o c. RefusesCommand S.ArchiveState o c order.now.command (RunError.Store fault))) }
    ensures crash { UsesDatabaseIfOpened D.Databases databases.old databases.new order.now.file
        (λ o c. CrashCarriesOutCommand S.ArchiveState o c order.now.command) }
{
    let mut store = databases.open(alloc, order.file)?;
    let answer = carry_out(&mut store, alloc, &order.command);
    databases.close(store);
    answer
}

/// Takes the messages of the file of this name, which is read piece by piece, into a list of an open store. F1: it cannot be
/// opened; F5: there was no memory to open it. Nothing was taken in then. M1 to M3, E4, E12, E14 and E15 as `import_from`.
fn import_file<S: ArchiveStore, F: StreamedFiles>(
    store: &mut S,
    alloc: Global,
    files: &F,
    list: &str,
    name: &str,
) -> Result<Report, RunError>
    ensures imported { MatchResult result
        (λ report. ImportsFile S.ArchiveState store.old store.new F.StreamedFiles F.Input.Source files.now list.now name.now report)
        (λ refusal. RefusesImport S.ArchiveState store.old store.new F.StreamedFiles F.Input.Source files.now list.now name.now refusal) }
    ensures crash { CrashImportsFile S.ArchiveState store.old store.new F.StreamedFiles F.Input.Source files.now list.now name.now }
{
    let mut input = match files.open_file(alloc, name) {
        Ok(input) => input,
        Err(FileError::Read) => return Err(RunError::Run(CommandError::Read)),
        Err(FileError::Memory) => return Err(RunError::Run(CommandError::Memory)),
    };
    match import_from(store, alloc, list, &mut input) {
        Ok(report) => Ok(report),
        Err(stop) => Err(RunError::Import(stop)),
    }
}

/// Takes the messages of the mbox of the order into its list.
pub(crate) fn work_import<S: ArchiveStore, D: Databases<S>, F: StreamedFiles>(
    alloc: Global,
    databases: &mut D,
    files: &F,
    order: &ImportArgs<'_>,
) -> Result<Report, RunError>
    ensures worked { AnswersOrFails D.Databases databases.old databases.new order.now.file result
        (λ report o c. ImportsFile S.ArchiveState o c F.StreamedFiles F.Input.Source files.now order.now.list order.now.mbox report)
        (λ o c. RefusesImport S.ArchiveState o c F.StreamedFiles F.Input.Source files.now order.now.list order.now.mbox) }
    ensures crash { UsesDatabaseIfOpened D.Databases databases.old databases.new order.now.file
        (λ o c. CrashImportsFile S.ArchiveState o c F.StreamedFiles F.Input.Source files.now order.now.list order.now.mbox) }
{
    let mut store = match databases.open(alloc, order.file) {
        Ok(store) => store,
        Err(fault) => return Err(RunError::Store(fault)),
    };
    let imported = import_file(&mut store, alloc, files, order.list, order.mbox);
    databases.close(store);
    imported
}

/// What a reader gets of a message of an open store.
fn get_text<S: ArchiveStore>(
    store: &mut S,
    alloc: Global,
    ask: &Ask<'_>,
    key: &str,
) -> Result<Vec<u8>, RunError>
    ensures got { MatchResult result
        (λ text. GetsMessage S.ArchiveState store.old store.new ask.now key.now (Ok text))
        (λ refusal. RefusesGet S.ArchiveState store.old store.new ask.now key.now refusal) }
    ensures writes_nothing { WritesNothing S.ArchiveState store.old store.new }
{
    match get(store, alloc, ask, key) {
        Ok(text) => Ok(text),
        Err(GetError::Fault(fault)) => Err(RunError::Desk(fault)),
        Err(GetError::NoMessage) => Err(RunError::Store(StoreFault::NoMessage)),
        Err(GetError::Denied(rule)) => match String::from_str(alloc, rule) {
            Ok(rule) => Err(RunError::Denied(rule)),
            Err(refused) => {
                store.count_refusal(refused.into());
                Err(RunError::Run(CommandError::Memory))
            }
        },
    }
}

/// What a reader gets of a message of the database of this name.
pub(crate) fn work_get<S: ArchiveStore, D: Databases<S>>(
    alloc: Global,
    databases: &mut D,
    file: &str,
    ask: &Ask<'_>,
    key: &str,
) -> Result<Vec<u8>, RunError>
    ensures worked { AnswersOrFails D.Databases databases.old databases.new file.now result
        (λ text o c. GetsMessage S.ArchiveState o c ask.now key.now (Ok text))
        (λ o c. RefusesGet S.ArchiveState o c ask.now key.now) }
    ensures crash { UsesDatabaseIfOpened D.Databases databases.old databases.new file.now (WritesNothing S.ArchiveState) }
{
    let mut store = match databases.open(alloc, file) {
        Ok(store) => store,
        Err(fault) => return Err(RunError::Store(fault)),
    };
    let text = get_text(&mut store, alloc, ask, key);
    databases.close(store);
    text
}

/// Looks whether an open store is whole.
fn check_store<S: ArchiveStore>(store: &mut S, alloc: Global) -> Result<(), RunError>
    ensures checked { MatchResult result
        (λ _. ChecksArchive S.ArchiveState store.old store.new (Ok tt))
        (λ refusal. RefusesCheck S.ArchiveState store.old store.new refusal) }
    ensures writes_nothing { WritesNothing S.ArchiveState store.old store.new }
{
    match store.check(alloc) {
        Ok(()) => Ok(()),
        Err(CheckError::Failed(fault)) => Err(RunError::Store(fault)),
        Err(CheckError::Damaged { list, key }) => Err(RunError::Damaged { list, key }),
    }
}

/// Looks whether the database of the order is whole.
pub(crate) fn work_check<S: ArchiveStore, D: Databases<S>>(
    alloc: Global,
    databases: &mut D,
    order: &CheckArgs<'_>,
) -> Result<(), RunError>
    ensures worked { AnswersOrFails D.Databases databases.old databases.new order.now.file result
        (λ _ o c. ChecksArchive S.ArchiveState o c (Ok tt)) (λ o c. RefusesCheck S.ArchiveState o c) }
    ensures crash { UsesDatabaseIfOpened D.Databases databases.old databases.new order.now.file
        (WritesNothing S.ArchiveState) }
{
    let mut store = match databases.open(alloc, order.file) {
        Ok(store) => store,
        Err(fault) => return Err(RunError::Store(fault)),
    };
    let checked = check_store(&mut store, alloc);
    databases.close(store);
    checked
}

/// Writes the messages of a list of an open store that the reader may see, and passes them on (G6).
fn export_text<S: ArchiveStore, O: BufferedSink>(
    store: &mut S,
    alloc: Global,
    ask: &Ask<'_>,
    output: &mut O,
) -> Result<(), RunError>
    ensures exported { MatchResult result
        (λ _. ExportsWholeList S.ArchiveState store.old store.new ask.now (output_stream_state O.Sink O.BufferedSink.own output.old)
        (output_stream_state O.Sink O.BufferedSink.own output.new))
        (RefusesExport S.ArchiveState store.old store.new ask.now (output_stream_state O.Sink O.BufferedSink.own output.old)
        (output_stream_state O.Sink O.BufferedSink.own output.new)) }
    ensures writes_nothing { WritesNothing S.ArchiveState store.old store.new }
{
    match export(store, alloc, ask, output) {
        Ok(_count) => {}
        Err(stop) => return Err(RunError::Desk(stop.fault)),
    }
    match output.flush() {
        Ok(()) => Ok(()),
        Err(_) => Err(RunError::Desk(DeskError::Write)),
    }
}

/// Writes the messages of a list of the database of this name that the reader may see, and passes them on (G6).
pub(crate) fn work_export<S: ArchiveStore, D: Databases<S>, O: BufferedSink>(
    alloc: Global,
    databases: &mut D,
    file: &str,
    ask: &Ask<'_>,
    output: &mut O,
) -> Result<(), RunError>
    ensures worked { MatchResult result
        (λ _. UsesDatabase D.Databases databases.old databases.new file.now
        (λ o c. ExportsWholeList S.ArchiveState o c ask.now
        (output_stream_state O.Sink O.BufferedSink.own output.old) (output_stream_state O.Sink O.BufferedSink.own output.new)))
        (λ refusal. (RefusesOpening D.Databases databases.old databases.new file.now refusal
        × (output.new ≡ output.old))
        ⊎ UsesDatabase D.Databases databases.old databases.new file.now
        (λ o c. RefusesExport S.ArchiveState o c ask.now
        (output_stream_state O.Sink O.BufferedSink.own output.old) (output_stream_state O.Sink O.BufferedSink.own output.new) refusal)) }
    ensures crash { UsesDatabaseIfOpened D.Databases databases.old databases.new file.now (WritesNothing S.ArchiveState) }
{
    let mut store = match databases.open(alloc, file) {
        Ok(store) => store,
        Err(fault) => return Err(RunError::Store(fault)),
    };
    let exported = export_text(&mut store, alloc, ask, output);
    databases.close(store);
    exported
}
