//! An import into files that are then closed and opened again, and a request to them.
ghost use Rattle.std.specs.Prelude.{◌≡◌, IfOk, IfErr, OnOk, IsTrue};
ghost use Rattle.archive_desk.specs.Importing.{IsImported};
ghost use Rattle.archive_pages.specs.Replies.{HasServeFaultCause};
ghost use Rattle.archive_pages.specs.Headline.{AnswersRequestFromArchive};
ghost use Rattle.example_reopened.specs.Importing.{IsReimportError, IsTrueOfImportedArchive};
ghost use Rattle.example_reopened.specs.Reopening.{RelatesFilesToStore, RelatesFilesToOpenStore};

use crate::reopening::{open, reopen};
use archive_desk::{ImportStop, Report, import};
use archive_pages::{ServeFault, answer};
use archive_store::{Store, StoreFault};
use civil_time::Day;
use http::StatusCode;
use mbox_core::device::{Sink, Source};
use policy_core::Policy;
use sqlite::{Alter, FileStore, Files, Options};
use sqlite_disk::Disk;
use std::alloc::Global;
use thread_core::Threader;

/// Why files were not imported into, and opened again.
#[derive(Drop)]
pub enum ReimportError<S: Alter> {
    /// E14 or E15: they were not opened, not closed or not opened again.
    Store(StoreFault),
    /// The import stopped: the store that it left, and why.
    Import(Store<S>, ImportStop),
}

/// Opens an archive's files, of whatever version, adds the messages of an mbox to a list as `import` does, closes the files and opens them again: the
/// store that this gives remembers the archive that the import made out of what the files held.
pub fn import_and_reopen<D: Disk + Drop>(
    alloc: Global,
    files: Files<D>,
    options: Options,
    list: &str,
    mbox: &[u8],
) -> Result<(Store<FileStore<D>>, Report), ReimportError<FileStore<D>>>
    requires log { IsTrue (D.Disk.is_usable files.log) }
    requires db { IsTrue (D.Disk.is_usable files.db) }
    ensures imported { IfOk result (λ done. RelatesFilesToStore files done.0
        (λ a b. IsImported list.now mbox.now a b done.1)) }
    ensures stopped { IfErr result (λ stop. IsReimportError files list.now mbox.now stop) }
{
    let mut store = match open(alloc, files, options) {
        Ok(store) => store,
        Err(fault) => return Err(ReimportError::Store(fault)),
    };
    let report = match import(&mut store, alloc, list, mbox) {
        Ok(report) => report,
        Err(stop) => return Err(ReimportError::Import(store, stop)),
    };
    match reopen(store, alloc, options) {
        Ok(again) => Ok((again, report)),
        Err(fault) => Err(ReimportError::Store(fault)),
    }
}

/// Imports and opens again, as `import_and_reopen` does, and then answers one request as `answer` does: the reply is of the
/// archive that the import made, or 503. Where it stopped before, nothing was read and nothing was written.
pub fn import_reopen_and_answer<D: Disk + Drop, T: Threader, R: Source, W: Sink>(
    alloc: Global,
    files: Files<D>,
    options: Options,
    list: &str,
    mbox: &[u8],
    policy: &Policy,
    threader: &T,
    day: Day,
    input: &mut R,
    output: &mut W,
) -> Result<
    (Store<FileStore<D>>, Report, Result<StatusCode, ServeFault>),
    ReimportError<FileStore<D>>,
>
    requires log { IsTrue (D.Disk.is_usable files.log) }
    requires db { IsTrue (D.Disk.is_usable files.db) }
    ensures answered { IfOk result (λ told. IsTrueOfImportedArchive files told.0 list.now mbox.now told.1
        (λ archive. AnswersRequestFromArchive archive policy.now day
        (R.told input.old) (R.told input.new) (R.ends input.old) (R.ends input.new)
        (W.told output.old) (W.told output.new) told.2)) }
    ensures stays { IfOk result (λ told. RelatesFilesToOpenStore files told.0
        (λ a b. IsImported list.now mbox.now a b told.1)) }
    ensures quiet { IfOk result (λ told. OnOk told.2
        ((R.failures input.new ≡ R.failures input.old)
        × (W.failures output.new ≡ W.failures output.old))) }
    ensures cause { IfOk result (λ told. IfErr told.2 (λ fault. HasServeFaultCause
        (W.told output.old) (W.told output.new) (R.failures input.old) (R.failures input.new)
        (W.failures output.old) (W.failures output.new) fault)) }
    ensures stopped { IfErr result (λ stop. IsReimportError files list.now mbox.now stop
        × (input.new ≡ input.old) × (output.new ≡ output.old)) }
{
    let (mut again, report) = match import_and_reopen(alloc, files, options, list, mbox) {
        Ok(done) => done,
        Err(stop) => return Err(stop),
    };
    let answered = answer(&mut again, alloc, policy, threader, day, input, output);
    Ok((again, report, answered))
}
