//! An import and a withdrawal in files that are then closed and opened again, and two requests behind that.
ghost use Rattle.std.specs.Prelude.{◌≡◌, ◌⊎◌, IfOk, IfErr, IsTrue};
ghost use Rattle.archive_pages.specs.Causes.{Sent503OrBrokeOff};
ghost use Rattle.example_reopened.specs.Opening.{Has503OrS3Cause, IsTrueOfArchiveInFiles};
ghost use Rattle.example_reopened.specs.Publishing.{IsFilesError};
ghost use Rattle.example_reopened.specs.Reopening.{RelatesFilesToStore, RelatesFilesToOpenStore};
ghost use Rattle.example_reopened.specs.Withdrawing.{AnswersAfterWithdrawal, ImportsAndWithdraws};
ghost use Rattle.archive_store.specs.Told.{HasNoStepLimit};
ghost use Rattle.sqlite.specs.Files.{over_files};

use crate::reopening::{open, reopen};
use crate::withdrawing::{TwoAnswers, WithdrawError, Withdrawal, answer_both, import_and_withdraw};
use archive_desk::Report;
use archive_desk::laws::commands_write_readable_archives;
use archive_pages::Client;
use archive_store::{Store, StoreFault};
use civil_time::Day;
use mbox_core::device::{Sink, Source};
use mbox_core::laws::messages_of_a_division_are_items;
use policy_core::Policy;
use sqlite::{Alter, FileStore, Files, Options};
use sqlite_disk::Disk;
use std::alloc::Global;
use thread_core::Threader;

/// Why nobody was answered out of files.
#[derive(Drop)]
pub enum FilesError<S: Alter> {
    /// E14 or E15: they were not opened, not closed or not opened again.
    Store(StoreFault),
    /// Nothing was withdrawn: the store that was left, and why.
    Withdraw(Store<S>, WithdrawError),
}

/// Opens files, imports and withdraws as `import_and_withdraw` does, closes the files and opens them again: the store that this gives
/// remembers the archive that the two commands made out of what the files held.
pub fn withdraw_and_reopen<D: Disk + Drop>(
    alloc: Global,
    files: Files<D>,
    options: Options,
    withdrawal: &Withdrawal<'_>,
) -> Result<(Store<FileStore<D>>, Report), FilesError<FileStore<D>>>
    requires log { IsTrue (D.Disk.is_usable files.log) }
    requires db { IsTrue (D.Disk.is_usable files.db) }
    ensures withdrawn { IfOk result (λ done. RelatesFilesToStore files done.0
        (λ a b. ImportsAndWithdraws withdrawal.now a b done.1)) }
    ensures unlimited { IfOk result (λ done. HasNoStepLimit over_files done.0) }
    ensures stopped { IfErr result (λ stop. IsFilesError files withdrawal.now stop) }
{
    let mut store = match open(alloc, files, options) {
        Ok(store) => store,
        Err(fault) => return Err(FilesError::Store(fault)),
    };
    let report = match import_and_withdraw(&mut store, alloc, withdrawal) {
        Ok(report) => report,
        Err(stop) => return Err(FilesError::Withdraw(store, stop)),
    };
    match reopen(store, alloc, options) {
        Ok(again) => Ok((again, report)),
        Err(fault) => Err(FilesError::Store(fault)),
    }
}

/// Withdraws and opens again as `withdraw_and_reopen` does, out of files of whatever version, and then answers two requests as `answer`
/// does: what each peer is sent is the reply of the archive that the import and the withdrawal made, by the policy and on the day, or
/// 503 with its cause. Where it stopped before, nothing was read and nothing was written.
pub fn withdraw_reopen_and_answer<D: Disk + Drop, T: Threader, R: Source, W: Sink>(
    alloc: Global,
    files: Files<D>,
    options: Options,
    withdrawal: &Withdrawal<'_>,
    policy: &Policy,
    threader: &T,
    day: Day,
    first: &mut Client<R, W>,
    second: &mut Client<R, W>,
) -> Result<(Store<FileStore<D>>, Report, TwoAnswers), FilesError<FileStore<D>>>
    requires log { IsTrue (D.Disk.is_usable files.log) }
    requires db { IsTrue (D.Disk.is_usable files.db) }
    ensures answered { IfOk result (λ told. IsTrueOfArchiveInFiles files told.0
        (λ before. AnswersAfterWithdrawal R.Source W.Sink withdrawal.now policy.now day
        before first.old first.new second.old second.new told.1 told.2)) }
    ensures stays { IfOk result (λ told. RelatesFilesToOpenStore files told.0
        (λ a b. ImportsAndWithdraws withdrawal.now a b told.1)) }
    ensures caused { IfOk result (λ told. Sent503OrBrokeOff told.2.first ⊎ Sent503OrBrokeOff told.2.second
        → Has503OrS3Cause files told.0) }
    ensures stopped { IfErr result (λ stop. IsFilesError files withdrawal.now stop
        × (first.new ≡ first.old) × (second.new ≡ second.old)) }
{
    commands_write_readable_archives();
    messages_of_a_division_are_items();
    let (mut again, report) = match withdraw_and_reopen(alloc, files, options, withdrawal) {
        Ok(done) => done,
        Err(stop) => return Err(stop),
    };
    let answered = answer_both(&mut again, alloc, policy, threader, day, first, second);
    Ok((again, report, answered))
}
