//! An import, a withdrawal behind it, and two requests behind that, over one store.
ghost use Rattle.std.specs.Prelude.{◌≡◌, IfOk, IfErr};
ghost use Rattle.archive_pages.specs.Calls.{AnswersClient};
ghost use Rattle.archive_port.specs.Told.{CountsRefusals, RelatesReadyArchives, StoreHasCleanDisk, HoldsTables, IsReady, archive_in};
ghost use Rattle.archive_store.specs.State.{state_of};
ghost use Rattle.example_reopened.specs.Withdrawing.{AnswersAfterWithdrawal, EndsAnswersAfterWithdrawal, EndsTwoAnswers, IsWithdrawError, ImportsAndWithdraws, IsWithdrawOutOfMemory};

use archive_desk::{ImportStop, Report, import};
use archive_pages::laws::a_withdrawn_message_might_never_have_arrived;
use archive_pages::{Client, ServeFault, answer};
use archive_store::{Key, Store, StoreFault};
use civil_time::Day;
use http::StatusCode;
use mbox_core::device::{Sink, Source};
use policy_core::{Policy, WithdrawnBy};
use sqlite::Alter;
use std::alloc::Global;
use thread_core::Threader;

/// An mbox for a list, and the message of that list which is withdrawn once the mbox is imported.
#[derive(Clone, Copy)]
pub struct Withdrawal<'a> {
    /// The list.
    pub list: &'a str,
    /// The mbox that is imported into it.
    pub mbox: &'a [u8],
    /// The key of the message that is withdrawn.
    pub key: &'a Key,
    /// Who withdraws it.
    pub by: WithdrawnBy,
}

/// Why nothing was withdrawn.
#[derive(Drop)]
pub enum WithdrawError {
    /// The import stopped.
    Import(ImportStop),
    /// E4, E8, E9, E14 or E15, behind an import of which this was told.
    Withdraw(Report, StoreFault),
}

/// How two requests ended, one behind the other.
#[derive(Drop)]
pub struct TwoAnswers {
    /// The first of them.
    pub first: Result<StatusCode, ServeFault>,
    /// The one behind it.
    pub second: Result<StatusCode, ServeFault>,
}

/// Adds the messages of an mbox to a list as `import` does, and then withdraws a message of the list.
pub fn import_and_withdraw<S: Alter>(
    store: &mut Store<S>,
    alloc: Global,
    withdrawal: &Withdrawal<'_>,
) -> Result<Report, WithdrawError>
    ensures done { IfOk result (λ report. RelatesReadyArchives (state_of S.Store) store.old store.new
        (λ a b. ImportsAndWithdraws withdrawal.now a b report)) }
    ensures stopped { IfErr result (λ stop. IsWithdrawError (state_of S.Store) store.old store.new withdrawal.now stop) }
    ensures counted { CountsRefusals (state_of S.Store) IsWithdrawOutOfMemory store.old store.new result }
{
    a_withdrawn_message_might_never_have_arrived();
    let report = match import(store, alloc, withdrawal.list, withdrawal.mbox) {
        Ok(report) => report,
        Err(stop) => return Err(WithdrawError::Import(stop)),
    };
    match store.withdraw(withdrawal.list, withdrawal.key, withdrawal.by) {
        Ok(()) => Ok(report),
        Err(fault) => Err(WithdrawError::Withdraw(report, fault)),
    }
}

/// Answers two requests, one behind the other, as `answer` does: both replies are of the archive that the store remembered before, or
/// 503.
pub(crate) fn answer_both<S: Alter, T: Threader, R: Source, W: Sink>(
    store: &mut Store<S>,
    alloc: Global,
    policy: &Policy,
    threader: &T,
    day: Day,
    first: &mut Client<R, W>,
    second: &mut Client<R, W>,
) -> TwoAnswers
    ensures first { StoreHasCleanDisk (state_of S.Store) store.new → HoldsTables (state_of S.Store) store.old
        → AnswersClient R.Source W.Sink (archive_in (state_of S.Store) store.old) policy.now day first.old first.new result.first }
    ensures second { StoreHasCleanDisk (state_of S.Store) store.new → HoldsTables (state_of S.Store) store.old
        → AnswersClient R.Source W.Sink (archive_in (state_of S.Store) store.old) policy.now day second.old second.new result.second }
    ensures ends { EndsTwoAnswers R.Source W.Sink (state_of S.Store) policy.now day store.old store.new
        first.old first.new second.old second.new result }
{
    let one = answer(
        store,
        alloc,
        policy,
        threader,
        day,
        &mut first.input,
        &mut first.output,
    );
    let other = answer(
        store,
        alloc,
        policy,
        threader,
        day,
        &mut second.input,
        &mut second.output,
    );
    TwoAnswers {
        first: one,
        second: other,
    }
}

/// Imports and withdraws as `import_and_withdraw` does, and then answers two requests as `answer` does: what each peer is sent is the reply
/// of the archive that the two commands made, by the policy and on the day, or 503 with its cause. Where it stopped before, nothing was
/// read and nothing was written.
pub fn import_withdraw_and_answer<S: Alter, T: Threader, R: Source, W: Sink>(
    store: &mut Store<S>,
    alloc: Global,
    withdrawal: &Withdrawal<'_>,
    policy: &Policy,
    threader: &T,
    day: Day,
    first: &mut Client<R, W>,
    second: &mut Client<R, W>,
) -> Result<(Report, TwoAnswers), WithdrawError>
    ensures answered { IfOk result (λ told. StoreHasCleanDisk (state_of S.Store) store.new
        → IsReady (state_of S.Store) store.old
        → AnswersAfterWithdrawal R.Source W.Sink withdrawal.now policy.now day (archive_in (state_of S.Store) store.old)
        first.old first.new second.old second.new told.0 told.1) }
    ensures ends { IfOk result (λ told. EndsAnswersAfterWithdrawal R.Source W.Sink (state_of S.Store) policy.now day
        store.old store.new withdrawal.now first.old first.new second.old second.new told.0 told.1) }
    ensures stopped { IfErr result (λ stop. IsWithdrawError (state_of S.Store) store.old store.new withdrawal.now stop
        × (first.new ≡ first.old) × (second.new ≡ second.old)) }
    ensures counted { CountsRefusals (state_of S.Store) IsWithdrawOutOfMemory store.old store.new result }
{
    let report = import_and_withdraw(store, alloc, withdrawal)?;
    let answered = answer_both(store, alloc, policy, threader, day, first, second);
    Ok((report, answered))
}
