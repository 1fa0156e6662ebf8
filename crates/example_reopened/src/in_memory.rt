//! Commands, an import, a withdrawal and two requests, over a store in memory: nothing is asked of a disk.
ghost use Rattle.std.specs.Prelude.{◌≡◌, ◌⊎◌, ◌<◌, map, IfOk, IfErr};
ghost use Rattle.archive_model.specs.Runs.{run};
ghost use Rattle.archive_pages.specs.Causes.{Sent503OrBrokeOff};
ghost use Rattle.archive_store.specs.Held.{memory_refusal_count};
ghost use Rattle.archive_port.specs.Commands.{spec_command};
ghost use Rattle.archive_tables.specs.Making.{empty_archive};
ghost use Rattle.example_reopened.specs.Memory.{HoldsArchiveOfCommands};
ghost use Rattle.example_reopened.specs.Withdrawing.{AnswersAfterWithdrawal};

use crate::withdrawing::{TwoAnswers, WithdrawError, Withdrawal, import_withdraw_and_answer};
use archive_desk::Report;
use archive_desk::laws::{commands_of_a_run_are_well_formed, commands_write_readable_archives};
use archive_pages::Client;
use archive_store::{Command, Store, StoreFault};
use archive_stored::laws::{
    an_empty_archive_can_be_read, in_memory_503_means_that_memory_was_refused,
    in_memory_each_request_leaves_the_store_ready,
};
use civil_time::Day;
use mbox_core::device::{Sink, Source};
use mbox_core::laws::messages_of_a_division_are_items;
use policy_core::Policy;
use sqlite::MemStore;
use std::alloc::Global;
use thread_core::Threader;

/// Why nobody was answered.
#[derive(Drop)]
pub enum InMemoryError {
    /// E14 or E15: there is no store, or the commands were not carried out.
    Store(StoreFault),
    /// Nothing was withdrawn.
    Withdraw(WithdrawError),
}

/// A store in memory in which these commands were carried out.
fn run_in_memory(alloc: Global, commands: &[Command<'_>]) -> Result<Store<MemStore>, StoreFault>
    ensures { IfOk result (λ store. HoldsArchiveOfCommands commands.now store) }
{
    let mut store = Store::open_in_memory(alloc)?;
    match store.run(alloc, commands) {
        Ok(_outcomes) => Ok(store),
        Err(stop) => Err(stop.fault),
    }
}

/// Carries commands out in an empty archive in memory, then imports, withdraws and answers as `import_withdraw_and_answer` does. Each
/// peer is sent the reply of the archive that all of these commands made, by the policy and on the day; or 503, and then memory was
/// refused, by the store's count. Where it stopped before, nothing was read and nothing was written.
pub fn import_withdraw_and_answer_in_memory<T: Threader, R: Source, W: Sink>(
    alloc: Global,
    commands: &[Command<'_>],
    withdrawal: &Withdrawal<'_>,
    policy: &Policy,
    threader: &T,
    day: Day,
    first: &mut Client<R, W>,
    second: &mut Client<R, W>,
) -> Result<(Store<MemStore>, Report, TwoAnswers), InMemoryError>
    ensures answered { IfOk result (λ told. AnswersAfterWithdrawal R.Source W.Sink withdrawal.now policy.now day
        (run empty_archive (map spec_command commands.now)).archive first.old first.new second.old second.new told.1 told.2) }
    ensures caused { IfOk result (λ told. Sent503OrBrokeOff told.2.first ⊎ Sent503OrBrokeOff told.2.second
        → 0 < memory_refusal_count told.0) }
    ensures stopped { IfErr result (λ _. (first.new ≡ first.old) × (second.new ≡ second.old)) }
{
    in_memory_503_means_that_memory_was_refused();
    in_memory_each_request_leaves_the_store_ready();
    commands_write_readable_archives();
    an_empty_archive_can_be_read();
    commands_of_a_run_are_well_formed(commands);
    messages_of_a_division_are_items();
    let mut store = match run_in_memory(alloc, commands) {
        Ok(store) => store,
        Err(fault) => return Err(InMemoryError::Store(fault)),
    };
    match import_withdraw_and_answer(
        &mut store, alloc, withdrawal, policy, threader, day, first, second,
    ) {
        Ok((report, answered)) => Ok((store, report, answered)),
        Err(stop) => Err(InMemoryError::Withdraw(stop)),
    }
}
