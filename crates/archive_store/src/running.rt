//! Commands one after the other.
ghost use Rattle.std.specs.Prelude.{◌≡◌, ◌⊎◌, ◌≤◌, length, map, Some, IfErr, Err};
ghost use Rattle.archive_model.specs.Machine.{step};
ghost use Rattle.sqlite.specs.Held.{state};
ghost use Rattle.archive_store.specs.Held.{store_connection};
ghost use Rattle.archive_store.specs.Told.{EndsUnrefusedBy, DiskHasFailed};
ghost use Rattle.archive_store.specs.Refusals.{RowsRefuseNextCommand};
ghost use Rattle.archive_store.specs.Replies.{PerformsModelStep};
ghost use Rattle.archive_port.specs.Replies.{done_count_on_error, reply_of_result, reply_if_done, map_error_to_fault};
ghost use Rattle.archive_store.specs.Crashes.{CrashRuns, CrashSteps};
ghost use Rattle.archive_port.specs.Commands.{reply_unless_refused, spec_command};
ghost use Rattle.archive_store.specs.CommandRuns.{EndsCommand, IsModelOutcomeOrFault, RunsCommands, outcome_reply, result_reply};

use crate::store::Store;
use archive_model::CommandFacts;
use archive_port::{Added, Command, StoreFault};
use sqlite::Alter;
use std::alloc::Global;

/// What a command answers: that it is done, whether what it took away was there, what became of a message, or its
/// refusal, one of E1 to E13.
#[derive(Clone, Copy, Debug, PartialEq, Eq)]
pub enum Outcome {
    Done,
    WasThere(bool),
    Added(Added),
    Refused(StoreFault),
}

/// Where a run stopped, for E14 or E15: the first `done` commands were carried out, and, if the connection is still open, no other.
#[derive(Clone, Copy, Debug, PartialEq, Eq)]
pub struct CommandRunError {
    /// How many commands were carried out.
    pub done: usize,
    /// Why no more were.
    pub fault: StoreFault,
}

/// The outcome of a command, by what was found of its names; its refusal, or that memory or the database was at fault.
fn outcome_of(
    command: &Command<'_>,
    told: Result<CommandFacts, StoreFault>,
) -> Result<Outcome, StoreFault>
    ensures value { result_reply result ≡ reply_of_result (reply_unless_refused (spec_command command.now)) told }
    ensures told { IsModelOutcomeOrFault result }
    ensures passed { IfErr result (λ fault. told ≡ Err fault) }
{
    match told {
        Ok(found) => Ok(match command {
            Command::Revoke { .. } => Outcome::WasThere(found.grant),
            Command::Lift { .. } => Outcome::WasThere(found.embargo),
            Command::Add { .. } => Outcome::Added(Added::of(found.message)),
            _ => Outcome::Done,
        }),
        Err(fault) => match fault {
            StoreFault::Memory | StoreFault::Store => Err(fault),
            _ => Ok(Outcome::Refused(fault)),
        },
    }
}

impl<S: Alter> Store<S> {
    /// Carries a command out. E14 and E15 are errors.
    fn carry_out(&mut self, command: &Command<'_>) -> Result<Outcome, StoreFault>
        ensures step { PerformsModelStep S.Store (store_connection self.old) (store_connection self.new)
            (λ a. step a (spec_command command.now)) (result_reply result) }
        ensures crash { CrashSteps S.Store (store_connection self.old) (store_connection self.new)
            (λ a. step a (spec_command command.now)) }
        ensures told { IsModelOutcomeOrFault result }
        ensures ends { EndsCommand S.Store self.old self.new (spec_command command.now) result }
    {
        outcome_of(command, self.carry(command))
    }

    /// Carries commands out one after the other, with the outcome of each. Room for the outcomes is made before the first command.
    /// After E14 and E15 the first `done` were carried out, and no other, if the connection is still open. To add many messages, call
    /// `add_all`, which is faster: it counts the list once, and commits many messages at once.
    pub fn run(
        &mut self,
        alloc: Global,
        commands: &[Command<'_>],
    ) -> Result<Vec<Outcome>, CommandRunError>
        ensures step { RunsCommands S.Store (store_connection self.old) (store_connection self.new)
            (map spec_command commands.entry.now) result }
        ensures crash { CrashRuns S.Store (store_connection self.old) (store_connection self.new)
            (map spec_command commands.entry.now) result }
        ensures bound { IfErr result (λ stop. stop.done ≤ length commands.entry.now) }
        ensures ends { EndsUnrefusedBy S.Store self.old self.new
            (DiskHasFailed S.Store self.old self.new
            ⊎ RowsRefuseNextCommand (map spec_command commands.entry.now) (done_count_on_error (λ stop. stop.done) result)
            (state S.Store (store_connection self.new)).now)
            (map_error_to_fault (λ stop. stop.fault) result) }
    {
        let mut outcomes = match Vec::with_capacity(alloc, commands.len()) {
            Ok(outcomes) => outcomes,
            Err(refused) => {
                let fault = self.wants.refuse(refused.into());
                return Err(CommandRunError { done: 0, fault });
            }
        };
        for command in commands.iter() {
            match self.carry_out(command) {
                Ok(outcome) => {
                    let done = outcomes.len() + 1;
                    match outcomes.push(outcome) {
                        Ok(()) => {}
                        Err(refused) => {
                            let fault = self.wants.refuse(refused.into());
                            return Err(CommandRunError { done, fault });
                        }
                    }
                }
                Err(fault) => {
                    return Err(CommandRunError {
                        done: outcomes.len(),
                        fault,
                    });
                }
            }
        }
        Ok(outcomes)
    }
}
