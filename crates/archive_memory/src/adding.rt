//! Commands carried out, and many messages added one after the other.
ghost use Rattle.std.specs.Prelude.{◌≡◌, ◌≢◌, ◌≤◌, ◌<◌, ◌-◌, ◌^◌, ◌∷◌, [], IfErr, MatchOption, MatchResult, length, true};
ghost use Rattle.archive_model.specs.Commands.{no_list, list_full};
ghost use Rattle.archive_model.specs.Machine.{step};
ghost use Rattle.archive_model.specs.Questions.{has_list};
ghost use Rattle.archive_port.specs.Adding.{reported_count};
ghost use Rattle.archive_port.specs.Commands.{possible_refusals_of, reply_unless_refused, spec_command};
ghost use Rattle.archive_port.specs.Replies.{IsRefusedOnlyFor, map_error_to_fault, reply_of_result};
ghost use Rattle.archive_port.specs.Wanting.{IsMemoryRefusal, RaisesCountOnlyIfRefused, RaisesRefusalCount};
ghost use Rattle.archive_port.specs.declared.faults.StoreFault.TheVariants.{Store};
ghost use Rattle.archive_memory.specs.Adding.{AddsItems, AddsOne};
ghost use Rattle.archive_memory.specs.State.{archive_in_memory, refusal_count};

use crate::archive::MemoryArchive;
use crate::changing::add_message;
use crate::deciding::{Settled, is_too_large, settle};
use crate::looking::has_list;
use archive_model::CommandFacts;
use archive_port::{AddError, AddReport, Command, StoreFault};
use mbox_items::Item;
use std::alloc::Global;

impl MemoryArchive {
    /// Carries a command out: what it names is looked up, that decides, and then the archive is changed.
    pub(crate) fn run(&mut self, command: &Command<'_>) -> Result<CommandFacts, StoreFault>
        ensures stepped { MatchOption (reply_of_result (reply_unless_refused (spec_command command.now)) result)
            (archive_in_memory self.new ≡ archive_in_memory self.old)
            (λ reply. (archive_in_memory self.new, reply) ≡ step (archive_in_memory self.old) (spec_command command.now)) }
        ensures possible { IsRefusedOnlyFor result (possible_refusals_of (spec_command command.now)) }
        ensures counted { RaisesCountOnlyIfRefused IsMemoryRefusal (refusal_count self.old) (refusal_count self.new) result }
        ensures memory_alone { IfErr result (λ fault. fault ≢ Store) }
    {
        let found = self.look(command);
        match settle(command, &found) {
            Some(Settled::Refused(fault)) => Err(fault),
            Some(Settled::Known) => Ok(found),
            None => {
                let changed = self.change(command);
                self.refusals.pass(changed)?;
                Ok(found)
            }
        }
    }

    /// Adds messages to a list, one after the other.
    pub(crate) fn add_items(
        &mut self,
        alloc: Global,
        list: &str,
        items: &[Item<'_>],
    ) -> Result<AddReport, AddError>
        ensures added { AddsItems (archive_in_memory self.old) (archive_in_memory self.new) list.now items.now result }
        ensures told { MatchResult result (λ report. reported_count report ≡ length items.now) (λ stop. stop.done ≤ length items.now) }
        ensures possible { IsRefusedOnlyFor (map_error_to_fault (λ stop. stop.fault) result) (no_list ∷ list_full ∷ []) }
        ensures counted { RaisesRefusalCount (λ stop. IsMemoryRefusal stop.fault) (refusal_count self.old) (refusal_count self.new) result }
        ensures memory_alone { IfErr result (λ stop. stop.fault ≢ Store) }
    {
        if !has_list(&self.lists, list) {
            return Err(AddError {
                done: 0,
                fault: StoreFault::NoList,
            });
        }
        let mut told = AddReport {
            new: 0,
            known: 0,
            too_large: 0,
        };
        for (done, item) in items.iter().enumerate() {
            match self.add_one(alloc, list, item, told) {
                Ok(report) => told = report,
                Err(fault) => return Err(AddError { done, fault }),
            }
        }
        Ok(told)
    }

    /// Adds a message to a list that is there, and reports it with those before it.
    fn add_one(
        &mut self,
        alloc: Global,
        list: &str,
        item: &Item<'_>,
        told: AddReport,
    ) -> Result<AddReport, StoreFault>
        requires { reported_count told < 2 ^ 64 - 1 }
        ensures added { has_list (archive_in_memory self.old) list.now ≡ true
            → AddsOne (archive_in_memory self.old) (archive_in_memory self.new) list.now item.now told result }
        ensures lists { (archive_in_memory self.new).lists ≡ (archive_in_memory self.old).lists }
        ensures counted { RaisesCountOnlyIfRefused IsMemoryRefusal (refusal_count self.old) (refusal_count self.new) result }
        ensures memory_alone { IfErr result (λ fault. fault ≢ Store) }
    {
        let found = self.look_item(list, item);
        if is_too_large(item) {
            return Ok(AddReport {
                too_large: told.too_large + 1,
                ..told
            });
        }
        if found.message {
            return Ok(AddReport {
                known: told.known + 1,
                ..told
            });
        }
        if found.full {
            return Err(StoreFault::ListFull);
        }
        let added = add_message(alloc, &mut self.messages, list, item);
        self.refusals.pass(added)?;
        Ok(AddReport {
            new: told.new + 1,
            ..told
        })
    }
}
