//! An archive in memory as what the layers above ask: the words of its state, and its calls.
ghost use Rattle.std.specs.Prelude.{⊤};
ghost use Rattle.archive_memory.specs.State.{memory_state};

use crate::archive::MemoryArchive;
use crate::asking::{address_of, merge_of, messages_of, name_of_token, sorted_names, standing_of};
use crate::copying::{copy_found, copy_next, copy_text, marks_of};
use crate::looking::{find_message, has_list, has_person};
use crate::selecting::{MessageWalk, message_at, select_places};
use crate::writable::{command_is_writable, items_are_writable};
use archive_model::{CommandFacts, Key, Message};
use archive_port::{
    AddError, AddReport, ArchiveState, ArchiveStore, CheckError, Command, DatedMarks,
    MemoryRefusal, Selection, StoreFault,
};
use civil_time::Day;
use mbox_items::Item;
use policy_core::Standing;
use std::alloc::Global;

impl ArchiveState for MemoryArchive {
    type Walk = MessageWalk;

    ghost archive = { memory_state.archive };

    ghost is_at_rest = { memory_state.is_at_rest };

    ghost is_open = { memory_state.is_open };

    ghost has_clean_disk = { memory_state.has_clean_disk };

    ghost has_no_step_limit = { memory_state.has_no_step_limit };

    ghost faults = { memory_state.faults };

    ghost refusals = { memory_state.refusals };

    ghost Left = { ⊤ };

    ghost may_leave = { memory_state.may_leave };

    ghost is_stored = { memory_state.is_stored };

    ghost refuses = { memory_state.refuses };

    ghost refuses_after = { memory_state.refuses_after };

    ghost gives = { memory_state.gives };

    ghost remaining_count = { memory_state.remaining_count };
}

impl ArchiveStore for MemoryArchive {
    ghost use Rattle.std.specs.Prelude.{refl};
    ghost use Rattle.archive_memory.specs.StateLaws.{distinct_keys};

    fn has_list(&mut self, name: &str) -> Result<bool, StoreFault> {
        Ok(has_list(&self.lists, name))
    }

    fn lists(&mut self, alloc: Global) -> Result<Vec<String>, StoreFault> {
        self.refusals.pass(sorted_names(alloc, &self.lists))
    }

    fn merge_of(&mut self, list: &str) -> Result<bool, StoreFault> {
        if !has_list(&self.lists, list) {
            return Err(StoreFault::NoList);
        }
        Ok(merge_of(&self.lists, list))
    }

    fn person_of_token(&mut self, token: &str) -> Result<Option<String>, StoreFault> {
        let name = copy_text(self.alloc, name_of_token(&self.persons, token));
        self.refusals.pass(name)
    }

    fn standing(&mut self, person: &str, list: &str, day: Day) -> Result<Standing, StoreFault> {
        if !has_person(&self.persons, person) {
            return Err(StoreFault::NoPerson);
        }
        if !has_list(&self.lists, list) {
            return Err(StoreFault::NoList);
        }
        Ok(standing_of(&self.grants, person, list, day))
    }

    fn address(&mut self, person: &str) -> Result<Option<String>, StoreFault> {
        if !has_person(&self.persons, person) {
            return Err(StoreFault::NoPerson);
        }
        let address = copy_text(self.alloc, address_of(&self.addresses, person));
        self.refusals.pass(address)
    }

    fn row(&mut self, list: &str, key: &Key) -> Result<Option<Message>, StoreFault> {
        if !has_list(&self.lists, list) {
            return Err(StoreFault::NoList);
        }
        self.find(list, key)
    }

    fn find(&mut self, list: &str, key: &Key) -> Result<Option<Message>, StoreFault> {
        let found = copy_found(self.alloc, find_message(&self.messages, list, key));
        self.refusals.pass(found)
    }

    fn marks(&mut self, list: &str, key: &Key) -> Result<Option<DatedMarks>, StoreFault> {
        if !has_list(&self.lists, list) {
            return Err(StoreFault::NoList);
        }
        Ok(match find_message(&self.messages, list, key) {
            Some(entry) => Some(marks_of(&entry.message)),
            None => None,
        })
    }

    fn rows(&mut self, alloc: Global, list: &str) -> Result<Vec<Message>, StoreFault> {
        if !has_list(&self.lists, list) {
            return Err(StoreFault::NoList);
        }
        self.refusals.pass(messages_of(alloc, &self.messages, list))
    }

    fn each_selected(
        &mut self,
        alloc: Global,
        list: &str,
        which: &Selection<'_>,
    ) -> Result<MessageWalk, StoreFault> {
        if !has_list(&self.lists, list) {
            return Err(StoreFault::NoList);
        }
        let selected = select_places(alloc, &self.messages, list, which);
        let places = self.refusals.pass(selected)?;
        Ok(MessageWalk { places, at: 0 })
    }

    fn next(&mut self, walk: &mut MessageWalk) -> Result<Option<Message>, StoreFault> {
        let Some(dated) = walk.next_place() else {
            return Ok(None);
        };
        let Some(entry) = message_at(&self.messages, dated) else {
            return Err(StoreFault::Store);
        };
        let copied = copy_next(self.alloc, entry);
        let message = self.refusals.pass(copied)?;
        walk.advance();
        Ok(Some(message))
    }

    fn peek_marks(&mut self, walk: &mut MessageWalk) -> Result<Option<DatedMarks>, StoreFault> {
        let Some(dated) = walk.next_place() else {
            return Ok(None);
        };
        match message_at(&self.messages, dated) {
            Some(entry) => Ok(Some(marks_of(&entry.message))),
            None => Err(StoreFault::Store),
        }
    }

    fn pass(walk: &mut MessageWalk) {
        walk.advance();
    }

    fn carry(&mut self, command: &Command<'_>) -> Result<CommandFacts, StoreFault> {
        command_is_writable(command);
        self.run(command)
    }

    fn add_all(
        &mut self,
        alloc: Global,
        list: &str,
        items: &[Item<'_>],
    ) -> Result<AddReport, AddError> {
        items_are_writable(items);
        self.add_items(alloc, list, items)
    }

    // A command made each message of its text, and nothing else writes one: `IsSoundArchive` says that none is damaged.
    fn check(&mut self, _alloc: Global) -> Result<(), CheckError> {
        Ok(())
    }

    fn count_refusal(&mut self, why: MemoryRefusal) {
        self.refusals.increment(&why);
    }

    ghost leaves_what_is_held = { λ memory held left may archive stored. stored };

    ghost holds_distinct_keys = { λ memory held. distinct_keys _ held.names.messages };

    ghost at_rest_is_open = { λ memory held. refl };
}
