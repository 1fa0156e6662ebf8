//! A store as what the layers above ask: the words of its state, and its calls.

use crate::store::Store;
use crate::walking::MessageWalk;
use archive_model::{CommandFacts, Key, Message};
use archive_port::{
    AddError, AddReport, ArchiveState, ArchiveStore, CheckError, Command, DatedMarks,
    MemoryRefusal, Selection, StoreFault,
};
use civil_time::Day;
use mbox_items::Item;
use policy_core::Standing;
use sqlite::Alter;
use std::alloc::Global;

impl<S: Alter> ArchiveState for Store<S> {
    ghost use Rattle.sqlite.specs.Tree.{Trees};
    ghost use Rattle.archive_store.specs.State.{state_of};

    type Walk = MessageWalk;

    ghost archive = { (state_of S.Store).archive };

    ghost is_at_rest = { (state_of S.Store).is_at_rest };

    ghost is_open = { (state_of S.Store).is_open };

    ghost has_clean_disk = { (state_of S.Store).has_clean_disk };

    ghost has_no_step_limit = { (state_of S.Store).has_no_step_limit };

    ghost faults = { (state_of S.Store).faults };

    ghost refusals = { (state_of S.Store).refusals };

    ghost Left = { Trees };

    ghost may_leave = { (state_of S.Store).may_leave };

    ghost is_stored = { (state_of S.Store).is_stored };

    ghost refuses = { (state_of S.Store).refuses };

    ghost refuses_after = { (state_of S.Store).refuses_after };

    ghost gives = { (state_of S.Store).gives };

    ghost remaining_count = { (state_of S.Store).remaining_count };
}

impl<S: Alter> ArchiveStore for Store<S> {
    ghost use Rattle.archive_store.specs.StateLaws.{distinct, stays_stored};

    fn has_list(&mut self, name: &str) -> Result<bool, StoreFault> {
        self.has_list(name)
    }

    fn lists(&mut self, alloc: Global) -> Result<Vec<String>, StoreFault> {
        self.lists(alloc)
    }

    fn merge_of(&mut self, list: &str) -> Result<bool, StoreFault> {
        self.merge_of(list)
    }

    fn person_of_token(&mut self, token: &str) -> Result<Option<String>, StoreFault> {
        self.person_of_token(token)
    }

    fn standing(&mut self, person: &str, list: &str, day: Day) -> Result<Standing, StoreFault> {
        self.standing(person, list, day)
    }

    fn address(&mut self, person: &str) -> Result<Option<String>, StoreFault> {
        self.address(person)
    }

    fn row(&mut self, list: &str, key: &Key) -> Result<Option<Message>, StoreFault> {
        self.row(list, key)
    }

    fn find(&mut self, list: &str, key: &Key) -> Result<Option<Message>, StoreFault> {
        self.find(list, key)
    }

    fn marks(&mut self, list: &str, key: &Key) -> Result<Option<DatedMarks>, StoreFault> {
        self.marks(list, key)
    }

    fn rows(&mut self, alloc: Global, list: &str) -> Result<Vec<Message>, StoreFault> {
        self.rows(alloc, list)
    }

    fn each_selected(
        &mut self,
        alloc: Global,
        list: &str,
        which: &Selection<'_>,
    ) -> Result<MessageWalk, StoreFault> {
        self.each_selected(alloc, list, which)
    }

    fn next(&mut self, walk: &mut MessageWalk) -> Result<Option<Message>, StoreFault> {
        walk.next(self)
    }

    fn peek_marks(&mut self, walk: &mut MessageWalk) -> Result<Option<DatedMarks>, StoreFault> {
        walk.peek_marks(self)
    }

    fn pass(walk: &mut MessageWalk) {
        walk.pass();
    }

    fn carry(&mut self, command: &Command<'_>) -> Result<CommandFacts, StoreFault> {
        self.carry(command)
    }

    fn add_all(
        &mut self,
        alloc: Global,
        list: &str,
        items: &[Item<'_>],
    ) -> Result<AddReport, AddError> {
        self.add_all(alloc, list, items)
    }

    fn check(&mut self, alloc: Global) -> Result<(), CheckError> {
        self.check(alloc)
    }

    fn count_refusal(&mut self, why: MemoryRefusal) {
        self.wants.increment(why);
    }

    ghost leaves_what_is_held = { λ store held db may archive stored. stays_stored _ held db (S.settled store.conn.store db held.is_open may) archive stored };

    ghost holds_distinct_keys = { λ store held. distinct _ held.tables.messages_distinct };

    ghost at_rest_is_open = { λ store held. held.is_open };
}
