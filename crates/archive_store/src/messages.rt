//! Commands on messages.
use crate::commands::had_embargo;
use crate::limits::{MESSAGES, add_limited};
use crate::store::Store;
use archive_model::Key;
use archive_port::{Added, Command, StoreFault};
use civil_time::Day;
use mbox_items::Item;
use policy_core::WithdrawnBy;
use sqlite::Alter;
use std::alloc::Global;

impl<S: Alter> Store<S> {
    ghost use Rattle.std.specs.Prelude.{[], ◌∷◌};
    ghost use Rattle.archive_model.specs.Machine.{step};
    ghost use Rattle.archive_store.specs.Held.{store_connection};
    ghost use Rattle.archive_store.specs.Told.{EndsWrite};
    ghost use Rattle.archive_store.specs.Refusals.{IsCommandRefused};
    ghost use Rattle.policy_core.specs.Numbers.{withdrawn_by_number};
    ghost use Rattle.archive_model.specs.Commands.{add, withdraw, restore, embargo, lift, no_list, no_message, already_withdrawn, not_withdrawn, too_large, list_full};
    ghost use Rattle.archive_store.specs.Crashes.{CrashSteps};
    ghost use Rattle.archive_store.specs.Replies.{PerformsModelStep};
    ghost use Rattle.archive_port.specs.Replies.{reply_if_added, reply_if_done, reply_if_removed};

    /// Adds a message. A message whose key the list holds is known, and nothing changes: the first sender and arrival
    /// stay. E4 where there is no such list, E13 where the whole text has more than 16,777,216 bytes or the sender more than
    /// 900,000,000, E12 where the list holds 50,000 messages and not this one. Once a message of the archive has the number 50,000,
    /// each call counts the messages of its list, which takes some 30 ms where there are 50,000; so does each addition by `run`, while
    /// `add_all` counts a list once.
    pub fn add(&mut self, alloc: Global, list: &str, item: &Item<'_>) -> Result<Added, StoreFault>
        ensures step { PerformsModelStep S.Store (store_connection self.old) (store_connection self.new)
            (λ a. step a (add list.now item.now)) (reply_if_added result) }
        ensures crash { CrashSteps S.Store (store_connection self.old) (store_connection self.new)
            (λ a. step a (add list.now item.now)) }
        ensures ends { EndsWrite S.Store self.old self.new result
            (no_list ∷ too_large ∷ list_full ∷ [])
            (IsCommandRefused (add list.now item.now)) }
    {
        add_limited(self, alloc, list, item, MESSAGES)
    }

    /// Withdraws a message. E4 where there is no such list, E8 where it holds no such message, E9 where the message is
    /// withdrawn.
    pub fn withdraw(&mut self, list: &str, key: &Key, by: WithdrawnBy) -> Result<(), StoreFault>
        ensures step { PerformsModelStep S.Store (store_connection self.old) (store_connection self.new)
            (λ a. step a (withdraw list.now key.now (withdrawn_by_number by))) (reply_if_done result) }
        ensures crash { CrashSteps S.Store (store_connection self.old) (store_connection self.new)
            (λ a. step a (withdraw list.now key.now (withdrawn_by_number by))) }
        ensures ends { EndsWrite S.Store self.old self.new result
            (no_list ∷ no_message ∷ already_withdrawn ∷ [])
            (IsCommandRefused (withdraw list.now key.now (withdrawn_by_number by))) }
    {
        self.carry_done(&Command::Withdraw { list, key, by })
    }

    /// Takes the withdrawal of a message back. E4 where there is no such list, E8 where it holds no such message, E10
    /// where the message is not withdrawn.
    pub fn restore(&mut self, list: &str, key: &Key) -> Result<(), StoreFault>
        ensures step { PerformsModelStep S.Store (store_connection self.old) (store_connection self.new)
            (λ a. step a (restore list.now key.now)) (reply_if_done result) }
        ensures crash { CrashSteps S.Store (store_connection self.old) (store_connection self.new)
            (λ a. step a (restore list.now key.now)) }
        ensures ends { EndsWrite S.Store self.old self.new result
            (no_list ∷ no_message ∷ not_withdrawn ∷ [])
            (IsCommandRefused (restore list.now key.now)) }
    {
        self.carry_done(&Command::Restore { list, key })
    }

    /// Embargoes a message until this day, which is the first without the embargo; an earlier embargo is replaced. E4 if
    /// there is no such list, E8 if it holds no such message.
    pub fn embargo(&mut self, list: &str, key: &Key, until: Day) -> Result<(), StoreFault>
        ensures step { PerformsModelStep S.Store (store_connection self.old) (store_connection self.new)
            (λ a. step a (embargo list.now key.now until)) (reply_if_done result) }
        ensures crash { CrashSteps S.Store (store_connection self.old) (store_connection self.new)
            (λ a. step a (embargo list.now key.now until)) }
        ensures ends { EndsWrite S.Store self.old self.new result (no_list ∷ no_message ∷ [])
            (IsCommandRefused (embargo list.now key.now until)) }
    {
        self.carry_done(&Command::Embargo { list, key, until })
    }

    /// Takes the embargo of a message away, and says whether it had one. E4 where there is no such list, E8 where it
    /// holds no such message.
    pub fn lift(&mut self, list: &str, key: &Key) -> Result<bool, StoreFault>
        ensures step { PerformsModelStep S.Store (store_connection self.old) (store_connection self.new)
            (λ a. step a (lift list.now key.now)) (reply_if_removed result) }
        ensures crash { CrashSteps S.Store (store_connection self.old) (store_connection self.new)
            (λ a. step a (lift list.now key.now)) }
        ensures ends { EndsWrite S.Store self.old self.new result (no_list ∷ no_message ∷ [])
            (IsCommandRefused (lift list.now key.now)) }
    {
        had_embargo(self.carry(&Command::Lift { list, key }))
    }
}
