//! What is told of lists and of persons: how threads are made, and addresses.
ghost use Rattle.std.specs.Prelude.{◌≡◌, true};
ghost use Rattle.std.specs.Option.{option_map_or};

use crate::store::Store;
use archive_port::{Command, StoreFault};
use archive_tables::texts;
use sqlite::Alter;
use std::alloc::Global;

impl<S: Alter> Store<S> {
    ghost use Rattle.std.specs.Prelude.{◌≡◌, ◌∷◌, [], option_map, string_bytes, IsUtf8};
    ghost use Rattle.std.specs.Option.{IsSomeAnd};
    ghost use Rattle.archive_model.specs.Machine.{step};
    ghost use Rattle.archive_model.specs.Questions.{merge_of, address_of, list_refusal, person_refusal};
    ghost use Rattle.archive_store.specs.Held.{store_connection};
    ghost use Rattle.archive_store.specs.Told.{EndsQuestion, EndsQuestionOrUnreadable, EndsWrite, WritesNothing};
    ghost use Rattle.archive_store.specs.Refusals.{IsCommandRefused};
    ghost use Rattle.archive_model.specs.Commands.{merge_set, address_set, no_list, no_person, bad_text};
    ghost use Rattle.archive_store.specs.Crashes.{CrashSteps};
    ghost use Rattle.archive_store.specs.Replies.{PerformsModelStep, AnswersStoreQuestion};
    ghost use Rattle.archive_port.specs.Replies.{reply_if_done};

    /// Says whether the threads of a list are gathered by subject. E4 where there is no such list.
    pub fn merge_set(&mut self, list: &str, merge: bool) -> Result<(), StoreFault>
        ensures step { PerformsModelStep S.Store (store_connection self.old) (store_connection self.new)
            (λ a. step a (merge_set list.now merge)) (reply_if_done result) }
        ensures crash { CrashSteps S.Store (store_connection self.old) (store_connection self.new)
            (λ a. step a (merge_set list.now merge)) }
        ensures ends { EndsWrite S.Store self.old self.new result (no_list ∷ [])
            (IsCommandRefused (merge_set list.now merge)) }
    {
        self.carry_done(&Command::MergeSet { list, merge })
    }

    /// Whether the threads of a list are gathered by subject. E4 where there is no such list.
    pub fn merge_of(&mut self, list: &str) -> Result<bool, StoreFault>
        ensures answer { AnswersStoreQuestion S.Store (store_connection self.old) (store_connection self.new) result
            (λ a. list_refusal a list.now) (λ a merge. merge ≡ merge_of a list.now) }
        ensures ends { EndsQuestion S.Store self.old self.new result (no_list ∷ []) }
        ensures writes_nothing { WritesNothing S.Store self.old self.new }
    {
        let listed = texts::lists::has_list(&mut self.conn, list);
        if !self.wants.pass(listed)? {
            return Err(StoreFault::NoList);
        }
        let found = texts::options::find_option(&mut self.conn, list);
        Ok(or_merged(self.wants.pass(found)?))
    }

    /// Gives a person an address, which is kept in ASCII lower case; it replaces the one before. E6 where there is no such
    /// person, E2 where it is no address.
    pub fn address_set(
        &mut self,
        alloc: Global,
        person: &str,
        address: &str,
    ) -> Result<(), StoreFault>
        ensures step { PerformsModelStep S.Store (store_connection self.old) (store_connection self.new)
            (λ a. step a (address_set person.now address.now)) (reply_if_done result) }
        ensures crash { CrashSteps S.Store (store_connection self.old) (store_connection self.new)
            (λ a. step a (address_set person.now address.now)) }
        ensures ends { EndsWrite S.Store self.old self.new result (no_person ∷ bad_text ∷ [])
            (IsCommandRefused (address_set person.now address.now)) }
    {
        self.carry_done(&Command::AddressSet {
            alloc,
            person,
            address,
        })
    }

    /// The address of a person, who may have none. E6 where there is no such person.
    pub fn address(&mut self, person: &str) -> Result<Option<String>, StoreFault>
        ensures answer { AnswersStoreQuestion S.Store (store_connection self.old) (store_connection self.new) result
            (λ a. person_refusal a person.now)
            (λ a found. option_map string_bytes found ≡ address_of a person.now) }
        ensures ends { EndsQuestionOrUnreadable S.Store self.old self.new result (no_person ∷ [])
            (λ a. IsSomeAnd (address_of a person.now) (λ address. ¬ IsUtf8 address)) }
        ensures writes_nothing { WritesNothing S.Store self.old self.new }
    {
        let known = texts::persons::has_person(&mut self.conn, person);
        if !self.wants.pass(known)? {
            return Err(StoreFault::NoPerson);
        }
        let found = texts::addresses::find_address(&mut self.conn, person);
        self.wants.pass(found)
    }
}

/// What is said of a list, or that its threads are gathered, where nothing is.
fn or_merged(found: Option<bool>) -> bool
    ensures { result ≡ option_map_or (λ merge. merge) found true }
{
    match found {
        Some(merge) => merge,
        None => true,
    }
}
