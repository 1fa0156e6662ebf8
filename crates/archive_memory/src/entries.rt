//! What an archive in memory holds, one entry for each list, person, address, grant and message.
ghost use Rattle.std.specs.Prelude.{◌≡◌, ◌&&◌};
ghost use Rattle.archive_memory.specs.Entries.{columns_in, grant_in, indexed_in, list_name, list_option, message_in};
ghost use Rattle.archive_memory.specs.Selecting.{is_selected};
ghost use Rattle.archive_model.specs.Machine.{change_at_key, with_embargo, with_grant_days_of, with_merge_setting, with_withdrawal};
ghost use Rattle.archive_model.specs.Messages.{withdrawal_number};
ghost use Rattle.archive_model.specs.Questions.{grant_holds_on, is_grant_of, is_grant_of_rank, is_message_at_key};
ghost use Rattle.policy_core.specs.Numbers.{grant_kind_rank};

use crate::columns::IndexColumns;
use archive_model::{Key, Message};
use archive_port::Selection;
use civil_time::Day;
use policy_core::{GrantKind, Withdrawn};

/// A list, and whether its threads are gathered by subject.
#[derive(Drop)]
pub(crate) struct ListEntry {
    pub(crate) name: String,
    pub(crate) merge: bool,
}

/// A person, and the token by which a request shows who asks.
#[derive(Drop)]
pub(crate) struct PersonEntry {
    pub(crate) name: String,
    pub(crate) token: String,
}

/// The address of a person, in ASCII lower case.
#[derive(Drop)]
pub(crate) struct AddressEntry {
    pub(crate) person: String,
    pub(crate) address: String,
}

/// What a person holds on a list, from its first day to its last.
#[derive(Drop)]
pub(crate) struct GrantEntry {
    pub(crate) person: String,
    pub(crate) list: String,
    pub(crate) kind: GrantKind,
    pub(crate) from: Day,
    pub(crate) until: Day,
}

/// A message of a list, and what is filed of it.
#[derive(Drop)]
pub(crate) struct MessageEntry {
    pub(crate) list: String,
    pub(crate) message: Message,
    pub(crate) columns: IndexColumns,
}

impl ListEntry {
    /// Sets the choice where it is this list.
    pub(crate) fn set_merge(&mut self, list: &str, merge: bool)
        ensures name { list_name self.new ≡ list_name self.old }
        ensures option { list_option self.new ≡ with_merge_setting list.now merge (list_option self.old) }
    {
        if self.name.as_str() == list {
            self.merge = merge;
        }
    }
}

impl GrantEntry {
    /// Whether it is the grant of this person, list and kind.
    pub(crate) fn is_of(&self, person: &str, list: &str, kind: GrantKind) -> bool
        ensures { result ≡ is_grant_of_rank person.now list.now (grant_kind_rank kind) (grant_in self.now) }
    {
        self.person.as_str() == person && self.list.as_str() == list && self.kind == kind
    }

    /// Whether it is a grant of this person on this list, and holds on this day.
    pub(crate) fn holds(&self, person: &str, list: &str, day: Day) -> bool
        ensures { result ≡ (is_grant_of person.now list.now (grant_in self.now) && grant_holds_on day (grant_in self.now)) }
    {
        self.person.as_str() == person
            && self.list.as_str() == list
            && self.from <= day
            && day <= self.until
    }
}

impl GrantEntry {
    /// Sets the days where it is the grant of this person, list and kind.
    pub(crate) fn set_days(
        &mut self,
        person: &str,
        list: &str,
        kind: GrantKind,
        from: Day,
        until: Day,
    )
        ensures { grant_in self.new ≡ with_grant_days_of
            (record { person = person.now; list = list.now; rank = grant_kind_rank kind; from_day = from; until_day = until }) (grant_in self.old) }
    {
        if self.is_of(person, list, kind) {
            self.from = from;
            self.until = until;
        }
    }
}

impl MessageEntry {
    /// Whether it is the message of this list and key.
    pub(crate) fn is_at(&self, list: &str, key: &Key) -> bool
        ensures { result ≡ is_message_at_key list.now key.now (message_in self.now) }
    {
        self.list.as_str() == list && self.message.key.as_str() == key.as_str()
    }

    /// Whether it is one of these of a list's messages.
    pub(crate) fn is_selected(&self, list: &str, which: &Selection<'_>) -> bool
        ensures { result ≡ is_selected list.now which.now (indexed_in self.now) }
    {
        self.list.as_str() == list
            && match which {
                Selection::Every => true,
                Selection::InMonth(month) => self.columns.month == *month,
                Selection::ByAuthor(key) => self.columns.author.as_slice() == *key,
            }
    }

    /// Sets who withdrew it where it is the message of this list and key.
    pub(crate) fn set_withdrawn(&mut self, list: &str, key: &Key, withdrawn: Withdrawn)
        ensures message { message_in self.new ≡ change_at_key list.now key.now (with_withdrawal (withdrawal_number withdrawn)) (message_in self.old) }
        ensures columns { columns_in self.new ≡ columns_in self.old }
    {
        if self.is_at(list, key) {
            self.message.withdrawn = withdrawn;
        }
    }

    /// Sets the day up to which it is held back where it is the message of this list and key.
    pub(crate) fn set_embargo(&mut self, list: &str, key: &Key, until: &Option<Day>)
        ensures message { message_in self.new ≡ change_at_key list.now key.now (with_embargo until.now) (message_in self.old) }
        ensures columns { columns_in self.new ≡ columns_in self.old }
    {
        if self.is_at(list, key) {
            self.message.embargo_until = *until;
        }
    }
}
