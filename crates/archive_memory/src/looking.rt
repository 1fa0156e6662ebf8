//! What an archive holds of the names in a command. No call here takes memory.
ghost use Rattle.std.specs.Prelude.{◌≡◌, length, filter, map, find, option_map, option_copied, bytes_eq, nat_le, not, pos};
ghost use Rattle.std.specs.Ordering.{int_eq};
ghost use Rattle.std.specs.List.{list_any};
ghost use Rattle.archive_model.specs.Commands.{add};
ghost use Rattle.archive_model.specs.Machine.{command_facts_of, command_facts_on_grant, command_facts_on_message, no_command_facts};
ghost use Rattle.archive_model.specs.Messages.{withdrawal_number};
ghost use Rattle.archive_model.specs.Questions.{has_list, has_person, has_token, has_address, has_grant, is_address_of, is_grant_of_rank, is_message_at_key, messages_in};
ghost use Rattle.archive_port.specs.Commands.{spec_command};
ghost use Rattle.policy_core.specs.Numbers.{grant_kind_rank};
ghost use Rattle.archive_memory.specs.Entries.{address_in, grant_in, list_name, message_in, person_in};
ghost use Rattle.archive_memory.specs.State.{archive_in_memory};

use crate::archive::MemoryArchive;
use crate::entries::{AddressEntry, GrantEntry, ListEntry, MessageEntry, PersonEntry};
use archive_model::{CommandFacts, Key, NOTHING};
use archive_port::Command;
use mbox_items::Item;
use policy_core::{GrantKind, Withdrawn};

/// Messages that a list holds at most.
const MOST_MESSAGES: usize = 50_000;

impl MemoryArchive {
    /// What is there of the names in a command.
    pub(crate) fn look(&self, command: &Command<'_>) -> CommandFacts
        ensures { result ≡ command_facts_of (archive_in_memory self.now) (spec_command command.now) }
    {
        match command {
            Command::ListAdd { name } => self.look_list(name),
            Command::MergeSet { list, .. } => self.look_list(list),
            Command::PersonAdd { name, token } => self.look_person(name, token),
            Command::AddressSet { person, .. } => self.look_address(person),
            Command::Grant {
                person,
                list,
                kind,
                ..
            }
            | Command::Revoke { person, list, kind } => self.look_grant(person, list, *kind),
            Command::Add { list, item, .. } => self.look_item(list, item),
            Command::Withdraw { list, key, .. }
            | Command::Restore { list, key }
            | Command::Embargo { list, key, .. }
            | Command::Lift { list, key } => self.look_message(list, key),
        }
    }

    fn look_list(&self, name: &str) -> CommandFacts
        ensures { result ≡ record no_command_facts { list = has_list (archive_in_memory self.now) name.now } }
    {
        CommandFacts {
            list: has_list(&self.lists, name),
            ..NOTHING
        }
    }

    /// A person, and whose a token is.
    fn look_person(&self, name: &str, token: &str) -> CommandFacts
        ensures { result ≡ record no_command_facts {
          person = has_person (archive_in_memory self.now) name.now;
          token = has_token (archive_in_memory self.now) token.now;
        } }
    {
        CommandFacts {
            person: has_person(&self.persons, name),
            token: has_token(&self.persons, token),
            ..NOTHING
        }
    }

    /// A person, and an address of theirs.
    fn look_address(&self, person: &str) -> CommandFacts
        ensures { result ≡ record no_command_facts {
          person = has_person (archive_in_memory self.now) person.now;
          address = has_address (archive_in_memory self.now) person.now;
        } }
    {
        CommandFacts {
            person: has_person(&self.persons, person),
            address: has_address(&self.addresses, person),
            ..NOTHING
        }
    }

    /// A person, a list, and a grant of the one on the other.
    fn look_grant(&self, person: &str, list: &str, kind: GrantKind) -> CommandFacts
        ensures { result ≡ command_facts_on_grant (archive_in_memory self.now) person.now list.now (grant_kind_rank kind) }
    {
        CommandFacts {
            person: has_person(&self.persons, person),
            list: has_list(&self.lists, list),
            grant: has_grant(&self.grants, person, list, kind),
            ..NOTHING
        }
    }

    /// A list, whether it holds a message, and whether it is full.
    pub(crate) fn look_item(&self, list: &str, item: &Item<'_>) -> CommandFacts
        ensures { result ≡ command_facts_of (archive_in_memory self.now) (add list.now item.now) }
    {
        CommandFacts {
            list: has_list(&self.lists, list),
            message: find_message(&self.messages, list, &Key::of(item)).is_some(),
            full: count_messages(&self.messages, list) >= MOST_MESSAGES,
            ..NOTHING
        }
    }

    /// A list, and a message of it.
    fn look_message(&self, list: &str, key: &Key) -> CommandFacts
        ensures { result ≡ command_facts_on_message (archive_in_memory self.now) list.now key.now }
    {
        let is_there = has_list(&self.lists, list);
        match find_message(&self.messages, list, key) {
            Some(entry) => CommandFacts {
                list: is_there,
                message: true,
                withdrawn: is_withdrawn(entry.message.withdrawn),
                embargo: entry.message.embargo_until.is_some(),
                ..NOTHING
            },
            None => CommandFacts {
                list: is_there,
                ..NOTHING
            },
        }
    }
}

fn is_withdrawn(withdrawn: Withdrawn) -> bool
    ensures { result ≡ not (int_eq (withdrawal_number withdrawn) (pos 0)) }
{
    match withdrawn {
        Withdrawn::No => false,
        Withdrawn::Author | Withdrawn::Board => true,
    }
}

pub(crate) fn has_list(lists: &[ListEntry], name: &str) -> bool
    ensures { result ≡ list_any (λ known. bytes_eq known name.now) (map list_name lists.now) }
{
    lists.iter().any(|list| list.name.as_str() == name)
}

pub(crate) fn has_person(persons: &[PersonEntry], name: &str) -> bool
    ensures { result ≡ list_any (λ p. bytes_eq p.name name.now) (map person_in persons.now) }
{
    persons.iter().any(|person| person.name.as_str() == name)
}

fn has_token(persons: &[PersonEntry], token: &str) -> bool
    ensures { result ≡ list_any (λ p. bytes_eq p.token token.now) (map person_in persons.now) }
{
    persons.iter().any(|person| person.token.as_str() == token)
}

pub(crate) fn has_address(addresses: &[AddressEntry], person: &str) -> bool
    ensures { result ≡ list_any (is_address_of person.now) (map address_in addresses.now) }
{
    addresses
        .iter()
        .any(|entry| entry.person.as_str() == person)
}

pub(crate) fn has_grant(grants: &[GrantEntry], person: &str, list: &str, kind: GrantKind) -> bool
    ensures { result ≡ list_any (is_grant_of_rank person.now list.now (grant_kind_rank kind)) (map grant_in grants.now) }
{
    grants.iter().any(|grant| grant.is_of(person, list, kind))
}

/// The message of a list and key.
pub(crate) fn find_message<'a>(
    messages: &'a [MessageEntry],
    list: &str,
    key: &Key,
) -> Option<&'a MessageEntry>
    ensures { option_map message_in (option_copied result)
        ≡ find (is_message_at_key list.now key.now) (map message_in messages.entry.now) }
{
    messages.iter().find(|entry| entry.is_at(list, key))
}

fn count_messages(messages: &[MessageEntry], list: &str) -> usize
    ensures { result ≡ length (filter (λ m. bytes_eq m.list list.now) (map message_in messages.now)) }
{
    messages
        .iter()
        .filter(|entry| entry.list.as_str() == list)
        .count()
}
