//! What commands make of an archive. A change that runs out of memory leaves the archive as it was.
ghost use Rattle.std.specs.Prelude.{◌≡◌, ◌++◌, ◌∷◌, [], true, not, pos, filter, map, IfOk, IfErr, MatchResult, if◌then◌else◌, Some, None};
ghost use Rattle.std.specs.List.{list_any};
ghost use Rattle.policy_core.specs.Numbers.{grant_kind_rank, withdrawn_by_number};
ghost use Rattle.archive_model.specs.Addresses.{normalize_address};
ghost use Rattle.archive_model.specs.Filing.{item_index_columns};
ghost use Rattle.archive_model.specs.Machine.{archive_changed_by, change_at_key, new_message, with_embargo, with_grant_days_of, with_merge_setting, with_replaced_address, with_withdrawal};
ghost use Rattle.archive_model.specs.Messages.{withdrawal_number};
ghost use Rattle.archive_model.specs.Questions.{is_address_of, is_grant_of_rank};
ghost use Rattle.archive_port.specs.Commands.{spec_command};
ghost use Rattle.archive_memory.specs.Entries.{address_in, columns_in, grant_in, list_name, list_option, message_in, person_in};
ghost use Rattle.archive_memory.specs.State.{archive_in_memory, refusal_count};

use crate::archive::MemoryArchive;
use crate::columns::columns_of;
use crate::copying::copy_whole;
use crate::entries::{AddressEntry, GrantEntry, ListEntry, MessageEntry, PersonEntry};
use crate::looking::{has_address, has_grant};
use archive_model::{Key, Message, normalize_address};
use archive_port::{Command, MemoryRefusal};
use civil_time::Day;
use mbox_items::Item;
use policy_core::{GrantKind, Withdrawn, WithdrawnBy};
use std::alloc::{AllocError, Global};

impl MemoryArchive {
    /// What a command makes of the archive, whatever is found of its names.
    pub(crate) fn change(&mut self, command: &Command<'_>) -> Result<(), MemoryRefusal>
        ensures changed { IfOk result (λ _. archive_in_memory self.new ≡ archive_changed_by (spec_command command.now) (archive_in_memory self.old)) }
        ensures unchanged { IfErr result (λ _. archive_in_memory self.new ≡ archive_in_memory self.old) }
        ensures count { refusal_count self.new ≡ refusal_count self.old }
    {
        let alloc = self.alloc;
        match command {
            Command::ListAdd { name } => add_list(alloc, &mut self.lists, name),
            Command::MergeSet { list, merge } => {
                set_merge(&mut self.lists, list, *merge);
                Ok(())
            }
            Command::PersonAdd { name, token } => {
                add_person(alloc, &mut self.persons, name, token)
            }
            Command::AddressSet {
                alloc,
                person,
                address,
            } => put_address(*alloc, &mut self.addresses, person, address),
            Command::Grant {
                person,
                list,
                kind,
                from,
                until,
            } => put_grant(alloc, &mut self.grants, person, list, *kind, *from, *until),
            Command::Revoke { person, list, kind } => {
                remove_grant(&mut self.grants, person, list, *kind);
                Ok(())
            }
            Command::Add { alloc, list, item } => {
                add_message(*alloc, &mut self.messages, list, item)
            }
            Command::Withdraw { list, key, by } => {
                set_withdrawn(&mut self.messages, list, key, withdrawn_by(*by));
                Ok(())
            }
            Command::Restore { list, key } => {
                set_withdrawn(&mut self.messages, list, key, Withdrawn::No);
                Ok(())
            }
            Command::Embargo { list, key, until } => {
                set_embargo(&mut self.messages, list, key, &Some(*until));
                Ok(())
            }
            Command::Lift { list, key } => {
                set_embargo(&mut self.messages, list, key, &None);
                Ok(())
            }
        }
    }
}

fn add_list(alloc: Global, lists: &mut Vec<ListEntry>, name: &str) -> Result<(), MemoryRefusal>
    ensures names { IfOk result (λ _. map list_name lists.new.items ≡ map list_name lists.old.items ++ name.now ∷ []) }
    ensures options { IfOk result (λ _. map list_option lists.new.items
        ≡ map list_option lists.old.items ++ record { list = name.now; merge = true } ∷ []) }
    ensures unchanged { IfErr result (λ _. lists.new.items ≡ lists.old.items) }
{
    let name = String::from_str(alloc, name)?;
    lists.push(ListEntry { name, merge: true })?;
    Ok(())
}

fn set_merge(lists: &mut Vec<ListEntry>, list: &str, merge: bool)
    ensures names { map list_name lists.new.items ≡ map list_name lists.old.items }
    ensures options { map list_option lists.new.items ≡ map (with_merge_setting list.now merge) (map list_option lists.old.items) }
{
    for entry in lists.iter_mut() {
        entry.set_merge(list, merge);
    }
}

fn add_person(
    alloc: Global,
    persons: &mut Vec<PersonEntry>,
    name: &str,
    token: &str,
) -> Result<(), MemoryRefusal>
    ensures added { IfOk result (λ _. map person_in persons.new.items
        ≡ map person_in persons.old.items ++ record { name = name.now; token = token.now } ∷ []) }
    ensures unchanged { IfErr result (λ _. persons.new.items ≡ persons.old.items) }
{
    let name = String::from_str(alloc, name)?;
    let token = String::from_str(alloc, token)?;
    persons.push(PersonEntry { name, token })?;
    Ok(())
}

/// The address of a person, in place of one that there is.
fn put_address(
    alloc: Global,
    addresses: &mut Vec<AddressEntry>,
    person: &str,
    address: &str,
) -> Result<(), MemoryRefusal>
    ensures put { IfOk result (λ _. map address_in addresses.new.items
        ≡ (if list_any (is_address_of person.now) (map address_in addresses.old.items)
        then map (with_replaced_address (record { person = person.now; address = normalize_address address.now })) (map address_in addresses.old.items)
        else map address_in addresses.old.items ++ record { person = person.now; address = normalize_address address.now } ∷ [])) }
    ensures unchanged { IfErr result (λ _. map address_in addresses.new.items ≡ map address_in addresses.old.items) }
{
    if has_address(addresses, person) {
        replace_address(alloc, addresses, person, address)
    } else {
        add_address(alloc, addresses, person, address)
    }
}

fn add_address(
    alloc: Global,
    addresses: &mut Vec<AddressEntry>,
    person: &str,
    address: &str,
) -> Result<(), MemoryRefusal>
    ensures added { IfOk result (λ _. map address_in addresses.new.items
        ≡ map address_in addresses.old.items ++ record { person = person.now; address = normalize_address address.now } ∷ []) }
    ensures unchanged { IfErr result (λ _. addresses.new.items ≡ addresses.old.items) }
{
    let person = String::from_str(alloc, person)?;
    let address = normalize_address(alloc, address)?;
    addresses.push(AddressEntry { person, address })?;
    Ok(())
}

/// The addresses with this one in place of that of its person. They are copied, so that the old ones stay where memory runs out.
fn replace_address(
    alloc: Global,
    addresses: &mut Vec<AddressEntry>,
    person: &str,
    address: &str,
) -> Result<(), MemoryRefusal>
    ensures replaced { IfOk result (λ _. map address_in addresses.new.items
        ≡ map (with_replaced_address (record { person = person.now; address = normalize_address address.now })) (map address_in addresses.old.items)) }
    ensures unchanged { IfErr result (λ _. map address_in addresses.new.items ≡ map address_in addresses.old.items) }
{
    let mut replaced = Vec::new(alloc);
    for entry in addresses.iter() {
        replaced.push(replaced_entry(alloc, entry, person, address)?)?;
    }
    *addresses = replaced;
    Ok(())
}

/// An entry, with this address where it is of this person.
fn replaced_entry(
    alloc: Global,
    entry: &AddressEntry,
    person: &str,
    address: &str,
) -> Result<AddressEntry, AllocError>
    ensures { IfOk result (λ made. address_in made
        ≡ with_replaced_address (record { person = person.now; address = normalize_address address.now }) (address_in entry.now)) }
{
    let address = if entry.person.as_str() == person {
        normalize_address(alloc, address)?
    } else {
        String::from_str(alloc, entry.address.as_str())?
    };
    Ok(AddressEntry {
        person: String::from_str(alloc, entry.person.as_str())?,
        address,
    })
}

/// A grant to a person on a list, in place of one of this kind.
fn put_grant(
    alloc: Global,
    grants: &mut Vec<GrantEntry>,
    person: &str,
    list: &str,
    kind: GrantKind,
    from: Day,
    until: Day,
) -> Result<(), MemoryRefusal>
    ensures put { IfOk result (λ _. map grant_in grants.new.items
        ≡ (if list_any (is_grant_of_rank person.now list.now (grant_kind_rank kind)) (map grant_in grants.old.items)
        then map (with_grant_days_of (record { person = person.now; list = list.now; rank = grant_kind_rank kind; from_day = from; until_day = until })) (map grant_in grants.old.items)
        else map grant_in grants.old.items ++ record { person = person.now; list = list.now; rank = grant_kind_rank kind; from_day = from; until_day = until } ∷ [])) }
    ensures unchanged { IfErr result (λ _. grants.new.items ≡ grants.old.items) }
{
    if has_grant(grants, person, list, kind) {
        set_days(grants, person, list, kind, from, until);
        return Ok(());
    }
    let person = String::from_str(alloc, person)?;
    let list = String::from_str(alloc, list)?;
    grants.push(GrantEntry {
        person,
        list,
        kind,
        from,
        until,
    })?;
    Ok(())
}

fn set_days(
    grants: &mut Vec<GrantEntry>,
    person: &str,
    list: &str,
    kind: GrantKind,
    from: Day,
    until: Day,
)
    ensures { map grant_in grants.new.items
        ≡ map (with_grant_days_of (record { person = person.now; list = list.now; rank = grant_kind_rank kind; from_day = from; until_day = until })) (map grant_in grants.old.items) }
{
    for grant in grants.iter_mut() {
        grant.set_days(person, list, kind, from, until);
    }
}

fn remove_grant(grants: &mut Vec<GrantEntry>, person: &str, list: &str, kind: GrantKind)
    ensures { map grant_in grants.new.items
        ≡ filter (λ g. not (is_grant_of_rank person.now list.now (grant_kind_rank kind) g)) (map grant_in grants.old.items) }
{
    grants.retain(|grant| !grant.is_of(person, list, kind));
}

/// Adds a message after the others.
pub(crate) fn add_message(
    alloc: Global,
    messages: &mut Vec<MessageEntry>,
    list: &str,
    item: &Item<'_>,
) -> Result<(), MemoryRefusal>
    ensures added { IfOk result (λ _. map message_in messages.new.items
        ≡ map message_in messages.old.items ++ new_message list.now item.now ∷ []) }
    ensures filed { IfOk result (λ _. map columns_in messages.new.items
        ≡ map columns_in messages.old.items ++ item_index_columns item.now ∷ []) }
    ensures unchanged { IfErr result (λ _. messages.new.items ≡ messages.old.items) }
{
    let list = String::from_str(alloc, list)?;
    let whole = copy_whole(alloc, item)?;
    let columns = columns_of(alloc, whole.text(), whole.arrival())?;
    let message = Message {
        key: Key::of(item),
        item: whole,
        withdrawn: Withdrawn::No,
        embargo_until: None,
    };
    messages.push(MessageEntry {
        list,
        message,
        columns,
    })?;
    Ok(())
}

fn withdrawn_by(by: WithdrawnBy) -> Withdrawn
    ensures { withdrawal_number result ≡ withdrawn_by_number by }
{
    match by {
        WithdrawnBy::Author => Withdrawn::Author,
        WithdrawnBy::Board => Withdrawn::Board,
    }
}

fn set_withdrawn(messages: &mut Vec<MessageEntry>, list: &str, key: &Key, withdrawn: Withdrawn)
    ensures marked { map message_in messages.new.items
        ≡ map (change_at_key list.now key.now (with_withdrawal (withdrawal_number withdrawn))) (map message_in messages.old.items) }
    ensures filed { map columns_in messages.new.items ≡ map columns_in messages.old.items }
{
    for entry in messages.iter_mut() {
        entry.set_withdrawn(list, key, withdrawn);
    }
}

fn set_embargo(messages: &mut Vec<MessageEntry>, list: &str, key: &Key, until: &Option<Day>)
    ensures marked { map message_in messages.new.items
        ≡ map (change_at_key list.now key.now (with_embargo until.now)) (map message_in messages.old.items) }
    ensures filed { map columns_in messages.new.items ≡ map columns_in messages.old.items }
{
    for entry in messages.iter_mut() {
        entry.set_embargo(list, key, until);
    }
}
