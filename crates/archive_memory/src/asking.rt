//! What an archive answers.
ghost use Rattle.std.specs.Prelude.{◌≡◌, ◌&&◌, true, IfOk, bytes_eq, filter, find, map, option_map, option_copied, string_bytes};
ghost use Rattle.std.specs.Int.{int_max};
ghost use Rattle.std.specs.Option.{option_map_or};
ghost use Rattle.policy_core.specs.Numbers.{grant_kind_rank};
ghost use Rattle.archive_model.specs.Messages.{archived_message};
ghost use Rattle.archive_model.specs.Questions.{grant_holds_on, is_address_of, is_grant_of, is_option_of, max_rank, sort_by_bytes};
ghost use Rattle.archive_port.specs.Words.{standing_rank};
ghost use Rattle.archive_memory.specs.Entries.{address_in, grant_in, list_name, list_option, message_in, person_in};

use crate::copying::copy_message;
use crate::entries::{AddressEntry, GrantEntry, ListEntry, MessageEntry, PersonEntry};
use archive_model::Message;
use archive_port::MemoryRefusal;
use civil_time::Day;
use policy_core::{GrantKind, Standing};
use std::alloc::{AllocError, Global};

/// The names of all lists, in the order of their bytes.
pub(crate) fn sorted_names(alloc: Global, lists: &[ListEntry]) -> Result<Vec<String>, MemoryRefusal>
    ensures { IfOk result (λ names. map string_bytes names.items ≡ sort_by_bytes (map list_name lists.now)) }
{
    let mut names = names_of(alloc, lists)?;
    names.sort()?;
    Ok(names)
}

fn names_of(alloc: Global, lists: &[ListEntry]) -> Result<Vec<String>, AllocError>
    ensures { IfOk result (λ names. map string_bytes names.items ≡ map list_name lists.now) }
{
    let mut names = Vec::new(alloc);
    for list in lists {
        names.push(String::from_str(alloc, list.name.as_str())?)?;
    }
    Ok(names)
}

/// Whether the threads of a list are gathered by subject.
pub(crate) fn merge_of(lists: &[ListEntry], list: &str) -> bool
    ensures { result ≡ option_map_or (λ o. o.merge) (find (is_option_of list.now) (map list_option lists.now)) true }
{
    match lists.iter().find(|entry| entry.name.as_str() == list) {
        Some(entry) => entry.merge,
        None => true,
    }
}

/// The name of the person who has a token.
pub(crate) fn name_of_token<'a>(persons: &'a [PersonEntry], token: &str) -> Option<&'a str>
    ensures { option_copied result ≡ option_map (λ p. p.name) (find (λ p. bytes_eq p.token token.now) (map person_in persons.entry.now)) }
{
    match persons.iter().find(|person| person.token.as_str() == token) {
        Some(person) => Some(person.name.as_str()),
        None => None,
    }
}

/// The address of a person.
pub(crate) fn address_of<'a>(addresses: &'a [AddressEntry], person: &str) -> Option<&'a str>
    ensures { option_copied result ≡ option_map (λ a. a.address) (find (is_address_of person.now) (map address_in addresses.entry.now)) }
{
    match addresses
        .iter()
        .find(|entry| entry.person.as_str() == person)
    {
        Some(entry) => Some(entry.address.as_str()),
        None => None,
    }
}

/// The standing of a person on a list and a day.
pub(crate) fn standing_of(grants: &[GrantEntry], person: &str, list: &str, day: Day) -> Standing
    ensures { standing_rank result ≡ max_rank (map (λ g. g.rank)
        (filter (λ g. is_grant_of person.now list.now g && grant_holds_on day g) (map grant_in grants.now))) }
{
    let mut highest = Standing::Public;
    for grant in grants {
        if grant.holds(person, list, day) {
            highest = higher(highest, granted(grant.kind));
        }
    }
    highest
}

/// The standing that a grant gives.
fn granted(kind: GrantKind) -> Standing
    ensures { standing_rank result ≡ grant_kind_rank kind }
{
    match kind {
        GrantKind::Member => Standing::Member,
        GrantKind::Subscriber => Standing::Subscriber,
        GrantKind::Moderator => Standing::Moderator,
    }
}

/// The higher of two standings.
fn higher(one: Standing, other: Standing) -> Standing
    ensures { standing_rank result ≡ int_max (standing_rank one) (standing_rank other) }
{
    match (one, other) {
        (Standing::Moderator, _) | (_, Standing::Moderator) => Standing::Moderator,
        (Standing::Subscriber, _) | (_, Standing::Subscriber) => Standing::Subscriber,
        (Standing::Member, _) | (_, Standing::Member) => Standing::Member,
        (Standing::Public, Standing::Public) => Standing::Public,
    }
}

/// The messages of a list in mailbox order.
pub(crate) fn messages_of(
    alloc: Global,
    messages: &[MessageEntry],
    list: &str,
) -> Result<Vec<Message>, MemoryRefusal>
    ensures { IfOk result (λ found. map (archived_message list.now) found.items
        ≡ filter (λ m. bytes_eq m.list list.now) (map message_in messages.now)) }
{
    let mut found = Vec::new(alloc);
    for entry in messages {
        if entry.list.as_str() == list {
            found.push(copy_message(alloc, &entry.message)?)?;
        }
    }
    Ok(found)
}
