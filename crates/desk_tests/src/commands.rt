//! Commands that a case carries out.
use archive_port::{ArchiveStore, Command, Key, StoreFault};
use civil_time::Day;
use policy_core::{GrantKind, WithdrawnBy};
use std::alloc::Global;

/// Adds a list.
pub fn list_add<A: ArchiveStore>(store: &mut A, name: &str) -> Result<(), StoreFault> {
    store.carry(&Command::ListAdd { name })?;
    Ok(())
}

/// Says whether the threads of a list are gathered by subject.
pub fn merge_set<A: ArchiveStore>(
    store: &mut A,
    list: &str,
    merge: bool,
) -> Result<(), StoreFault> {
    store.carry(&Command::MergeSet { list, merge })?;
    Ok(())
}

/// Adds a person.
pub fn person_add<A: ArchiveStore>(
    store: &mut A,
    name: &str,
    token: &str,
) -> Result<(), StoreFault> {
    store.carry(&Command::PersonAdd { name, token })?;
    Ok(())
}

/// Says the address of a person.
pub fn address_set<A: ArchiveStore>(
    store: &mut A,
    alloc: Global,
    person: &str,
    address: &str,
) -> Result<(), StoreFault> {
    store.carry(&Command::AddressSet {
        alloc,
        person,
        address,
    })?;
    Ok(())
}

/// Gives a person a kind of standing on a list, from a day until another.
pub fn grant<A: ArchiveStore>(
    store: &mut A,
    person: &str,
    list: &str,
    kind: GrantKind,
    from: Day,
    until: Day,
) -> Result<(), StoreFault> {
    store.carry(&Command::Grant {
        person,
        list,
        kind,
        from,
        until,
    })?;
    Ok(())
}

/// Withdraws a message.
pub fn withdraw<A: ArchiveStore>(
    store: &mut A,
    list: &str,
    key: &Key,
    by: WithdrawnBy,
) -> Result<(), StoreFault> {
    store.carry(&Command::Withdraw { list, key, by })?;
    Ok(())
}

/// Embargoes a message until a day.
pub fn embargo<A: ArchiveStore>(
    store: &mut A,
    list: &str,
    key: &Key,
    until: Day,
) -> Result<(), StoreFault> {
    store.carry(&Command::Embargo { list, key, until })?;
    Ok(())
}
