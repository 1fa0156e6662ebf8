//! Commands with their arguments.

use archive_model::Key;
use civil_time::Day;
use mbox_items::Item;
use policy_core::{GrantKind, WithdrawnBy};
use std::alloc::Global;

/// A command with its arguments: one step of the archive's machine.
#[derive(Clone, Copy)]
pub enum Command<'a> {
    /// Adds a list, whose threads are gathered by subject. E1, E3.
    ListAdd {
        name: &'a str,
    },
    /// Says whether the threads of a list are gathered by subject. E4.
    MergeSet {
        list: &'a str,
        merge: bool,
    },
    /// Adds a person, who has this token. E1, E2, E5, E7.
    PersonAdd {
        name: &'a str,
        token: &'a str,
    },
    /// Gives a person an address, which replaces the one before. E6, E2.
    AddressSet {
        alloc: Global,
        person: &'a str,
        address: &'a str,
    },
    /// Grants a kind from one day to another, both within; a grant of that kind is replaced. E6, E4, E11.
    Grant {
        person: &'a str,
        list: &'a str,
        kind: GrantKind,
        from: Day,
        until: Day,
    },
    /// Takes a grant away, if there is one. E6, E4.
    Revoke {
        person: &'a str,
        list: &'a str,
        kind: GrantKind,
    },
    /// Adds a message, unless the list holds it. E4, E13, E12.
    Add {
        alloc: Global,
        list: &'a str,
        item: &'a Item<'a>,
    },
    /// Withdraws a message. E4, E8, E9.
    Withdraw {
        list: &'a str,
        key: &'a Key,
        by: WithdrawnBy,
    },
    /// Takes the withdrawal of a message back. E4, E8, E10.
    Restore {
        list: &'a str,
        key: &'a Key,
    },
    /// Embargoes a message until this day; an earlier embargo is replaced. E4, E8.
    Embargo {
        list: &'a str,
        key: &'a Key,
        until: Day,
    },
    /// Takes the embargo of a message away, if it has one. E4, E8.
    Lift {
        list: &'a str,
        key: &'a Key,
    },
}
