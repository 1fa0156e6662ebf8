//! Commands on the tables of a database.
use civil_time::Day;
use policy_core::{GrantKind, WithdrawnBy};

/// A command with its values. Names, tokens, addresses and keys are as they were given.
#[derive(Debug, Clone, Copy)]
pub enum StoreCommand<'a> {
    ListAdd {
        name: &'a str,
    },
    /// Whether the threads of a list are joined by subject.
    Merge {
        list: &'a str,
        merged: bool,
    },
    PersonAdd {
        name: &'a str,
        token: &'a str,
    },
    PersonAddress {
        person: &'a str,
        address: &'a str,
    },
    Grant {
        person: &'a str,
        list: &'a str,
        kind: GrantKind,
        from: Day,
        until: Day,
    },
    Revoke {
        person: &'a str,
        list: &'a str,
        kind: GrantKind,
    },
    Withdraw {
        list: &'a str,
        key: &'a str,
        by: WithdrawnBy,
    },
    Restore {
        list: &'a str,
        key: &'a str,
    },
    Embargo {
        list: &'a str,
        key: &'a str,
        until: Day,
    },
    Lift {
        list: &'a str,
        key: &'a str,
    },
}
