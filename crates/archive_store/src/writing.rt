//! What a command writes: one text.
ghost use Rattle.std.specs.Prelude.{◌≡◌};
ghost use Rattle.archive_store.specs.Carrying.{WritesCommandRows, map_store_result};

use crate::store::Store;
use crate::words::day_number;
use archive_database::lists::add_list;
use archive_database::taking::insert_message;
use archive_model::{CommandFacts, Key, normalize_address};
use archive_port::{Command, StoreFault};
use archive_tables::texts;
use civil_time::Day;
use mbox_items::Item;
use policy_core::{GrantKind, WithdrawnBy};
use sqlite::Alter;
use std::alloc::Global;

/// So many rows were written.
fn rows(count: usize, told: Result<(), StoreFault>) -> Result<usize, StoreFault>
    ensures { result ≡ map_store_result (λ _. count) told }
{
    match told {
        Ok(()) => Ok(count),
        Err(fault) => Err(fault),
    }
}

impl<S: Alter> Store<S> {
    ghost use Rattle.policy_core.specs.Numbers.{grant_kind_rank, withdrawn_by_number};
    ghost use Rattle.archive_model.specs.Commands.{list_add, merge_set, person_add, address_set, grant, revoke, add, withdraw, restore, embargo, lift};
    ghost use Rattle.archive_store.specs.Carrying.{WritesFoundRows, WritesRows};

    /// Writes a command down that was looked up and is not refused. After a fault the rows are as they were.
    pub(crate) fn write(
        &mut self,
        command: &Command<'_>,
        found: &CommandFacts,
    ) -> Result<usize, StoreFault>
        ensures { WritesCommandRows S.Store self.old self.new command.now found.now result }
    {
        match command {
            Command::ListAdd { name } => self.write_list(name),
            Command::MergeSet { list, merge } => self.write_merge(list, *merge),
            Command::PersonAdd { name, token } => self.write_person(name, token),
            Command::AddressSet {
                alloc,
                person,
                address,
            } => self.write_address(*alloc, person, address, found),
            Command::Grant {
                person,
                list,
                kind,
                from,
                until,
            } => self.write_grant(person, list, *kind, *from, *until, found),
            Command::Revoke { person, list, kind } => self.remove_grant(person, list, *kind),
            Command::Add { alloc, list, item } => self.write_message(*alloc, list, item),
            Command::Withdraw { list, key, by } => self.write_withdrawal(list, key, *by),
            Command::Restore { list, key } => self.clear_withdrawal(list, key),
            Command::Embargo { list, key, until } => self.write_embargo(list, key, *until),
            Command::Lift { list, key } => self.clear_embargo(list, key),
        }
    }

    fn write_list(&mut self, name: &str) -> Result<usize, StoreFault>
        ensures { WritesRows S.Store self.old self.new (list_add name.now) result }
    {
        let added = add_list(&mut self.conn, name);
        rows(2, self.wants.pass_fault(added))
    }

    fn write_merge(&mut self, list: &str, merge: bool) -> Result<usize, StoreFault>
        ensures { WritesRows S.Store self.old self.new (merge_set list.now merge) result }
    {
        let set = texts::options::set_option(&mut self.conn, list, merge);
        self.wants.pass(set)
    }

    fn write_person(&mut self, name: &str, token: &str) -> Result<usize, StoreFault>
        ensures { WritesRows S.Store self.old self.new (person_add name.now token.now) result }
    {
        let added = texts::persons::add_person(&mut self.conn, name, token);
        self.wants.pass(added)
    }

    fn write_address(
        &mut self,
        alloc: Global,
        person: &str,
        address: &str,
        found: &CommandFacts,
    ) -> Result<usize, StoreFault>
        ensures { WritesFoundRows S.Store self.old self.new (address_set person.now address.now) found.now result }
    {
        let kept = match normalize_address(alloc, address) {
            Ok(kept) => kept,
            Err(refused) => return Err(self.wants.refuse(refused.into())),
        };
        if found.address {
            let put = texts::addresses::change_address(&mut self.conn, person, &kept);
            self.wants.pass(put)
        } else {
            let put = texts::addresses::add_address(&mut self.conn, person, &kept);
            self.wants.pass(put)
        }
    }

    fn write_grant(
        &mut self,
        person: &str,
        list: &str,
        kind: GrantKind,
        from: Day,
        until: Day,
        found: &CommandFacts,
    ) -> Result<usize, StoreFault>
        ensures { WritesFoundRows S.Store self.old self.new
            (grant person.now list.now (grant_kind_rank kind) from until) found.now result }
    {
        let rank = kind.rank();
        let first = day_number(from);
        let last = day_number(until);
        let conn = &mut self.conn;
        if found.grant {
            let put = texts::grants::change_grant(conn, person, list, rank, first, last);
            self.wants.pass(put)
        } else {
            let put = texts::grants::add_grant(conn, person, list, rank, first, last);
            self.wants.pass(put)
        }
    }

    fn remove_grant(
        &mut self,
        person: &str,
        list: &str,
        kind: GrantKind,
    ) -> Result<usize, StoreFault>
        ensures { WritesRows S.Store self.old self.new (revoke person.now list.now (grant_kind_rank kind)) result }
    {
        let rank = kind.rank();
        let removed = texts::grants::remove_grant(&mut self.conn, person, list, rank);
        self.wants.pass(removed)
    }

    fn write_message(
        &mut self,
        alloc: Global,
        list: &str,
        item: &Item<'_>,
    ) -> Result<usize, StoreFault>
        ensures { WritesRows S.Store self.old self.new (add list.now item.now) result }
    {
        let taken = insert_message(&mut self.conn, alloc, list, &Key::of(item), item);
        rows(1, self.wants.pass_fault(taken))
    }

    fn write_withdrawal(
        &mut self,
        list: &str,
        key: &Key,
        by: WithdrawnBy,
    ) -> Result<usize, StoreFault>
        ensures { WritesRows S.Store self.old self.new (withdraw list.now key.now (withdrawn_by_number by)) result }
    {
        let key = key.as_str();
        let set = texts::messages::set_withdrawn(&mut self.conn, list, key, by.number());
        self.wants.pass(set)
    }

    fn clear_withdrawal(&mut self, list: &str, key: &Key) -> Result<usize, StoreFault>
        ensures { WritesRows S.Store self.old self.new (restore list.now key.now) result }
    {
        let set = texts::messages::set_withdrawn(&mut self.conn, list, key.as_str(), 0);
        self.wants.pass(set)
    }

    fn write_embargo(&mut self, list: &str, key: &Key, until: Day) -> Result<usize, StoreFault>
        ensures { WritesRows S.Store self.old self.new (embargo list.now key.now until) result }
    {
        let key = key.as_str();
        let day = day_number(until);
        let held = texts::messages::set_embargo(&mut self.conn, list, key, day);
        self.wants.pass(held)
    }

    fn clear_embargo(&mut self, list: &str, key: &Key) -> Result<usize, StoreFault>
        ensures { WritesRows S.Store self.old self.new (lift list.now key.now) result }
    {
        let freed = texts::messages::clear_embargo(&mut self.conn, list, key.as_str());
        self.wants.pass(freed)
    }
}
