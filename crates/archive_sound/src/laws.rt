//! Laws of what the rows of an archive refuse: each contract is a law over the definitions of `specs/` alone, and no call does anything.
//! They presume tables of an archive whose rows pass the rules of the schema (`IsSoundArchive`), room (`HasRoom`: rows that are not too
//! long, and row numbers of 64 bits) and numbers that are ranks, parties and days (`IsCommandInRange`).
//!
//! They do not say that a disk works, that memory is enough, or that a file holds an archive. That `sqlite_sequence` has rows under rising
//! numbers is among the room, since no clause says it of an open file.
//!
//! A database has room for many commands (`HasRoomFor`) if as many numbers are left in each table, and what is there is short. A command
//! that was carried out leaves room for one less, so no run of that many is refused. Of `run` and `add_all` that is said of what the store
//! holds when they end: no clause of them says which numbers their rows get.
ghost use Rattle.std.specs.Prelude.{◌≡◌, ◌↔◌, ◌≤◌, ◌+◌, ℕ, ℤ, suc, Bool, List, Result, Vec, drop, length};
ghost use Rattle.std.specs.declared.alloc.Global.{Global};
ghost use Rattle.std.specs.List.{AllByRecursion};
ghost use Rattle.sqlite.specs.Effect.{Database, IsDatabase};
ghost use Rattle.mbox_items.specs.Division.{Item};
ghost use Rattle.archive_model.specs.Addresses.{normalize_address};
ghost use Rattle.archive_model.specs.Commands.{Command, list_add, person_add, grant, revoke, add, withdraw, restore, embargo, lift, merge_set, address_set};
ghost use Rattle.archive_model.specs.Commands.{Refusal};
ghost use Rattle.archive_model.specs.Machine.{step};
ghost use Rattle.archive_model.specs.Runs.{run};
ghost use Rattle.archive_model.specs.declared.found.CommandFacts.{CommandFacts};
ghost use Rattle.archive_port.specs.Adding.{AddsAllMessages, RefusesAnItem};
ghost use Rattle.archive_port.specs.Commands.{ExecutesCommand};
ghost use Rattle.archive_port.specs.Replies.{map_error_to_fault};
ghost use Rattle.archive_port.specs.declared.reports.AddError.{AddError};
ghost use Rattle.archive_port.specs.declared.reports.AddReport.{AddReport};
ghost use Rattle.archive_port.specs.Told.{E15MeansDiskFailed};
ghost use Rattle.archive_port.specs.declared.faults.StoreFault.{StoreFault};
ghost use Rattle.archive_tables.specs.Schema.{archive_schema};
ghost use Rattle.archive_tables.specs.Statements.{IsAnyStatementRefused};
ghost use Rattle.archive_tables.specs.Tables.{AreArchiveTables, archive_in_trees};
ghost use Rattle.archive_store.specs.CommandRuns.{RunsCommands};
ghost use Rattle.archive_store.specs.Held.{store_connection};
ghost use Rattle.archive_store.specs.Refusals.{IsCommandRefused, IsCommandRefusedWithin, IsWriteRefused, RowsRefuseAnItem, RowsRefuseNextCommand};
ghost use Rattle.archive_store.specs.State.{state_of};
ghost use Rattle.archive_store.specs.Told.{HoldsTables};
ghost use Rattle.archive_store.specs.declared.running.CommandRunError.{CommandRunError};
ghost use Rattle.archive_store.specs.declared.running.Outcome.{Outcome};
ghost use Rattle.archive_store.specs.declared.store.Store.{Store};
ghost use Rattle.archive_sound.specs.Causes.{HasRoomInStore, HasRoomInStoreFor, EndsRun, EndsAdding};
ghost use Rattle.archive_sound.specs.ManyCommands.{HasRoomFor, IsOrdinaryCommand, CommandMakesRows, CommandsMakeRows, RowsRefuseACommand, statements_of};
ghost use Rattle.archive_sound.specs.Room.{IsSoundArchive, HasRoom, HasRoomForMarks, HasRoomForChange, HasRoomForUpsert, HasRoomForList, HasRoomForMessage, HasRoomForMessages};
ghost use Rattle.archive_sound.specs.Room.{HasFreeNumber, IsCommandInRange, IsGrantInRange, IsDay, IsParty, longest_list_name};

use sqlite::Alter;

/// If there is room for marks, SQL refuses none: who withdrew a message, that nobody did, the day of its embargo, and that it has none.
/// The party is 1 or 2, and the day is one of the years 1900 to 9998.
pub fn a_mark_is_never_refused()
    ensures withdraw { (db : Database) (list key : List ℕ) (party : ℤ) → IsSoundArchive db → HasRoomForMarks db → IsParty party → ¬ IsCommandRefused (withdraw list key party) db }
    ensures restore { (db : Database) (list key : List ℕ) → IsSoundArchive db → HasRoomForMarks db → ¬ IsCommandRefused (restore list key) db }
    ensures embargo { (db : Database) (list key : List ℕ) (until_day : ℤ) → IsSoundArchive db → HasRoomForMarks db → IsDay until_day → ¬ IsCommandRefused (embargo list key until_day) db }
    ensures lift { (db : Database) (list key : List ℕ) → IsSoundArchive db → HasRoomForMarks db → ¬ IsCommandRefused (lift list key) db }
{}

/// If there is room, SQL refuses no setting of a list, no grant and no address, be it new, in the place of an older one, or taken away.
/// A grant has a rank of 1 to 3, and days of the years 1900 to 9998.
pub fn a_change_is_never_refused()
    ensures merge_set { (db : Database) (list : List ℕ) (merge : Bool) → IsSoundArchive db → HasRoomForChange (db.trees 13) (length list) → ¬ IsCommandRefused (merge_set list merge) db }
    ensures revoke { (db : Database) (person list : List ℕ) (rank : ℤ) → IsSoundArchive db → ¬ IsCommandRefused (revoke person list rank) db }
    ensures grant { (db : Database) (person list : List ℕ) (rank from_day until_day : ℤ) → IsSoundArchive db → IsGrantInRange rank from_day until_day
        → HasRoomForUpsert (db.trees 6) (length person + length list) → ¬ IsCommandRefused (grant person list rank from_day until_day) db }
    ensures address_set { (db : Database) (person address : List ℕ) → IsSoundArchive db → HasRoomForUpsert (db.trees 15) (length person + length (normalize_address address))
        → ¬ IsCommandRefused (address_set person address) db }
{}

/// If there is room, SQL refuses no new person and no new list that the machine adds.
pub fn a_name_is_never_refused()
    ensures person_add { (db : Database) (name token : List ℕ) → IsSoundArchive db → HasFreeNumber (db.trees 3) → ¬ IsCommandRefused (person_add name token) db }
    ensures list_add { (db : Database) (name : List ℕ) → IsSoundArchive db → HasRoomForList db → ¬ IsCommandRefused (list_add name) db }
{}

/// If there is room, SQL refuses no message that the machine takes in.
pub fn a_message_is_never_refused()
    ensures { (db : Database) (list : List ℕ) (item : Item) → IsSoundArchive db → HasRoomForMessage list db → ¬ IsCommandRefused (add list item) db }
{}

/// SQL refuses none of many messages that are added to a list one after the other, if as many numbers are left, and the list's name is
/// short.
pub fn no_item_is_refused()
    ensures { (db : Database) (list : List ℕ) (items : List Item) → IsSoundArchive db → HasRoomForMessages list items db → ¬ RowsRefuseAnItem list items db }
{}

/// The rows of an archive that has room for a command do not refuse it if the machine carries it out, however many messages a list may
/// hold (`any`). An open connection over the tables of an archive shows such rows, since its database obeys its schema (`live`). The rows
/// that are there after some of many commands do not refuse the next, if they have room for it (`next`).
pub fn no_command_is_refused()
    ensures any { (limit : ℕ) (command : Command) (db : Database) → IsSoundArchive db → IsCommandInRange command → HasRoom command db → ¬ IsCommandRefusedWithin limit command db }
    ensures live { (limit : ℕ) (command : Command) (db : Database) → db.schema ≡ archive_schema → AreArchiveTables db.trees → IsDatabase db → IsCommandInRange command → HasRoom command db
        → ¬ IsCommandRefusedWithin limit command db }
    ensures next { (commands : List Command) (done : ℕ) (db : Database) → IsSoundArchive db → AllByRecursion (λ command. IsCommandInRange command × HasRoom command db) commands
        → ¬ RowsRefuseNextCommand commands done db }
{}

/// E15 of a command means that the disk failed in that call, if the database of the store has room for what the command writes. This
/// presumes that the store was at rest, that its disk has returned what was written to it, and that no limit is set on the steps of a
/// query.
pub fn only_the_disk_fails_a_command<S: Alter>()
    ensures { (old new : Store S) (command : Command) (result : Result CommandFacts StoreFault) → ExecutesCommand (state_of S.Store) old new command result
        → HasRoomInStore S.Store old command → E15MeansDiskFailed (state_of S.Store) old new result }
{}

/// What a command makes of the rows of a sound archive with room is a sound archive again, with room for one command less (`room`), and is
/// the archive that the machine makes (`machine`); the same of many (`many`). The statements are those of which a refusal is told
/// (`statements`), and room for many commands is room for each (`enough`).
pub fn a_command_leaves_room()
    ensures room { (more : ℕ) (command : Command) (db next : Database) → IsSoundArchive db → HasRoomFor (suc more) db.trees → IsOrdinaryCommand command → CommandMakesRows command db next
        → IsSoundArchive next × HasRoomFor more next.trees }
    ensures machine { (more : ℕ) (command : Command) (db next : Database) → IsSoundArchive db → HasRoomFor (suc more) db.trees → IsOrdinaryCommand command → CommandMakesRows command db next
        → archive_in_trees next.trees ≡ (step (archive_in_trees db.trees) command).0 }
    ensures many { (more : ℕ) (commands : List Command) (db next : Database) → IsSoundArchive db → HasRoomFor (length commands + more) db.trees → AllByRecursion IsOrdinaryCommand commands
        → CommandsMakeRows commands db next → IsSoundArchive next × HasRoomFor more next.trees × (archive_in_trees next.trees ≡ (run (archive_in_trees db.trees) commands).archive) }
    ensures statements { (command : Command) (db : Database) → IsWriteRefused command db ↔ IsAnyStatementRefused (statements_of command db) db }
    ensures enough { (more : ℕ) (command : Command) (db : Database) → HasRoomFor (suc more) db.trees → IsOrdinaryCommand command → HasRoom command db }
{}

/// Of commands one after the other the rows of an archive with room for as many refuse none (`run`); nor the next of a run that stopped, if
/// room is left for one (`next`); nor a message of an import (`items`).
pub fn no_run_is_refused()
    ensures run { (commands : List Command) (db : Database) → IsSoundArchive db → HasRoomFor (length commands) db.trees → AllByRecursion IsOrdinaryCommand commands
        → ¬ RowsRefuseACommand commands db }
    ensures next { (commands : List Command) (done : ℕ) (db : Database) → IsSoundArchive db → HasRoomFor 1 db.trees → AllByRecursion IsOrdinaryCommand commands
        → ¬ RowsRefuseNextCommand commands done db }
    ensures items { (list : List ℕ) (items : List Item) (done : ℕ) (db : Database) → IsSoundArchive db → HasRoomFor (length items) db.trees → length list ≤ longest_list_name
        → ¬ RowsRefuseAnItem list (drop done items) db }
{}

/// E15 of `run` and of `add_all` means that the disk failed in that call, if the database that the store holds then has room: for one
/// command, or for the messages. So does E15 of an import, which names a message that such a database does not refuse (`import`).
pub fn only_the_disk_fails_a_run<S: Alter>()
    ensures run { (old new : Store S) (commands : List Command) (result : Result (Vec Outcome Global) CommandRunError)
        → RunsCommands S.Store (store_connection old) (store_connection new) commands result → EndsRun S.Store old new commands result
        → HasRoomInStoreFor S.Store 1 new → AllByRecursion IsOrdinaryCommand commands
        → E15MeansDiskFailed (state_of S.Store) old new (map_error_to_fault (λ stop. stop.fault) result) }
    ensures add_all { (old new : Store S) (list : List ℕ) (items : List Item) (reasons : List Refusal) (result : Result AddReport AddError)
        → AddsAllMessages (state_of S.Store) old new result list items → EndsAdding (state_of S.Store) old new list items reasons result
        → HasRoomInStoreFor S.Store (length items) new → length list ≤ longest_list_name
        → E15MeansDiskFailed (state_of S.Store) old new (map_error_to_fault (λ stop. stop.fault) result) }
    ensures import { (store : Store S) (list : List ℕ) (items : List Item) (done : ℕ) → HoldsTables S.Store store → HasRoomInStoreFor S.Store (length items) store → length list ≤ longest_list_name
        → ¬ RefusesAnItem (state_of S.Store) store list (drop done items) }
{}
