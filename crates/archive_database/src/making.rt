//! The tables, made in an empty database or found in another.
ghost use Rattle.std.specs.Prelude.{◌≡◌, ◌↔◌, pos, None, Some, OnOk, OnErr, IfSome, IfErr, IsTrue};
ghost use Rattle.sqlite.specs.Held.{state};
ghost use Rattle.sqlite.specs.State.{HasCleanDisk};
ghost use Rattle.archive_model.specs.Records.{Archive};
ghost use Rattle.archive_tables.specs.Schema.{empty_schema, schema_with_persons, schema_with_messages, schema_1, schema_2, schema_of_version};
ghost use Rattle.archive_tables.specs.Tables.{IsOpenArchiveInFormat, IsArchiveAtRest, IsKnownVersion};
ghost use Rattle.archive_tables.specs.Tables.{HasSchemaOfFormat, HasVersionRow, format_of_version, archive_of_version, archive_of};
ghost use Rattle.archive_tables.specs.Statements.{IsAnyStatementRefused, first_create_statements, second_create_statements, create_index_statements};
ghost use Rattle.archive_tables.specs.Statements.{last_create_statements, all_create_statements, option_migration_statements, migration_statements};
ghost use Rattle.archive_tables.specs.Crashes.{CrashAddsNothing, CrashAddsOnly, IsArchiveStored};
ghost use Rattle.archive_tables.specs.Making.{IsCreatingTables, IsInTransactionWithSchema, IsMigratingTables, IsReadyToCommit, CreatesTables, CrashAddsNothingInTransaction};
ghost use Rattle.archive_tables.specs.Making.{EndsSteps, CreationFailureCanRollBack, IsCommittedUnchanged, IsIdle, IsRolledBackIfOpen, IsRollbackPendingOrDone, empty_archive};
ghost use Rattle.archive_database.specs.Adopting.{HasObjectCounts, HasObjectCountsOfVersion, IsSchemaOfSomeVersion, IsAdoptionRefused, IsOlderVersion, CrashAddsNothingWhileCreating};
ghost use Rattle.archive_database.specs.Adopting.{IsMigrated, IsNotMigrated};
ghost use Rattle.archive_database.specs.Faults.{EndsDatabaseCall};

use crate::faults::DatabaseError;
use archive_tables::texts;
use sqlite::{Alter, Connection, Error};

/// The number of the newest version.
const NEWEST: u8 = 3;

/// Whether a database has no table, index or view.
pub fn is_empty_database<S: Alter>(conn: &Connection<S>) -> bool
    ensures { IsTrue result ↔ ((state S.Store conn.now).now.schema ≡ empty_schema) }
{
    let schema = conn.schema();
    schema.tables.is_empty() && schema.indexes.is_empty() && schema.views.is_empty()
}

/// The version whose tables these may be: that which has as many tables, indexes and views, that of AUTOINCREMENT among the
/// tables. `None` where none has.
pub fn version_of_objects<S: Alter>(conn: &Connection<S>) -> Option<u8>
    ensures some { IfSome result (λ number. IsKnownVersion number
        × HasObjectCountsOfVersion number (state S.Store conn.now).now.schema) }
    ensures own { (number : _) → IsKnownVersion number
        → HasObjectCountsOfVersion number (state S.Store conn.now).now.schema → result ≡ Some number }
{
    if has_objects(conn, 6, 7) {
        Some(1)
    } else if has_objects(conn, 7, 8) {
        Some(2)
    } else if has_objects(conn, 8, 9) {
        Some(3)
    } else {
        None
    }
}

/// Whether a database has so many tables and indexes, and no view.
fn has_objects<S: Alter>(conn: &Connection<S>, tables: usize, indexes: usize) -> bool
    ensures { IsTrue result ↔ HasObjectCounts tables indexes (state S.Store conn.now).now.schema }
{
    let schema = conn.schema();
    schema.tables.len() == tables && schema.indexes.len() == indexes && schema.views.is_empty()
}

/// Refuses tables of a version whose `version` does not hold one row, of its number.
pub fn check_version<S: Alter>(conn: &mut Connection<S>, number: u8) -> Result<(), DatabaseError>
    ensures version { HasCleanDisk (state S.Store conn.new) → IsKnownVersion number
        → HasSchemaOfFormat (format_of_version number) (state S.Store conn.old)
        → OnOk result (HasVersionRow (pos number) (state S.Store conn.old).now.trees) }
    ensures back { HasCleanDisk (state S.Store conn.new) → IsKnownVersion number
        → HasSchemaOfFormat (format_of_version number) (state S.Store conn.old)
        → IsRolledBackIfOpen (state S.Store conn.new) (state S.Store conn.old).now }
    ensures up { HasCleanDisk (state S.Store conn.new) → IsKnownVersion number
        → HasSchemaOfFormat (format_of_version number) (state S.Store conn.old)
        → OnOk result (IsTrue (state S.Store conn.new).is_open) }
    ensures quiet { CrashAddsNothing S.Store conn.old conn.new }
    ensures ends { EndsDatabaseCall S.Store conn.old conn.new result
        (λ s. IsKnownVersion number × HasSchemaOfFormat (format_of_version number) s)
        (λ db. ¬ HasVersionRow (pos number) db.trees) }
{
    let rows = texts::schema::versions(conn)?;
    let [row] = rows.as_slice() else {
        return Err(DatabaseError::Database);
    };
    let found: i64 = row.get(0)?;
    let wanted = i64::from(number);
    if found != wanted {
        return Err(DatabaseError::Database);
    }
    Ok(())
}

/// Takes tables of any version over: those of an older one become those of the newest. A database that has the objects of no
/// version, or another number, is refused.
pub fn migrate_tables<S: Alter>(conn: &mut Connection<S>) -> Result<(), DatabaseError>
    ensures migrated { OnOk result (IsMigrated S.Store conn.old conn.new) }
    ensures refused { IfErr result (λ fault. IsNotMigrated S.Store conn.old conn.new fault) }
    ensures crash { (number : _) → IsKnownVersion number
        → IsOpenArchiveInFormat (format_of_version number) None (state S.Store conn.old)
        → CrashAddsOnly S.Store conn.old conn.new (IsArchiveStored
        (archive_of_version number (state S.Store conn.old).now.trees)) }
    ensures ends { EndsDatabaseCall S.Store conn.old conn.new result
        (λ s. IsIdle s × IsSchemaOfSomeVersion s.now.schema) IsAdoptionRefused }
{
    let Some(number) = version_of_objects(conn) else {
        return Err(DatabaseError::Database);
    };
    check_version(conn, number)?;
    if number == NEWEST {
        return Ok(());
    }
    bring_over(conn, number)
}

/// Makes the tables of an older version those of the newest, in one transaction.
fn bring_over<S: Alter>(conn: &mut Connection<S>, number: u8) -> Result<(), DatabaseError>
    ensures moved { HasCleanDisk (state S.Store conn.new) → IsOlderVersion number
        → IsOpenArchiveInFormat (format_of_version number) None (state S.Store conn.old)
        → OnOk result (IsArchiveAtRest (state S.Store conn.new)
        × (archive_of (state S.Store conn.new) ≡ archive_of_version number
        (state S.Store conn.old).now.trees)) }
    ensures back { HasCleanDisk (state S.Store conn.new) → IsOlderVersion number
        → IsIdle (state S.Store conn.old) → (state S.Store conn.old).now.schema ≡ schema_of_version number
        → OnErr result (IsRolledBackIfOpen (state S.Store conn.new) (state S.Store conn.old).now) }
    ensures crash { IsOlderVersion number → IsOpenArchiveInFormat (format_of_version number) None (state S.Store conn.old)
        → CrashAddsOnly S.Store conn.old conn.new (IsArchiveStored
        (archive_of_version number (state S.Store conn.old).now.trees)) }
    ensures ends { EndsDatabaseCall S.Store conn.old conn.new result
        (λ s. IsOlderVersion number × IsIdle s × (s.now.schema ≡ schema_of_version number))
        (IsAnyStatementRefused (migration_statements number)) }
{
    texts::schema::begin(conn)?;
    if let Err(error) = move_tables(conn, number) {
        let _back = texts::schema::rollback(conn);
        return Err(DatabaseError::from(error));
    }
    Ok(())
}

/// Brings the tables of an older version over in a transaction, a step for each version, and commits it behind the last.
fn move_tables<S: Alter>(conn: &mut Connection<S>, number: u8) -> Result<(), Error>
    ensures moved { HasCleanDisk (state S.Store conn.new) → IsOlderVersion number
        → (before : _) (archive : Archive)
        → IsMigratingTables (state S.Store conn.old) before (schema_of_version number) (pos number) number archive
        → OnOk result (IsArchiveAtRest (state S.Store conn.new)
        × (archive_of (state S.Store conn.new) ≡ archive)) }
    ensures stopped { HasCleanDisk (state S.Store conn.new) → IsOlderVersion number → (before : _)
        → IsInTransactionWithSchema (state S.Store conn.old) before (schema_of_version number)
        → OnErr result (IsRollbackPendingOrDone (state S.Store conn.new) before) }
    ensures crash { IsOlderVersion number → (before : _) (archive : Archive)
        → IsMigratingTables (state S.Store conn.old) before (schema_of_version number) (pos number) number archive
        → CrashAddsOnly S.Store conn.old conn.new (IsArchiveStored archive) }
    ensures ends { EndsSteps S.Store conn.old conn.new result
        (λ s before. IsOlderVersion number × IsInTransactionWithSchema s before (schema_of_version number))
        (migration_statements number) }
{
    move_options(conn, number)?;
    texts::schema::create_address_table(conn)?;
    texts::schema::set_version(conn)?;
    texts::schema::commit(conn)?;
    Ok(())
}

/// From version 1 to 2: each list has its option. The tables of version 2 stay as they are.
fn move_options<S: Alter>(conn: &mut Connection<S>, number: u8) -> Result<(), Error>
    ensures moved { HasCleanDisk (state S.Store conn.new) → IsOlderVersion number
        → (before : _) (archive : Archive)
        → IsMigratingTables (state S.Store conn.old) before (schema_of_version number) (pos number) number archive
        → OnOk result (IsMigratingTables (state S.Store conn.new) before schema_2 (pos number) 2 archive) }
    ensures within { HasCleanDisk (state S.Store conn.new) → IsOlderVersion number → (before : _)
        → IsInTransactionWithSchema (state S.Store conn.old) before (schema_of_version number)
        → OnOk result (IsInTransactionWithSchema (state S.Store conn.new) before schema_2) }
    ensures stopped { HasCleanDisk (state S.Store conn.new) → IsOlderVersion number → (before : _)
        → IsInTransactionWithSchema (state S.Store conn.old) before (schema_of_version number)
        → OnErr result (IsRollbackPendingOrDone (state S.Store conn.new) before) }
    ensures quiet { IsOlderVersion number → CrashAddsNothingInTransaction S.Store conn.old conn.new (schema_of_version number) }
    ensures ends { EndsSteps S.Store conn.old conn.new result
        (λ s before. IsOlderVersion number × IsInTransactionWithSchema s before (schema_of_version number))
        (option_migration_statements number) }
{
    if number != 1 {
        return Ok(());
    }
    texts::schema::create_option_table(conn)?;
    texts::options::copy_options(conn)?;
    Ok(())
}

/// Makes the tables, all of them or none.
pub fn make_tables<S: Alter>(conn: &mut Connection<S>) -> Result<(), DatabaseError>
    ensures made { HasCleanDisk (state S.Store conn.new)
        → (state S.Store conn.old).now.schema ≡ empty_schema
        → OnOk result (IsArchiveAtRest (state S.Store conn.new)
        × (archive_of (state S.Store conn.new) ≡ empty_archive)) }
    ensures undone { HasCleanDisk (state S.Store conn.new)
        → (state S.Store conn.old).now.schema ≡ empty_schema
        → OnErr result (IsCommittedUnchanged (state S.Store conn.new) (state S.Store conn.old).committed) }
    ensures back { HasCleanDisk (state S.Store conn.new)
        → (state S.Store conn.old).now.schema ≡ empty_schema → IsIdle (state S.Store conn.old)
        → OnErr result (IsRolledBackIfOpen (state S.Store conn.new) (state S.Store conn.old).now) }
    ensures crash { (state S.Store conn.old).now.schema ≡ empty_schema
        → CrashAddsOnly S.Store conn.old conn.new (IsArchiveStored empty_archive) }
    ensures ends { EndsDatabaseCall S.Store conn.old conn.new result
        (λ s. IsIdle s × (s.now.schema ≡ empty_schema)) (λ _. ⊥) }
{
    texts::schema::begin(conn)?;
    if let Err(error) = fill(conn) {
        let _undone = texts::schema::rollback(conn);
        return Err(DatabaseError::from(error));
    }
    Ok(())
}

/// Makes the tables in a transaction, and commits it.
fn fill<S: Alter>(conn: &mut Connection<S>) -> Result<(), Error>
    ensures kept { HasCleanDisk (state S.Store conn.new) → (before : _)
        → IsCreatingTables (state S.Store conn.old) empty_schema before
        → OnOk result (IsArchiveAtRest (state S.Store conn.new)
        × (archive_of (state S.Store conn.new) ≡ empty_archive)) }
    ensures stopped { CreationFailureCanRollBack S.Store conn.old conn.new result empty_schema }
    ensures crash { (before : _) → IsCreatingTables (state S.Store conn.old) empty_schema before
        → CrashAddsOnly S.Store conn.old conn.new (IsArchiveStored empty_archive) }
    ensures ends { EndsSteps S.Store conn.old conn.new result
        (λ s before. IsCreatingTables s empty_schema before) all_create_statements }
{
    make_first(conn)?;
    make_second(conn)?;
    make_indexes(conn)?;
    make_later(conn)?;
    texts::schema::commit(conn)?;
    Ok(())
}

/// Makes `version`, and the tables that name no other.
fn make_first<S: Alter>(conn: &mut Connection<S>) -> Result<(), Error>
    ensures made { CreatesTables S.Store conn.old conn.new result empty_schema schema_with_persons }
    ensures stopped { CreationFailureCanRollBack S.Store conn.old conn.new result empty_schema }
    ensures quiet { CrashAddsNothingWhileCreating S.Store conn.old conn.new empty_schema }
    ensures ends { EndsSteps S.Store conn.old conn.new result
        (λ s before. IsCreatingTables s empty_schema before) first_create_statements }
{
    texts::schema::create_version_table(conn)?;
    texts::schema::create_list_table(conn)?;
    texts::schema::create_person_table(conn)?;
    Ok(())
}

/// Makes the tables that name lists and persons.
fn make_second<S: Alter>(conn: &mut Connection<S>) -> Result<(), Error>
    ensures made { CreatesTables S.Store conn.old conn.new result schema_with_persons schema_with_messages }
    ensures stopped { CreationFailureCanRollBack S.Store conn.old conn.new result schema_with_persons }
    ensures quiet { CrashAddsNothingWhileCreating S.Store conn.old conn.new schema_with_persons }
    ensures ends { EndsSteps S.Store conn.old conn.new result
        (λ s before. IsCreatingTables s schema_with_persons before) second_create_statements }
{
    texts::schema::create_grant_table(conn)?;
    texts::schema::create_message_table(conn)?;
    Ok(())
}

/// Makes the indexes of `message`.
fn make_indexes<S: Alter>(conn: &mut Connection<S>) -> Result<(), Error>
    ensures made { CreatesTables S.Store conn.old conn.new result schema_with_messages schema_1 }
    ensures stopped { CreationFailureCanRollBack S.Store conn.old conn.new result schema_with_messages }
    ensures quiet { CrashAddsNothingWhileCreating S.Store conn.old conn.new schema_with_messages }
    ensures ends { EndsSteps S.Store conn.old conn.new result
        (λ s before. IsCreatingTables s schema_with_messages before) create_index_statements }
{
    texts::schema::create_month_index(conn)?;
    texts::schema::create_author_index(conn)?;
    Ok(())
}

/// Makes the tables of the later versions, and writes the version down.
fn make_later<S: Alter>(conn: &mut Connection<S>) -> Result<(), Error>
    ensures made { HasCleanDisk (state S.Store conn.new) → (before : _)
        → IsCreatingTables (state S.Store conn.old) schema_1 before
        → OnOk result (IsReadyToCommit (state S.Store conn.new) before empty_archive) }
    ensures stopped { CreationFailureCanRollBack S.Store conn.old conn.new result schema_1 }
    ensures quiet { CrashAddsNothingWhileCreating S.Store conn.old conn.new schema_1 }
    ensures ends { EndsSteps S.Store conn.old conn.new result
        (λ s before. IsCreatingTables s schema_1 before) last_create_statements }
{
    texts::schema::create_option_table(conn)?;
    texts::schema::create_address_table(conn)?;
    texts::schema::add_version(conn)?;
    Ok(())
}
