//! The schema: the tables are made in one transaction, in this order.

ghost use Rattle.std.specs.Prelude.{◌≡◌, pos, ◌∷◌, [], false, Some, None, OnOk, IfOk, IfErr, MatchResult, IsTrue, IsPermutation};
ghost use Rattle.sqlite.specs.declared.types.Value.TheVariants.{Int};
ghost use Rattle.sqlite.specs.State.{HasCleanDisk};
ghost use Rattle.sqlite.specs.Held.{state};
ghost use Rattle.archive_tables.specs.Statements.{create_version_statement, create_list_statement, create_person_statement};
ghost use Rattle.archive_tables.specs.Statements.{create_grant_statement, create_message_statement, create_month_index_statement};
ghost use Rattle.archive_tables.specs.Statements.{create_author_index_statement, create_option_statement, create_address_statement, insert_version_statement, update_version_statement};
ghost use Rattle.archive_tables.specs.Schema.{empty_schema, schema_with_version_table, schema_with_lists, schema_with_persons, schema_with_grants};
ghost use Rattle.archive_tables.specs.Schema.{schema_with_messages, schema_with_month_index, schema_1, schema_2, archive_schema, schema_of_version};
ghost use Rattle.archive_tables.specs.Tables.{IsOpenArchive, IsOpenArchiveInFormat, IsArchiveAtRest, IsKnownVersion};
ghost use Rattle.archive_tables.specs.Tables.{HasSchemaOfFormat, format_of_version, newest_version, archive_of_version, archive_of};
ghost use Rattle.archive_model.specs.Records.{Archive};
ghost use Rattle.archive_tables.specs.Rows.{version_result_rows};
ghost use Rattle.archive_tables.specs.Making.{IsCreatingTables, IsInTransactionWithSchema, IsMigratingTables, IsReadyToCommit, CreatesTables, MigratesSchema, EndsStep};
ghost use Rattle.archive_tables.specs.Making.{EndsBegin, EndsCommit, EndsRollback, CrashAddsNothingInTransaction, IsRolledBackIfOpen, IsRollbackPendingOrDone, empty_archive};
ghost use Rattle.archive_tables.specs.Calls.{LeavesRowsUnchanged, FaultKeepsRowsOrRollsBack, FaultKeepsRows, IsRolledBackTo};
ghost use Rattle.archive_tables.specs.Calls.{IsOpenArchiveOrRolledBack, KeepsConnectionUnlessDiskFails, AnswersFromDatabase, IsMemoryOrDiskError};

use sqlite::{Alter, Connection, Error, Row, params};

/// The number of these tables, which `version` holds.
pub const VERSION: i64 = 3;

/// Begins the transaction.
pub fn begin<S: Alter>(conn: &mut Connection<S>) -> Result<usize, Error>
    ensures begun { HasCleanDisk (state S.Store conn.new)
        → (state S.Store conn.old).now.schema ≡ empty_schema
        → OnOk result (IsCreatingTables (state S.Store conn.new) empty_schema
        (state S.Store conn.old).committed) }
    ensures held { HasCleanDisk (state S.Store conn.new) → IsArchiveAtRest (state S.Store conn.old)
        → MatchResult result
        (λ _. LeavesRowsUnchanged (Some (state S.Store conn.old).now) (state S.Store conn.old)
        (state S.Store conn.new))
        (λ _. FaultKeepsRows (state S.Store conn.old) (state S.Store conn.new)) }
    ensures moving { HasCleanDisk (state S.Store conn.new) → (number : _)
        → IsOpenArchiveInFormat (format_of_version number) None (state S.Store conn.old) → OnOk result
        (IsMigratingTables (state S.Store conn.new) (state S.Store conn.old).now (schema_of_version number)
        (pos number) number (archive_of_version number (state S.Store conn.old).now.trees)) }
    ensures within { HasCleanDisk (state S.Store conn.new) → OnOk result
        (IsInTransactionWithSchema (state S.Store conn.new) (state S.Store conn.old).committed
        (state S.Store conn.old).now.schema) }
    ensures ends { EndsBegin S.Store conn.old conn.new result }
{
    conn.execute("BEGIN", &[])
}

/// Makes the table `version`.
pub fn create_version_table<S: Alter>(conn: &mut Connection<S>) -> Result<usize, Error>
    ensures made { CreatesTables S.Store conn.old conn.new result empty_schema schema_with_version_table }
    ensures quiet { CrashAddsNothingInTransaction S.Store conn.old conn.new empty_schema }
    ensures ends { EndsStep S.Store conn.old conn.new result empty_schema create_version_statement }
{
    conn.execute("CREATE TABLE version (number INTEGER NOT NULL) STRICT", &[])
}

/// Makes the table `list`.
pub fn create_list_table<S: Alter>(conn: &mut Connection<S>) -> Result<usize, Error>
    ensures made { CreatesTables S.Store conn.old conn.new result schema_with_version_table schema_with_lists }
    ensures quiet { CrashAddsNothingInTransaction S.Store conn.old conn.new schema_with_version_table }
    ensures ends { EndsStep S.Store conn.old conn.new result schema_with_version_table create_list_statement }
{
    conn.execute(
        "CREATE TABLE list (name TEXT NOT NULL PRIMARY KEY) STRICT",
        &[],
    )
}

/// Makes the table `person`.
pub fn create_person_table<S: Alter>(conn: &mut Connection<S>) -> Result<usize, Error>
    ensures made { CreatesTables S.Store conn.old conn.new result schema_with_lists schema_with_persons }
    ensures quiet { CrashAddsNothingInTransaction S.Store conn.old conn.new schema_with_lists }
    ensures ends { EndsStep S.Store conn.old conn.new result schema_with_lists create_person_statement }
{
    conn.execute(
        "CREATE TABLE person (name TEXT NOT NULL PRIMARY KEY, token TEXT NOT NULL UNIQUE) STRICT",
        &[],
    )
}

/// Makes the table `grant_row`.
pub fn create_grant_table<S: Alter>(conn: &mut Connection<S>) -> Result<usize, Error>
    ensures made { CreatesTables S.Store conn.old conn.new result schema_with_persons schema_with_grants }
    ensures quiet { CrashAddsNothingInTransaction S.Store conn.old conn.new schema_with_persons }
    ensures ends { EndsStep S.Store conn.old conn.new result schema_with_persons create_grant_statement }
{
    conn.execute(
        "CREATE TABLE grant_row (person TEXT NOT NULL REFERENCES person (name), list TEXT NOT NULL REFERENCES list (name), kind INTEGER NOT NULL CHECK (kind BETWEEN 1 AND 3), from_day INTEGER NOT NULL CHECK (from_day BETWEEN -25567 AND 2932531), until_day INTEGER NOT NULL CHECK (until_day BETWEEN -25567 AND 2932531), PRIMARY KEY (person, list, kind), CHECK (from_day <= until_day)) STRICT",
        &[],
    )
}

/// Makes the table `message`, and with it the one in which AUTOINCREMENT counts.
pub fn create_message_table<S: Alter>(conn: &mut Connection<S>) -> Result<usize, Error>
    ensures made { CreatesTables S.Store conn.old conn.new result schema_with_grants schema_with_messages }
    ensures quiet { CrashAddsNothingInTransaction S.Store conn.old conn.new schema_with_grants }
    ensures ends { EndsStep S.Store conn.old conn.new result schema_with_grants create_message_statement }
{
    conn.execute(
        "CREATE TABLE message (pos INTEGER PRIMARY KEY AUTOINCREMENT, list TEXT NOT NULL REFERENCES list (name), key TEXT NOT NULL, sender BLOB NOT NULL, arrival INTEGER NOT NULL, text BLOB NOT NULL, withdrawn INTEGER NOT NULL CHECK (withdrawn BETWEEN 0 AND 2), embargo INTEGER CHECK (embargo BETWEEN -25567 AND 2932531), sent INTEGER NOT NULL, month INTEGER NOT NULL, author BLOB NOT NULL, UNIQUE (list, key)) STRICT",
        &[],
    )
}

/// Makes the index of `message` by month.
pub fn create_month_index<S: Alter>(conn: &mut Connection<S>) -> Result<usize, Error>
    ensures made { CreatesTables S.Store conn.old conn.new result schema_with_messages schema_with_month_index }
    ensures quiet { CrashAddsNothingInTransaction S.Store conn.old conn.new schema_with_messages }
    ensures ends { EndsStep S.Store conn.old conn.new result schema_with_messages create_month_index_statement }
{
    conn.execute(
        "CREATE INDEX message_by_month ON message (list, month, sent, pos)",
        &[],
    )
}

/// Makes the index of `message` by author key.
pub fn create_author_index<S: Alter>(conn: &mut Connection<S>) -> Result<usize, Error>
    ensures made { CreatesTables S.Store conn.old conn.new result schema_with_month_index schema_1 }
    ensures quiet { CrashAddsNothingInTransaction S.Store conn.old conn.new schema_with_month_index }
    ensures ends { EndsStep S.Store conn.old conn.new result schema_with_month_index create_author_index_statement }
{
    conn.execute(
        "CREATE INDEX message_by_author ON message (list, author, sent, pos)",
        &[],
    )
}

/// Makes the table `list_option`: the first of version 2.
pub fn create_option_table<S: Alter>(conn: &mut Connection<S>) -> Result<usize, Error>
    ensures made { CreatesTables S.Store conn.old conn.new result schema_1 schema_2 }
    ensures moved { HasCleanDisk (state S.Store conn.new)
        → (before : _) (said : _) (archive : Archive)
        → IsMigratingTables (state S.Store conn.old) before schema_1 said 1 archive
        → OnOk result (IsMigratingTables (state S.Store conn.new) before schema_2 said 1 archive
        × ((state S.Store conn.new).now.trees 13 ≡ [])) }
    ensures within { MigratesSchema S.Store conn.old conn.new result schema_1 schema_2 }
    ensures quiet { CrashAddsNothingInTransaction S.Store conn.old conn.new schema_1 }
    ensures ends { EndsStep S.Store conn.old conn.new result schema_1 create_option_statement }
{
    conn.execute(
        "CREATE TABLE list_option (list TEXT NOT NULL PRIMARY KEY REFERENCES list (name), merge INTEGER NOT NULL CHECK (merge BETWEEN 0 AND 1)) STRICT",
        &[],
    )
}

/// Makes the table `address`: the first of version 3.
pub fn create_address_table<S: Alter>(conn: &mut Connection<S>) -> Result<usize, Error>
    ensures made { CreatesTables S.Store conn.old conn.new result schema_2 archive_schema }
    ensures moved { HasCleanDisk (state S.Store conn.new)
        → (before : _) (said : _) (archive : Archive)
        → IsMigratingTables (state S.Store conn.old) before schema_2 said 2 archive
        → OnOk result
        (IsMigratingTables (state S.Store conn.new) before archive_schema said newest_version archive) }
    ensures within { MigratesSchema S.Store conn.old conn.new result schema_2 archive_schema }
    ensures quiet { CrashAddsNothingInTransaction S.Store conn.old conn.new schema_2 }
    ensures ends { EndsStep S.Store conn.old conn.new result schema_2 create_address_statement }
{
    conn.execute(
        "CREATE TABLE address (person TEXT NOT NULL PRIMARY KEY REFERENCES person (name), address TEXT NOT NULL) STRICT",
        &[],
    )
}

/// Writes the version down.
pub fn add_version<S: Alter>(conn: &mut Connection<S>) -> Result<usize, Error>
    ensures made { HasCleanDisk (state S.Store conn.new) → (before : _)
        → IsCreatingTables (state S.Store conn.old) archive_schema before
        → OnOk result (IsReadyToCommit (state S.Store conn.new) before empty_archive) }
    ensures quiet { CrashAddsNothingInTransaction S.Store conn.old conn.new archive_schema }
    ensures ends { EndsStep S.Store conn.old conn.new result archive_schema insert_version_statement }
{
    conn.execute("INSERT INTO version (number) VALUES (?1)", params![VERSION])
}

/// Writes the version down in the place of an older one.
pub fn set_version<S: Alter>(conn: &mut Connection<S>) -> Result<usize, Error>
    ensures moved { HasCleanDisk (state S.Store conn.new)
        → (before : _) (said : _) (archive : Archive)
        → IsMigratingTables (state S.Store conn.old) before archive_schema said newest_version archive
        → OnOk result (IsReadyToCommit (state S.Store conn.new) before archive) }
    ensures within { MigratesSchema S.Store conn.old conn.new result archive_schema archive_schema }
    ensures quiet { CrashAddsNothingInTransaction S.Store conn.old conn.new archive_schema }
    ensures ends { EndsStep S.Store conn.old conn.new result archive_schema update_version_statement }
{
    conn.execute("UPDATE version SET number = ?1", params![VERSION])
}

/// Commits the transaction.
pub fn commit<S: Alter>(conn: &mut Connection<S>) -> Result<usize, Error>
    ensures kept { HasCleanDisk (state S.Store conn.new) → (before : _) (archive : Archive)
        → IsReadyToCommit (state S.Store conn.old) before archive
        → OnOk result (IsArchiveAtRest (state S.Store conn.new)
        × (archive_of (state S.Store conn.new) ≡ archive)) }
    ensures held { HasCleanDisk (state S.Store conn.new) → (db : _)
        → IsOpenArchive (Some db) (state S.Store conn.old) → MatchResult result
        (λ _. LeavesRowsUnchanged None (state S.Store conn.old) (state S.Store conn.new))
        (λ _. FaultKeepsRowsOrRollsBack (Some db) (state S.Store conn.old) (state S.Store conn.new)) }
    ensures ends { EndsCommit S.Store conn.old conn.new result }
{
    // It says that an open connection shows a database.
    let _schema = conn.schema();
    conn.execute("COMMIT", &[])
}

/// Ends the transaction, and goes back to what was there before it.
pub fn rollback<S: Alter>(conn: &mut Connection<S>) -> Result<usize, Error>
    ensures undone { HasCleanDisk (state S.Store conn.new)
        → OnOk result (IsTrue (state S.Store conn.new).is_open
        → IsTrue (state S.Store conn.old).is_open
        × ((state S.Store conn.new).now ≡ (state S.Store conn.old).committed)
        × ((state S.Store conn.new).committed ≡ (state S.Store conn.old).committed)
        × ((state S.Store conn.new).in_transaction ≡ false)) }
    ensures left { HasCleanDisk (state S.Store conn.new) → (db : _)
        → IsOpenArchiveOrRolledBack db (state S.Store conn.old)
        → IsTrue (state S.Store conn.new).is_open → IsRolledBackTo db (state S.Store conn.new) }
    ensures back { HasCleanDisk (state S.Store conn.new) → (before : _)
        → IsRollbackPendingOrDone (state S.Store conn.old) before → IsRolledBackIfOpen (state S.Store conn.new) before }
    ensures ends { EndsRollback S.Store conn.old conn.new result }
    ensures lasts { KeepsConnectionUnlessDiskFails (state S.Store conn.old) (state S.Store conn.new) }
{
    conn.execute("ROLLBACK", &[])
}

/// The rows of `version`: in an archive that is kept one, of the number of these tables. It reads the tables of each version.
pub fn versions<S: Alter>(conn: &mut Connection<S>) -> Result<Vec<Row>, Error>
    ensures asks { AnswersFromDatabase S.Store conn.old conn.new result
        (λ _ rows. rows.items ≡ (Int VERSION ∷ []) ∷ []) ⊥ }
    ensures numbers { HasCleanDisk (state S.Store conn.new) → (number : _) → IsKnownVersion number
        → HasSchemaOfFormat (format_of_version number) (state S.Store conn.old)
        → IfOk result (λ rows. IsPermutation (version_result_rows
        (state S.Store conn.old).now.trees) rows.items) }
    ensures caused { HasCleanDisk (state S.Store conn.new) → (number : _) → IsKnownVersion number
        → HasSchemaOfFormat (format_of_version number) (state S.Store conn.old) → (state S.Store conn.old).step_limit ≡ None
        → IfErr result (IsMemoryOrDiskError (state S.Store conn.old) (state S.Store conn.new)) }
    ensures left { HasCleanDisk (state S.Store conn.new) → (number : _) → IsKnownVersion number
        → HasSchemaOfFormat (format_of_version number) (state S.Store conn.old)
        → IsRolledBackIfOpen (state S.Store conn.new) (state S.Store conn.old).now }
    ensures stays_open { HasCleanDisk (state S.Store conn.new) → (number : _) → IsKnownVersion number
        → HasSchemaOfFormat (format_of_version number) (state S.Store conn.old)
        → OnOk result (IsTrue (state S.Store conn.new).is_open) }
{
    conn.query_all("SELECT number FROM version ORDER BY rowid", &[])
}
