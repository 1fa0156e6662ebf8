//! The table `list_option`.

ghost use Rattle.std.specs.Prelude.{◌≡◌, ◌++◌, ◌∷◌, [], ⊤, map, find, option_map, OnOk};
ghost use Rattle.sqlite.specs.Held.{state};
ghost use Rattle.sqlite.specs.State.{HasCleanDisk};
ghost use Rattle.archive_model.specs.Records.{Archive};
ghost use Rattle.archive_model.specs.Questions.{is_option_of};
ghost use Rattle.archive_model.specs.Machine.{with_merge_setting};
ghost use Rattle.archive_tables.specs.Schema.{schema_2};
ghost use Rattle.archive_tables.specs.Tables.{merge_flag};
ghost use Rattle.archive_tables.specs.Making.{IsMigratingTables, MigratesSchema, CrashAddsNothingInTransaction, EndsStep};
ghost use Rattle.archive_tables.specs.Statements.{insert_option_statement, update_option_statement, backfill_options_statement};
ghost use Rattle.archive_tables.specs.Calls.{AnswersFromDatabase, WritesByStatement};

use crate::rows::read_merges_by_subject;
use sqlite::{Alter, Connection, Error, params};

/// Says after the others whether the threads of a list are gathered by subject.
pub fn add_option<S: Alter>(
    conn: &mut Connection<S>,
    list: &str,
    merge: bool,
) -> Result<usize, Error>
    ensures { WritesByStatement S.Store conn.old conn.new result (λ _. ⊤)
        (λ a. record a { options = a.options ++ record { list = list.now; merge = merge } ∷ [] })
        (insert_option_statement (record { list = list.now; merge = merge })) }
{
    let number = merge_number(merge);
    conn.execute(
        "INSERT INTO list_option (list, merge) VALUES (?1, ?2)",
        params![list, number],
    )
}

/// Says anew whether the threads of a list are gathered by subject.
pub fn set_option<S: Alter>(
    conn: &mut Connection<S>,
    list: &str,
    merge: bool,
) -> Result<usize, Error>
    ensures { WritesByStatement S.Store conn.old conn.new result (λ _. ⊤)
        (λ a. record a { options = map (with_merge_setting list.now merge) a.options })
        (update_option_statement (record { list = list.now; merge = merge })) }
{
    let number = merge_number(merge);
    conn.execute(
        "UPDATE list_option SET merge = ?2 WHERE list = ?1",
        params![list, number],
    )
}

/// Whether the threads of a list are gathered by subject, where that is said.
pub fn find_option<S: Alter>(conn: &mut Connection<S>, list: &str) -> Result<Option<bool>, Error>
    ensures { AnswersFromDatabase S.Store conn.old conn.new result
        (λ a found. found ≡ option_map (λ o. o.merge) (find (is_option_of list.now) a.options)) ⊥ }
{
    let rows = conn.query_all(
        "SELECT merge FROM list_option WHERE list = ?1 ORDER BY rowid",
        params![list],
    )?;
    match rows.first() {
        Some(row) => Ok(Some(read_merges_by_subject(row)?)),
        None => Ok(None),
    }
}

/// Says of every list that its threads are gathered by subject: so they were in the tables of version 1, and `list_option` is empty.
pub fn copy_options<S: Alter>(conn: &mut Connection<S>) -> Result<usize, Error>
    ensures moved { HasCleanDisk (state S.Store conn.new)
        → (before : _) (said : _) (archive : Archive)
        → IsMigratingTables (state S.Store conn.old) before schema_2 said 1 archive
        → (state S.Store conn.old).now.trees 13 ≡ []
        → OnOk result (IsMigratingTables (state S.Store conn.new) before schema_2 said 2 archive) }
    ensures within { MigratesSchema S.Store conn.old conn.new result schema_2 schema_2 }
    ensures quiet { CrashAddsNothingInTransaction S.Store conn.old conn.new schema_2 }
    ensures ends { EndsStep S.Store conn.old conn.new result schema_2 backfill_options_statement }
{
    conn.execute(
        "INSERT INTO list_option (list, merge) SELECT name, 1 FROM list ORDER BY rowid",
        &[],
    )
}

/// What stands for it in the table.
fn merge_number(merge: bool) -> i64
    ensures { result ≡ merge_flag merge }
{
    if merge { 1 } else { 0 }
}
