//! A list that is added.
ghost use Rattle.std.specs.Prelude.{◌≡◌, ◌⊎◌, Some, None, MatchResult, IfErr};
ghost use Rattle.sqlite.specs.Held.{state};
ghost use Rattle.sqlite.specs.State.{HasCleanDisk};
ghost use Rattle.archive_tables.specs.Tables.{IsOpenArchive, IsArchiveAtRest, archive_of};
ghost use Rattle.archive_tables.specs.Calls.{CommitsChange, FaultKeepsRows, IsOpenArchiveOrRolledBack, KeepsConnectionUnlessDiskFails, AnswersOnlyIfOpen, IsMemoryOrDiskError};
ghost use Rattle.archive_tables.specs.Crashes.{CrashAddsOnly, IsArchiveStored};
ghost use Rattle.archive_database.specs.Faults.{FailsByDiskOr};
ghost use Rattle.archive_database.specs.Lists.{archive_with_list, IsListRefused};

use crate::faults::DatabaseError;
use archive_tables::texts;
use sqlite::{Alter, Connection, Error};

/// Adds a list after the others, and says with it that its threads are gathered by subject: both, or nothing.
pub fn add_list<S: Alter>(conn: &mut Connection<S>, name: &str) -> Result<(), DatabaseError>
    ensures added { HasCleanDisk (state S.Store conn.new) → IsArchiveAtRest (state S.Store conn.old)
        → MatchResult result
        (λ _. CommitsChange (state S.Store conn.old) (state S.Store conn.new) (λ a. archive_with_list a name.now))
        (λ _. FaultKeepsRows (state S.Store conn.old) (state S.Store conn.new)) }
    ensures caused { HasCleanDisk (state S.Store conn.new) → IsArchiveAtRest (state S.Store conn.old)
        → (state S.Store conn.old).step_limit ≡ None
        → FailsByDiskOr (state S.Store conn.old) (state S.Store conn.new) result
        (IsListRefused name.now (state S.Store conn.old).now) }
    ensures crash { IsArchiveAtRest (state S.Store conn.old)
        → CrashAddsOnly S.Store conn.old conn.new (IsArchiveStored
        (archive_with_list (archive_of (state S.Store conn.old)) name.now)) }
    ensures lasts { KeepsConnectionUnlessDiskFails (state S.Store conn.old) (state S.Store conn.new) }
    ensures was_open { AnswersOnlyIfOpen S.Store conn.old conn.new result }
{
    texts::schema::begin(conn)?;
    if let Err(error) = write_list(conn, name) {
        let _undone = texts::schema::rollback(conn);
        return Err(DatabaseError::from(error));
    }
    Ok(())
}

/// Writes both in a transaction, and commits it.
fn write_list<S: Alter>(conn: &mut Connection<S>, name: &str) -> Result<(), Error>
    ensures written { HasCleanDisk (state S.Store conn.new) → (db : _)
        → IsOpenArchive (Some db) (state S.Store conn.old) → MatchResult result
        (λ _. CommitsChange (state S.Store conn.old) (state S.Store conn.new) (λ a. archive_with_list a name.now))
        (λ _. IsOpenArchiveOrRolledBack db (state S.Store conn.new)) }
    ensures caused { HasCleanDisk (state S.Store conn.new) → (db : _)
        → IsOpenArchive (Some db) (state S.Store conn.old) → (state S.Store conn.old).step_limit ≡ None
        → IfErr result (λ e. IsMemoryOrDiskError (state S.Store conn.old) (state S.Store conn.new) e
        ⊎ IsListRefused name.now (state S.Store conn.old).now) }
    ensures crash { (db : _) → IsOpenArchive (Some db) (state S.Store conn.old)
        → CrashAddsOnly S.Store conn.old conn.new (IsArchiveStored
        (archive_with_list (archive_of (state S.Store conn.old)) name.now)) }
    ensures lasts { KeepsConnectionUnlessDiskFails (state S.Store conn.old) (state S.Store conn.new) }
{
    texts::lists::add_list(conn, name)?;
    texts::options::add_option(conn, name, true)?;
    texts::schema::commit(conn)?;
    Ok(())
}
