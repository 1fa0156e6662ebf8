//! The table `message`, row by row.

ghost use Rattle.std.specs.Prelude.{◌≡◌, map, slice_get, option_map};
ghost use Rattle.archive_tables.specs.Rows.{rowid_result_row};
ghost use Rattle.archive_tables.specs.Listed.{all_rowids, filed_at, indexed_result_row};
ghost use Rattle.archive_tables.specs.Calls.{AnswersFromRows};

use sqlite::{Alter, Connection, Error, Row, params};

/// The numbers of all messages, by the names of their lists and then in mailbox order. `read_rowid` reads a row.
pub fn all_rowids<S: Alter>(conn: &mut Connection<S>) -> Result<Vec<Row>, Error>
    ensures { AnswersFromRows S.Store conn.old conn.new result
        (λ trees rows. rows.items ≡ map rowid_result_row (all_rowids trees)) ⊥ }
{
    conn.query_all("SELECT pos FROM message ORDER BY list, pos", &[])
}

/// The message of a number, with what is filed of it, in the first row. `read_filed` reads it.
pub fn filed_at<S: Alter>(conn: &mut Connection<S>, place: i64) -> Result<Vec<Row>, Error>
    ensures { AnswersFromRows S.Store conn.old conn.new result
        (λ trees rows. slice_get rows.items 0 ≡ option_map indexed_result_row (filed_at trees place)) ⊥ }
{
    conn.query_all(
        "SELECT list, key, sender, arrival, text, sent, month, author FROM message WHERE pos = ?1 ORDER BY pos",
        params![place],
    )
}
