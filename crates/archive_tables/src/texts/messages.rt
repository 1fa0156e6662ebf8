//! The table `message`.

ghost use Rattle.std.specs.Prelude.{⊤, ◌≡◌, ◌<◌, ◌++◌, ◌∷◌, [], false, Some, None, bytes_eq, filter, find, length, map, option_map, if◌then◌else◌, IfOk, MatchOption, IsUtf8};
ghost use Rattle.std.specs.List.{list_any};
ghost use Rattle.std.specs.Option.{IsSomeAnd};
ghost use Rattle.archive_model.specs.Questions.{is_message_at_key};
ghost use Rattle.sqlite.specs.Held.{state};
ghost use Rattle.sqlite.specs.State.{HasCleanDisk};
ghost use Rattle.archive_tables.specs.Tables.{IsArchiveAtRest, has_rowid_at_least};
ghost use Rattle.archive_tables.specs.Rows.{added_message, model_index_columns, message_from_result_row, decoded_dated_marks};
ghost use Rattle.archive_tables.specs.Rows.{message_rowids_in, month_rowids, author_rowids, message_at, rowid_result_row};
ghost use Rattle.archive_tables.specs.Statements.{insert_message_statement, set_withdrawn_statement, set_embargo_statement, clear_embargo_statement};
ghost use Rattle.archive_tables.specs.Calls.{AnswersFromDatabase, AnswersOrFailsByFault, AnswersFromRows, WritesByStatement};

use crate::rows::{
    DatedMarksRow, IndexColumns, MessageRow, NewMessage, read_dated_marks, read_message,
};
use sqlite::{Alter, Connection, Error, Row, params};

/// Adds a message after the others, neither withdrawn nor under embargo, and files it.
pub fn add_message<S: Alter>(
    conn: &mut Connection<S>,
    list: &str,
    message: &NewMessage<'_>,
    columns: &IndexColumns<'_>,
) -> Result<usize, Error>
    ensures { WritesByStatement S.Store conn.old conn.new result
        (λ a. list_any (is_message_at_key list.now message.now.key.now) a.messages ≡ false)
        (λ a. record a {
          messages = a.messages ++ added_message list.now message.now ∷ [];
          index_columns = a.index_columns ++ model_index_columns columns.now ∷ [];
        })
        (insert_message_statement (added_message list.now message.now) (model_index_columns columns.now)) }
{
    conn.execute(
        "INSERT INTO message (list, key, sender, arrival, text, withdrawn, embargo, sent, month, author) VALUES (?1, ?2, ?3, ?4, ?5, 0, NULL, ?6, ?7, ?8)",
        params![
            list,
            message.key,
            message.sender,
            message.arrival,
            message.text,
            columns.sent,
            columns.month,
            columns.author
        ],
    )
}

/// Whether the list has a message of the key.
pub fn has_message<S: Alter>(conn: &mut Connection<S>, list: &str, key: &str) -> Result<bool, Error>
    ensures { AnswersOrFailsByFault S.Store conn.old conn.new result
        (λ a found. found ≡ list_any (is_message_at_key list.now key.now) a.messages) }
{
    let rows = conn.query_all(
        "SELECT pos FROM message WHERE list = ?1 AND key = ?2",
        params![list, key],
    )?;
    Ok(!rows.is_empty())
}

/// The message of the list and key.
pub fn message<S: Alter>(
    conn: &mut Connection<S>,
    list: &str,
    key: &str,
) -> Result<Option<MessageRow>, Error>
    ensures { AnswersFromDatabase S.Store conn.old conn.new result
        (λ a found. option_map (message_from_result_row list.now) found
        ≡ find (is_message_at_key list.now key.now) a.messages) ⊥ }
{
    let rows = conn.query_all(
        "SELECT key, sender, arrival, text, withdrawn, embargo FROM message WHERE list = ?1 AND key = ?2 ORDER BY pos",
        params![list, key],
    )?;
    match rows.first() {
        Some(row) => Ok(Some(read_message(row)?)),
        None => Ok(None),
    }
}

/// When the message of the list and key came, and its marks, without its text.
pub fn marks<S: Alter>(
    conn: &mut Connection<S>,
    list: &str,
    key: &str,
) -> Result<Option<DatedMarksRow>, Error>
    ensures { AnswersFromDatabase S.Store conn.old conn.new result
        (λ a found. found ≡ option_map decoded_dated_marks
        (find (is_message_at_key list.now key.now) a.messages)) ⊥ }
{
    let rows = conn.query_all(
        "SELECT arrival, withdrawn, embargo FROM message WHERE list = ?1 AND key = ?2 ORDER BY pos",
        params![list, key],
    )?;
    match rows.first() {
        Some(row) => Ok(Some(read_dated_marks(row)?)),
        None => Ok(None),
    }
}

/// The numbers of the list's messages, in mailbox order. `read_rowid` reads a row.
pub fn places<S: Alter>(conn: &mut Connection<S>, list: &str) -> Result<Vec<Row>, Error>
    ensures { AnswersFromRows S.Store conn.old conn.new result
        (λ trees rows. rows.items ≡ map rowid_result_row (message_rowids_in trees list.now)) ⊥ }
{
    conn.query_all(
        "SELECT pos FROM message WHERE list = ?1 ORDER BY pos",
        params![list],
    )
}

/// The numbers of the messages of the list that are filed under the month, by the sent date that is filed and then in mailbox
/// order. `read_rowid` reads a row.
pub fn month_rowids<S: Alter>(
    conn: &mut Connection<S>,
    list: &str,
    month: i64,
) -> Result<Vec<Row>, Error>
    ensures { AnswersFromRows S.Store conn.old conn.new result
        (λ trees rows. rows.items ≡ map rowid_result_row (month_rowids trees list.now month)) ⊥ }
{
    conn.query_all(
        "SELECT pos FROM message WHERE list = ?1 AND month = ?2 ORDER BY sent, pos",
        params![list, month],
    )
}

/// The same of those that are filed under the author key.
pub fn author_rowids<S: Alter>(
    conn: &mut Connection<S>,
    list: &str,
    key: &[u8],
) -> Result<Vec<Row>, Error>
    ensures { AnswersFromRows S.Store conn.old conn.new result
        (λ trees rows. rows.items ≡ map rowid_result_row (author_rowids trees list.now key.now)) ⊥ }
{
    conn.query_all(
        "SELECT pos FROM message WHERE list = ?1 AND author = ?2 ORDER BY sent, pos",
        params![list, key],
    )
}

/// The message of a number.
pub fn message_at<S: Alter>(
    conn: &mut Connection<S>,
    place: i64,
) -> Result<Option<MessageRow>, Error>
    ensures { AnswersFromRows S.Store conn.old conn.new result
        (λ trees found. MatchOption found (message_at trees place ≡ None)
        (λ row. (m : _) × (message_at trees place ≡ Some m) × (message_from_result_row m.list row ≡ m)))
        (IsSomeAnd (message_at (state S.Store conn.old).now.trees place) (λ m. ¬ IsUtf8 m.key)) }
{
    let rows = conn.query_all(
        "SELECT key, sender, arrival, text, withdrawn, embargo FROM message WHERE pos = ?1 ORDER BY pos",
        params![place],
    )?;
    match rows.first() {
        Some(row) => Ok(Some(read_message(row)?)),
        None => Ok(None),
    }
}

/// How many messages the list has. It reads the number of each.
pub fn count_messages<S: Alter>(conn: &mut Connection<S>, list: &str) -> Result<usize, Error>
    ensures { AnswersFromDatabase S.Store conn.old conn.new result
        (λ a count. count ≡ length (filter (λ m. bytes_eq m.list list.now) a.messages)) ⊥ }
{
    let rows = conn.query_all("SELECT pos FROM message WHERE list = ?1", params![list])?;
    Ok(rows.len())
}

/// Whether some message has a number of at least the limit. Where none has, there are fewer messages than the limit. It takes
/// the same time however many messages there are.
pub fn reaches<S: Alter>(conn: &mut Connection<S>, limit: u32) -> Result<bool, Error>
    ensures asks { AnswersFromDatabase S.Store conn.old conn.new result
        (λ a found. 0 < limit → found ≡ false → length a.messages < limit) ⊥ }
    ensures number { HasCleanDisk (state S.Store conn.new) → IsArchiveAtRest (state S.Store conn.old) →
        IfOk result (λ found. found ≡ has_rowid_at_least (state S.Store conn.old).now.trees limit) }
{
    let rows = conn.query_all(
        "SELECT pos FROM message WHERE pos >= ?1 LIMIT 1",
        params![limit],
    )?;
    Ok(!rows.is_empty())
}

/// Writes down who withdrew the message of the list and key: 0 nobody, 1 its author, 2 the board.
pub fn set_withdrawn<S: Alter>(
    conn: &mut Connection<S>,
    list: &str,
    key: &str,
    by: i64,
) -> Result<usize, Error>
    ensures { WritesByStatement S.Store conn.old conn.new result (λ _. ⊤)
        (λ a. record a {
          messages = map
              (λ m. if is_message_at_key list.now key.now m then record m
              { withdrawn = by } else m) a.messages;
        })
        (set_withdrawn_statement list.now key.now by) }
{
    conn.execute(
        "UPDATE message SET withdrawn = ?3 WHERE list = ?1 AND key = ?2",
        params![list, key, by],
    )
}

/// Writes down the day up to which the message of the list and key is held back, counted from 1970-01-01.
pub fn set_embargo<S: Alter>(
    conn: &mut Connection<S>,
    list: &str,
    key: &str,
    until: i64,
) -> Result<usize, Error>
    ensures { WritesByStatement S.Store conn.old conn.new result (λ _. ⊤)
        (λ a. record a {
          messages = map
              (λ m. if is_message_at_key list.now key.now m then record m
              { embargo = Some until } else m) a.messages;
        })
        (set_embargo_statement list.now key.now until) }
{
    conn.execute(
        "UPDATE message SET embargo = ?3 WHERE list = ?1 AND key = ?2",
        params![list, key, until],
    )
}

/// Writes down that the message of the list and key is under no embargo.
pub fn clear_embargo<S: Alter>(
    conn: &mut Connection<S>,
    list: &str,
    key: &str,
) -> Result<usize, Error>
    ensures { WritesByStatement S.Store conn.old conn.new result (λ _. ⊤)
        (λ a. record a {
          messages = map
              (λ m. if is_message_at_key list.now key.now m then record m
              { embargo = None } else m) a.messages;
        })
        (clear_embargo_statement list.now key.now) }
{
    conn.execute(
        "UPDATE message SET embargo = NULL WHERE list = ?1 AND key = ?2",
        params![list, key],
    )
}
