//! Rows of the tables as values: the message that is added, and what is read, column by column.

ghost use Rattle.std.specs.Prelude.{◌≡◌, ◌∷◌, string_bytes, IfOk, IfErr};
ghost use Rattle.archive_model.specs.Records.{Grant, Message, ListOption};
ghost use Rattle.archive_tables.specs.Rows.{name_result_row, rowid_result_row, message_result_row, message_from_result_row, dated_marks_result_row};
ghost use Rattle.archive_tables.specs.Rows.{decoded_dated_marks, merge_result_row, grant_result_row, grant_from_result_row, out_of_memory_error, IsTextReadError};

use sqlite::{Error, Row};

/// A message without its list: who withdrew it is 0 (nobody), 1 (its author) or 2 (the board), the arrival is in seconds
/// since 1970-01-01 00:00:00 UTC, and the embargo the day up to which it is held back, counted from 1970-01-01.
#[derive(Debug, Drop)]
pub struct MessageRow {
    /// The text's key, in hexadecimal.
    pub key: String,
    /// The sender of the envelope.
    pub sender: Vec<u8>,
    /// When it came, in seconds.
    pub arrival: i64,
    /// The whole text.
    pub text: Vec<u8>,
    /// 0, 1 or 2.
    pub withdrawn: i64,
    /// A day; `None` where nothing holds it back.
    pub embargo: Option<i64>,
}

/// A message that is added, without its list: it is neither withdrawn nor under embargo.
#[derive(Clone, Copy)]
pub struct NewMessage<'a> {
    /// The text's key, in hexadecimal.
    pub key: &'a str,
    /// The sender of the envelope.
    pub sender: &'a [u8],
    /// When it came, in seconds since 1970-01-01 00:00:00 UTC.
    pub arrival: i64,
    /// The whole text.
    pub text: &'a [u8],
}

/// Under what a message is filed.
#[derive(Clone, Copy)]
pub struct IndexColumns<'a> {
    /// The sent date, in seconds since 1970-01-01 00:00:00 UTC.
    pub sent: i64,
    /// The month of the sent date, as year times 12 plus month less 1.
    pub month: i64,
    /// The author key, in ASCII lower case; empty where there is no From field.
    pub author: &'a [u8],
}

/// When a message came, and its two marks, as in `MessageRow`.
#[derive(Clone, Copy, Debug, PartialEq, Eq)]
pub struct DatedMarksRow {
    /// When it came, in seconds.
    pub arrival: i64,
    /// 0, 1 or 2.
    pub withdrawn: i64,
    /// A day; `None` where nothing holds the message back.
    pub embargo: Option<i64>,
}

/// A grant without its person and list: its rank, 1 to 3, and its first and last day, counted from 1970-01-01.
#[derive(Clone, Copy, Debug, PartialEq, Eq)]
pub struct GrantRow {
    /// 1 to 3.
    pub rank: i64,
    /// The first day on which it holds.
    pub from_day: i64,
    /// The last one.
    pub until_day: i64,
}

/// The name in a row that shows one.
pub fn read_name(row: &Row) -> Result<String, Error>
    ensures read { IfOk result (λ name. (n : _) → row.now ≡ name_result_row n → string_bytes name ≡ n) }
    ensures fault { IfErr result (λ e. (n : _) → row.now ≡ name_result_row n → IsTextReadError n e) }
{
    row.get(0)
}

/// The number in a row that shows one.
pub fn read_rowid(row: &Row) -> Result<i64, Error>
    ensures read { IfOk result (λ place. (n : _) → row.now ≡ rowid_result_row n → place ≡ n) }
    ensures fault { IfErr result (λ e. (n : _) → row.now ≡ rowid_result_row n → e ≡ out_of_memory_error) }
{
    let place: i64 = row.get(0)?;
    Ok(place)
}

/// The message in a row that shows one.
pub fn read_message(row: &Row) -> Result<MessageRow, Error>
    ensures read { IfOk result (λ r. (m : Message) → row.now ≡ message_result_row m
        → message_from_result_row m.list r ≡ m) }
    ensures fault { IfErr result (λ e. (m : Message) → row.now ≡ message_result_row m
        → IsTextReadError m.key e) }
{
    Ok(MessageRow {
        key: row.get(0)?,
        sender: row.get(1)?,
        arrival: row.get(2)?,
        text: row.get(3)?,
        withdrawn: row.get(4)?,
        embargo: row.get(5)?,
    })
}

/// The arrival and the marks in a row that shows those of a message.
pub fn read_dated_marks(row: &Row) -> Result<DatedMarksRow, Error>
    ensures read { IfOk result (λ r. (m : Message) → row.now ≡ dated_marks_result_row m
        → r ≡ decoded_dated_marks m) }
    ensures fault { IfErr result (λ e. (m : Message) → row.now ≡ dated_marks_result_row m
        → e ≡ out_of_memory_error) }
{
    Ok(DatedMarksRow {
        arrival: row.get(0)?,
        withdrawn: row.get(1)?,
        embargo: row.get(2)?,
    })
}

/// What is said of the threads of a list, in a row that shows it: whether they are gathered by subject.
pub fn read_merges_by_subject(row: &Row) -> Result<bool, Error>
    ensures read { IfOk result (λ merge. (o : ListOption) → row.now ≡ merge_result_row o
        → merge ≡ o.merge) }
    ensures fault { IfErr result (λ e. (o : ListOption) → row.now ≡ merge_result_row o → e ≡ out_of_memory_error) }
{
    let number: i64 = row.get(0)?;
    Ok(number == 1)
}

/// The grant in a row that shows one.
pub fn read_grant(row: &Row) -> Result<GrantRow, Error>
    ensures read { IfOk result (λ r. (g : Grant) → row.now ≡ grant_result_row g
        → grant_from_result_row g.person g.list r ≡ g) }
    ensures fault { IfErr result (λ e. (g : Grant) → row.now ≡ grant_result_row g → e ≡ out_of_memory_error) }
{
    Ok(GrantRow {
        rank: row.get(0)?,
        from_day: row.get(1)?,
        until_day: row.get(2)?,
    })
}
