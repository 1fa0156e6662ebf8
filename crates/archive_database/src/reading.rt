//! Rows that are read: names, numbers and messages.
ghost use Rattle.std.specs.Prelude.{◌≡◌, ◌≢◌, ℕ, ℤ, List, map, string_bytes, IsUtf8, None, false, IfOk, IfErr, IfSome, IfNone};
ghost use Rattle.std.specs.List.{All};
ghost use Rattle.civil_time.specs.Calendar.{is_day};
ghost use Rattle.archive_model.specs.Messages.{archived_message, withdrawal_number};
ghost use Rattle.archive_model.specs.Records.{Message as Remembered};
ghost use Rattle.archive_tables.specs.Rows.{name_result_row, rowid_result_row, message_from_result_row, decoded_dated_marks};
ghost use Rattle.archive_port.specs.Messages.{AreDatedMarksOf, IsReadable};

use crate::faults::DatabaseError;
use archive_model::{Key, Message};
use archive_port::DatedMarks;
use archive_tables::rows::{DatedMarksRow, MessageRow, read_name, read_rowid};
use civil_time::{Day, Instant};
use mbox_items::OwnedItem;
use policy_core::Withdrawn;
use sqlite::Row;
use std::alloc::Global;

/// The names that rows show.
pub fn read_names(alloc: Global, rows: &[Row]) -> Result<Vec<String>, DatabaseError>
    ensures read { IfOk result (λ found. (names : List (List ℕ)) → rows.now ≡ map name_result_row names
        → map string_bytes found.items ≡ names) }
    ensures unread { IfErr result (λ fault. fault ≡ DatabaseError.Database → (names : List (List ℕ))
        → rows.now ≡ map name_result_row names → ¬ All IsUtf8 names) }
{
    let mut found = Vec::with_capacity(alloc, rows.len())?;
    for row in rows.iter() {
        let name = read_name(row)?;
        found.push(name)?;
    }
    Ok(found)
}

/// The numbers that rows show.
pub fn read_rowids(alloc: Global, rows: &[Row]) -> Result<Vec<i64>, DatabaseError>
    ensures read { IfOk result (λ found. (places : List ℤ) → rows.now ≡ map rowid_result_row places
        → found.items ≡ places) }
    ensures unread { IfErr result (λ fault. (places : List ℤ) → rows.now ≡ map rowid_result_row places
        → fault ≡ DatabaseError.Memory) }
{
    let mut found = Vec::with_capacity(alloc, rows.len())?;
    for row in rows.iter() {
        let place = read_rowid(row)?;
        found.push(place)?;
    }
    Ok(found)
}

/// The message of a row. It refuses a row that is of none.
pub fn checked_message(row: MessageRow) -> Result<Message, DatabaseError>
    ensures read { IfOk result (λ message. (list : List ℕ)
        → archived_message list message ≡ message_from_result_row list row) }
    ensures unread { IfErr result (λ fault. (fault ≡ DatabaseError.Database)
        × ((list : List ℕ) → ¬ IsReadable (message_from_result_row list row))) }
{
    let key = Key::read(&row.key).ok_or(DatabaseError::Database)?;
    let marks = checked_dated_marks(DatedMarksRow {
        arrival: row.arrival,
        withdrawn: row.withdrawn,
        embargo: row.embargo,
    })?;
    let item = OwnedItem::new(row.sender, marks.arrival, row.text);
    Ok(Message {
        key,
        item: item.ok_or(DatabaseError::Database)?,
        withdrawn: marks.withdrawn,
        embargo_until: marks.embargo_until,
    })
}

/// The arrival and the marks of a row. It refuses those that no message has.
pub fn checked_dated_marks(row: DatedMarksRow) -> Result<DatedMarks, DatabaseError>
    ensures read { IfOk result (λ marks. (m : Remembered) → row ≡ decoded_dated_marks m
        → AreDatedMarksOf marks m) }
    ensures unread { IfErr result (λ fault. (fault ≡ DatabaseError.Database)
        × ((m : Remembered) → row ≡ decoded_dated_marks m → ¬ IsReadable m)) }
{
    let arrival = Instant::new(row.arrival).ok_or(DatabaseError::Database)?;
    let withdrawn = withdrawn_by(row.withdrawn).ok_or(DatabaseError::Database)?;
    let embargo_until = match row.embargo {
        Some(number) => Some(numbered_day(number).ok_or(DatabaseError::Database)?),
        None => None,
    };
    Ok(DatedMarks {
        arrival,
        withdrawn,
        embargo_until,
    })
}

/// Who withdrew a message, by number.
fn withdrawn_by(number: i64) -> Option<Withdrawn>
    ensures some { IfSome result (λ by. withdrawal_number by ≡ number) }
    ensures none { result ≡ None → (by : Withdrawn) → withdrawal_number by ≢ number }
{
    match number {
        0 => Some(Withdrawn::No),
        1 => Some(Withdrawn::Author),
        2 => Some(Withdrawn::Board),
        _ => None,
    }
}

/// The day of a number, counted from 1970-01-01.
fn numbered_day(number: i64) -> Option<Day>
    ensures some { IfSome result (λ day. day ≡ number) }
    ensures none { IfNone result (is_day number ≡ false) }
{
    let start = number.checked_mul(86_400)?;
    Some(Instant::new(start)?.day())
}
