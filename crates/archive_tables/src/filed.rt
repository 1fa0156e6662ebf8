//! Rows of messages with what is filed of them, read in place.
ghost use Rattle.std.specs.Prelude.{◌≡◌, option_map, MatchOption};
ghost use Rattle.archive_model.specs.Filing.{IndexedMessage};
ghost use Rattle.sqlite.specs.Order.{column};
ghost use Rattle.archive_tables.specs.Tables.{int_of_value};
ghost use Rattle.archive_tables.specs.Listed.{indexed_result_row, indexed_message_from_result_row, bytes_of_value};

use sqlite::Row;
use sqlite::types::ValueRef;

/// A message without its marks, and what is filed of it. The bytes are those of the row, and none of its texts need be UTF-8; the
/// arrival and the sent date are in seconds since 1970-01-01 00:00:00 UTC, and the month is year times 12 plus month less 1.
#[derive(Clone, Copy)]
pub struct IndexedRow<'a> {
    /// The list's name.
    pub list: &'a [u8],
    /// The text's key, in hexadecimal.
    pub key: &'a [u8],
    /// The sender of the envelope.
    pub sender: &'a [u8],
    /// When it came, in seconds.
    pub arrival: i64,
    /// The whole text.
    pub text: &'a [u8],
    /// The sent date, in seconds.
    pub sent: i64,
    /// The month of the sent date.
    pub month: i64,
    /// The author key.
    pub author: &'a [u8],
}

/// The message in a row that shows one with what is filed of it. It reads each such row, whatever its bytes.
pub fn read_filed(row: &Row) -> Option<IndexedRow<'_>>
    ensures { (f : IndexedMessage) → row.now ≡ indexed_result_row f
        → MatchOption result ⊥ (λ r. indexed_message_from_result_row f.0.withdrawn f.0.embargo r ≡ f) }
{
    Some(IndexedRow {
        list: bytes_at(row, 0)?,
        key: bytes_at(row, 1)?,
        sender: bytes_at(row, 2)?,
        arrival: number_at(row, 3)?,
        text: bytes_at(row, 4)?,
        sent: number_at(row, 5)?,
        month: number_at(row, 6)?,
        author: bytes_at(row, 7)?,
    })
}

/// The bytes in a place of a row.
fn bytes_at(row: &Row, at: usize) -> Option<&[u8]>
    ensures { option_map (λ b. b.now) result ≡ bytes_of_value (column row.now at) }
{
    match row.get_ref(at) {
        Ok(ValueRef::Text(bytes)) => Some(bytes),
        Ok(ValueRef::Blob(bytes)) => Some(bytes),
        _ => None,
    }
}

/// The number in a place of a row.
fn number_at(row: &Row, at: usize) -> Option<i64>
    ensures { result ≡ int_of_value (column row.now at) }
{
    match row.get_ref(at) {
        Ok(ValueRef::Int(number)) => Some(number),
        _ => None,
    }
}
