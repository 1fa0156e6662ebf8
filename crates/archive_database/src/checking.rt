//! Whether a row of a message is sound.
ghost use Rattle.std.specs.Prelude.{◌≡◌, ◌↔◌, ℤ, Option, IsTrue, IfOk, IfErr, IfSome, IfNone};
ghost use Rattle.mbox_items.specs.Written.{IsItem};
ghost use Rattle.archive_model.specs.Filing.{IndexedMessage};
ghost use Rattle.archive_model.specs.Damage.{IsSoundlyIndexed};
ghost use Rattle.archive_model.specs.Keys.{item_key};
ghost use Rattle.archive_tables.specs.Listed.{indexed_result_row, indexed_message_from_result_row};
ghost use Rattle.archive_database.specs.Checking.{row_item, row_index_columns, ReportsIfDamaged};
ghost use Rattle.archive_database.specs.Filed.{model_index_columns};

use crate::faults::DatabaseError;
use crate::filing::{IndexColumns, file};
use archive_model::Key;
use archive_tables::filed::{IndexedRow, read_filed};
use civil_time::Instant;
use mbox_items::{Envelope, Item, Sender};
use sqlite::Row;
use std::alloc::Global;

/// The list and the key of a message that is not sound, as its row has them.
#[derive(Debug, Drop)]
pub struct DamagedMessage {
    /// The list's name, which need not be UTF-8.
    pub list: Vec<u8>,
    /// The message's key, which need not be one.
    pub key: Vec<u8>,
}

/// The damage of the message in a row that shows one with what is filed of it; `None` where it is sound. Want of memory alone stops
/// it, and no bytes of the row.
pub fn find_damage(alloc: Global, row: &Row) -> Result<Option<DamagedMessage>, DatabaseError>
    ensures found { (f : IndexedMessage) → row.now ≡ indexed_result_row f → IfOk result (ReportsIfDamaged f) }
    ensures fault { (f : IndexedMessage) → row.now ≡ indexed_result_row f
        → IfErr result (λ fault. fault ≡ DatabaseError.Memory) }
{
    let Some(filed) = read_filed(row) else {
        return Err(DatabaseError::Database);
    };
    if is_sound(alloc, &filed)? {
        return Ok(None);
    }
    Ok(Some(DamagedMessage {
        list: filed.list.to_vec(alloc)?,
        key: filed.key.to_vec(alloc)?,
    }))
}

/// Whether a row is sound: its sender, arrival and text make a complete message, its key is that of the text, and it is filed by
/// what the text says. It copies no text.
fn is_sound(alloc: Global, row: &IndexedRow<'_>) -> Result<bool, DatabaseError>
    ensures sound { IfOk result (λ sound. (withdrawn : ℤ) (embargo : Option ℤ)
        → IsTrue sound ↔ IsSoundlyIndexed (indexed_message_from_result_row withdrawn embargo row.now)) }
    ensures fault { IfErr result (λ fault. fault ≡ DatabaseError.Memory) }
{
    let Some(item) = read_item(row) else {
        return Ok(false);
    };
    if !item.complete || !has_key_of(row, &item) {
        return Ok(false);
    }
    let filing = file(alloc, row.text, item.envelope.arrival)?;
    Ok(is_filed_as(row, &filing))
}

/// The message of a row's sender, arrival and text. `None` where they make none.
fn read_item<'a>(row: &IndexedRow<'a>) -> Option<Item<'a>>
    ensures some { IfSome result (λ item. (item ≡ row_item row.now) × IsItem (row_item row.now)) }
    ensures none { IfNone result (¬ IsItem (row_item row.now)) }
{
    let sender = Sender::read(row.sender)?;
    let arrival = Instant::new(row.arrival)?;
    Item::new(Envelope { sender, arrival }, row.text)
}

/// Whether a row has the key of this message.
fn has_key_of(row: &IndexedRow<'_>, item: &Item<'_>) -> bool
    ensures { IsTrue result ↔ (row.now.key.now ≡ item_key item.now) }
{
    Key::of(item).as_str().as_bytes() == row.key
}

/// Whether a row is filed so.
fn is_filed_as(row: &IndexedRow<'_>, filing: &IndexColumns) -> bool
    ensures { IsTrue result ↔ (row_index_columns row.now ≡ model_index_columns filing.now) }
{
    row.sent == filing.sent && row.month == filing.month && row.author == filing.author.as_slice()
}
