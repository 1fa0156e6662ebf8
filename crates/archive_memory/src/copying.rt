//! Copies of what an archive holds.
ghost use Rattle.std.specs.Prelude.{◌≡◌, ◌++◌, ◌∷◌, [], IfOk, option_map, option_copied, string_bytes};
ghost use Rattle.mbox_items.specs.Written.{whole_item};

use crate::entries::MessageEntry;
use archive_model::Message;
use archive_port::{DatedMarks, MemoryRefusal};
use mbox_items::{Envelope, Item, OwnedItem};
use std::alloc::{AllocError, Global};

/// A message with bytes of its own.
pub(crate) fn copy_message(alloc: Global, message: &Message) -> Result<Message, AllocError>
    ensures { IfOk result (λ copy. copy ≡ message.now) }
{
    Ok(Message {
        key: message.key,
        item: OwnedItem::of(alloc, &message.item.as_item())?,
        withdrawn: message.withdrawn,
        embargo_until: message.embargo_until,
    })
}

/// The message of an entry, where there is one.
pub(crate) fn copy_found(
    alloc: Global,
    found: Option<&MessageEntry>,
) -> Result<Option<Message>, MemoryRefusal>
    ensures { IfOk result (λ copy. copy ≡ option_map (λ entry. entry.message) (option_copied found.entry)) }
{
    match found {
        Some(entry) => Ok(Some(copy_message(alloc, &entry.message)?)),
        None => Ok(None),
    }
}

/// The message of an entry.
pub(crate) fn copy_next(alloc: Global, entry: &MessageEntry) -> Result<Message, MemoryRefusal>
    ensures { IfOk result (λ copy. copy ≡ entry.now.message) }
{
    Ok(copy_message(alloc, &entry.message)?)
}

/// A text with bytes of its own, where there is one.
pub(crate) fn copy_text(alloc: Global, text: Option<&str>) -> Result<Option<String>, MemoryRefusal>
    ensures { IfOk result (λ copy. option_map string_bytes copy ≡ option_copied text.entry) }
{
    match text {
        Some(text) => Ok(Some(String::from_str(alloc, text)?)),
        None => Ok(None),
    }
}

/// A message to be added, with bytes of its own. Its text is the whole text.
pub(crate) fn copy_whole(alloc: Global, item: &Item<'_>) -> Result<OwnedItem, AllocError>
    ensures { IfOk result (λ copy. copy ≡ whole_item item.now) }
{
    if item.complete {
        return OwnedItem::of(alloc, item);
    }
    let text = end_line(alloc, item.text)?;
    OwnedItem::of(
        alloc,
        &Item {
            envelope: Envelope {
                sender: item.envelope.sender,
                arrival: item.envelope.arrival,
            },
            text: &text,
            complete: true,
        },
    )
}

/// A text and LF.
fn end_line(alloc: Global, text: &[u8]) -> Result<Vec<u8>, AllocError>
    ensures { IfOk result (λ ended. ended.items ≡ text.now ++ 10 ∷ []) }
{
    let mut ended = text.to_vec(alloc)?;
    ended.push(b'\n')?;
    Ok(ended)
}

/// What is known of a message without its text.
pub(crate) fn marks_of(message: &Message) -> DatedMarks
    ensures arrival { result.arrival ≡ message.now.item.envelope.arrival }
    ensures withdrawn { result.withdrawn ≡ message.now.withdrawn }
    ensures embargo { result.embargo_until ≡ message.now.embargo_until }
{
    DatedMarks {
        arrival: message.item.arrival(),
        withdrawn: message.withdrawn,
        embargo_until: message.embargo_until,
    }
}
