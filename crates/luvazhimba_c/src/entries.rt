//! What messages say about threads.
ghost use Rattle.std.specs.Prelude.{◌≡◌, map, All, Contains, OnOk, IfOk, IfErr};
ghost use Rattle.luvazhimba_c.specs.Entries.{entry_of_message, entry_at, entry_of_item, IsReadableMessage, LiesOutsideBytes, ArrivesOutOfRange};
ghost use Rattle.luvazhimba_c.specs.declared.messages.LuvMessage.{LuvMessage};
ghost use Rattle.luvazhimba_c.specs.Numbers.{luv_no_memory, luv_outside, luv_no_instant, refusal_number, IsMessageReadError};

use crate::messages::LuvMessage;
use crate::refusals::Refusal;
use civil_time::{Instant, Memory};
use mail_core::Header;
use mbox_core::Messages;
use std::alloc::Global;
use subject_core::base;
use thread_core::Entry;

/// What a message says about threads that arrived then.
fn entry_of(alloc: Global, text: &[u8], arrival: Instant) -> Result<Entry, Memory>
    ensures { IfOk result (λ entry. entry ≡ entry_of_message text.now arrival) }
{
    let header = Header::of(text);
    let subject = header.unfolded_subject(alloc)?;
    let base = base(alloc, &subject)?;
    let id = header.own_id(alloc)?;
    let refs = header.references(alloc)?;
    let sent = header.sent(arrival);
    Ok(Entry {
        id,
        refs,
        sent,
        base: base.text,
        reply: base.reply,
    })
}

fn entry_at(alloc: Global, bytes: &[u8], message: &LuvMessage) -> Result<Entry, Refusal>
    ensures entry { IfOk result (λ entry. entry ≡ entry_at bytes.now message.now) }
    ensures readable { OnOk result (IsReadableMessage bytes.now message.now) }
    ensures refused { IfErr result (λ e. IsMessageReadError (refusal_number e)) }
    ensures outside { IfErr result (λ e. refusal_number e ≡ luv_outside → LiesOutsideBytes bytes.now message.now) }
    ensures no_instant { IfErr result (λ e. refusal_number e ≡ luv_no_instant → ArrivesOutOfRange message.now) }
{
    if message.start > message.end || message.end > bytes.len() {
        return Err(Refusal::Place);
    }
    let Some(arrival) = Instant::new(message.arrival) else {
        return Err(Refusal::Arrival);
    };
    match entry_of(alloc, &bytes[message.start..message.end], arrival) {
        Ok(entry) => Ok(entry),
        Err(_) => Err(Refusal::Memory),
    }
}

/// What messages at these places say about threads.
pub(crate) fn entries_at(
    alloc: Global,
    bytes: &[u8],
    messages: &[LuvMessage],
) -> Result<Vec<Entry>, Refusal>
    ensures entries { IfOk result (λ entries. entries.items ≡ map (entry_at bytes.now) messages.now) }
    ensures readable { OnOk result (All (IsReadableMessage bytes.now) messages.now) }
    ensures refused { IfErr result (λ e. IsMessageReadError (refusal_number e)) }
    ensures outside { IfErr result (λ e. refusal_number e ≡ luv_outside
        → (m : LuvMessage) × Contains messages.now m × LiesOutsideBytes bytes.now m) }
    ensures no_instant { IfErr result (λ e. refusal_number e ≡ luv_no_instant
        → (m : LuvMessage) × Contains messages.now m × ArrivesOutOfRange m) }
{
    let mut entries = Vec::new(alloc);
    for at in 0..messages.len() {
        let message = messages[at];
        match entry_at(alloc, bytes, &message) {
            Ok(entry) => {
                if entries.push(entry).is_err() {
                    return Err(Refusal::Memory);
                }
            }
            Err(refusal) => return Err(refusal),
        }
    }
    Ok(entries)
}

/// What the messages that are left say about threads.
pub(crate) fn entries_of_items(alloc: Global, messages: Messages<'_>) -> Result<Vec<Entry>, Refusal>
    ensures entries { IfOk result (λ entries. entries.items ≡ map entry_of_item messages.entry) }
    ensures memory { IfErr result (λ e. refusal_number e ≡ luv_no_memory) }
{
    let mut entries = Vec::new(alloc);
    for item in messages {
        let Ok(entry) = entry_of(alloc, item.text, item.envelope.arrival) else {
            return Err(Refusal::Memory);
        };
        if entries.push(entry).is_err() {
            return Err(Refusal::Memory);
        }
    }
    Ok(entries)
}
