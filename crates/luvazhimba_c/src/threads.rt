//! Threads.
ghost use Rattle.std.specs.Prelude.{◌≡◌, ◌≢◌, ◌<◌, ◌≤◌, ◌⊎◌, ◌↔◌, length, map, All, Contains, OnOk, IfOk, IfErr};
ghost use Rattle.mbox_core.specs.Division.{IsPreamble};
ghost use Rattle.thread_core.specs.Threads.{threads_of};
ghost use Rattle.luvazhimba_c.specs.declared.messages.LuvMessage.{LuvMessage};
ghost use Rattle.luvazhimba_c.specs.Entries.{entry_at, entry_of_item, AreThreadsOfMbox, LacksRoomForRows, IsReadableMessage, LiesOutsideBytes, ArrivesOutOfRange, StatusMatchesMessages};
ghost use Rattle.luvazhimba_c.specs.Numbers.{luv_done, luv_no_room, luv_no_memory, luv_no_instant, luv_outside, luv_no_mbox, luv_too_long, refusal_number, IsArrayTooLong, IsMessageReadError};
ghost use Rattle.luvazhimba_c.specs.Rows.{rows_of_luv_rows};

use crate::cutting::answer_fault;
use crate::entries::{entries_at, entries_of_items};
use crate::keys::state_of;
use crate::messages::LuvMessage;
use crate::refusals::{DONE, Refusal, is_too_long};
use crate::rows::{LuvRow, put_rows};
use mbox_core::{Messages, cut};
use std::alloc::Global;
use thread_core::{Entry, NodeThreader, Row, threads};

/// The threads of entries, with hash maps of these keys.
fn rows_of(
    alloc: Global,
    entries: &[Entry],
    merge: bool,
    key0: u64,
    key1: u64,
) -> Result<Vec<Row>, Refusal>
    ensures rows { IfOk result (λ rows. rows.items ≡ threads_of entries.now merge) }
    ensures memory { IfErr result (λ e. refusal_number e ≡ luv_no_memory) }
{
    let Some(state) = state_of(key0, key1) else {
        return Err(Refusal::Memory);
    };
    match threads(alloc, &NodeThreader::new(state), entries, merge) {
        Ok(rows) => Ok(rows),
        Err(_) => Err(Refusal::Memory),
    }
}

/// Writes rows to the front of an array, and how many there are; it says what the call answers.
fn answer_rows(found: &[Row], rows: &mut [LuvRow], count: &mut usize) -> u8
    ensures count { count.new ≡ length found.now }
    ensures rows { result ≡ luv_done → rows_of_luv_rows (length found.now) rows.new ≡ found.now }
    ensures within { result ≡ luv_done → length found.now ≤ length rows.old }
    ensures no_room { result ≡ luv_no_room → length rows.old < length found.now }
    ensures few { result ≤ luv_no_room }
{
    *count = found.len();
    match put_rows(rows, found) {
        Ok(()) => DONE,
        Err(refusal) => refusal.number(),
    }
}

/// The threads of messages (RFC 5256, section 3, THREAD=REFERENCES), written to the front of `rows` in preorder; `count` is how many
/// rows there are, at most twice as many as messages. Those of one base subject are gathered (step 5) only where `merge` is true. The
/// time depends on the keys, which are to be random where somebody else wrote the mail; no row does. It refuses where a message
/// stands outside the bytes or arrived outside the years 1900 to 9998, where `rows` has no room, where an array is too long, and where a
/// growth of memory is refused.
#[unsafe(no_mangle)]
pub extern "C" fn luv_threads(
    alloc: Global,
    bytes: &[u8],
    messages: &[LuvMessage],
    merge: bool,
    key0: u64,
    key1: u64,
    rows: &mut [LuvRow],
    count: &mut usize,
) -> u8
    ensures rows { result ≡ luv_done
        → (rows_of_luv_rows count.new rows.new ≡ threads_of (map (entry_at bytes.now) messages.now) merge) × (count.new ≤ length rows.old) }
    ensures no_room { result ≡ luv_no_room
        → (count.new ≡ length (threads_of (map (entry_at bytes.now) messages.now) merge)) × (length rows.old < count.new) }
    ensures messages { StatusMatchesMessages bytes.now messages.now result }
    ensures too_long { (result ≡ luv_too_long) ↔ IsArrayTooLong bytes.now ⊎ IsArrayTooLong messages.now }
    ensures refused { result ≢ luv_done → (result ≡ luv_no_room) ⊎ IsMessageReadError result ⊎ (result ≡ luv_too_long) }
{
    if is_too_long(bytes) || is_too_long(messages) {
        return Refusal::TooLong.number();
    }
    match rows_of_messages(alloc, bytes, messages, merge, key0, key1) {
        Ok(found) => answer_rows(&found, rows, count),
        Err(refusal) => refusal.number(),
    }
}

fn rows_of_messages(
    alloc: Global,
    bytes: &[u8],
    messages: &[LuvMessage],
    merge: bool,
    key0: u64,
    key1: u64,
) -> Result<Vec<Row>, Refusal>
    ensures rows { IfOk result (λ rows. rows.items ≡ threads_of (map (entry_at bytes.now) messages.now) merge) }
    ensures readable { OnOk result (All (IsReadableMessage bytes.now) messages.now) }
    ensures refused { IfErr result (λ e. IsMessageReadError (refusal_number e)) }
    ensures outside { IfErr result (λ e. refusal_number e ≡ luv_outside
        → (m : LuvMessage) × Contains messages.now m × LiesOutsideBytes bytes.now m) }
    ensures no_instant { IfErr result (λ e. refusal_number e ≡ luv_no_instant
        → (m : LuvMessage) × Contains messages.now m × ArrivesOutOfRange m) }
{
    let entries = entries_at(alloc, bytes, messages)?;
    let rows = rows_of(alloc, &entries, merge, key0, key1)?;
    Ok(rows)
}

/// The threads of the messages of an mbox (RFC 4155), as `luv_threads` has them: the place of a row is that of its message among
/// those of the mbox. It refuses where the bytes are no mbox, and then `count` is where the line begins that is no separator
/// line; where `rows` has no room, where the mbox is too long, and where a growth of memory is refused.
#[unsafe(no_mangle)]
pub extern "C" fn luv_threads_of_mbox(
    alloc: Global,
    mbox: &[u8],
    merge: bool,
    key0: u64,
    key1: u64,
    rows: &mut [LuvRow],
    count: &mut usize,
) -> u8
    ensures rows { result ≡ luv_done → AreThreadsOfMbox mbox.now merge (rows_of_luv_rows count.new rows.new) × (count.new ≤ length rows.old) }
    ensures no_room { result ≡ luv_no_room → LacksRoomForRows mbox.now merge (length rows.old) count.new }
    ensures no_mbox { result ≡ luv_no_mbox → IsPreamble mbox.now count.new }
    ensures too_long { (result ≡ luv_too_long) ↔ IsArrayTooLong mbox.now }
    ensures refused { result ≢ luv_done → (result ≡ luv_no_room) ⊎ (result ≡ luv_no_memory) ⊎ (result ≡ luv_no_mbox) ⊎ (result ≡ luv_too_long) }
{
    if is_too_long(mbox) {
        return Refusal::TooLong.number();
    }
    match cut(mbox) {
        Ok(messages) => match rows_of_items(alloc, messages, merge, key0, key1) {
            Ok(found) => answer_rows(&found, rows, count),
            Err(refusal) => refusal.number(),
        },
        Err(fault) => answer_fault(fault, count),
    }
}

fn rows_of_items(
    alloc: Global,
    messages: Messages<'_>,
    merge: bool,
    key0: u64,
    key1: u64,
) -> Result<Vec<Row>, Refusal>
    ensures rows { IfOk result (λ rows. rows.items ≡ threads_of (map entry_of_item messages.entry) merge) }
    ensures memory { IfErr result (λ e. refusal_number e ≡ luv_no_memory) }
{
    let entries = entries_of_items(alloc, messages)?;
    let rows = rows_of(alloc, &entries, merge, key0, key1)?;
    Ok(rows)
}
