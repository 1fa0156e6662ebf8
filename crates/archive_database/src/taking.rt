//! A message that is taken in.
ghost use Rattle.std.specs.Prelude.{◌≡◌, ◌<◌, false, nat_lt, nat_le, length, IfOk, MatchOption};
ghost use Rattle.mbox_items.specs.Division.{whole};
ghost use Rattle.mbox_items.specs.Senders.{sender_text};
ghost use Rattle.archive_model.specs.Machine.{is_too_large, longest_sender, longest_text};
ghost use Rattle.archive_model.specs.Questions.{messages_in};
ghost use Rattle.archive_tables.specs.Calls.{AnswersFromDatabase, EndsConnectionCall};
ghost use Rattle.archive_database.specs.Taking.{InsertsMessage, FailsToInsertMessage, ExecutesMessageInsert, CrashLeavesWholeMessage};

use crate::faults::DatabaseError;
use crate::filing::file;
use archive_model::Key;
use archive_tables::rows::{IndexColumns, NewMessage};
use archive_tables::texts;
use mbox_items::{Item, Sender, written_sender};
use sqlite::{Alter, Connection, Error};
use std::alloc::{AllocError, Global};

/// Bytes of the longest whole text that is taken in.
const LONGEST_TEXT: usize = 16_777_216;

/// Bytes of the longest sender that is taken in.
const LONGEST_SENDER: usize = 900_000_000;

/// Whether a message is too large to be taken in: its whole text is too long, or its sender.
#[tactic(auto, unfolding(archive_model::specs::Machine::is_too_large))]
pub fn is_too_large(item: &Item<'_>) -> bool
    ensures { result ≡ is_too_large item.now }
{
    has_long_text(item) || is_long_sender(item.envelope.sender)
}

/// Whether the whole text of a message is too long.
fn has_long_text(item: &Item<'_>) -> bool
    ensures { result ≡ nat_lt longest_text (length (whole item.now.text)) }
{
    if item.complete {
        item.text.len() > LONGEST_TEXT
    } else {
        item.text.len() >= LONGEST_TEXT
    }
}

/// Whether a sender is too long, as it is written: two tokens have ` at ` between them.
fn is_long_sender(sender: Sender<'_>) -> bool
    ensures { result ≡ nat_lt longest_sender (length (sender_text sender.entry)) }
{
    match sender {
        Sender::One(token) => token.len() > LONGEST_SENDER,
        Sender::At(left, right) => left.len().saturating_add(4 + right.len()) > LONGEST_SENDER,
    }
}

/// Whether a list holds as many messages as the limit. Its messages are counted only where some message's number
/// reaches the limit.
pub fn is_full<S: Alter>(conn: &mut Connection<S>, list: &str, limit: u32) -> Result<bool, Error>
    ensures { AnswersFromDatabase S.Store conn.old conn.new result
        (λ a full. full ≡ nat_le limit (length (messages_in a list.now))) ⊥ }
{
    if !may_be_full(conn, limit)? {
        return Ok(false);
    }
    let count = texts::messages::count_messages(conn, list)?;
    Ok(limit as usize <= count)
}

/// Whether a list may hold as many messages as the limit. It takes the same time however many messages there are.
fn may_be_full<S: Alter>(conn: &mut Connection<S>, limit: u32) -> Result<bool, Error>
    ensures { AnswersFromDatabase S.Store conn.old conn.new result
        (λ a may_be. may_be ≡ false → length a.messages < limit) ⊥ }
{
    let reached = texts::messages::reaches(conn, limit)?;
    Ok((limit == 0) | reached)
}

/// Writes a message down after the others.
pub fn insert_message<S: Alter>(
    conn: &mut Connection<S>,
    alloc: Global,
    list: &str,
    key: &Key,
    item: &Item<'_>,
) -> Result<(), DatabaseError>
    ensures taken { InsertsMessage S.Store conn.old conn.new result list.now key.now item.now }
    ensures caused { FailsToInsertMessage S.Store conn.old conn.new result list.now key.now item.now }
    ensures made { ExecutesMessageInsert S.Store conn.old conn.new result list.now key.now item.now }
    ensures crash { CrashLeavesWholeMessage S.Store conn.old conn.new list.now key.now item.now }
    ensures ends { EndsConnectionCall S.Store conn.old conn.new result }
{
    if let Some(text) = with_line_end(alloc, item)? {
        return write_down(conn, alloc, list, key, item, &text);
    }
    write_down(conn, alloc, list, key, item, text_of(item))
}

/// Writes a message of this whole text down after the others, filed by what its text says.
fn write_down<S: Alter>(
    conn: &mut Connection<S>,
    alloc: Global,
    list: &str,
    key: &Key,
    item: &Item<'_>,
    text: &[u8],
) -> Result<(), DatabaseError>
    ensures taken { text.now ≡ whole item.now.text
        → InsertsMessage S.Store conn.old conn.new result list.now key.now item.now }
    ensures caused { text.now ≡ whole item.now.text
        → FailsToInsertMessage S.Store conn.old conn.new result list.now key.now item.now }
    ensures made { text.now ≡ whole item.now.text
        → ExecutesMessageInsert S.Store conn.old conn.new result list.now key.now item.now }
    ensures crash { text.now ≡ whole item.now.text
        → CrashLeavesWholeMessage S.Store conn.old conn.new list.now key.now item.now }
    ensures ends { EndsConnectionCall S.Store conn.old conn.new result }
{
    let sender = sender_of(alloc, item)?;
    let filing = file(alloc, text, item.envelope.arrival)?;
    let message = NewMessage {
        key: key.as_str(),
        sender: &sender,
        arrival: arrival_of(item),
        text,
    };
    let columns = IndexColumns {
        sent: filing.sent,
        month: filing.month,
        author: &filing.author,
    };
    texts::messages::add_message(conn, list, &message, &columns)?;
    Ok(())
}

fn sender_of(alloc: Global, item: &Item<'_>) -> Result<Vec<u8>, AllocError>
    ensures { IfOk result (λ sender. sender.items ≡ item.now.envelope.sender) }
{
    written_sender(alloc, item.envelope.sender)
}

fn arrival_of(item: &Item<'_>) -> i64
    ensures { result ≡ item.now.envelope.arrival }
{
    item.envelope.arrival.seconds()
}

fn text_of<'a>(item: &'a Item<'_>) -> &'a [u8]
    ensures { result.now ≡ item.now.text }
{
    item.text
}

/// The text of a message and LF, where the whole text is this; `None` where it is the text.
fn with_line_end(alloc: Global, item: &Item<'_>) -> Result<Option<Vec<u8>>, AllocError>
    ensures { IfOk result (λ ended. MatchOption ended (item.now.text ≡ whole item.now.text)
        (λ text. text.items ≡ whole item.now.text)) }
{
    if item.complete {
        return Ok(None);
    }
    let mut ended = Vec::with_capacity(alloc, item.text.len() + 1)?;
    ended.extend_from_slice(item.text)?;
    ended.push(b'\n')?;
    Ok(Some(ended))
}
