//! What lists and threads ask of a message, without its text.
ghost use Rattle.std.specs.Prelude.{◌≡◌, ℕ, List, IfOk};
ghost use Rattle.archive_model.specs.Messages.{archived_message};
ghost use Rattle.archive_results.specs.Index.{summary_of};

use crate::entries::{entry_in, line_in};
use crate::lines::Line;
use archive_model::Message;
use mail_core::{Header as Fields, Memory};
use std::alloc::Global;
use std::marker::Model;
use thread_core::Entry;

/// A message without its text: its line, and what it says about threads.
#[derive(Drop)]
pub struct MessageSummary {
    /// What a list shows of it.
    pub line: Line,
    /// What a threader asks of it.
    pub entry: Entry,
}

impl Model for MessageSummary {
    ghost use Rattle.archive_results.specs.Index.{MessageSummary as Shown};

    ghost Value = { Shown };

    ghost view = { λ h. record { line = h.line; entry = h.entry } };
}

/// The header of a message, by one pass over its lines. `Memory` where no memory is left. No byte of the message behind its
/// header is read.
pub fn summary_of(alloc: Global, message: &Message) -> Result<MessageSummary, Memory>
    ensures { (list : List ℕ)
        → IfOk result (λ header. header ≡ summary_of (archived_message list message.now)) }
{
    let item = message.item.as_item();
    let fields = Fields::of(item.text);
    let sent = fields.sent(item.envelope.arrival);
    let subject = fields.unfolded_subject(alloc)?;
    let line = line_in(alloc, message.key, &fields, sent, &subject)?;
    let entry = entry_in(alloc, &fields, sent, &subject)?;
    Ok(MessageSummary { line, entry })
}
