//! Cutting an mbox into its messages.
ghost use Rattle.std.specs.Prelude.{◌≡◌, ◌∷◌, ◌<◌, ◌≤◌, [], length, Some, None, List, IfOk, IfErr, OnErr};
ghost use Rattle.std.specs.Iterator.{YieldsFirst, item_count};
ghost use Rattle.mbox_items.specs.Division.{Item as Message, DividesIntoItems, IsPreamble, items_after_separator};
ghost use Rattle.mbox_core.specs.Faults.{IsCutFault};

use crate::faults::MboxFault;
use mail_core::lines::{line_content, line_end};
use mbox_items::{Envelope, Item, TextAndRest, ends_with_newline, next_part, separator};
use std::marker::Model;

/// The messages that are left, in the order of the file. Contracts see the list of them. It takes no memory.
#[derive(Drop)]
pub struct Messages<'a> {
    next: Option<Envelope<'a>>,
    rest: &'a [u8],
}

impl<'a> Model for Messages<'a> {
    ghost use Rattle.std.specs.Prelude.{List};
    ghost use Rattle.mbox_items.specs.Division.{Item as Message, items_after_separator};

    ghost Value = { List Message };

    ghost view = { λ s. items_after_separator s.next s.rest.now };
}

impl<'a> Messages<'a> {
    /// The messages of what follows a separator line of this envelope.
    pub fn after(envelope: Envelope<'a>, bytes: &'a [u8]) -> Messages<'a>
        ensures { result ≡ items_after_separator (Some envelope.entry) bytes.entry.now }
    {
        let next = Some(envelope);
        Messages { next, rest: bytes }
    }
}

impl<'a> Iterator for Messages<'a> {
    type Item = Item<'a>;

    ghost next_gives = { YieldsFirst (λ s. s) };

    ghost remaining = { item_count (λ s. s) };

    fn next(&mut self) -> Option<Item<'a>> {
        let envelope = self.next.take()?;
        let part = next_part(self.rest);
        let TextAndRest { text, next, rest } = part;
        self.next = next;
        self.rest = rest;
        let complete = ends_with_newline(text);
        Some(Item {
            envelope,
            text,
            complete,
        })
    }
}

/// The messages of an mbox (RFC 4155). Empty lines before the first separator line are passed over; any other line there
/// is refused, as M1 with the offset of its first byte, and nothing else is.
pub fn cut<'a>(bytes: &'a [u8]) -> Result<Messages<'a>, MboxFault>
    ensures ok { IfOk result (λ items. DividesIntoItems bytes.entry.now items) }
    ensures preamble { IfErr result (λ fault. IsCutFault bytes.entry.now fault) }
    ensures none { OnErr result ((items : List Message) → ¬ DividesIntoItems bytes.entry.now items) }
{
    let mut at = 0;
    while at < bytes.len() {
        let here = &bytes[at..];
        let len = line_end(here);
        let (line, rest) = here.split_at(len);
        let content = line_content(line);
        if !content.is_empty() {
            return match separator(content) {
                Some(envelope) => Ok(Messages {
                    next: Some(envelope),
                    rest,
                }),
                None => Err(MboxFault::Preamble(at as u64)),
            };
        }
        at += len;
    }
    Ok(Messages {
        next: None,
        rest: &bytes[at..],
    })
}
