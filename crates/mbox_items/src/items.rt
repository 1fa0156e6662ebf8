//! A message of an mbox: an envelope and a text.
ghost use Rattle.std.specs.Prelude.{◌≡◌, IfSome, IfNone};
ghost use Rattle.mail_core.specs.Lines.{lines};
ghost use Rattle.mbox_items.specs.Division.{NoneSeparates, is_empty_or_ends_in_lf, whole};

use crate::parts::next_part;
use crate::separators::Envelope;
use std::marker::Model;

/// A message of an mbox: what its separator line says, and its text, without the empty line that ends it. The whole text
/// is the text, followed by LF where it is not empty and does not end in LF; `complete` says that it adds none. No line
/// of the whole text is a separator line that follows an empty line.
#[derive(Drop)]
pub struct Item<'a> {
    /// What its separator line says.
    pub envelope: Envelope<'a>,
    /// Without the empty line that ends it.
    pub text: &'a [u8],
    /// Whether the text is the whole text.
    pub complete: bool,
}

impl<'a> Model for Item<'a> {
    ghost use Rattle.std.specs.Prelude.{◌≡◌};
    ghost use Rattle.mail_core.specs.Lines.{lines};
    ghost use Rattle.mbox_items.specs.Division.{Item as Message, NoneSeparates, is_empty_or_ends_in_lf, whole};

    ghost Value = { Message };

    ghost view = { λ s. record { envelope = s.envelope; text = s.text.now } };

    ghost invariant = { λ s. (s.complete ≡ is_empty_or_ends_in_lf s.text.now) × NoneSeparates (lines (whole s.text.now)) };
}

impl<'a> Item<'a> {
    /// The item of this envelope and text. `None` exactly where a line of the whole text is a separator line that
    /// follows an empty line.
    pub fn new(envelope: Envelope<'a>, text: &'a [u8]) -> Option<Item<'a>>
        ensures some { IfSome result (λ item. (item.envelope ≡ envelope.entry) × (item.text ≡ text.entry.now)) }
        ensures holds { IfSome result (λ item. NoneSeparates (lines (whole item.text))) }
        ensures none { IfNone result (¬ NoneSeparates (lines (whole text.entry.now))) }
    {
        let part = next_part(text);
        if part.next.is_some() {
            return None;
        }
        let complete = ends_with_newline(text);
        Some(Item {
            envelope,
            text,
            complete,
        })
    }
}

/// Whether the whole text adds no LF.
pub fn ends_with_newline(text: &[u8]) -> bool
    ensures { result ≡ is_empty_or_ends_in_lf text.now }
{
    text.is_empty() || text[text.len() - 1] == b'\n'
}
