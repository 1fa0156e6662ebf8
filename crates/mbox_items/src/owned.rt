//! Messages that own their bytes.
ghost use Rattle.std.specs.Prelude.{◌≡◌, IfOk};
ghost use Rattle.mbox_items.specs.Senders.{IsPlaceOfAt, IsSender, sender_text};

use crate::items::Item;
use crate::senders::Sender;
use crate::separators::Envelope;
use civil_time::Instant;
use std::alloc::{AllocError, Global};
use std::marker::Model;

/// A message as an `Item` is, with bytes of its own.
#[derive(Drop)]
pub struct OwnedItem {
    sender: Vec<u8>,
    /// Where the space before `at` stands in the written form. `None`: the sender is one token.
    at: Option<usize>,
    arrival: Instant,
    text: Vec<u8>,
    complete: bool,
}

impl Model for OwnedItem {
    ghost use Rattle.std.specs.Prelude.{◌≡◌, true};
    ghost use Rattle.civil_time.specs.Calendar.{is_instant};
    ghost use Rattle.mail_core.specs.Lines.{lines};
    ghost use Rattle.mbox_items.specs.Senders.{IsPlaceOfAt};
    ghost use Rattle.mbox_items.specs.Division.{Item as Message, NoneSeparates, is_empty_or_ends_in_lf, whole};

    ghost Value = { Message };

    ghost view = { λ s. record { envelope = record { sender = s.sender.items; arrival = s.arrival }; text = s.text.items } };

    ghost invariant = { λ s. IsPlaceOfAt s.at s.sender.items × (is_instant s.arrival ≡ true) × (s.complete ≡ is_empty_or_ends_in_lf s.text.items) × NoneSeparates (lines (whole s.text.items)) };
}

impl OwnedItem {
    ghost use Rattle.std.specs.Prelude.{◌≡◌, IfOk, IfSome, IfNone};
    ghost use Rattle.mbox_items.specs.Written.{IsItem};

    /// A copy of a message: the same envelope, text and `complete`.
    pub fn of(alloc: Global, item: &Item<'_>) -> Result<OwnedItem, AllocError>
        ensures { IfOk result (λ owned. owned ≡ item.now) }
    {
        Ok(OwnedItem {
            sender: written_sender(alloc, item.envelope.sender)?,
            at: place_of_at(item.envelope.sender),
            arrival: item.envelope.arrival,
            text: item.text.to_vec(alloc)?,
            complete: item.complete,
        })
    }

    /// The message of this sender, as it is written, arrival and text, which are not copied. `None` exactly where the
    /// sender is no written form of one, or a line of the whole text is a separator line that follows an empty line.
    pub fn new(sender: Vec<u8>, arrival: Instant, text: Vec<u8>) -> Option<OwnedItem>
        ensures some { IfSome result (λ owned. owned ≡ record { envelope = record { sender = sender.items; arrival = arrival }; text = text.items }) }
        ensures none { IfNone result (¬ IsItem (record { envelope = record { sender = sender.items; arrival = arrival }; text = text.items })) }
    {
        let read = Sender::read(&sender)?;
        let at = place_of_at(read);
        let envelope = Envelope {
            sender: read,
            arrival,
        };
        let complete = Item::new(envelope, &text)?.complete;
        Some(OwnedItem {
            sender,
            at,
            arrival,
            text,
            complete,
        })
    }

    /// Its text, without what the whole text adds.
    pub fn text(&self) -> &[u8]
        ensures { result.now ≡ self.now.text }
    {
        &self.text
    }

    /// Its arrival.
    pub fn arrival(&self) -> Instant
        ensures { result ≡ self.now.envelope.arrival }
    {
        self.arrival
    }

    /// The message, with its bytes lent.
    pub fn as_item(&self) -> Item<'_>
        ensures { result ≡ self.now }
    {
        let sender = match self.at {
            None => Sender::One(&self.sender),
            Some(at) => Sender::At(&self.sender[..at], &self.sender[at + b" at ".len()..]),
        };
        Item {
            envelope: Envelope {
                sender,
                arrival: self.arrival,
            },
            text: &self.text,
            complete: self.complete,
        }
    }
}

/// Where the space before `at` stands in the written form of a sender. `None`: it is one token.
fn place_of_at(sender: Sender<'_>) -> Option<usize>
    ensures { IsSender sender.entry → IsPlaceOfAt result (sender_text sender.entry) }
{
    match sender {
        Sender::One(_) => None,
        Sender::At(left, _) => Some(left.len()),
    }
}

/// The written form of a sender.
pub fn written_sender(alloc: Global, sender: Sender<'_>) -> Result<Vec<u8>, AllocError>
    ensures { IfOk result (λ text. text.items ≡ sender_text sender.entry) }
{
    match sender {
        Sender::One(token) => token.to_vec(alloc),
        Sender::At(left, right) => {
            let mut text = left.to_vec(alloc)?;
            text.extend_from_slice(b" at ")?;
            text.extend_from_slice(right)?;
            Ok(text)
        }
    }
}
