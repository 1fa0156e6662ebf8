//! Senders that a separator line can name (RFC 4155, appendix A).
ghost use Rattle.std.specs.Prelude.{◌≡◌, ◌∷◌, [], ℕ, List, true, IfSome, IfNone, codes};
ghost use Rattle.mbox_items.specs.Separator.{IsSenderText, is_sender_token as sender_test, joined_by_spaces};
ghost use Rattle.mbox_items.specs.Senders.{IsSender, sender_text};

use crate::tokens::is_sender_token;
use memchr::memchr;

/// Who sent a message, as its separator line says: a token, or two with the word `at` between them. A token is a run of
/// bytes without space and LF, and not empty. It is written as it stands, and `At` with one space at each side of `at`.
#[derive(Debug, Clone, Copy, PartialEq, Eq)]
pub enum Sender<'a> {
    One(&'a [u8]),
    At(&'a [u8], &'a [u8]),
}

impl<'a> Sender<'a> {
    /// The sender with this written form. `None` where it is the written form of none.
    pub fn read(text: &'a [u8]) -> Option<Sender<'a>>
        ensures some { IfSome result (λ sender. IsSender sender × (sender_text sender ≡ text.entry.now)) }
        ensures none { IfNone result (¬ IsSenderText text.entry.now) }
    {
        if is_sender_token(text) {
            return Some(Sender::One(text));
        }
        let (left, right) = tokens_around_at(text)?;
        Some(Sender::At(left, right))
    }
}

/// The two tokens of a text that has ` at ` between them.
fn tokens_around_at<'a>(text: &'a [u8]) -> Option<(&'a [u8], &'a [u8])>
    ensures some { IfSome result (λ p. (sender_test p.0.now ≡ true) × (sender_test p.1.now ≡ true)
        × (text.entry.now ≡ joined_by_spaces (p.0.now ∷ codes "at" ∷ p.1.now ∷ []))) }
    ensures none { IfNone result ((left right : List ℕ) → sender_test left ≡ true → sender_test right ≡ true
        → ¬ (text.entry.now ≡ joined_by_spaces (left ∷ codes "at" ∷ right ∷ []))) }
{
    let (left, rest) = text.split_at(memchr(b' ', text)?);
    let right = rest.strip_prefix(b" at ")?;
    if is_sender_token(left) && is_sender_token(right) {
        Some((left, right))
    } else {
        None
    }
}
