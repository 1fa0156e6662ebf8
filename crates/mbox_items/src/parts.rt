//! Where a message's text ends.
ghost use Rattle.std.specs.Prelude.{◌≡◌, ◌∷◌, ◌<◌, ◌≤◌, [], length, Some, None};
ghost use Rattle.mbox_items.specs.Division.{items_after_separator, text_before_separator, items_from_separator, item_text_of_lines};
ghost use Rattle.mail_core.specs.Lines.{lines};

use crate::lines::last_line_start;
use crate::separators::{Envelope, separator};
use mail_core::lines::{line_content, line_end};
use memchr::memmem;

/// A message's text, and what follows it.
#[derive(Drop)]
pub struct TextAndRest<'a> {
    /// The text, without the empty line that ends it.
    pub text: &'a [u8],
    /// What the next message's separator line says; `None` where there is no next message.
    pub next: Option<Envelope<'a>>,
    /// What follows that line.
    pub rest: &'a [u8],
}

/// The text of the last message, whose separator line stands before these bytes.
fn last_part<'a>(bytes: &'a [u8]) -> TextAndRest<'a>
    ensures text { result.text.now ≡ item_text_of_lines (lines bytes.entry.now) }
    ensures next { result.next ≡ None }
{
    if bytes.is_empty() {
        return TextAndRest {
            text: bytes,
            next: None,
            rest: bytes,
        };
    }
    let (text, line) = bytes.split_at(last_line_start(bytes));
    if line_content(line).is_empty() {
        TextAndRest {
            text,
            next: None,
            rest: bytes,
        }
    } else {
        TextAndRest {
            text: bytes,
            next: None,
            rest: bytes,
        }
    }
}

/// The text of a message whose separator line stands before these bytes: only the lines that begin as a separator
/// line are read.
pub fn next_part<'a>(bytes: &'a [u8]) -> TextAndRest<'a>
    ensures text { result.text.now ≡ text_before_separator bytes.entry.now }
    ensures items { items_after_separator result.next result.rest.now ≡ items_from_separator bytes.entry.now }
{
    let mut at = 0;
    while at < bytes.len() {
        let (_, here) = bytes.split_at(at);
        let lf = match memmem::find(here, b"\nFrom ") {
            Some(lf) => lf,
            None => return last_part(bytes),
        };
        let (front, rest) = bytes.split_at(at + (lf + 1));
        let last = last_line_start(front);
        let (text, line) = front.split_at(last);
        let before = line_content(line);
        if before.is_empty() {
            let len = line_end(rest);
            let (candidate, after) = rest.split_at(len);
            let content = line_content(candidate);
            if let Some(envelope) = separator(content) {
                return TextAndRest {
                    text,
                    next: Some(envelope),
                    rest: after,
                };
            }
        }
        at += lf + 1;
    }
    last_part(bytes)
}
