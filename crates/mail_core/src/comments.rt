//! Where comments end (RFC 5322 section 3.2.2).
ghost use Rattle.std.specs.Prelude.{◌≡◌, ◌+◌, ◌<◌, ◌≤◌, length, IfOk, MatchOption, Some, None, false, drop};
ghost use Rattle.mail_core.specs.Comments.{after_closing_paren};
ghost use Rattle.mail_core.specs.Closings.{comment_closed_flags};

use civil_time::Memory;
use std::alloc::Global;
use std::marker::Model;

/// For each byte of a text, the last one first, whether a comment that it opens is closed behind it.
fn closings(alloc: Global, text: &[u8]) -> Result<Vec<bool>, Memory>
    ensures { IfOk result (λ closed. closed.items ≡ comment_closed_flags text.now) }
{
    let mut closed = Vec::with_capacity(alloc, text.len())?;
    let mut after: usize = 0;
    let mut next: usize = 0;
    let mut k = text.len();
    while k > 0 {
        k -= 1;
        closed.push(next > 0)?;
        let here = match text[k] {
            b')' => next + 1,
            b'(' => next.saturating_sub(1),
            b'\\' => after,
            _ => next,
        };
        after = next;
        next = here;
    }
    Ok(closed)
}

/// The comments of a text. Which of them are closed is found where the first is asked for, from there on, and takes a
/// byte for each byte. Clauses see it as the text.
#[derive(Drop)]
pub(crate) struct Comments<'a> {
    text: &'a [u8],
    from: usize,
    closed: Vec<bool>,
}

impl<'a> Model for Comments<'a> {
    ghost use Rattle.std.specs.Prelude.{◌≡◌, ◌≤◌, List, ℕ, length, drop};
    ghost use Rattle.mail_core.specs.Closings.{comment_closed_flags};

    ghost Value = { List ℕ };

    ghost view = { λ s. s.text.now };

    ghost invariant = { λ s. (s.from ≤ length s.text.now) × (s.closed.items ≡ comment_closed_flags (drop s.from s.text.now)) };
}

impl<'a> Comments<'a> {
    pub(crate) fn of(alloc: Global, text: &'a [u8]) -> Comments<'a>
        ensures { result ≡ text.entry.now }
    {
        Comments {
            text,
            from: text.len(),
            closed: Vec::new(alloc),
        }
    }

    /// The place behind the comment that is opened at a place. `None` where it is not closed.
    pub(crate) fn end(&mut self, alloc: Global, at: usize) -> Result<Option<usize>, Memory>
        requires { at < length self.old }
        ensures same { self.new ≡ self.old }
        ensures end { IfOk result (λ end. MatchOption end
            (after_closing_paren false 1 (drop (at + 1) self.old) ≡ None)
            (λ e. (at + 1 < e) × (e ≤ length self.old)
            × (after_closing_paren false 1 (drop (at + 1) self.old) ≡ Some (drop e self.old)))) }
    {
        if at < self.from {
            self.closed = closings(alloc, &self.text[at..])?;
            self.from = at;
        }
        if self.closed[self.text.len() - 1 - at] {
            Ok(comment_end(self.text, at + 1))
        } else {
            Ok(None)
        }
    }
}

/// The place behind the comment inside which a place stands, found by one scan and no memory.
pub(crate) fn comment_end(text: &[u8], from: usize) -> Option<usize>
    requires { from ≤ length text.now }
    ensures { MatchOption result (after_closing_paren false 1 (drop from text.now) ≡ None)
        (λ end. (from < end) × (end ≤ length text.now)
        × (after_closing_paren false 1 (drop from text.now) ≡ Some (drop end text.now))) }
{
    let mut at = from;
    let mut depth: usize = 1;
    let mut quoted = false;
    while at < text.len() {
        let byte = text[at];
        at += 1;
        if quoted {
            quoted = false;
            continue;
        }
        if byte == b'\\' {
            quoted = true;
            continue;
        }
        if byte == b'(' {
            depth += 1;
            continue;
        }
        if byte == b')' {
            if depth == 1 {
                return Some(at);
            }
            depth -= 1;
        }
    }
    None
}
