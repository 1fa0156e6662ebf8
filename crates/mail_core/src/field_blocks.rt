//! The blocks of header lines that fields are read from (RFC 5322 sections 2.1 and 2.2.3).
ghost use Rattle.std.specs.Prelude.{◌≡◌, ◌∷◌, ◌<◌, ◌≤◌, [], length, take, drop, MatchOption, IsTrue};
ghost use Rattle.mail_core.specs.Lines.{lines, is_empty_line};
ghost use Rattle.mail_core.specs.Fields.{is_wsp, continued_blocks, header_lines, header_blocks, is_continuation_line};

use crate::lines::{line_content, line_end};

/// Whether a byte is a space or a tab.
pub(crate) fn is_blank_byte(byte: u8) -> bool
    ensures { result ≡ is_wsp byte }
{
    byte == b' ' || byte == b'\t'
}

/// Whether a line has no content.
#[tactic(auto, unfolding(crate::specs::Lines::is_empty_line))]
fn has_no_content(line: &[u8]) -> bool
    ensures { result ≡ is_empty_line line.now }
{
    line_content(line).is_empty()
}

/// Whether the first line of a text continues the line before it.
fn begins_blank(text: &[u8]) -> bool
    ensures { result ≡ is_continuation_line text.now }
{
    match text.first() {
        Some(byte) => is_blank_byte(*byte),
        None => false,
    }
}

/// Where the block ends whose first line ends at `first`.
fn block_end(text: &[u8], first: usize) -> usize
    requires some { 0 < first }
    requires within { first ≤ length text.now }
    ensures some { first ≤ result }
    ensures within { result ≤ length text.now }
    ensures cuts { continued_blocks (take first text.now ∷ header_lines (lines (drop first text.now))) ≡ take result text.now ∷ header_blocks (drop result text.now) }
{
    let mut end = first;
    while begins_blank(&text[end..]) {
        end += line_end(&text[end..]);
    }
    end
}

/// The first block of header lines, and what follows it. `None` where no header line is left.
pub(crate) fn first_block<'a>(text: &'a [u8]) -> Option<(&'a [u8], &'a [u8])>
    ensures { MatchOption result (header_blocks text.entry.now ≡ []) (λ cut. (length cut.1.now < length text.entry.now)
        × (header_blocks text.entry.now ≡ cut.0.now ∷ header_blocks cut.1.now)) }
{
    if text.is_empty() {
        return None;
    }
    let first = line_end(text);
    if has_no_content(&text[..first]) {
        return None;
    }
    Some(text.split_at(block_end(text, first)))
}
