//! Lines and their contents (RFC 5322 section 2.1).
ghost use Rattle.std.specs.Prelude.{◌≡◌, ◌∷◌, ◌<◌, ◌≤◌, length, take, drop};
ghost use Rattle.mail_core.specs.Lines.{lines, content, without_final_byte};

use memchr::memchr;

/// Where the first line of a text ends, behind its LF or at the end of the text.
pub fn line_end(text: &[u8]) -> usize
    requires { 0 < length text.now }
    ensures some { 0 < result }
    ensures within { result ≤ length text.now }
    ensures cuts { lines text.now ≡ take result text.now ∷ lines (drop result text.now) }
{
    match memchr(b'\n', text) {
        Some(at) => at + 1,
        None => text.len(),
    }
}

/// The text without this byte at its end.
fn without<'a>(line: &'a [u8], byte: u8) -> &'a [u8]
    ensures { result.now ≡ without_final_byte byte line.entry.now }
{
    if !line.is_empty() && line[line.len() - 1] == byte {
        &line[..line.len() - 1]
    } else {
        line
    }
}

/// A line without its LF, and without a CR before that or before the end.
#[tactic(auto, unfolding(crate::specs::Lines::content))]
pub fn line_content<'a>(line: &'a [u8]) -> &'a [u8]
    ensures { result.now ≡ content line.entry.now }
{
    without(without(line, b'\n'), b'\r')
}
