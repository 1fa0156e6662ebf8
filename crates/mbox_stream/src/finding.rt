//! Finding where messages begin, in bytes that may go on.
ghost use Rattle.std.specs.Prelude.{◌≡◌, ◌<◌, ◌≤◌, ◌∷◌, ◌++◌, [], length, take, drop, IfSome, IfNone};
ghost use Rattle.mail_core.specs.Lines.{lines};
ghost use Rattle.mbox_stream.specs.Stream.{IsSettledPreamble};
ghost use Rattle.mbox_stream.specs.Window.{IsSearchedUpTo, SeparatesAfterBlankLine, IsNonSeparatingLine, CutsAtFirstSeparator, OpensFirstMessage, SkipsBlankLinesTo};
ghost use Rattle.mbox_stream.specs.Found.{IfFoundNext, IfFoundMore, IfFirstIsHead, IfFirstIsBlank, IfFirstIsFaulty, HoldsNoWholeSeparator};

use mail_core::lines::line_content;
use mbox_core::{Envelope, last_line_start, separator};
use memchr::{memchr, memmem};

/// How many bytes of the mark do not decide whether it stands there.
const MARK_REST: usize = 5;

/// A separator line that follows an empty line: the text before the two, and what it says.
#[derive(Drop)]
struct Heading<'a> {
    text: &'a [u8],
    envelope: Envelope<'a>,
}

/// What a search for the next message found.
#[derive(Drop)]
pub(crate) enum Found<'a> {
    /// The text of the open message, the envelope of the next one, and where its separator line ends.
    Next(&'a [u8], Envelope<'a>, usize),
    /// No separating line is settled; the next search begins here.
    More(usize),
}

/// What stands in front of a file.
#[derive(Drop)]
pub(crate) enum First<'a> {
    /// The first separator line, and where it ends.
    Head(Envelope<'a>, usize),
    /// Blank lines alone, up to this place; no whole line follows.
    Blank(usize),
    /// A line that begins here, and is no separator line.
    Faulty(usize),
}

/// Whether this line, after those, is a separator line that follows an empty line.
fn heading_of<'a>(front: &'a [u8], line: &'a [u8]) -> Option<Heading<'a>>
    requires { 0 < length front.now }
    ensures some { IfSome result (λ h. SeparatesAfterBlankLine front.entry.now line.entry.now h.text.now h.envelope) }
    ensures none { IfNone result (IsNonSeparatingLine front.entry.now line.entry.now) }
{
    let (text, last) = front.split_at(last_line_start(front));
    if !line_content(last).is_empty() {
        return None;
    }
    let envelope = separator(line_content(line))?;
    Some(Heading { text, envelope })
}

/// Looks for the first separating line that is whole, from a place before which there is none.
pub(crate) fn find_next<'a>(bytes: &'a [u8], from: usize) -> Found<'a>
    requires { IsSearchedUpTo bytes.now from }
    ensures next { IfFoundNext result (λ text next len. CutsAtFirstSeparator bytes.entry.now len text next) }
    ensures more { IfFoundMore result (λ from. HoldsNoWholeSeparator bytes.entry.now from) }
{
    let mut at = from;
    while at < bytes.len() {
        let (_, here) = bytes.split_at(at);
        let lf = match memmem::find(here, b"\nFrom ") {
            Some(lf) => at + lf,
            None => return Found::More(at.max(bytes.len().saturating_sub(MARK_REST))),
        };
        let (front, rest) = bytes.split_at(lf + 1);
        let end = match memchr(b'\n', rest) {
            Some(end) => end,
            None => return Found::More(lf),
        };
        let (line, _) = rest.split_at(end + 1);
        let len = lf + 1 + (end + 1);
        if let Some(heading) = heading_of(front, line) {
            return Found::Next(heading.text, heading.envelope, len);
        }
        at = len;
    }
    Found::More(at)
}

/// Passes over blank lines, and looks at the first other line that is whole.
pub(crate) fn find_first<'a>(bytes: &'a [u8]) -> First<'a>
    ensures head { IfFirstIsHead result (λ envelope at. OpensFirstMessage bytes.entry.now at envelope) }
    ensures blank { IfFirstIsBlank result (λ at. SkipsBlankLinesTo bytes.entry.now at) }
    ensures faulty { IfFirstIsFaulty result (λ at. IsSettledPreamble bytes.entry.now at) }
{
    let mut at = 0;
    while at < bytes.len() {
        let (_, here) = bytes.split_at(at);
        let end = match memchr(b'\n', here) {
            Some(end) => end,
            None => return First::Blank(at),
        };
        let (line, _) = here.split_at(end + 1);
        let content = line_content(line);
        if !content.is_empty() {
            return match separator(content) {
                Some(envelope) => First::Head(envelope, at + (end + 1)),
                None => First::Faulty(at),
            };
        }
        at += end + 1;
    }
    First::Blank(at)
}
