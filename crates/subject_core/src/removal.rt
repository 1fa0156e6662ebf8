//! What is left of a subject once all that can be removed is: RFC 5256, section 2.1, steps (2) to (6).
ghost use Rattle.std.specs.Prelude.{◌≡◌, ◌+◌, ◌≤◌, length, MatchOption, Some, None, take, drop, true, false};
ghost use Rattle.subject_core.specs.Removal.{stripped_subject, without_trailer, without_fwd_brackets};
ghost use Rattle.subject_core.specs.BaseSubject.{with_earlier_reply, after_all_removals};
ghost use Rattle.subject_core.specs.Front.{without_front_piece, StripsFrontPieces, StripsTrailers};

use crate::pieces::{after, after_blob, after_refwd, before};

/// What is left of a text, and whether a mark of a reply was removed from it.
#[derive(Clone, Copy)]
struct Rest<'a> {
    text: &'a [u8],
    reply: bool,
}

impl<'a> Rest<'a> {
    /// What is left of a text that lost no mark of a reply.
    fn plain(text: &'a [u8]) -> Rest<'a>
        ensures text { result.text.now ≡ text.now }
        ensures reply { result.reply ≡ false }
    {
        Rest { text, reply: false }
    }

    /// What is left of a text that lost a mark of a reply.
    fn marked(text: &'a [u8]) -> Rest<'a>
        ensures text { result.text.now ≡ text.now }
        ensures reply { result.reply ≡ true }
    {
        Rest { text, reply: true }
    }
}

/// The text without the space or the `(fwd)` that ends it.
#[tactic(auto, unfolding(crate::specs::Removal::without_trailer))]
fn without_trailer(text: &[u8]) -> Option<Rest<'_>>
    ensures { MatchOption result (without_trailer text.now ≡ None) (λ rest. without_trailer text.now ≡ Some (stripped_subject rest.reply rest.text.now)) }
{
    if let Some(rest) = before(text, b" ") {
        return Some(Rest::plain(rest));
    }
    let unforwarded = before(text, b"(fwd)")?;
    Some(Rest::marked(unforwarded))
}

/// The text without the space, the mark of a reply or the blob that begins it. A blob stays where nothing follows it.
#[tactic(auto, unfolding(crate::specs::Front::without_front_piece))]
fn without_front(text: &[u8]) -> Option<Rest<'_>>
    ensures { MatchOption result (without_front_piece text.now ≡ None) (λ rest. without_front_piece text.now ≡ Some (stripped_subject rest.reply rest.text.now)) }
{
    if let Some(rest) = after(text, b" ") {
        return Some(Rest::plain(rest));
    }
    if let Some(answered) = after_refwd(text) {
        return Some(Rest::marked(answered));
    }
    let rest = after_blob(text)?;
    if rest.is_empty() {
        return None;
    }
    Some(Rest::plain(rest))
}

/// The text without what can be removed at its end.
fn without_trailers(text: &[u8]) -> Rest<'_>
    ensures { StripsTrailers text.now result.text.now result.reply }
{
    let mut rest = text;
    let mut reply = false;
    while let Some(shorter) = without_trailer(rest) {
        rest = shorter.text;
        reply |= shorter.reply;
    }
    Rest { text: rest, reply }
}

/// The text without what can be removed at its front. Nothing can be removed at its end.
fn without_fronts(text: &[u8]) -> Rest<'_>
    requires { without_trailer text.now ≡ None }
    ensures { StripsFrontPieces text.now result.text.now result.reply }
{
    let mut rest = text;
    let mut reply = false;
    while let Some(shorter) = without_front(rest) {
        rest = shorter.text;
        reply |= shorter.reply;
    }
    Rest { text: rest, reply }
}

/// The part of a text that stays: its first place and its length, and whether a mark of a reply was removed.
#[derive(Clone, Copy)]
pub(crate) struct Part {
    pub(crate) from: usize,
    pub(crate) len: usize,
    pub(crate) reply: bool,
}

/// The part of a text that stays when all that can be removed is.
pub(crate) fn kept(text: &[u8]) -> Part
    ensures within { result.from + result.len ≤ length text.now }
    ensures same { after_all_removals text.now ≡ stripped_subject result.reply (take result.len (drop result.from text.now)) }
{
    let mut rest = text;
    let mut from = 0;
    let mut reply = false;
    loop {
        let ended = without_trailers(rest);
        let begun = without_fronts(ended.text);
        from += ended.text.len() - begun.text.len();
        reply |= ended.reply | begun.reply;
        let Some(inner) = inside_pair(begun.text) else {
            return Part {
                from,
                len: begun.text.len(),
                reply,
            };
        };
        from += b"[fwd:".len();
        reply = true;
        rest = inner;
    }
}

/// What stands between `[fwd:` and `]`, where they begin and end the text.
#[tactic(auto, unfolding(crate::specs::Removal::without_fwd_brackets))]
fn inside_pair(text: &[u8]) -> Option<&[u8]>
    ensures { MatchOption result (without_fwd_brackets text.now ≡ None) (λ rest. without_fwd_brackets text.now ≡ Some (stripped_subject true rest.now)) }
{
    let rest = after(text, b"[fwd:")?;
    before(rest, b"]")
}
