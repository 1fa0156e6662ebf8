//! What begins and ends a subject: the pieces of the ABNF in RFC 5256, section 5.
ghost use Rattle.std.specs.Prelude.{◌≡◌, MatchOption, Some, None};
ghost use Rattle.subject_core.specs.Removal.{after_literal, before_literal, after_spaces, after_closing_bracket, after_blob, after_blob_and_colon, after_reply_word, after_refwd};

/// What follows a literal in lower case, in any case, that begins the text.
pub(crate) fn after<'a>(text: &'a [u8], literal: &[u8]) -> Option<&'a [u8]>
    ensures { MatchOption result (after_literal literal.now text.now ≡ None) (λ rest. after_literal literal.now text.now ≡ Some rest.now) }
{
    let mut rest = text;
    for letter in literal {
        let Some((first, others)) = rest.split_first() else {
            return None;
        };
        if first.to_ascii_lowercase() != *letter {
            return None;
        }
        rest = others;
    }
    Some(rest)
}

/// What stands before a literal in lower case, in any case, that ends the text.
pub(crate) fn before<'a>(text: &'a [u8], literal: &[u8]) -> Option<&'a [u8]>
    ensures { MatchOption result (before_literal literal.now text.now ≡ None) (λ rest. before_literal literal.now text.now ≡ Some rest.now) }
{
    if text.len() < literal.len() {
        return None;
    }
    let (rest, end) = text.split_at(text.len() - literal.len());
    let Some(_) = after(end, literal) else {
        return None;
    };
    Some(rest)
}

/// The text without the spaces that begin it.
fn after_spaces(text: &[u8]) -> &[u8]
    ensures { result.now ≡ after_spaces text.now }
{
    let mut rest = text;
    while let Some((first, others)) = rest.split_first() {
        if *first != b' ' {
            break;
        }
        rest = others;
    }
    rest
}

/// What follows the first bracket, where that is a closing one.
fn after_closing(text: &[u8]) -> Option<&[u8]>
    ensures { MatchOption result (after_closing_bracket text.now ≡ None) (λ rest. after_closing_bracket text.now ≡ Some rest.now) }
{
    let mut rest = text;
    while let Some((first, others)) = rest.split_first() {
        if *first == b']' {
            return Some(others);
        }
        if *first == b'[' {
            return None;
        }
        rest = others;
    }
    None
}

/// What follows a bracketed blob that begins the text, and the spaces behind it.
pub(crate) fn after_blob(text: &[u8]) -> Option<&[u8]>
    ensures { MatchOption result (after_blob text.now ≡ None) (λ rest. after_blob text.now ≡ Some rest.now) }
{
    let inside = after(text, b"[")?;
    let rest = after_closing(inside)?;
    Some(after_spaces(rest))
}

/// What follows spaces, a blob that may be missing, and a colon.
fn after_colon(text: &[u8]) -> Option<&[u8]>
    ensures { MatchOption result (after_blob_and_colon text.now ≡ None) (λ rest. after_blob_and_colon text.now ≡ Some rest.now) }
{
    let begun = after_spaces(text);
    if let Some(rest) = after(begun, b":") {
        return Some(rest);
    }
    let blobless = after_blob(begun)?;
    after(blobless, b":")
}

/// What follows a word and a colon.
fn after_word<'a>(text: &'a [u8], word: &[u8]) -> Option<&'a [u8]>
    ensures { MatchOption result (after_reply_word word.now text.now ≡ None) (λ rest. after_reply_word word.now text.now ≡ Some rest.now) }
{
    let rest = after(text, word)?;
    after_colon(rest)
}

/// What follows `Re:`, `Fw:` or `Fwd:`, with a blob before the colon or none.
#[tactic(auto, unfolding(crate::specs::Removal::after_refwd))]
pub(crate) fn after_refwd(text: &[u8]) -> Option<&[u8]>
    ensures { MatchOption result (after_refwd text.now ≡ None) (λ rest. after_refwd text.now ≡ Some rest.now) }
{
    if let Some(rest) = after_word(text, b"re") {
        return Some(rest);
    }
    if let Some(rest) = after_word(text, b"fwd") {
        return Some(rest);
    }
    after_word(text, b"fw")
}
