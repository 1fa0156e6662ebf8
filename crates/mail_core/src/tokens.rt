//! The tokens of a Date body (RFC 5322 section 3.3).
ghost use Rattle.std.specs.Prelude.{◌≡◌, ◌∷◌, ◌≤◌, [], length, MatchOption, Some, None};
ghost use Rattle.std.specs.List.{prefix_len};
ghost use Rattle.std.specs.Char.{is_ascii_alphabetic};
ghost use Rattle.civil_time.specs.Digits.{is_digit};
ghost use Rattle.mail_core.specs.DateTokens.{is_white, tokens_of, leading_digits_token, leading_letters_token, leading_byte_token, after_byte_token};
ghost use Rattle.mail_core.specs.TokenViews.{spec_token_of};

use crate::comments::comment_end;

/// A token: the longest run of digits or of letters, or another byte.
#[derive(Drop)]
pub(crate) enum Token<'a> {
    Digits(&'a [u8]),
    Letters(&'a [u8]),
    Sign(u8),
}

/// Whether a byte is white space between tokens.
fn is_white_byte(byte: u8) -> bool
    ensures { result ≡ is_white byte }
{
    byte == b' ' || byte == b'\t' || byte == b'\r' || byte == b'\n'
}

/// How many digits begin a text.
fn digits_len(text: &[u8]) -> usize
    ensures value { result ≡ prefix_len is_digit text.now }
    ensures within { result ≤ length text.now }
{
    for (len, byte) in text.iter().enumerate() {
        if !byte.is_ascii_digit() {
            return len;
        }
    }
    text.len()
}

/// How many letters begin a text.
fn letters_len(text: &[u8]) -> usize
    ensures value { result ≡ prefix_len is_ascii_alphabetic text.now }
    ensures within { result ≤ length text.now }
{
    for (len, byte) in text.iter().enumerate() {
        if !byte.is_ascii_alphabetic() {
            return len;
        }
    }
    text.len()
}

/// The first token of a text, and what follows it. White space and comments before it are passed over.
fn next_token<'a>(text: &'a [u8]) -> Option<(Token<'a>, &'a [u8])>
    ensures { MatchOption result (tokens_of text.entry.now ≡ []) (λ found. tokens_of text.entry.now ≡ spec_token_of found.0 ∷ tokens_of found.1.now) }
{
    let mut rest = text;
    while let Some((first, behind)) = rest.split_first() {
        if is_white_byte(*first) {
            rest = behind;
            continue;
        }
        if first.is_ascii_digit() {
            let (digits, after) = rest.split_at(digits_len(rest));
            return Some((Token::Digits(digits), after));
        }
        if first.is_ascii_alphabetic() {
            let (letters, after) = rest.split_at(letters_len(rest));
            return Some((Token::Letters(letters), after));
        }
        if *first != b'(' {
            return Some((Token::Sign(*first), behind));
        }
        let Some(end) = comment_end(behind, 0) else {
            return Some((Token::Sign(*first), behind));
        };
        let (_, after) = behind.split_at(end);
        rest = after;
    }
    None
}

/// The digits that come first, and what follows them.
pub(crate) fn next_digits<'a>(text: &'a [u8]) -> Option<(&'a [u8], &'a [u8])>
    ensures { MatchOption result (leading_digits_token (tokens_of text.entry.now) ≡ None) (λ found. leading_digits_token (tokens_of text.entry.now) ≡ Some (found.0.now, tokens_of found.1.now)) }
{
    match next_token(text)? {
        (Token::Digits(digits), rest) => Some((digits, rest)),
        _ => None,
    }
}

/// The letters that come first, and what follows them.
pub(crate) fn next_letters<'a>(text: &'a [u8]) -> Option<(&'a [u8], &'a [u8])>
    ensures { MatchOption result (leading_letters_token (tokens_of text.entry.now) ≡ None) (λ found. leading_letters_token (tokens_of text.entry.now) ≡ Some (found.0.now, tokens_of found.1.now)) }
{
    match next_token(text)? {
        (Token::Letters(letters), rest) => Some((letters, rest)),
        _ => None,
    }
}

/// The single byte that comes first, and what follows it.
pub(crate) fn next_sign<'a>(text: &'a [u8]) -> Option<(u8, &'a [u8])>
    ensures { MatchOption result (leading_byte_token (tokens_of text.entry.now) ≡ None) (λ found. leading_byte_token (tokens_of text.entry.now) ≡ Some (found.0, tokens_of found.1.now)) }
{
    match next_token(text)? {
        (Token::Sign(byte), rest) => Some((byte, rest)),
        _ => None,
    }
}

/// What follows this byte, where it comes first.
pub(crate) fn behind_sign<'a>(text: &'a [u8], sign: u8) -> Option<&'a [u8]>
    ensures { MatchOption result (after_byte_token sign (tokens_of text.entry.now) ≡ None) (λ rest. after_byte_token sign (tokens_of text.entry.now) ≡ Some (tokens_of rest.now)) }
{
    let (byte, rest) = next_sign(text)?;
    if byte == sign { Some(rest) } else { None }
}
