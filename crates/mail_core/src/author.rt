//! Who wrote a message (RFC 5322 section 3.6.2).
ghost use Rattle.std.specs.Prelude.{◌≡◌, MatchOption, Some, None, IfOk};
ghost use Rattle.std.specs.Option.{option_copied};
ghost use Rattle.mail_core.specs.Author.{text_in_angle_brackets, address_in, trim_end, trimmed, author_of_body, author_of};

use crate::field_blocks::is_blank_byte;
use crate::field_reading::behind_blanks;
use crate::header::first;
use crate::unfolding::unfold;
use civil_time::Memory;
use memchr::{memchr, memrchr};
use std::alloc::Global;

/// The text between the last `<` and the first `>` behind it.
fn between_angles<'a>(text: &'a [u8]) -> Option<&'a [u8]>
    ensures { MatchOption result (text_in_angle_brackets text.entry.now ≡ None)
        (λ address. text_in_angle_brackets text.entry.now ≡ Some address.now) }
{
    let open = memrchr(b'<', text)?;
    let (_, behind) = text.split_at(open + 1);
    let close = memchr(b'>', behind)?;
    let (address, _) = behind.split_at(close);
    Some(address)
}

/// That text, or the whole where there is none.
fn address<'a>(text: &'a [u8]) -> &'a [u8]
    ensures { result.now ≡ address_in text.entry.now }
{
    match between_angles(text) {
        Some(address) => address,
        None => text,
    }
}

/// The text without the spaces and tabs that end it.
fn before_blanks<'a>(text: &'a [u8]) -> &'a [u8]
    ensures { result.now ≡ trim_end text.entry.now }
{
    let mut len = text.len();
    while len > 0 {
        if !is_blank_byte(text[len - 1]) {
            break;
        }
        len -= 1;
    }
    let (front, _) = text.split_at(len);
    front
}

/// The text without the spaces and tabs at its ends.
pub fn trimmed<'a>(text: &'a [u8]) -> &'a [u8]
    ensures { result.now ≡ trimmed text.entry.now }
{
    before_blanks(behind_blanks(text))
}

/// The author that the body of a From field names, in a form that can be compared.
pub(crate) fn key_of_field(alloc: Global, from: Option<&[u8]>) -> Result<Vec<u8>, Memory>
    ensures { IfOk result (λ key. key.items ≡ author_of_body (option_copied from.entry)) }
{
    let Some(folded) = from else {
        return Ok(Vec::new(alloc));
    };
    let body = unfold(alloc, folded)?;
    let key = trimmed(address(body.as_slice()));
    Ok(
        key.iter()
            .map(|byte| byte.to_ascii_lowercase())
            .collect(alloc)?,
    )
}

/// The author of a message in a form that can be compared: the address of its first From field, in ASCII lower case,
/// or the whole body where no address stands in angle brackets. Empty where there is no From field. `Memory` where
/// no memory is left.
pub fn author_key(alloc: Global, text: &[u8]) -> Result<Vec<u8>, Memory>
    ensures { IfOk result (λ key. key.items ≡ author_of text.now) }
{
    key_of_field(alloc, first(text, b"from"))
}
