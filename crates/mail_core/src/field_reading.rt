//! The fields of a header (RFC 5322 section 2.2).
ghost use Rattle.std.specs.Prelude.{◌≡◌, ◌∷◌, ◌≤◌, [], length, drop, MatchOption, Some, None};
ghost use Rattle.std.specs.List.{prefix_len};
ghost use Rattle.std.specs.Iterator.{YieldsFirst, item_count};
ghost use Rattle.mail_core.specs.Lines.{content};
ghost use Rattle.mail_core.specs.Fields.{is_field_name_byte, is_wsp, skip_wsp, field_in, fields_of, field_of};

use crate::field_blocks::{first_block, is_blank_byte};
use crate::lines::line_content;
use std::marker::Model;

/// A header field.
#[derive(Debug, Drop)]
pub struct Field<'a> {
    /// Its name, as written.
    pub name: &'a [u8],
    /// What follows the colon, as it stands: line ends that fold it are still in it, and the last one is not.
    pub body: &'a [u8],
}

impl<'a> Model for Field<'a> {
    ghost use Rattle.mail_core.specs.Fields.{HeaderField};

    ghost Value = { HeaderField };

    ghost view = { λ s. record { name = s.name.now; body = s.body.now } };
}

/// The fields that are left of a header, which it reads as they are asked for. Clauses see it as the list of them.
#[derive(Drop)]
pub struct Fields<'a> {
    rest: &'a [u8],
}

impl<'a> Model for Fields<'a> {
    ghost use Rattle.std.specs.Prelude.{List};
    ghost use Rattle.mail_core.specs.Fields.{HeaderField, fields_of};

    ghost Value = { List HeaderField };

    ghost view = { λ s. fields_of s.rest.now };
}

impl<'a> Fields<'a> {
    pub(crate) fn of(text: &'a [u8]) -> Fields<'a>
        ensures { result ≡ fields_of text.entry.now }
    {
        Fields { rest: text }
    }
}

/// Whether a byte may stand in the name of a field.
fn is_ftext(byte: u8) -> bool
    ensures { result ≡ is_field_name_byte byte }
{
    byte >= 33 && byte <= 126 && byte != b':'
}

/// How many bytes of a name begin a text.
fn name_len(text: &[u8]) -> usize
    ensures value { result ≡ prefix_len is_field_name_byte text.now }
    ensures within { result ≤ length text.now }
{
    for (len, byte) in text.iter().enumerate() {
        if !is_ftext(*byte) {
            return len;
        }
    }
    text.len()
}

/// How many spaces and tabs begin a text.
fn blanks(text: &[u8]) -> usize
    ensures value { result ≡ prefix_len is_wsp text.now }
    ensures within { result ≤ length text.now }
{
    for (len, byte) in text.iter().enumerate() {
        if !is_blank_byte(*byte) {
            return len;
        }
    }
    text.len()
}

/// The text behind the spaces and tabs that begin it.
pub(crate) fn behind_blanks<'a>(text: &'a [u8]) -> &'a [u8]
    ensures { result.now ≡ skip_wsp text.entry.now }
{
    let (_, behind) = text.split_at(blanks(text));
    behind
}

/// The field that a block of header lines is.
fn read_field<'a>(block: &'a [u8]) -> Option<Field<'a>>
    ensures { result ≡ field_in (content block.entry.now) }
{
    let text = line_content(block);
    let (name, behind) = text.split_at(name_len(text));
    if name.is_empty() {
        return None;
    }
    let (colon, body) = behind_blanks(behind).split_first()?;
    if *colon != b':' {
        return None;
    }
    Some(Field { name, body })
}

/// The first field of a text, and what follows it.
pub(crate) fn next_field<'a>(text: &'a [u8]) -> Option<(Field<'a>, &'a [u8])>
    ensures { MatchOption result (fields_of text.entry.now ≡ [])
        (λ found. fields_of text.entry.now ≡ found.0 ∷ fields_of found.1.now) }
{
    let mut rest = text;
    while let Some((block, after)) = first_block(rest) {
        if let Some(field) = read_field(block) {
            return Some((field, after));
        }
        rest = after;
    }
    None
}

impl<'a> Iterator for Fields<'a> {
    type Item = Field<'a>;

    ghost next_gives = { YieldsFirst (λ s. s) };

    ghost remaining = { item_count (λ s. s) };

    fn next(&mut self) -> Option<Field<'a>> {
        let (field, rest) = next_field(self.rest)?;
        self.rest = rest;
        Some(field)
    }
}
