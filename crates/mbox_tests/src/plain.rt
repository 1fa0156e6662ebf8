//! Cutting and separator lines by plain programs, which the fast ones are compared with.
ghost use Rattle.std.specs.Prelude.{◌≡◌, ◌∷◌, ◌<◌, ◌≤◌, [], length, pos, neg_ℤ, ◌≤ℤ◌, IfSome};

use civil_time::calendar::day_number;
use civil_time::zone;
use mail_core::lines::{line_content, line_end};
use mbox_core::{Envelope, separator};
use std::alloc::{AllocError, Global};

/// A message's text, and what follows it: the next separator line, and the bytes behind that.
#[derive(Drop)]
pub(crate) struct Part<'a> {
    pub(crate) text: &'a [u8],
    pub(crate) next: Option<Envelope<'a>>,
    pub(crate) rest: &'a [u8],
}

/// The text of a message whose separator line stands before these bytes, line by line.
pub(crate) fn first_part<'a>(bytes: &'a [u8]) -> Part<'a> {
    let mut at = 0;
    let mut end = 0;
    let mut after_blank = false;
    while at < bytes.len() {
        let here = &bytes[at..];
        let len = line_end(here);
        let (line, rest) = here.split_at(len);
        let content = line_content(line);
        if after_blank {
            if let Some(envelope) = separator(content) {
                return Part {
                    text: &bytes[..end],
                    next: Some(envelope),
                    rest,
                };
            }
        }
        after_blank = content.is_empty();
        end = if after_blank { at } else { at + len };
        at += len;
    }
    Part {
        text: &bytes[..end],
        next: None,
        rest: &bytes[at..],
    }
}

/// The tokens of a text, byte by byte.
pub(crate) fn plain_tokens<'a>(alloc: Global, text: &'a [u8]) -> Result<Vec<&'a [u8]>, AllocError> {
    let mut tokens = Vec::new(alloc);
    let mut begin = 0;
    for (at, byte) in text.iter().enumerate() {
        if *byte == b' ' {
            if begin < at {
                tokens.push(&text[begin..at])?;
            }
            begin = at + 1;
        }
    }
    if begin < text.len() {
        tokens.push(&text[begin..])?;
    }
    Ok(tokens)
}

/// The seconds since 1970 that the tokens of a separator line say, in whatever year, by their places from the end.
pub(crate) fn plain_seconds(tokens: &[&[u8]]) -> Option<i64> {
    if tokens.len() < 6 {
        return None;
    }
    let (sender, date) = tokens.split_at(if tokens.len() < 8 { 1 } else { 3 });
    if let [_, word, _] = sender {
        if *word != b"at".as_slice() {
            return None;
        }
    }
    match date {
        [weekday, month, day, time, year] => local_seconds(weekday, month, day, time, year),
        [weekday, month, day, time, name, year] => {
            let east = zone(name)?;
            Some(local_seconds(weekday, month, day, time, year)? - east as i64)
        }
        _ => None,
    }
}

/// The seconds from 1970 to a local time.
fn local_seconds(weekday: &[u8], month: &[u8], day: &[u8], time: &[u8], year: &[u8]) -> Option<i64>
    ensures { IfSome result (λ z. (neg_ℤ (pos 200_000_000_000_000) ≤ℤ z) × (z ≤ℤ pos 200_000_000_000_000)) }
{
    plain_place(
        weekday,
        &[b"mon", b"tue", b"wed", b"thu", b"fri", b"sat", b"sun"],
    )?;
    let month = plain_place(
        month,
        &[
            b"jan", b"feb", b"mar", b"apr", b"may", b"jun", b"jul", b"aug", b"sep", b"oct", b"nov",
            b"dec",
        ],
    )?;
    let number = day_number(plain_year(year)?, month, plain_day(day)?)?;
    Some(86400 * number as i64 + plain_clock(time)? as i64)
}

/// The place of a name in a table, from 1 on, in whatever case.
fn plain_place(name: &[u8], names: &[&[u8; 3]]) -> Option<u8> {
    let mut place = 0u8;
    for known in names {
        place = place.saturating_add(1);
        if known.eq_ignore_ascii_case(name) {
            return Some(place);
        }
    }
    None
}

/// The number that two digits say.
fn plain_pair(high: u8, low: u8) -> Option<u8>
    ensures { IfSome result (λ n. n < 100) }
{
    if high.is_ascii_digit() && low.is_ascii_digit() {
        Some((high - b'0') * 10 + (low - b'0'))
    } else {
        None
    }
}

/// A day of one or two digits.
fn plain_day(text: &[u8]) -> Option<u8> {
    match text {
        [low] => plain_pair(b'0', *low),
        [high, low] => plain_pair(*high, *low),
        _ => None,
    }
}

/// A year of four digits.
fn plain_year(text: &[u8]) -> Option<u16> {
    match text {
        [a, b, c, d] => Some(plain_pair(*a, *b)? as u16 * 100 + plain_pair(*c, *d)? as u16),
        _ => None,
    }
}

/// The seconds of a time of day. The sixtieth second of a minute counts as the one before.
fn plain_clock(text: &[u8]) -> Option<u32>
    ensures { IfSome result (λ n. n < 86400) }
{
    let (hour, minute, second) = match text {
        [a, b, b':', c, d] => (plain_pair(*a, *b)?, plain_pair(*c, *d)?, 0),
        [a, b, b':', c, d, b':', e, f] => (
            plain_pair(*a, *b)?,
            plain_pair(*c, *d)?,
            plain_pair(*e, *f)?,
        ),
        _ => return None,
    };
    if hour > 23 || minute > 59 || second > 60 {
        return None;
    }
    Some((hour as u32 * 60 + minute as u32) * 60 + second.min(59) as u32)
}
