//! Zones (RFC 5322 sections 3.3 and 4.3).
ghost use Rattle.std.specs.Prelude.{◌≡◌, ◌≤◌, pos, neg_ℤ, ◌≤ℤ◌, IfSome};
ghost use Rattle.civil_time.specs.Zones.{offset_of, signed_zone, hours_west, is_ascii_letters, named_zone, zone_of};
ghost use Rattle.civil_time.specs.Names.{equals_ignoring_case};

use crate::digits::two_digits;
use crate::names::matches_ignoring_case;

/// Seconds east of UTC of a sign and `hhmm`. `None` where there are other digits than these, or more than 59 minutes.
pub fn read_signed_zone(sign: u8, digits: &[u8]) -> Option<i32>
    ensures value { result ≡ signed_zone sign digits.now }
    ensures bounds { IfSome result (λ z. (neg_ℤ (pos 360_000) ≤ℤ z) × (z ≤ℤ pos 360_000)) }
{
    match digits {
        [a, b, c, d] => {
            let hours = two_digits(*a, *b)?;
            let minutes = two_digits(*c, *d)?;
            read_offset(sign, hours, minutes)
        }
        _ => None,
    }
}

/// Seconds of hours and minutes with a sign.
fn read_offset(sign: u8, hours: u8, minutes: u8) -> Option<i32>
    requires { hours ≤ 99 }
    ensures value { result ≡ offset_of sign (Some hours) (Some minutes) }
    ensures bounds { IfSome result (λ z. (neg_ℤ (pos 360_000) ≤ℤ z) × (z ≤ℤ pos 360_000)) }
{
    if minutes > 59 {
        return None;
    }
    let seconds = (3600 * hours as u32 + 60 * minutes as u32) as i32;
    if sign == b'+' {
        return Some(seconds);
    }
    if sign == b'-' {
        return Some(-seconds);
    }
    None
}

/// Hours west of UTC that a name stands for.
#[tactic(auto, unfolding(crate::specs::Zones::hours_west))]
fn read_hours_west(name: &[u8]) -> u8
    ensures value { result ≡ hours_west name.now }
    ensures small { result ≤ 8 }
{
    if matches_ignoring_case(name, b"edt") {
        return 4;
    }
    if matches_ignoring_case(name, b"est") {
        return 5;
    }
    if matches_ignoring_case(name, b"cdt") {
        return 5;
    }
    if matches_ignoring_case(name, b"cst") {
        return 6;
    }
    if matches_ignoring_case(name, b"mdt") {
        return 6;
    }
    if matches_ignoring_case(name, b"mst") {
        return 7;
    }
    if matches_ignoring_case(name, b"pdt") {
        return 7;
    }
    if matches_ignoring_case(name, b"pst") {
        return 8;
    }
    0
}

/// Whether a text is one ASCII letter or more.
fn is_word_text(text: &[u8]) -> bool
    ensures { result ≡ is_ascii_letters text.now }
{
    !text.is_empty() && text.iter().all(|byte| byte.is_ascii_alphabetic())
}

/// Seconds east of UTC of a name.
fn read_named_zone(text: &[u8]) -> Option<i32>
    ensures value { result ≡ named_zone text.now }
    ensures bounds { IfSome result (λ z. (neg_ℤ (pos 360_000) ≤ℤ z) × (z ≤ℤ pos 360_000)) }
{
    if !is_word_text(text) {
        return None;
    }
    Some(-(3600 * read_hours_west(text) as i32))
}

/// Seconds east of UTC of a zone: `+hhmm`, `-hhmm` or a name. A name that RFC 5322 section 4.3 does not list is UTC.
/// `None` where the text is none of these. It takes no memory.
pub fn zone(text: &[u8]) -> Option<i32>
    ensures value { result ≡ zone_of text.now }
    ensures bounds { IfSome result (λ z. (neg_ℤ (pos 360_000) ≤ℤ z) × (z ≤ℤ pos 360_000)) }
{
    if let Some((sign, digits)) = text.split_first() {
        if let Some(seconds) = read_signed_zone(*sign, digits) {
            return Some(seconds);
        }
    }
    read_named_zone(text)
}
