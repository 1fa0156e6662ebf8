//! The tokens of a separator line.
ghost use Rattle.std.specs.Prelude.{◌≡◌, ◌∷◌, ◌<◌, [], MatchOption, IfSome};
ghost use Rattle.mbox_items.specs.Separator.{tokens, is_sender_token as sender_test, parsed_day_of_month, parsed_time_of_day};
ghost use Rattle.mbox_items.specs.Separator.{parsed_seconds_part, parsed_four_digit_year, two_digit_number_at, instant_of_local_time};

use civil_time::Instant;
use civil_time::clocks::seconds_of_day;
use civil_time::digits::{read_four, read_one_or_two, two_digits};
use memchr::memchr;

/// The first token, and what follows it.
pub(crate) fn first_token<'a>(text: &'a [u8]) -> Option<(&'a [u8], &'a [u8])>
    ensures { MatchOption result (tokens text.entry.now ≡ []) (λ p. tokens text.entry.now ≡ p.0.now ∷ tokens p.1.now) }
{
    let mut at = 0;
    while at < text.len() && text[at] == b' ' {
        at += 1;
    }
    let (_, text) = text.split_at(at);
    if text.is_empty() {
        return None;
    }
    let end = match memchr(b' ', text) {
        Some(end) => end,
        None => text.len(),
    };
    let (token, rest) = text.split_at(end);
    Some((token, rest))
}

/// The number that two digits write at this place.
fn two_digits_at(text: &[u8], at: usize) -> Option<u8>
    requires { at < 100 }
    ensures { result ≡ two_digit_number_at text.now at }
{
    if at + 1 >= text.len() {
        return None;
    }
    two_digits(text[at], text[at + 1])
}

/// A day of one or two digits.
#[tactic(auto, unfolding(crate::specs::Separator::parsed_day_of_month))]
pub(crate) fn read_day(text: &[u8]) -> Option<u8>
    ensures { result ≡ parsed_day_of_month text.now }
{
    read_one_or_two(text)
}

/// The seconds of a time, 0 where it has none.
fn read_second(text: &[u8]) -> Option<u8>
    ensures { result ≡ parsed_seconds_part text.now }
{
    if text.len() == 5 {
        Some(0)
    } else if text.len() == 8 && text[5] == b':' {
        two_digits_at(text, 6)
    } else {
        None
    }
}

/// A time of day, in seconds.
#[tactic(auto, unfolding(crate::specs::Separator::parsed_time_of_day))]
pub(crate) fn read_clock(text: &[u8]) -> Option<u32>
    ensures value { result ≡ parsed_time_of_day text.now }
    ensures bound { IfSome result (λ n. n < 86400) }
{
    let hour = two_digits_at(text, 0)?;
    let minute = two_digits_at(text, 3)?;
    let second = read_second(text)?;
    if text.len() <= 2 || text[2] != b':' {
        return None;
    }
    seconds_of_day(hour, minute, second)
}

/// A year of four digits.
#[tactic(auto, unfolding(crate::specs::Separator::parsed_four_digit_year))]
pub(crate) fn read_year(text: &[u8]) -> Option<u16>
    ensures { result ≡ parsed_four_digit_year text.now }
{
    read_four(text)
}

/// Whether a text can be a token of a sender.
pub(crate) fn is_sender_token(text: &[u8]) -> bool
    ensures { result ≡ sender_test text.now }
{
    !text.is_empty() && (!text.contains(&b' ') && !text.contains(&b'\n'))
}

/// The instant at which it is so many seconds after a day begins, so many seconds east of UTC.
#[tactic(auto, unfolding(crate::specs::Separator::instant_of_local_time))]
pub(crate) fn read_instant(day: i32, seconds: u32, east: i32) -> Option<Instant>
    requires { seconds < 86400 }
    ensures { result ≡ instant_of_local_time day seconds east }
{
    Instant::new(day as i64 * 86400 + seconds as i64 - east as i64)
}
