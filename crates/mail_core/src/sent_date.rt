//! When a message was sent (RFC 5322 sections 3.3 and 4.3).
ghost use Rattle.std.specs.Prelude.{◌≡◌, ◌<◌, MatchOption, IfSome, Some, None, pos, neg_ℤ, ◌≤ℤ◌, unwrap_or};
ghost use Rattle.mail_core.specs.DateTokens.{tokens_of};
ghost use Rattle.mail_core.specs.Sent.{year_of_digits, without_comma, without_weekday, date_at, leading_two_digit_second};
ghost use Rattle.mail_core.specs.Sent.{second_after_colon, time_at, signed_zone_at, zone_at, utc_seconds_of_time, sent_date_of_body};

use crate::tokens::{behind_sign, next_digits, next_letters, next_sign};
use civil_time::calendar::day_number;
use civil_time::clocks::seconds_of_day;
use civil_time::digits::{digit, four_digits, read_one_or_two, read_two, two_digits};
use civil_time::names::read_month;
use civil_time::zones::read_signed_zone;
use civil_time::{Instant, zone};

/// A year of two, three or four digits.
fn read_year(digits: &[u8]) -> Option<u16>
    ensures { result ≡ year_of_digits digits.now }
{
    match digits {
        [a, b] => {
            let year = two_digits(*a, *b)? as u16;
            Some(if year <= 49 { 2000 + year } else { 1900 + year })
        }
        [a, b, c] => {
            let high = digit(*a)? as u16;
            let low = two_digits(*b, *c)? as u16;
            Some(1900 + (100 * high + low))
        }
        [a, b, c, d] => four_digits(*a, *b, *c, *d),
        _ => None,
    }
}

/// The text behind a comma, where one comes first, and else the text.
fn skip_comma<'a>(text: &'a [u8]) -> &'a [u8]
    ensures { tokens_of result.now ≡ without_comma (tokens_of text.entry.now) }
{
    match behind_sign(text, b',') {
        Some(rest) => rest,
        None => text,
    }
}

/// The text behind a weekday, where letters come first, and a comma behind it.
fn skip_weekday<'a>(text: &'a [u8]) -> &'a [u8]
    ensures { tokens_of result.now ≡ without_weekday (tokens_of text.entry.now) }
{
    match next_letters(text) {
        Some((_, rest)) => skip_comma(rest),
        None => text,
    }
}

/// The day number of the date that comes first, and what follows it.
#[tactic(auto, unfolding(crate::specs::Sent::date_at))]
fn read_date<'a>(text: &'a [u8]) -> Option<(i32, &'a [u8])>
    ensures { MatchOption result (date_at (tokens_of text.entry.now) ≡ None) (λ found. date_at (tokens_of text.entry.now) ≡ Some (found.0, tokens_of found.1.now)) }
{
    let (day, rest) = next_digits(text)?;
    let (month, rest) = next_letters(rest)?;
    let (year, rest) = next_digits(rest)?;
    let year = read_year(year)?;
    let month = read_month(month)?;
    let day = read_one_or_two(day)?;
    let number = day_number(year, month, day)?;
    Some((number, rest))
}

/// The second that comes first, and what follows it.
#[tactic(auto, unfolding(crate::specs::Sent::leading_two_digit_second))]
fn read_second<'a>(text: &'a [u8]) -> Option<(u8, &'a [u8])>
    ensures { MatchOption result (leading_two_digit_second (tokens_of text.entry.now) ≡ None) (λ found. leading_two_digit_second (tokens_of text.entry.now) ≡ Some (found.0, tokens_of found.1.now)) }
{
    let (second, rest) = next_digits(text)?;
    let number = read_two(second)?;
    Some((number, rest))
}

/// The second behind a colon that comes first, 0 where none does, and what follows it.
fn read_seconds<'a>(text: &'a [u8]) -> Option<(u8, &'a [u8])>
    ensures { MatchOption result (second_after_colon (tokens_of text.entry.now) ≡ None) (λ found. second_after_colon (tokens_of text.entry.now) ≡ Some (found.0, tokens_of found.1.now)) }
{
    match behind_sign(text, b':') {
        Some(rest) => read_second(rest),
        None => Some((0, text)),
    }
}

/// The seconds of the day of the time that comes first, and what follows it.
#[tactic(auto, unfolding(crate::specs::Sent::time_at))]
fn read_time<'a>(text: &'a [u8]) -> Option<(u32, &'a [u8])>
    ensures value { MatchOption result (time_at (tokens_of text.entry.now) ≡ None) (λ found. time_at (tokens_of text.entry.now) ≡ Some (found.0, tokens_of found.1.now)) }
    ensures small { IfSome result (λ found. found.0 < 86_400) }
{
    let (hour, rest) = next_digits(text)?;
    let rest = behind_sign(rest, b':')?;
    let (minute, rest) = next_digits(rest)?;
    let hour = read_one_or_two(hour)?;
    let minute = read_two(minute)?;
    let (second, rest) = read_seconds(rest)?;
    let seconds = seconds_of_day(hour, minute, second)?;
    Some((seconds, rest))
}

/// The zone of a sign and digits that come first.
#[tactic(auto, unfolding(crate::specs::Sent::signed_zone_at))]
fn read_sign_and_digits(text: &[u8]) -> Option<i32>
    ensures value { result ≡ signed_zone_at (tokens_of text.now) }
    ensures bounds { IfSome result (λ z. (neg_ℤ (pos 360_000) ≤ℤ z) × (z ≤ℤ pos 360_000)) }
{
    let (sign, rest) = next_sign(text)?;
    let (digits, _) = next_digits(rest)?;
    read_signed_zone(sign, digits)
}

/// The zone that comes first, in seconds east of UTC.
fn read_zone(text: &[u8]) -> Option<i32>
    ensures value { result ≡ zone_at (tokens_of text.now) }
    ensures bounds { IfSome result (λ z. (neg_ℤ (pos 360_000) ≤ℤ z) × (z ≤ℤ pos 360_000)) }
{
    match next_letters(text) {
        Some((name, _)) => zone(name),
        None => read_sign_and_digits(text),
    }
}

/// The seconds since the day's 00:00:00 in UTC.
fn read_seconds_of_day(text: &[u8]) -> i32
    ensures value { result ≡ utc_seconds_of_time (tokens_of text.now) }
    ensures low { neg_ℤ (pos 500_000) ≤ℤ result }
    ensures high { result ≤ℤ pos 500_000 }
{
    match read_time(text) {
        Some((seconds, rest)) => seconds as i32 - read_zone(rest).unwrap_or(0),
        None => 0,
    }
}

/// When a message was sent, by the body of its Date field as it stands (an absent field is the empty body). The
/// arrival where the body is no date, or its instant lies outside the years 1900 to 9998. A body without a valid time
/// is the beginning of its day in UTC. It takes no memory.
pub fn sent(date: &[u8], arrival: Instant) -> Instant
    ensures { result ≡ sent_date_of_body date.now arrival }
{
    match read_date(skip_weekday(date)) {
        Some((day, rest)) => {
            let seconds = day as i64 * 86_400 + read_seconds_of_day(rest) as i64;
            Instant::new(seconds).unwrap_or(arrival)
        }
        None => arrival,
    }
}
