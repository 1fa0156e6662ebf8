//! Separator lines, `From `, a sender and a time (RFC 4155, appendix A).
ghost use Rattle.std.specs.Prelude.{◌≡◌, ◌∷◌, ◌<◌, ◌≤◌, [], length, Some, None, IfSome, IfNone};
ghost use Rattle.mbox_items.specs.Separator.{tokens, separator_of, envelope_of, arrival_of, envelope_of_one_token, envelope_of_two_tokens, IsSeparator, Envelope as Said};

use crate::senders::Sender;
use crate::tokens::{first_token, is_sender_token, read_clock, read_day, read_instant, read_year};
use civil_time::calendar::day_number;
use civil_time::names::{is_weekday_name, read_month};
use civil_time::{Instant, zone};
use std::marker::Model;

/// What a separator line says: who sent the message, and when it came. Its sender is one that can be written.
#[derive(Drop)]
pub struct Envelope<'a> {
    /// Who sent it.
    pub sender: Sender<'a>,
    /// When it came, in UTC.
    pub arrival: Instant,
}

impl<'a> Model for Envelope<'a> {
    ghost use Rattle.mbox_items.specs.Separator.{Envelope as Said};

    ghost Value = { Said };

    ghost use Rattle.std.specs.Prelude.{◌≡◌, true};
    ghost use Rattle.civil_time.specs.Calendar.{is_instant};
    ghost use Rattle.mbox_items.specs.Senders.{IsSender, sender_text};

    ghost view = { λ s. record { sender = sender_text s.sender; arrival = s.arrival } };

    ghost invariant = { λ s. IsSender s.sender × (is_instant s.arrival ≡ true) };
}

/// The arrival that tokens say, with a time so many seconds east of UTC.
#[tactic(auto, unfolding(crate::specs::Separator::arrival_of))]
fn read_arrival(
    weekday: &[u8],
    month_name: &[u8],
    day_text: &[u8],
    time_text: &[u8],
    offset: Option<i32>,
    year_text: &[u8],
) -> Option<Instant>
    ensures { result ≡ arrival_of weekday.now month_name.now day_text.now time_text.now offset year_text.now }
{
    if !is_weekday_name(weekday) {
        return None;
    }
    let month = read_month(month_name)?;
    let day = read_day(day_text)?;
    let seconds = read_clock(time_text)?;
    let east = offset?;
    let year = read_year(year_text)?;
    let number = day_number(year, month, day)?;
    read_instant(number, seconds, east)
}

/// What a sender of one token and an arrival say.
#[tactic(auto, unfolding(crate::specs::Separator::envelope_of_one_token))]
fn by_one<'a>(token: &'a [u8], when: Option<Instant>) -> Option<Envelope<'a>>
    ensures { result ≡ envelope_of_one_token token.entry.now when }
{
    if !is_sender_token(token) {
        return None;
    }
    let arrival = when?;
    Some(Envelope {
        sender: Sender::One(token),
        arrival,
    })
}

/// What a sender of two tokens, with this word between them, and an arrival say.
#[tactic(auto, unfolding(crate::specs::Separator::envelope_of_two_tokens))]
fn by_two<'a>(
    left: &'a [u8],
    word: &[u8],
    right: &'a [u8],
    when: Option<Instant>,
) -> Option<Envelope<'a>>
    ensures { result ≡ envelope_of_two_tokens left.entry.now word.now right.entry.now when }
{
    if !is_sender_token(left) {
        return None;
    }
    if word != b"at".as_slice() {
        return None;
    }
    if !is_sender_token(right) {
        return None;
    }
    let arrival = when?;
    Some(Envelope {
        sender: Sender::At(left, right),
        arrival,
    })
}

/// The envelope that the content of a line says: a line without its LF, and without a CR before that. `None` where it
/// is no separator line (RFC 4155, appendix A): `From `, and six to nine tokens between runs of spaces, which are a
/// sender (one token or three), weekday, month, day, time, a zone or none, and year. Nothing is trimmed.
pub fn separator<'a>(content: &'a [u8]) -> Option<Envelope<'a>>
    ensures value { result ≡ separator_of content.entry.now }
    ensures found { IfSome result (λ e. IsSeparator content.entry.now e) }
    ensures none { IfNone result ((e : Said) → ¬ IsSeparator content.entry.now e) }
{
    read_content(content)
}

/// The envelope of a content: what follows `From ` is read as tokens.
fn read_content<'a>(content: &'a [u8]) -> Option<Envelope<'a>>
    ensures { result ≡ separator_of content.entry.now }
{
    let after = content.strip_prefix(b"From ")?;
    read_tokens(after)
}

/// The envelope that the tokens of a text say. Their number tells the sender's tokens, and whether there is a zone.
fn read_tokens<'a>(text: &'a [u8]) -> Option<Envelope<'a>>
    ensures { result ≡ envelope_of (tokens text.entry.now) }
{
    let (first, text) = first_token(text)?;
    let (second, text) = first_token(text)?;
    let (third, text) = first_token(text)?;
    let (fourth, text) = first_token(text)?;
    let (fifth, text) = first_token(text)?;
    let (sixth, text) = first_token(text)?;
    let Some((seventh, text)) = first_token(text) else {
        let arrival = read_arrival(second, third, fourth, fifth, Some(0), sixth);
        return by_one(first, arrival);
    };
    let Some((eighth, text)) = first_token(text) else {
        let arrival = read_arrival(second, third, fourth, fifth, zone(sixth), seventh);
        return by_one(first, arrival);
    };
    let Some((ninth, text)) = first_token(text) else {
        let arrival = read_arrival(fourth, fifth, sixth, seventh, Some(0), eighth);
        return by_two(first, second, third, arrival);
    };
    if first_token(text).is_some() {
        return None;
    }
    let arrival = read_arrival(fourth, fifth, sixth, seventh, zone(eighth), ninth);
    by_two(first, second, third, arrival)
}
