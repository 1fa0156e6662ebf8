//! Days of the civil calendar.
ghost use Rattle.std.specs.Prelude.{◌≡◌, ◌≤◌, Some, None, pos, neg_ℤ, ◌≤ℤ◌, true};
ghost use Rattle.std.specs.Int.{IsInRange};
ghost use Rattle.civil_time.specs.Calendar.{is_day, day_of_date, day_of_text, weekday, is_instant, day_of_instant};

use crate::calendar::day_number;
use crate::digits::{four_digits, two_digits};
use jiff_core::civil::Date;
use std::marker::Model;

/// A day from 1900-01-01 to 9998-12-31. Clauses see it as the number of days since 1970-01-01.
#[derive(Clone, Copy, PartialEq, Eq, PartialOrd, Ord, Hash, Debug)]
pub struct Day {
    number: i32,
}

impl Model for Day {
    ghost use Rattle.std.specs.Prelude.{◌≡◌, ℤ, true};
    ghost use Rattle.civil_time.specs.Calendar.{is_day};

    ghost Value = { ℤ };

    ghost view = { λ d. d.number };

    ghost invariant = { λ d. is_day d.number ≡ true };

    ghost inverse = { λ z. record { number = z } };
}

impl Day {
    /// The day with this date. `None` where the calendar has no such date, or the year is outside 1900 to 9998.
    pub fn of(year: i16, month: u8, day: u8) -> Option<Day>
        ensures { result ≡ day_of_date year month day }
    {
        if year < 1900 || year > 9998 {
            return None;
        }
        let number = day_number(year as u16, month, day)?;
        Some(Day { number })
    }

    /// The day that a text writes as `yyyy-mm-dd`, with exactly these digits (RFC 3339 section 5.6, `full-date`).
    pub fn read(text: &[u8]) -> Option<Day>
        ensures { result ≡ day_of_text text.now }
    {
        match text {
            [a, b, c, d, b'-', e, f, b'-', g, h] => {
                let year = four_digits(*a, *b, *c, *d)?;
                let month = two_digits(*e, *f)?;
                let day = two_digits(*g, *h)?;
                Day::of(year as i16, month, day)
            }
            _ => None,
        }
    }

    /// The day, in UTC, of an instant that is given in seconds since 1970-01-01 00:00:00 UTC.
    pub(crate) fn of_seconds(seconds: i64) -> Day
        requires { is_instant seconds ≡ true }
        ensures { result ≡ day_of_instant seconds }
    {
        Day {
            number: seconds.div_euclid(86_400) as i32,
        }
    }

    /// The number of days since 1970-01-01.
    pub fn number(self) -> i32
        ensures value { result ≡ self }
        ensures within { is_day result ≡ true }
    {
        self.number
    }

    /// Year, month and day.
    pub fn parts(self) -> (i16, u8, u8)
        ensures date { day_of_date result.0 result.1 result.2 ≡ Some self }
        ensures year { (pos 1900 ≤ℤ result.0) × (result.0 ≤ℤ pos 9998) }
        ensures month { IsInRange 1 12 result.1 }
        ensures day { IsInRange 1 31 result.2 }
    {
        match Date::from_unix_epoch_day(self.number as i64) {
            Ok(date) => (date.year, date.month, date.day),
            Err(_) => unreachable!(),
        }
    }

    /// The day of the week, Monday 0 to Sunday 6.
    pub fn weekday(self) -> u8
        ensures value { result ≡ weekday self }
        ensures small { result ≤ 6 }
    {
        (self.number + 3).rem_euclid(7) as u8
    }
}
