//! Months of the civil calendar.
ghost use Rattle.std.specs.Prelude.{◌≡◌, true, Some};
ghost use Rattle.civil_time.specs.Calendar.{is_month, is_in_month, month_of_day, month_of_parsed_parts, month_of_text};

use crate::days::Day;
use crate::digits::{four_digits, two_digits};
use std::marker::Model;

/// A month from January 1900 to December 9998. Clauses see it as the year times 12 plus the month minus 1.
#[derive(Clone, Copy, PartialEq, Eq, PartialOrd, Ord, Hash, Debug)]
pub struct Month {
    index: u32,
}

impl Model for Month {
    ghost use Rattle.std.specs.Prelude.{◌≡◌, ℕ, true};
    ghost use Rattle.civil_time.specs.Calendar.{is_month};

    ghost Value = { ℕ };

    ghost view = { λ m. m.index };

    ghost invariant = { λ m. is_month m.index ≡ true };

    ghost inverse = { λ n. record { index = n } };
}

impl Month {
    /// The month that a text writes as `yyyy-mm`, with exactly these digits.
    pub fn read(text: &[u8]) -> Option<Month>
        ensures { result ≡ month_of_text text.now }
    {
        match text {
            [a, b, c, d, b'-', e, f] => {
                let year = four_digits(*a, *b, *c, *d)?;
                let month = two_digits(*e, *f)?;
                Month::of_numbers(year, month)
            }
            _ => None,
        }
    }

    /// The month of a year and a number from 1 to 12.
    fn of_numbers(year: u16, month: u8) -> Option<Month>
        ensures { result ≡ month_of_parsed_parts (Some year) (Some month) }
    {
        if year < 1900 || year > 9998 {
            return None;
        }
        if month < 1 || month > 12 {
            return None;
        }
        Some(Month {
            index: 12 * year as u32 + (month as u32 - 1),
        })
    }

    /// The month in which a day lies.
    pub fn of_day(day: Day) -> Month
        ensures value { result ≡ month_of_day day }
        ensures within { is_in_month result day ≡ true }
    {
        let (year, month, _) = day.parts();
        Month {
            index: 12 * year as u32 + (month as u32 - 1),
        }
    }

    /// The year times 12 plus the month minus 1.
    pub fn index(self) -> u32
        ensures value { result ≡ self }
        ensures within { is_month result ≡ true }
    {
        self.index
    }
}
