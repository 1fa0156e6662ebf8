//! Instants, in whole seconds.
ghost use Rattle.std.specs.Prelude.{◌≡◌, true};
ghost use Rattle.civil_time.specs.Calendar.{is_instant, checked_instant, day_of_instant, month_of_instant, is_in_month};

use crate::days::Day;
use crate::months::Month;
use std::marker::Model;

/// An instant from 1900-01-01 00:00:00 to 9998-12-31 23:59:59 UTC. Clauses see it as seconds since 1970-01-01
/// 00:00:00 UTC, leap seconds not counted.
#[derive(Clone, Copy, PartialEq, Eq, PartialOrd, Ord, Hash, Debug)]
pub struct Instant {
    seconds: i64,
}

impl Model for Instant {
    ghost use Rattle.std.specs.Prelude.{◌≡◌, ℤ, true};
    ghost use Rattle.civil_time.specs.Calendar.{is_instant};

    ghost Value = { ℤ };

    ghost view = { λ s. s.seconds };

    ghost invariant = { λ s. is_instant s.seconds ≡ true };

    ghost inverse = { λ z. record { seconds = z } };
}

impl Instant {
    /// The instant that many seconds after 1970-01-01 00:00:00 UTC. `None` where it lies outside the years 1900 to
    /// 9998.
    pub fn new(seconds: i64) -> Option<Instant>
        ensures { result ≡ checked_instant seconds }
    {
        if seconds < -2_208_988_800 || seconds > 253_370_764_799 {
            return None;
        }
        Some(Instant { seconds })
    }

    /// The seconds since 1970-01-01 00:00:00 UTC.
    pub fn seconds(self) -> i64
        ensures value { result ≡ self }
        ensures within { is_instant result ≡ true }
    {
        self.seconds
    }

    /// The day of this instant in UTC.
    pub fn day(self) -> Day
        ensures { result ≡ day_of_instant self }
    {
        Day::of_seconds(self.seconds)
    }

    /// The month of this instant in UTC.
    pub fn month(self) -> Month
        ensures value { result ≡ month_of_instant self }
        ensures within { is_in_month result (day_of_instant self) ≡ true }
    {
        Month::of_day(self.day())
    }
}
