//! Texts of the calendar, in UTC (RFC 3339 section 5.6 for days).
ghost use Rattle.std.specs.Prelude.{◌≡◌, ◌<◌, ◌++◌, ◌∷◌};
ghost use Rattle.civil_time.specs.Clock.{second_of_day};
ghost use Rattle.civil_time.specs.Texts.{year_month_text, full_date_text, day_text, hour_minute_text, instant_text, month_text};

use crate::days::Day;
use crate::digits::digit_pair;
use crate::instants::Instant;
use crate::months::Month;

/// `yyyy-mm`.
fn year_month_text(year: u32, month: u32) -> [u8; 7]
    requires year { year < 10000 }
    requires month { month < 100 }
    ensures { result ≡ year_month_text year month }
{
    let [y0, y1] = digit_pair(year / 100);
    let [y2, y3] = digit_pair(year % 100);
    let [m0, m1] = digit_pair(month);
    [y0, y1, y2, y3, b'-', m0, m1]
}

/// `yyyy-mm-dd`.
fn date_text(year: u32, month: u32, day: u32) -> [u8; 10]
    requires year { year < 10000 }
    requires month { month < 100 }
    requires day { day < 100 }
    ensures { result ≡ full_date_text (record { year = year; month = month; day = day }) }
{
    let [y0, y1, y2, y3, dash, m0, m1] = year_month_text(year, month);
    let [d0, d1] = digit_pair(day);
    [y0, y1, y2, y3, dash, m0, m1, b'-', d0, d1]
}

/// `hh:mm`, of the seconds in a day.
fn clock_text(seconds: u32) -> [u8; 5]
    requires { seconds < 86400 }
    ensures { result ≡ hour_minute_text seconds }
{
    let [h0, h1] = digit_pair(seconds / 3600);
    let [m0, m1] = digit_pair(seconds / 60 % 60);
    [h0, h1, b':', m0, m1]
}

/// `yyyy-mm-dd hh:mm`, of the seconds in a day.
fn moment_text(year: u32, month: u32, day: u32, seconds: u32) -> [u8; 16]
    requires year { year < 10000 }
    requires month { month < 100 }
    requires day { day < 100 }
    requires seconds { seconds < 86400 }
    ensures { result ≡ full_date_text (record { year = year; month = month; day = day }) ++
        32 ∷ hour_minute_text seconds }
{
    let [y0, y1, y2, y3, dash, m0, m1, hyphen, d0, d1] = date_text(year, month, day);
    let [h0, h1, colon, n0, n1] = clock_text(seconds);
    [
        y0, y1, y2, y3, dash, m0, m1, hyphen, d0, d1, b' ', h0, h1, colon, n0, n1,
    ]
}

impl Day {
    /// `yyyy-mm-dd`, as `Day::read` reads it.
    pub fn text(self) -> [u8; 10]
        ensures { result ≡ day_text self }
    {
        let (year, month, day) = self.parts();
        date_text(year.unsigned_abs() as u32, month as u32, day as u32)
    }
}

impl Month {
    /// `yyyy-mm`, as `Month::read` reads it.
    #[tactic(auto, unfolding(crate::specs::Texts::month_text))]
    pub fn text(self) -> [u8; 7]
        ensures { result ≡ month_text self }
    {
        let index = self.index();
        year_month_text(index / 12, index % 12 + 1)
    }
}

impl Instant {
    /// The seconds since its day began in UTC.
    fn second_of_day(self) -> u32
        ensures value { result ≡ second_of_day self }
        ensures small { result < 86400 }
    {
        self.seconds().rem_euclid(86_400) as u32
    }

    /// `yyyy-mm-dd hh:mm`, in UTC. Its first seven bytes are its month.
    pub fn text(self) -> [u8; 16]
        ensures { result ≡ instant_text self }
    {
        let (year, month, day) = self.day().parts();
        moment_text(
            year.unsigned_abs() as u32,
            month as u32,
            day as u32,
            self.second_of_day(),
        )
    }
}
