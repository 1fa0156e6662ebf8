//! The time of a separator line, as it is written (RFC 4155, appendix A).
ghost use Rattle.std.specs.Prelude.{◌≡◌, ◌<◌, ◌≤◌, ◌∷◌, ◌++◌, []};
ghost use Rattle.mbox_items.specs.Written.{as_day_digits, ctime_text, time_text};

use civil_time::Instant;
use civil_time::digits::digit_pair;
use civil_time::names::{month_name, weekday_name};

/// A date of the civil calendar.
#[derive(Clone, Copy)]
struct Date {
    year: u16,
    month: u8,
    day: u8,
}

/// A day in two columns.
fn day_pair(n: u32) -> [u8; 2]
    requires { n < 100 }
    ensures { result ≡ as_day_digits n }
{
    if n < 10 {
        [b' ', (48 + n) as u8]
    } else {
        digit_pair(n)
    }
}

/// A space, `Www Mmm dd hh:mm:ss yyyy`, and an LF.
fn date_line(weekday: u8, date: Date, seconds: u32) -> [u8; 26]
    requires weekday { weekday < 7 }
    requires month { (1 ≤ date.month) × (date.month ≤ 12) }
    requires day { date.day < 100 }
    requires year { date.year < 10000 }
    requires seconds { seconds < 86400 }
    ensures { result ≡ (32 ∷ ctime_text weekday (record {
      year = date.year;
      month = date.month;
      day = date.day;
    }) seconds) ++ 10 ∷ [] }
{
    let [w0, w1, w2] = weekday_name(weekday);
    let [m0, m1, m2] = month_name(date.month);
    let [d0, d1] = day_pair(date.day as u32);
    let [h0, h1] = digit_pair(seconds / 3600);
    let [n0, n1] = digit_pair(seconds / 60 % 60);
    let [s0, s1] = digit_pair(seconds % 60);
    let [y0, y1] = digit_pair(date.year as u32 / 100);
    let [y2, y3] = digit_pair(date.year as u32 % 100);
    [
        b' ', w0, w1, w2, b' ', m0, m1, m2, b' ', d0, d1, b' ', h0, h1, b':', n0, n1, b':', s0, s1,
        b' ', y0, y1, y2, y3, b'\n',
    ]
}

/// A space, the time of an instant in UTC as `Www Mmm dd hh:mm:ss yyyy`, and an LF.
pub(crate) fn time_line(arrival: Instant) -> [u8; 26]
    ensures { result ≡ (32 ∷ time_text arrival) ++ 10 ∷ [] }
{
    let day = arrival.day();
    let (year, month, day_of_month) = day.parts();
    let date = Date {
        year: year as u16,
        month,
        day: day_of_month,
    };
    let seconds = arrival.seconds().rem_euclid(86400) as u32;
    date_line(day.weekday(), date, seconds)
}
