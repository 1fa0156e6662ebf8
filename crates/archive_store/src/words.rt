//! The words in which the archive is told.
ghost use Rattle.std.specs.Prelude.{◌≡◌, pos};

use civil_time::{Day, Month};

/// The days from 1970-01-01 to a day.
pub(crate) fn day_number(day: Day) -> i64
    ensures { result ≡ day }
{
    i64::from(day.number())
}

/// The number of a month: year times 12 plus month less 1.
pub(crate) fn month_number(month: Month) -> i64
    ensures { result ≡ pos month }
{
    i64::from(month.index())
}
