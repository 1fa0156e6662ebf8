//! The Gregorian calendar: from year, month and day to the number of the day.
ghost use Rattle.std.specs.Prelude.{◌≡◌};
ghost use Rattle.civil_time.specs.Calendar.{checked_day_number};

use jiff::civil::Date;

/// The day number of a date in the years 0 to 9999, from 1970-01-01. `None` where the month lacks that day.
pub fn day_number(year: u16, month: u8, day: u8) -> Option<i32>
    ensures { result ≡ checked_day_number year month day }
{
    if year > 9999 || month > 12 || day > 31 {
        return None;
    }
    match Date::new(year as i16, month as i8, day as i8) {
        Ok(date) => Some(date.to_plain().to_unix_epoch_day()),
        Err(_) => None,
    }
}
