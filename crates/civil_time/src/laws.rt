//! What holds of the calendar: each contract is a law over the definitions of `specs/` alone, and
//! no call does anything.
ghost use Rattle.std.specs.Prelude.{◌≡◌, ℕ, ℤ, pos, true, Some};
ghost use Rattle.civil_time.specs.Calendar.{is_day, is_month, is_instant, day_of_date, day_of_text, month_of_text, month_of_instant};
ghost use Rattle.civil_time.specs.Dates.{date_of_day};
ghost use Rattle.civil_time.specs.Texts.{day_text, month_text, instant_month_text};

/// The number of a date, and the date that comes so many days later, are one calendar: each day has
/// one date, and that date is the day's.
pub fn each_day_has_one_date()
    ensures date { (day : ℤ) → is_day day ≡ true →
        day_of_date (pos (date_of_day day).year) (date_of_day day).month (date_of_day day).day ≡ Some day }
    ensures alone { (year month in_month : ℕ) (day : ℤ) → day_of_date (pos year) month in_month ≡ Some day →
        date_of_day day ≡ record { year = year; month = month; day = in_month } }
{}

/// What is written of a day, of a month and of the month of an instant is read again.
pub fn texts_round_trip()
    ensures day { (day : ℤ) → is_day day ≡ true → day_of_text (day_text day) ≡ Some day }
    ensures month { (month : ℕ) → is_month month ≡ true → month_of_text (month_text month) ≡ Some month }
    ensures instant { (instant : ℤ) → is_instant instant ≡ true →
        month_of_text (instant_month_text instant) ≡ Some (month_of_instant instant) }
{}
