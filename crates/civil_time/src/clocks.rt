//! Times of day, as seconds since 00:00:00.
ghost use Rattle.std.specs.Prelude.{◌≡◌, ◌<◌, IfSome};
ghost use Rattle.civil_time.specs.Clock.{seconds_since_midnight};

/// The seconds since 00:00:00 of a time of day. `None` where the hour is past 23, the minute past 59 or the second past 60. A
/// second 60 is read as 59.
pub fn seconds_of_day(hour: u8, minute: u8, second: u8) -> Option<u32>
    ensures value { result ≡ seconds_since_midnight hour minute second }
    ensures bound { IfSome result (λ n. n < 86_400) }
{
    if hour > 23 || minute > 59 || second > 60 {
        return None;
    }
    Some(3600 * hour as u32 + 60 * minute as u32 + second.min(59) as u32)
}
