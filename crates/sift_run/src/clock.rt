//! The day: whoever tells it, and a system's clock.
ghost use Rattle.std.specs.Prelude.{◌≡◌};
ghost use Rattle.sift_run.specs.Systems.{day_of_unix_seconds};

use crate::system::HasClock;
use civil_time::{Day, Instant};

/// Whoever knows which day it is, in UTC. `None`: it does not.
pub trait DayClock {
    ghost use Rattle.std.specs.Prelude.{ℤ, Option, ⊤};

    // Holds of a clock before it is asked and after, and of its answer: a day number from 1970-01-01.
    ghost gives: { Self → Self → Option ℤ → Type 0 } = { λ _ _ _. ⊤ };

    fn today(&mut self) -> Option<Day>
        ensures { gives self.old self.new result };
}

/// A system's clock.
#[derive(Drop)]
pub struct SystemClock<'a, R> {
    /// The system that is asked for the time.
    pub rt: &'a R,
}

/// The day of so many seconds after 1970-01-01 00:00:00 UTC. `None` after the year 9998.
fn day_at(seconds: u64) -> Option<Day>
    ensures { result ≡ day_of_unix_seconds seconds }
{
    let seconds = i64::try_from(seconds).ok()?;
    Some(Instant::new(seconds)?.day())
}

impl<'a, R: HasClock> DayClock for SystemClock<'a, R> {
    ghost use Rattle.std.specs.Prelude.{◌≡◌};
    ghost use Rattle.sift_run.specs.Systems.{IsToday};

    ghost gives = { λ old new day. (new ≡ old) × IsToday R.tells old.rt.now day };

    fn today(&mut self) -> Option<Day> {
        day_at(self.rt.seconds()?)
    }
}
