//! A clock, and what its calls gave. No clause says what the toolchain's clock gives, so the body here only asks it and writes down what
//! came of it.
ghost use Rattle.std.specs.Prelude.{◌≡◌};
ghost use Rattle.archive_listen.specs.Waits.{after_clock_call, no_clock_calls};

use byte_device::Transcript;
use std::marker::Model;
use std::rt::Clock;
use std::time::Instant;

/// A clock. Contracts see how often it was asked, and the time that it gave last.
#[derive(Drop)]
pub(crate) struct Watch<'a, R> {
    clock: &'a R,
    calls: Transcript,
    time: Option<Instant>,
}

impl<'a, R> Model for Watch<'a, R> {
    ghost use Rattle.std.specs.Prelude.{length};
    ghost use Rattle.archive_listen.specs.Waits.{ClockState};

    ghost Value = { ClockState };

    ghost view = { λ w. record { calls = length w.calls.bytes; time = w.time } };
}

impl<'a, R: Clock> Watch<'a, R> {
    /// The clock was not asked yet.
    pub(crate) fn new(clock: &'a R) -> Watch<'a, R>
        ensures { result ≡ no_clock_calls }
    {
        Watch {
            clock,
            calls: Transcript::new(),
            time: None,
        }
    }

    /// The time. None: the clock failed.
    pub(crate) fn now(&mut self) -> Option<Instant>
        ensures { self.new ≡ after_clock_call result self.old }
    {
        self.calls.note(&[0]);
        let now = Instant::now(self.clock).ok()?;
        self.time = Some(now);
        Some(now)
    }
}
