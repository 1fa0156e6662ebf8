//! How long reads may wait.
ghost use Rattle.std.specs.Prelude.{◌≡◌, ◌≤◌, ◌<◌, ◌+◌, ◌-◌, max, min, length, take, Some, IfOk, IfSome, IsNone, MatchResult, ◌↔◌};
ghost use Rattle.archive_listen.specs.Streams.{empty_stream, after_read, after_drain, after_failed_drain, after_write};
ghost use Rattle.archive_listen.specs.Waits.{EndsWithinSpan, WaitsWithin, no_clock_calls};
ghost use Rattle.std.specs.Duration.{as_nanos};

use crate::streams::{Ends, Reading, Stream, Taken};
use crate::watch::Watch;
use byte_device::{DeviceFailure, Transcript};
use std::io::{ErrorKind, Read, Write};
use std::marker::Model;
use std::net::OpenStream;
use std::rt::Clock;
use std::time::{Duration, Instant};

/// The longest wait for some bytes, and the whole span of time that it lies in.
#[derive(Clone, Copy, Drop)]
pub(crate) struct Span {
    /// The longest wait.
    pub most: Duration,
    /// The whole span.
    pub whole: Duration,
}

/// How long the waits for one peer could take, each counted from its first one.
#[derive(Clone, Copy, Drop)]
pub(crate) struct Waited {
    /// Those for its request.
    pub head: Duration,
    /// Those for what it takes of its reply.
    pub reply: Duration,
    /// Those for what it sends past its head.
    pub rest: Duration,
}

/// How long a read may wait where so much of a whole span passed: at most `most`, and not past the span's end. None: it passed.
fn wait_after(most: Duration, whole: Duration, passed: Duration) -> Option<Duration>
    ensures over { IsNone result ↔ (as_nanos whole ≤ as_nanos passed) }
    ensures wait { IfSome result (λ d. as_nanos d ≡ min (as_nanos most)
        (as_nanos whole - as_nanos passed)) }
    ensures end { IfSome result (λ d. as_nanos passed + as_nanos d ≤ as_nanos whole) }
{
    let left = whole.checked_sub(passed)?;
    if left.is_zero() {
        return None;
    }
    if most.as_nanos() < left.as_nanos() {
        Some(most)
    } else {
        Some(left)
    }
}

/// A stream whose waits lie in spans of time, which begin when it is made or at its first wait. Contracts see when that is,
/// how long after it the last wait could end that the system was asked for, in nanoseconds, what went over the stream, and what the clock gave.
#[derive(Drop)]
pub(crate) struct Timed<'a, R, S> {
    watch: Watch<'a, R>,
    stream: Stream<S>,
    since: Option<Instant>,
    latest: Duration,
}

impl<'a, R, S> Model for Timed<'a, R, S> {
    ghost use Rattle.std.specs.Duration.{as_nanos};
    ghost use Rattle.archive_listen.specs.Waits.{TimedStreamState};

    ghost Value = { TimedStreamState };

    ghost view = { λ t. record {
      since = t.since;
      latest = as_nanos t.latest;
      stream = t.stream;
      clock = t.watch;
    } };
}

impl<'a, R: Clock, S> Timed<'a, R, S> {
    /// Nothing was waited for yet.
    pub(crate) fn new(clock: &'a R, stream: S, since: Option<Instant>) -> Timed<'a, R, S>
        ensures { result ≡ record { since = since; latest = 0; stream = empty_stream; clock = no_clock_calls } }
    {
        Timed {
            watch: Watch::new(clock),
            stream: Stream::new(stream),
            since,
            latest: Duration::ZERO,
        }
    }

    /// How long after its beginning the last wait could end.
    pub(crate) fn latest(&self) -> Duration
        ensures { as_nanos result ≡ self.now.latest }
    {
        self.latest
    }

    /// What looks at the stream gave.
    pub(crate) fn given(&self) -> &Transcript
        ensures { result.now.bytes ≡ self.now.stream.given }
    {
        self.stream.given()
    }

    /// What the stream took.
    pub(crate) fn took(&self) -> &Transcript
        ensures { result.now.bytes ≡ self.now.stream.took }
    {
        self.stream.took()
    }

    /// The stream.
    pub(crate) fn into_stream(self) -> S {
        self.stream.into_inner()
    }

    /// How long the next call may wait, which is written down. The clock is asked once. An error: the span has passed, or the clock failed.
    #[tactic(auto, using(crate::proofs::WaitLemmas::waits_none))]
    fn next_wait(&mut self, span: Span) -> Result<Duration, DeviceFailure>
        ensures waits { WaitsWithin (as_nanos span.whole) self.old self.new }
        ensures most { IfOk result (λ d. as_nanos d ≤ as_nanos span.most) }
        ensures clock { IfOk result (λ d. EndsWithinSpan (as_nanos span.whole) (as_nanos d) self.old self.new) }
        ensures same { self.new.stream ≡ self.old.stream }
    {
        let Some(now) = self.watch.now() else {
            return Err(DeviceFailure);
        };
        let since = first_of(self.since, now);
        self.since = Some(since);
        let passed = now.duration_since(since);
        let Some(wait) = wait_after(span.most, span.whole, passed) else {
            return Err(DeviceFailure);
        };
        let Some(end) = passed.checked_add(wait) else {
            return Err(DeviceFailure);
        };
        self.latest = later_of(self.latest, end);
        Ok(wait)
    }
}

/// The time that is there, or now.
fn first_of(since: Option<Instant>, now: Instant) -> Instant
    ensures kept { IfSome since (λ at. Some result ≡ Some at) }
    ensures first { IsNone since → result ≡ now }
{
    match since {
        Some(at) => at,
        None => now,
    }
}

/// The longer one of two.
fn later_of(first: Duration, second: Duration) -> Duration
    ensures { as_nanos result ≡ max (as_nanos first) (as_nanos second) }
{
    if first.as_nanos() < second.as_nanos() {
        second
    } else {
        first
    }
}

impl<'a, R: Clock, S: Read + OpenStream> Timed<'a, R, S> {
    /// One read within a span, made again where a signal interrupted it.
    #[tactic(auto, using(crate::proofs::WaitLemmas::waits_none, crate::proofs::WaitLemmas::waits_more))]
    pub(crate) fn read_within(
        &mut self,
        span: Span,
        reading: Reading,
        buffer: &mut [u8],
    ) -> Result<usize, DeviceFailure>
        ensures count { IfOk result (λ n. n ≤ length buffer.old) }
        ensures waits { WaitsWithin (as_nanos span.whole) self.old self.new }
        ensures given { MatchResult result (λ n. self.new.stream ≡ after_read reading (take n buffer.new) self.old.stream)
            (λ _. self.new.stream ≡ self.old.stream) }
    {
        for _ in 0..u64::MAX {
            let wait = self.next_wait(span)?;
            match self.stream.read(reading, wait, buffer) {
                Ok(count) => return Ok(count),
                Err(error) if error.kind() == ErrorKind::Interrupted => {}
                Err(_) => return Err(DeviceFailure),
            }
        }
        Err(DeviceFailure)
    }

    /// Takes what has come, of which there is some. No wait.
    pub(crate) fn take(
        &mut self,
        buffer: &mut [u8],
        taken: &mut Taken,
    ) -> Result<usize, DeviceFailure>
        ensures count { IfOk result (λ n. (0 < n) × (n ≤ length buffer.old)) }
        ensures same { self.new ≡ self.old }
        ensures taken { MatchResult result (λ n. taken.new ≡ after_drain n taken.old)
            (λ _. taken.new ≡ after_failed_drain taken.old) }
    {
        self.stream.take(buffer, taken)
    }

    /// Ends what is written. None: the stream failed.
    pub(crate) fn end(&self, ended: &mut Ends) -> Option<()>
        ensures { ended.new ≡ ended.old + 1 }
    {
        self.stream.end(ended).ok()
    }
}

impl<'a, R: Clock, S: Write + OpenStream> Timed<'a, R, S> {
    /// One write within a span, made again where a signal interrupted it.
    #[tactic(auto, using(crate::proofs::WaitLemmas::waits_none, crate::proofs::WaitLemmas::waits_more))]
    pub(crate) fn write_within(&mut self, span: Span, bytes: &[u8]) -> Result<usize, DeviceFailure>
        ensures count { IfOk result (λ n. n ≤ length bytes.now) }
        ensures waits { WaitsWithin (as_nanos span.whole) self.old self.new }
        ensures took { MatchResult result (λ n. self.new.stream ≡ after_write (take n bytes.now) self.old.stream)
            (λ _. self.new.stream ≡ self.old.stream) }
    {
        for _ in 0..u64::MAX {
            let wait = self.next_wait(span)?;
            match self.stream.write(wait, bytes) {
                Ok(count) => return Ok(count),
                Err(error) if error.kind() == ErrorKind::Interrupted => {}
                Err(_) => return Err(DeviceFailure),
            }
        }
        Err(DeviceFailure)
    }
}
