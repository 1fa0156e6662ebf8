//! A stream of the system, and what its calls gave. No clause says what the toolchain's own calls give, so the bodies here only call them
//! and write down what came of it.
ghost use Rattle.std.specs.Prelude.{◌≡◌, ◌≤◌, ◌<◌, ◌+◌, length, take, IfOk, MatchResult};
ghost use Rattle.archive_listen.specs.Streams.{nothing_drained, empty_stream, after_read, after_drain, after_failed_drain, after_write};

use byte_device::{DeviceFailure, Transcript};
use std::io::{self, Read, Write};
use std::marker::Model;
use std::net::{OpenStream, Shutdown};
use std::time::Duration;

/// Whether what is read leaves the socket.
#[derive(Clone, Copy, Drop)]
pub(crate) enum Reading {
    /// It does.
    Takes,
    /// It stays, and the next read gives it again.
    Looks,
}

/// How often the system was asked to end a connection in order. Only `Stream::end` counts.
#[derive(Drop)]
pub(crate) struct Ends {
    told: Transcript,
}

impl Model for Ends {
    ghost use Rattle.std.specs.Prelude.{ℕ, length};

    ghost Value = { ℕ };

    ghost view = { λ e. length e.told.bytes };
}

impl Ends {
    /// Never yet.
    pub(crate) fn new() -> Ends
        ensures { result ≡ 0 }
    {
        Ends {
            told: Transcript::new(),
        }
    }
}

/// How many bytes left a socket, and how often none could be taken. Only `Stream::take` counts.
#[derive(Drop)]
pub(crate) struct Taken {
    bytes: Transcript,
    failed: Transcript,
}

impl Model for Taken {
    ghost use Rattle.std.specs.Prelude.{length};
    ghost use Rattle.archive_listen.specs.Streams.{DrainState};

    ghost Value = { DrainState };

    ghost view = { λ t. record { bytes = length t.bytes.bytes; failures = length t.failed.bytes } };
}

impl Taken {
    /// None yet.
    pub(crate) fn new() -> Taken
        ensures { result ≡ nothing_drained }
    {
        Taken {
            bytes: Transcript::new(),
            failed: Transcript::new(),
        }
    }
}

/// A stream of the system. Contracts see the bytes that looks at it gave, and those that it took.
#[derive(Drop)]
pub(crate) struct Stream<S> {
    inner: S,
    given: Transcript,
    took: Transcript,
}

impl<S> Model for Stream<S> {
    ghost use Rattle.archive_listen.specs.Streams.{StreamState};

    ghost Value = { StreamState };

    ghost view = { λ s. record { given = s.given.bytes; took = s.took.bytes } };
}

impl<S> Stream<S> {
    /// Nothing went over it yet.
    pub(crate) fn new(inner: S) -> Stream<S>
        ensures { result ≡ empty_stream }
    {
        Stream {
            inner,
            given: Transcript::new(),
            took: Transcript::new(),
        }
    }

    /// What looks at it gave.
    pub(crate) fn given(&self) -> &Transcript
        ensures { result.now.bytes ≡ self.now.given }
    {
        &self.given
    }

    /// What it took.
    pub(crate) fn took(&self) -> &Transcript
        ensures { result.now.bytes ≡ self.now.took }
    {
        &self.took
    }

    /// The stream of the system.
    pub(crate) fn into_inner(self) -> S {
        self.inner
    }
}

impl<S: Read + OpenStream> Stream<S> {
    /// One read, or one look, which may wait so long.
    pub(crate) fn read(
        &mut self,
        reading: Reading,
        wait: Duration,
        buffer: &mut [u8],
    ) -> io::Result<usize>
        ensures count { IfOk result (λ n. n ≤ length buffer.old) }
        ensures given { MatchResult result (λ n. self.new ≡ after_read reading (take n buffer.new) self.old)
            (λ _. self.new ≡ self.old) }
    {
        self.inner.set_read_timeout(Some(wait))?;
        match reading {
            Reading::Takes => self.inner.read(buffer),
            Reading::Looks => {
                let count = self.inner.peek(buffer)?;
                self.given.note(&buffer[..count]);
                Ok(count)
            }
        }
    }

    /// Takes what has come, of which there is some. No wait.
    pub(crate) fn take(
        &mut self,
        buffer: &mut [u8],
        taken: &mut Taken,
    ) -> Result<usize, DeviceFailure>
        ensures count { IfOk result (λ n. (0 < n) × (n ≤ length buffer.old)) }
        ensures same { self.new ≡ self.old }
        ensures taken { MatchResult result (λ n. taken.new ≡ after_drain n taken.old)
            (λ _. taken.new ≡ after_failed_drain taken.old) }
    {
        match self.inner.read(buffer) {
            Ok(count) if count > 0 => {
                taken.bytes.note(&buffer[..count]);
                Ok(count)
            }
            _ => {
                taken.failed.note(&[0]);
                Err(DeviceFailure)
            }
        }
    }
}

impl<S: Write + OpenStream> Stream<S> {
    /// One write, which may wait so long.
    pub(crate) fn write(&mut self, wait: Duration, bytes: &[u8]) -> io::Result<usize>
        ensures count { IfOk result (λ n. n ≤ length bytes.now) }
        ensures took { MatchResult result (λ n. self.new ≡ after_write (take n bytes.now) self.old)
            (λ _. self.new ≡ self.old) }
    {
        self.inner.set_write_timeout(Some(wait))?;
        let count = self.inner.write(bytes)?;
        self.took.note(&bytes[..count]);
        Ok(count)
    }
}

impl<S: OpenStream> Stream<S> {
    /// Ends what is written.
    pub(crate) fn end(&self, ended: &mut Ends) -> io::Result<()>
        ensures { ended.new ≡ ended.old + 1 }
    {
        ended.told.note(&[0]);
        self.inner.shutdown(Shutdown::Write)
    }
}
