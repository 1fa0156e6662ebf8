//! A socket in which the bytes that were read last stay until they are taken.
ghost use Rattle.std.specs.Prelude.{◌≡◌, ◌≤◌, ◌+◌, length, take, IfOk, OnOk, MatchResult};
ghost use Rattle.std.specs.Duration.{as_nanos};
ghost use Rattle.archive_listen.specs.Streams.{DrainsSeenBytes, after_peek};
ghost use Rattle.archive_listen.specs.Waits.{WaitsWithin};

use crate::streams::{Ends, Reading, Taken};
use crate::waiting::{Span, Timed};
use byte_device::{DeviceFailure, Transcript};
use std::io::Read;
use std::net::OpenStream;
use std::rt::Clock;
use std::time::Duration;

/// How many bytes are taken at once.
const TAKEN: usize = 8192;

/// A socket whose last read only looked: what it gave is unread, and the system resets a connection that is closed so.
#[derive(Drop)]
pub(crate) struct Peeked<'a, R, S> {
    stream: Timed<'a, R, S>,
    unread: usize,
    taken: Taken,
}

impl<'a, R: Clock, S: Read + OpenStream> Peeked<'a, R, S> {
    /// Nothing was read yet.
    pub(crate) fn new(stream: Timed<'a, R, S>) -> Peeked<'a, R, S>
        ensures { result.stream ≡ stream.entry }
    {
        Peeked {
            stream,
            unread: 0,
            taken: Taken::new(),
        }
    }

    /// The next bytes, within a span. They stay in the socket; those that the look before gave are taken first.
    #[tactic(auto, using(crate::proofs::WaitLemmas::waits_none))]
    pub(crate) fn look_on(&mut self, span: Span, buffer: &mut [u8]) -> Result<usize, DeviceFailure>
        ensures count { IfOk result (λ n. n ≤ length buffer.old) }
        ensures waits { WaitsWithin (as_nanos span.whole) self.old.stream self.new.stream }
        ensures taken { OnOk result (self.new.taken.bytes ≡ self.old.taken.bytes + self.old.unread) }
        ensures unread { IfOk result (λ n. self.new.unread ≡ n) }
        ensures given { MatchResult result (λ n. self.new.stream.stream ≡ after_peek (take n buffer.new) self.old.stream.stream)
            (λ _. self.new.stream.stream ≡ self.old.stream.stream) }
    {
        self.take_seen()?;
        let count = self.stream.read_within(span, Reading::Looks, buffer)?;
        self.unread = count;
        Ok(count)
    }

    /// Takes what was seen, and nothing behind it. No wait: it has come.
    fn take_seen(&mut self) -> Result<(), DeviceFailure>
        ensures same { self.new.stream ≡ self.old.stream }
        ensures taken { OnOk result (self.new.taken.bytes ≡ self.old.taken.bytes + self.old.unread) }
    {
        if self.unread == 0 {
            return Ok(());
        }
        let mut taken = [0; TAKEN];
        while self.unread > 0 {
            let most = self.unread.min(TAKEN);
            self.unread -= self.stream.take(&mut taken[..most], &mut self.taken)?;
        }
        Ok(())
    }

    /// Ends what is written, and takes what was seen. Whether more came behind it, of which some is taken too. None: the
    /// socket failed. No wait.
    pub(crate) fn end(&mut self, ended: &mut Ends) -> Option<bool>
        ensures counted { ended.new ≡ ended.old + 1 }
        ensures taken { DrainsSeenBytes self.old.unread self.old.taken self.new.taken }
    {
        let shut = self.stream.end(ended);
        let mut taken = [0; TAKEN];
        let mut more = false;
        while self.unread > 0 {
            let count = self.stream.take(&mut taken, &mut self.taken).ok()?;
            more = count > self.unread;
            self.unread = self.unread.saturating_sub(count);
        }
        shut.map(|()| more)
    }

    /// How long after its beginning the last wait could end.
    pub(crate) fn latest(&self) -> Duration
        ensures { as_nanos result ≡ self.now.stream.latest }
    {
        self.stream.latest()
    }

    /// What looks at it gave.
    pub(crate) fn given(&self) -> &Transcript
        ensures { result.now.bytes ≡ self.now.stream.stream.given }
    {
        self.stream.given()
    }

    /// The socket.
    pub(crate) fn into_stream(self) -> S {
        self.stream.into_stream()
    }
}
