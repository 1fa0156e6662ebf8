//! Gathering what is written into large pieces.
ghost use Rattle.archive_listen.specs.Gathering.{slice_between};
ghost use Rattle.byte_device.specs.Device.{failures_of_write};
ghost use Rattle.std.specs.Prelude.{◌≡◌, ◌≤◌, ◌<◌, ◌+◌, ◌-◌, ◌++◌, [], length, min, take, refl, true, IfOk, IfErr, OnOk, OnErr, MatchResult};

use crate::connections::BufferedSink;
use byte_device::{DeviceFailure, Sink, Transcript, WriteFault, write_bytes};
use std::marker::Model;

/// How many bytes of a reply are held back at most.
pub const ROOM: usize = 16_384;

/// A sink whose bytes are passed on to another one in pieces of `N` bytes, and by `flush`. It takes no memory of its own.
#[derive(Drop)]
pub struct WriteBuffer<W, const N: usize> {
    inner: W,
    held: [u8; N],
    // Those from the first up to the last wait in `held`.
    first: usize,
    last: usize,
    faults: Transcript,
}

impl<W, const N: usize> Model for WriteBuffer<W, N> {
    ghost use Rattle.std.specs.Prelude.{◌≤◌, ◌<◌, ◌-◌, length};
    ghost use Rattle.archive_listen.specs.Gathering.{WriteBufferState, slice_between};

    ghost Value = { WriteBufferState W };

    ghost view = { λ g. record {
      inner = g.inner;
      held = slice_between g.first g.last g.held;
      free = N - g.last;
      failures = length g.faults.bytes;
    } };

    ghost invariant = { λ g. (0 < N) × (g.first ≤ g.last) × (g.last ≤ N) };
}

/// Copies the beginning of the bytes behind the first `at` of the room, as many as fit, and answers how many.
fn fill<const N: usize>(room: &mut [u8; N], at: usize, bytes: &[u8]) -> usize
    requires { at ≤ N }
    ensures count { result ≡ min (length bytes.now) (N - at) }
    ensures filled { take (at + result) room.new ≡ take at room.old ++ take result bytes.now }
{
    let room = &mut room[..];
    let count = bytes.len().min(N - at);
    room[at..at + count].copy_from_slice(&bytes[..count]);
    count
}

/// Writes what lies in the room from the first place up to the last.
fn write_rest<W: Sink>(
    out: &mut W,
    room: &[u8],
    first: usize,
    last: usize,
) -> Result<(), WriteFault>
    requires order { first ≤ last }
    requires within { last ≤ length room.now }
    ensures ok { OnOk result (W.told out.new ≡ W.told out.old ++ slice_between first last room.now) }
    ensures fault { IfErr result (λ e. (e.written ≤ last - first)
        × (W.told out.new ++ slice_between (first + e.written) last room.now ≡ W.told out.old ++ slice_between first last room.now)) }
{
    match write_bytes(out, &room[first..last]) {
        Ok(()) => Ok(()),
        Err(fault) => Err(fault),
    }
}

impl<W, const N: usize> WriteBuffer<W, N> {
    /// Nothing is held back yet, and some room is there.
    pub fn new(inner: W) -> WriteBuffer<W, N>
        requires { 0 < N }
        ensures { result ≡ record { inner = inner; held = []; free = N; failures = 0 } }
    {
        WriteBuffer {
            inner,
            held: [0; N],
            first: 0,
            last: 0,
            faults: Transcript::new(),
        }
    }

    /// The sink that bytes were passed on to. What is still held back is lost.
    pub fn into_inner(self) -> W
        ensures { result ≡ self.inner }
    {
        self.inner
    }
}

impl<W: Sink, const N: usize> WriteBuffer<W, N> {
    /// Passes on what is held back, or a beginning of it where that fails.
    fn pass_on(&mut self) -> Result<(), DeviceFailure>
        ensures told { W.told self.new.inner ++ self.new.held ≡ W.told self.old.inner ++ self.old.held }
        ensures ok { OnOk result ((self.new.held ≡ []) × (self.new.free ≡ N)) }
        ensures quiet { OnOk result (self.new.failures ≡ self.old.failures) }
        ensures cause { OnErr result (self.new.failures ≡ self.old.failures + 1) }
    {
        match write_rest(&mut self.inner, &self.held[..], self.first, self.last) {
            Ok(()) => {
                self.first = 0;
                self.last = 0;
                Ok(())
            }
            Err(fault) => {
                self.first += fault.written as usize;
                self.faults.note(&[0]);
                Err(DeviceFailure)
            }
        }
    }
}

impl<W: Sink, const N: usize> WriteBuffer<W, N> {
    /// Sees to it that one byte more can be held back.
    fn make_room(&mut self) -> Result<(), DeviceFailure>
        ensures told { W.told self.new.inner ++ self.new.held ≡ W.told self.old.inner ++ self.old.held }
        ensures ok { OnOk result (0 < self.new.free) }
        ensures quiet { OnOk result (self.new.failures ≡ self.old.failures) }
        ensures cause { OnErr result (self.new.failures ≡ self.old.failures + 1) }
    {
        if self.last == N {
            self.pass_on()
        } else {
            Ok(())
        }
    }
}

impl<W: Sink, const N: usize> WriteBuffer<W, N> {
    /// Whether nothing is held back.
    fn is_empty(&self) -> bool
        ensures { result ≡ true → self.now.held ≡ [] }
    {
        self.first == self.last
    }

    /// Passes bytes on without a copy of them.
    fn write_through(&mut self, bytes: &[u8]) -> Result<usize, DeviceFailure>
        ensures count { IfOk result (λ n. n ≤ length bytes.now) }
        ensures bytes { MatchResult result
            (λ n. W.told self.new.inner ≡ W.told self.old.inner ++ take n bytes.now)
            (λ _. W.told self.new.inner ≡ W.told self.old.inner) }
        ensures held { self.new.held ≡ self.old.held }
        ensures faults { self.new.failures ≡ self.old.failures + failures_of_write bytes.now result }
    {
        let written = self.inner.write(bytes);
        if !matches!(written, Ok(count) if count > 0 || bytes.is_empty()) {
            self.faults.note(&[0]);
        }
        written
    }
}

impl<W: Sink, const N: usize> Sink for WriteBuffer<W, N> {
    ghost told = { λ g. W.told g.inner ++ g.held };

    ghost failures = { λ g. g.failures };

    fn write(&mut self, bytes: &[u8]) -> Result<usize, DeviceFailure> {
        if bytes.len() >= N && self.is_empty() {
            return self.write_through(bytes);
        }
        self.make_room()?;
        let count = fill(&mut self.held, self.last, bytes);
        self.last += count;
        Ok(count)
    }
}

impl<W: Sink, const N: usize> BufferedSink for WriteBuffer<W, N> {
    ghost sent = { λ g. W.told g.inner };

    fn flush(&mut self) -> Result<(), DeviceFailure> {
        self.pass_on()
    }

    ghost begins = { λ g. (g.held, refl) };
}
