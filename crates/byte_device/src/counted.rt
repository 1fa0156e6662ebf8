//! A reader or a writer of std as a device.
ghost use Rattle.std.specs.Prelude.{◌≡◌, ◌≤◌, ◌+◌, ◌++◌, [], length, take, IfOk, OnErr, MatchResult};
ghost use Rattle.std.specs.Io.KnownBytes.{ReadConsumes, WriteAppends};
ghost use Rattle.byte_device.specs.Device.{ends_met_by_read, failures_of_read, failures_of_write};

use crate::{DeviceFailure, Sink, Source, Transcript};
use std::io::{ErrorKind, Read, Write};
use std::marker::Model;

/// A reader or a writer with the bytes that it told, its ends and its failures, which take no room.
/// A call that a signal interrupted is made again, and is no failure.
#[derive(Drop)]
pub struct Counted<D> {
    inner: D,
    told: Transcript,
    ends: Transcript,
    faults: Transcript,
}

impl<D> Model for Counted<D> {
    ghost use Rattle.std.specs.Prelude.{length};
    ghost use Rattle.byte_device.specs.Device.{CountedState};

    ghost Value = { CountedState D };

    ghost view = { λ c. record {
      inner = c.inner;
      told = c.told.bytes;
      failures = length c.faults.bytes;
      ends = length c.ends.bytes;
    } };
}

impl<D> Counted<D> {
    /// The device that nothing was read from or written to yet.
    pub fn new(inner: D) -> Counted<D>
        ensures { result ≡ record { inner = inner; told = []; failures = 0; ends = 0 } }
    {
        Counted {
            inner,
            told: Transcript::new(),
            ends: Transcript::new(),
            faults: Transcript::new(),
        }
    }
}

/// One read, made again where a signal interrupted it.
fn read_through<D: Read>(inner: &mut D, buffer: &mut [u8]) -> Result<usize, DeviceFailure>
    ensures count { IfOk result (λ n. n ≤ length buffer.old) }
    ensures inner { ReadConsumes (D.remaining inner.old) (D.remaining inner.new) result buffer.new }
{
    for _ in 0..u64::MAX {
        match inner.read(buffer) {
            Ok(count) => return Ok(count),
            Err(error) if error.kind() == ErrorKind::Interrupted => {}
            Err(_) => return Err(DeviceFailure),
        }
    }
    Err(DeviceFailure)
}

/// One write, made again where a signal interrupted it.
fn write_through<D: Write>(inner: &mut D, bytes: &[u8]) -> Result<usize, DeviceFailure>
    ensures count { IfOk result (λ n. n ≤ length bytes.now) }
    ensures inner { WriteAppends (D.contents inner.old) (D.contents inner.new) result bytes.now }
{
    for _ in 0..u64::MAX {
        match inner.write(bytes) {
            Ok(count) => return Ok(count),
            Err(error) if error.kind() == ErrorKind::Interrupted => {}
            Err(_) => return Err(DeviceFailure),
        }
    }
    Err(DeviceFailure)
}

impl<D: Read> Source for Counted<D> {
    ghost told = { λ c. c.told };

    ghost failures = { λ c. c.failures };

    ghost ends = { λ c. c.ends };

    // The last clause is beyond the trait's: where the inner reader states the bytes that it has left, those are the ones told.
    fn read(&mut self, buffer: &mut [u8]) -> Result<usize, DeviceFailure>
        ensures count { IfOk result (λ n. n ≤ length buffer.old) }
        ensures bytes { MatchResult result
            (λ n. self.new.told ≡ self.old.told ++ take n buffer.new)
            (λ _. self.new.told ≡ self.old.told) }
        ensures faults { self.new.failures ≡ self.old.failures + failures_of_read result }
        ensures end { self.new.ends ≡ self.old.ends + ends_met_by_read buffer.old result }
        ensures inner { ReadConsumes (D.remaining self.old.inner) (D.remaining self.new.inner) result buffer.new }
    {
        match read_through(&mut self.inner, buffer) {
            Ok(count) => {
                if count == 0 && !buffer.is_empty() {
                    self.ends.note(&[0]);
                }
                self.told.note(&buffer[..count]);
                Ok(count)
            }
            Err(failure) => {
                self.faults.note(&[0]);
                Err(failure)
            }
        }
    }
}

impl<D: Write> Sink for Counted<D> {
    ghost told = { λ c. c.told };

    ghost failures = { λ c. c.failures };

    // The last clause is beyond the trait's: where the inner writer states the bytes that it holds, it gained those told.
    fn write(&mut self, bytes: &[u8]) -> Result<usize, DeviceFailure>
        ensures count { IfOk result (λ n. n ≤ length bytes.now) }
        ensures bytes { MatchResult result
            (λ n. self.new.told ≡ self.old.told ++ take n bytes.now)
            (λ _. self.new.told ≡ self.old.told) }
        ensures faults { self.new.failures ≡ self.old.failures + failures_of_write bytes.now result }
        ensures inner { WriteAppends (D.contents self.old.inner) (D.contents self.new.inner) result bytes.now }
    {
        match write_through(&mut self.inner, bytes) {
            Ok(count) => {
                if count == 0 && !bytes.is_empty() {
                    self.faults.note(&[0]);
                }
                self.told.note(&bytes[..count]);
                Ok(count)
            }
            Err(failure) => {
                self.faults.note(&[0]);
                Err(failure)
            }
        }
    }
}
