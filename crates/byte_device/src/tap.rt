//! The failing device of tests.
ghost use Rattle.std.specs.Prelude.{◌≡◌, ◌≤◌, ◌+◌, ◌-◌, ◌++◌, ◌↔◌, [], length, take, drop, min, vec_len, vec_capacity, IsErr, IfOk, MatchResult};
ghost use Rattle.byte_device.specs.Device.{ExceedsByteLimit, ends_met_by_read, failures_of_read, failures_of_write};

use crate::{DeviceFailure, Sink, Source, Transcript};
use mail_core::Memory;
use std::alloc::Global;
use std::marker::Model;

/// A source of some bytes, or a sink that adds to them. It passes so many bytes, and then each call that
/// asks for a byte fails.
#[derive(Drop)]
pub struct Tap {
    held: Vec<u8>,
    at: usize,
    left: usize,
    read: Transcript,
    written: Transcript,
    faults: Transcript,
    ends: Transcript,
}

impl Model for Tap {
    ghost use Rattle.std.specs.Prelude.{◌≤◌, ◌+◌, length, vec_len, vec_capacity};
    ghost use Rattle.byte_device.specs.Device.{TapState};

    ghost Value = { TapState };

    ghost view = { λ t. record {
      text = t.held.items;
      at = t.at;
      left = t.left;
      read = t.read.bytes;
      written = t.written.bytes;
      failures = length t.faults.bytes;
      ends = length t.ends.bytes;
    } };

    ghost invariant = { λ t. (t.at ≤ vec_len t.held) × (vec_len t.held + t.left ≤ vec_capacity t.held) };
}

impl Tap {
    /// A device of these bytes that passes `passes` bytes. Memory: its copy of the bytes, with room for
    /// `passes` more, was refused.
    pub fn new(alloc: Global, bytes: &[u8], passes: usize) -> Result<Tap, Memory>
        ensures { IfOk result (λ t. t ≡ record {
          text = bytes.now;
          at = 0;
          left = passes;
          read = [];
          written = [];
          failures = 0;
          ends = 0;
        }) }
    {
        let mut held = Vec::new(alloc);
        held.extend_from_slice(bytes)?;
        held.reserve_exact(passes)?;
        Ok(Tap {
            held,
            at: 0,
            left: passes,
            read: Transcript::new(),
            written: Transcript::new(),
            faults: Transcript::new(),
            ends: Transcript::new(),
        })
    }

    /// The bytes that it was made of, and those that were written since.
    pub fn bytes(&self) -> &[u8]
        ensures { result.now ≡ self.now.text }
    {
        self.held.as_slice()
    }
}

impl Source for Tap {
    ghost told = { λ t. t.read };

    ghost failures = { λ t. t.failures };

    ghost ends = { λ t. t.ends };

    // Beyond the trait's clauses: it fails just where no byte may pass, and else gives as many of the text's as it can.
    fn read(&mut self, buffer: &mut [u8]) -> Result<usize, DeviceFailure>
        ensures count { IfOk result (λ n. n ≤ length buffer.old) }
        ensures bytes { MatchResult result
            (λ n. self.new.read ≡ self.old.read ++ take n buffer.new)
            (λ _. self.new.read ≡ self.old.read) }
        ensures faults { self.new.failures ≡ self.old.failures + failures_of_read result }
        ensures end { self.new.ends ≡ self.old.ends + ends_met_by_read buffer.old result }

        ensures stopped { IsErr result ↔ ExceedsByteLimit self.old buffer.old }
        ensures most { IfOk result (λ n. n ≡ min (min (length buffer.old) (length self.old.text - self.old.at)) self.old.left) }
        ensures given { IfOk result (λ n. take n buffer.new ≡ take n (drop self.old.at self.old.text)) }
        ensures at { MatchResult result (λ n. self.new.at ≡ self.old.at + n) (λ _. self.new.at ≡ self.old.at) }
        ensures left { MatchResult result (λ n. self.new.left ≡ self.old.left - n) (λ _. self.new.left ≡ self.old.left) }
        ensures text { self.new.text ≡ self.old.text }
        ensures written { self.new.written ≡ self.old.written }
    {
        if self.left == 0 && !buffer.is_empty() {
            self.faults.note(&[0]);
            return Err(DeviceFailure);
        }
        let from = self.at;
        let count = buffer.len().min(self.held.len() - from).min(self.left);
        buffer[..count].copy_from_slice(&self.held[from..from + count]);
        self.at += count;
        self.left -= count;
        if count == 0 && !buffer.is_empty() {
            self.ends.note(&[0]);
        }
        self.read.note(&buffer[..count]);
        Ok(count)
    }
}

impl Sink for Tap {
    ghost told = { λ t. t.written };

    ghost failures = { λ t. t.failures };

    // Beyond the trait's clauses: it fails just where no byte may pass, and else takes as many as it can.
    fn write(&mut self, bytes: &[u8]) -> Result<usize, DeviceFailure>
        ensures count { IfOk result (λ n. n ≤ length bytes.now) }
        ensures bytes { MatchResult result
            (λ n. self.new.written ≡ self.old.written ++ take n bytes.now)
            (λ _. self.new.written ≡ self.old.written) }
        ensures faults { self.new.failures ≡ self.old.failures + failures_of_write bytes.now result }

        ensures stopped { IsErr result ↔ ExceedsByteLimit self.old bytes.now }
        ensures most { IfOk result (λ n. n ≡ min (length bytes.now) self.old.left) }
        ensures text { MatchResult result
            (λ n. self.new.text ≡ self.old.text ++ take n bytes.now)
            (λ _. self.new.text ≡ self.old.text) }
        ensures left { MatchResult result (λ n. self.new.left ≡ self.old.left - n) (λ _. self.new.left ≡ self.old.left) }
        ensures at { self.new.at ≡ self.old.at }
        ensures read { self.new.read ≡ self.old.read }
        ensures ends { self.new.ends ≡ self.old.ends }
    {
        let count = bytes.len().min(self.left);
        if (count == 0 && !bytes.is_empty())
            || self.held.extend_from_slice(&bytes[..count]).is_err()
        {
            self.faults.note(&[0]);
            return Err(DeviceFailure);
        }
        self.left -= count;
        self.written.note(&bytes[..count]);
        Ok(count)
    }
}
