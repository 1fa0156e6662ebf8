//! What is read from and what is written to.
ghost use Rattle.std.specs.Prelude.{◌≡◌, ◌≤◌, ◌+◌, ◌++◌, ℕ, List, length, take, IfOk, MatchResult};
ghost use Rattle.byte_device.specs.Device.{ends_met_by_read, failures_of_read, failures_of_write};

/// A device failed.
#[derive(Debug, Clone, Copy, PartialEq, Eq, Drop)]
pub struct DeviceFailure;

/// What is read from. Its text ends at the first read that gives no byte for a buffer with room.
pub trait Source {
    // The bytes that its reads gave so far.
    ghost told: { Self → List ℕ };

    // How often a read failed.
    ghost failures: { Self → ℕ };

    // How often a read gave no byte for a buffer with room.
    ghost ends: { Self → ℕ };

    /// Reads some bytes into the beginning of the buffer, and answers how many. A failed read gives none.
    fn read(&mut self, buffer: &mut [u8]) -> Result<usize, DeviceFailure>
        ensures count { IfOk result (λ n. n ≤ length buffer.old) }
        ensures bytes { MatchResult result
            (λ n. told self.new ≡ told self.old ++ take n buffer.new)
            (λ _. told self.new ≡ told self.old) }
        ensures faults { failures self.new ≡ failures self.old + failures_of_read result }
        ensures end { ends self.new ≡ ends self.old + ends_met_by_read buffer.old result };
}

/// What is written to.
pub trait Sink {
    // The bytes that its writes took so far.
    ghost told: { Self → List ℕ };

    // How often a write failed, or took no byte of some.
    ghost failures: { Self → ℕ };

    /// Writes some bytes of the beginning, and answers how many. A failed write took none.
    fn write(&mut self, bytes: &[u8]) -> Result<usize, DeviceFailure>
        ensures count { IfOk result (λ n. n ≤ length bytes.now) }
        ensures bytes { MatchResult result
            (λ n. told self.new ≡ told self.old ++ take n bytes.now)
            (λ _. told self.new ≡ told self.old) }
        ensures faults { failures self.new ≡ failures self.old + failures_of_write bytes.now result };
}
