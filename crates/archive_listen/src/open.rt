//! Connections that stay open behind their reply, so that nobody waits until a peer has read it.
ghost use Rattle.std.specs.Prelude.{◌≡◌, ◌<◌, true, false};

use std::alloc::Global;
use std::io::Read;
use std::marker::Model;
use std::net::{OpenStream, Shutdown};
use std::rt::Clock;
use std::time::{Duration, Instant};

/// How many connections stay open at most.
pub const OPEN: usize = 16;

/// How long one stays open at most where others end behind it, in seconds.
const OPEN_SECONDS: u64 = 2;

/// How many reads take what has come of a peer at most before its connection is closed.
const LAST_READS: usize = 16;

/// A connection that ended, and when.
#[derive(Drop)]
struct Ended<S> {
    stream: S,
    at: Instant,
}

/// The last connections that ended, the oldest first. Contracts see how many.
#[derive(Drop)]
pub(crate) struct StillOpen<S> {
    ended: Vec<Ended<S>>,
}

impl<S> Model for StillOpen<S> {
    ghost use Rattle.std.specs.Prelude.{◌≤◌, ℕ, length};

    ghost Value = { ℕ };

    ghost view = { λ s. length s.ended.items };

    ghost invariant = { λ s. length s.ended.items ≤ 16 };
}

/// Closes a connection. What has come of its peer by now is read first, since the system resets a connection that is closed
/// over unread bytes, and its peer would lose what it has not read yet. No wait.
fn close<S: Read + OpenStream + Drop>(stream: S) {
    let mut stream = stream;
    if stream.shutdown(Shutdown::Read).is_err() {
        return;
    }
    for _ in 0..LAST_READS {
        match stream.read(&mut [0; 8192]) {
            Ok(count) if count > 0 => {}
            _ => return,
        }
    }
}

impl<S: Read + OpenStream + Drop> StillOpen<S> {
    /// None is open.
    pub(crate) fn new(alloc: Global) -> StillOpen<S> {
        StillOpen {
            ended: Vec::new(alloc),
        }
    }

    /// Keeps one more open, and closes those that were open long enough. Where memory is wanted, it is closed.
    pub(crate) fn keep<R: Clock>(&mut self, clock: &R, stream: S) {
        let Ok(at) = Instant::now(clock) else {
            return;
        };
        while self.has_to_close(at) {
            let oldest = self.ended.remove(0);
            close(oldest.stream);
        }
        let _ = self.ended.push(Ended { stream, at });
    }

    /// Whether the oldest has to make room for one that ends now.
    fn has_to_close(&self, now: Instant) -> bool
        ensures some { result ≡ true → 0 < self.now }
        ensures room { result ≡ false → self.now < 16 }
    {
        match self.ended.first() {
            Some(oldest) => {
                self.ended.len() == OPEN
                    || now.duration_since(oldest.at) >= Duration::from_secs(OPEN_SECONDS)
            }
            None => false,
        }
    }
}
