//! A service that counts what it answers.
ghost use Rattle.std.specs.Prelude.{⊤};

use archive_listen::{ConnectionError, Service};
use mbox_core::device::{Sink, Source, write_bytes};

/// Replies to a request that begins with `GET`.
pub const FOUND: &[u8] = b"200 yes\n";

/// Replies to a request that begins with `BREAK`, and breaks off.
pub const BEGUN: &[u8] = b"200 ye";

/// Replies to any other.
pub const MISSED: &[u8] = b"404 no\n";

/// Replies to a request that begins with `LONG`: more than what is held back at once, and than one piece of it.
pub const LONG: &[u8] = &[b'l'; 40_000];

/// What is told of a request, and what it gets.
fn reply_to(request: &[u8]) -> (Result<u16, ConnectionError>, &'static [u8]) {
    if request.starts_with(b"GET") {
        (Ok(200), FOUND)
    } else if request.starts_with(b"LONG") {
        (Ok(200), LONG)
    } else if request.starts_with(b"BREAK") {
        (Err(ConnectionError::Broken), BEGUN)
    } else {
        (Ok(404), MISSED)
    }
}

/// It reads up to 64 bytes once, and counts the requests that begin with `GET`.
#[derive(Drop)]
pub struct Words {
    /// How many such requests came so far.
    pub found: u32,
}

impl Service<u32> for Words {
    ghost answers = { λ _ _ _ _ _ _ _. ⊤ };

    fn answer<R: Source, W: Sink>(
        &mut self,
        state: &mut u32,
        input: &mut R,
        output: &mut W,
    ) -> Result<u16, ConnectionError> {
        let mut buffer = [0; 64];
        let Ok(count) = input.read(&mut buffer) else {
            return Err(ConnectionError::Read);
        };
        *state = state.saturating_add(1);
        let (told, reply) = reply_to(&buffer[..count]);
        if told == Ok(200) {
            self.found = self.found.saturating_add(1);
        }
        match write_bytes(output, reply) {
            Ok(()) => told,
            Err(_) => Err(ConnectionError::Write),
        }
    }
}
