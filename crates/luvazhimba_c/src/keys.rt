//! Keys that the caller chose for hash maps.
use std::hash::RandomState;
use std::io;
use std::random::RandomSource;

/// Sixteen bytes, given again and again.
#[derive(Drop)]
struct Keys {
    bytes: [u8; 16],
}

impl RandomSource for Keys {
    fn fill_bytes(&self, buf: &mut [u8]) -> io::Result<()> {
        for at in 0..buf.len() {
            buf[at] = self.bytes[at % 16];
        }
        Ok(())
    }
}

/// The state of hash maps with these keys. No answer depends on it, only the time does.
pub(crate) fn state_of(key0: u64, key1: u64) -> Option<RandomState> {
    let both = u128::from(key0) | (u128::from(key1) << 64);
    let keys = Keys {
        bytes: both.to_le_bytes(),
    };
    RandomState::new(&keys).ok()
}
