//! Reading a whole text in.
ghost use Rattle.std.specs.Prelude.{◌≡◌, ◌≤◌, ◌<◌, ◌+◌, ◌++◌, ℕ, List, length, Err, IfOk, OnOk, OnErr, vec_capacity};

use crate::Source;
use std::alloc::{AllocError, Global};

/// How many bytes one read asks for.
const PIECE: usize = 131_072;

/// The most room that one growth adds, in bytes, so that little memory is taken beyond the text's own.
const MOST_ROOM: usize = 33_554_432;

/// Why a text was not read to its end.
#[derive(Debug, Clone, Copy, PartialEq, Eq, Drop)]
pub enum ReadError {
    /// A read failed.
    Read,
    /// No memory was left for the text.
    Memory,
}

/// Adds bytes to a text, which grows by large steps.
fn append(text: &mut Vec<u8>, bytes: &[u8]) -> Result<(), AllocError>
    ensures ok { OnOk result (text.new.items ≡ text.old.items ++ bytes.now) }
{
    if text.capacity() - text.len() < bytes.len() {
        text.reserve_exact(text.len().clamp(PIECE, MOST_ROOM))?;
    }
    text.extend_from_slice(bytes)
}

/// Reads to the source's end, which is the first read that gives no byte. Read: a read failed. Memory: the
/// text's growth was refused. After either, what was read is lost.
pub fn read_all<R: Source>(alloc: Global, input: &mut R) -> Result<Vec<u8>, ReadError>
    ensures text { IfOk result (λ text. R.told input.new ≡ R.told input.old ++ text.items) }
    ensures end { OnOk result (R.ends input.new ≡ R.ends input.old + 1) }
    ensures quiet { OnOk result (R.failures input.new ≡ R.failures input.old) }

    ensures part { OnErr result ((xs : List ℕ) × (R.told input.new ≡ R.told input.old ++ xs)) }
    ensures read { result ≡ Err ReadError.Read → R.failures input.old < R.failures input.new }
    ensures memory { result ≡ Err ReadError.Memory → R.failures input.new ≡ R.failures input.old }
{
    let mut text = Vec::new(alloc);
    let mut piece = [0u8; PIECE];
    for _ in 0..u64::MAX {
        let count = match input.read(&mut piece) {
            Ok(count) => count,
            Err(_) => return Err(ReadError::Read),
        };
        if count == 0 {
            return Ok(text);
        }
        if append(&mut text, &piece[..count]).is_err() {
            return Err(ReadError::Memory);
        }
    }
    Err(ReadError::Read)
}
