//! Reading the bytes of a head from a source.
ghost use Rattle.std.specs.Prelude.{◌≡◌, ◌≤◌, ◌<◌, ◌+◌, ◌++◌, ◌⊎◌, ℕ, List, length, take, false, IfOk, OnOk, OnErr};
ghost use Rattle.httparse.specs.Grammar.{HasNoRequest};
ghost use Rattle.archive_requests.specs.Heads.{HasNoLineFeed, IsHeadReadOfInput, IsHeadReadFinal};

use crate::heads::{HeadRead, MOST_BYTES, settled};
use byte_device::{DeviceFailure, Source};
use memchr::memchr;

/// What the bytes before the input's end are, which are too few for the most.
fn at_end(bytes: &[u8]) -> HeadRead
    requires { length bytes.now < 8192 }
    ensures { IsHeadReadOfInput bytes.now bytes.now result }
{
    match settled(bytes) {
        Some(read) => read,
        None => HeadRead::Bad,
    }
}

/// What a full buffer is.
fn at_most(bytes: &[u8]) -> HeadRead
    requires { length bytes.now ≡ 8192 }
    ensures { IsHeadReadFinal bytes.now result }
{
    match settled(bytes) {
        Some(read) => read,
        None => HeadRead::TooLarge,
    }
}

/// Whether a line feed is among the bytes.
fn has_line(bytes: &[u8]) -> bool
    ensures { result ≡ false → HasNoLineFeed bytes.now }
{
    memchr(b'\n', bytes).is_some()
}

/// One read: how many bytes came, and whether a line feed is among them.
fn read_noted<R: Source>(input: &mut R, buffer: &mut [u8]) -> Result<(usize, bool), DeviceFailure>
    requires { 0 < length buffer.old }
    ensures bytes { IfOk result (λ r. (r.0 ≤ length buffer.new)
        × (R.told input.new ≡ R.told input.old ++ take r.0 buffer.new)
        × (r.1 ≡ false → HasNoLineFeed (take r.0 buffer.new))) }
    ensures ends { IfOk result (λ r. ((r.0 ≡ 0) × (R.ends input.new ≡ R.ends input.old + 1))
        ⊎ ((0 < r.0) × (R.ends input.new ≡ R.ends input.old))) }
    ensures quiet { OnOk result (R.failures input.new ≡ R.failures input.old) }
    ensures fault { OnErr result (R.failures input.old < R.failures input.new) }
    ensures lost { OnErr result (R.told input.new ≡ R.told input.old) }
{
    let count = input.read(buffer)?;
    Ok((count, has_line(&buffer[..count])))
}

/// Whether the bytes so far are looked at, where so many had come before the last read, and a line feed came in it or did not:
/// after the first read, since no head may begin so, and where a line ended, since a head ends with one.
fn is_looked_at(before: usize, line: bool) -> bool
    ensures { result ≡ false → line ≡ false }
{
    before == 0 || line
}

/// One read behind the bytes that came: how many more came, and whether they are looked at, as they are where a line feed is
/// among them.
fn read_more<R: Source>(
    input: &mut R,
    buffer: &mut [u8],
    filled: usize,
) -> Result<(usize, bool), DeviceFailure>
    requires { filled < length buffer.old }
    ensures bytes { IfOk result (λ r. (piece : List ℕ) × (length piece ≡ r.0)
        × (filled + r.0 ≤ length buffer.old)
        × (R.told input.new ≡ R.told input.old ++ piece)
        × (take (filled + r.0) buffer.new ≡ take filled buffer.old ++ piece)
        × (r.1 ≡ false → HasNoLineFeed piece)) }
    ensures ends { IfOk result (λ r. ((r.0 ≡ 0) × (R.ends input.new ≡ R.ends input.old + 1))
        ⊎ ((0 < r.0) × (R.ends input.new ≡ R.ends input.old))) }
    ensures quiet { OnOk result (R.failures input.new ≡ R.failures input.old) }
    ensures fault { OnErr result (R.failures input.old < R.failures input.new) }
    ensures lost { OnErr result (R.told input.new ≡ R.told input.old) }
{
    let (count, line) = read_noted(input, &mut buffer[filled..])?;
    Ok((count, is_looked_at(filled, line)))
}

/// Reads a request's head into the beginning of the buffer. It stops at the head's end, at bytes
/// that no head begins with, at the input's end, or where the buffer is full. A read that fails
/// stops it with no answer.
pub(crate) fn read_head<R: Source>(
    input: &mut R,
    buffer: &mut [u8; MOST_BYTES],
) -> Result<HeadRead, DeviceFailure>
    ensures read { IfOk result (λ read. (given : List ℕ)
        × (R.told input.new ≡ R.told input.old ++ given)
        × (given ≡ take (length given) buffer.new)
        × (((R.ends input.new ≡ R.ends input.old + 1) × HasNoRequest given
        × IsHeadReadOfInput given given read)
        ⊎ ((R.ends input.new ≡ R.ends input.old) × IsHeadReadFinal given read))) }
    ensures quiet { OnOk result (R.failures input.new ≡ R.failures input.old) }

    // A read failed, and before it there was no whole head.
    ensures fault { OnErr result (R.failures input.old < R.failures input.new) }
    ensures part { OnErr result ((given : List ℕ) × (R.told input.new ≡ R.told input.old ++ given)
        × HasNoRequest given) }
{
    let mut filled = 0;
    while filled < MOST_BYTES {
        let (count, looks) = read_more(input, buffer, filled)?;
        if count == 0 {
            return Ok(at_end(&buffer[..filled]));
        }
        filled += count;
        if looks {
            match settled(&buffer[..filled]) {
                Some(read) => return Ok(read),
                None => {}
            }
        }
    }
    Ok(at_most(buffer))
}
