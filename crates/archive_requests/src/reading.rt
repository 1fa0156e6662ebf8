//! Reading a request from a source.
ghost use Rattle.std.specs.Prelude.{◌≡◌, ◌<◌, ◌+◌, ◌++◌, ◌⊎◌, ℕ, List, IfOk, OnOk, OnErr};
ghost use Rattle.httparse.specs.Grammar.{HasNoRequest};
ghost use Rattle.archive_requests.specs.Reading.{IsRequestReadOfInput, IsRequestReadFinal};

use crate::head_reading::read_head;
use crate::heads::{HeadRead, MOST_BYTES};
use crate::requests::Request;
use byte_device::{DeviceFailure, Source};

/// What was read of a request.
#[derive(Debug, Clone, Copy, PartialEq, Eq, Drop)]
pub enum RequestRead<'b> {
    /// A whole head, and what it asks for.
    Whole(Request<'b>),
    /// No head, or only a part of one: 400 (RFC 9112, section 3).
    Malformed,
    /// More fields or bytes than a head may have: 431 (RFC 6585, section 5).
    TooLarge,
}

/// Reads a request's head into the beginning of the buffer. It stops at the head's end, at bytes
/// that no head begins with, at the input's end, or where the buffer is full; what follows the head
/// is no part of the request. A read that fails stops it with no answer.
pub fn read_request<'b, R: Source>(
    input: &mut R,
    buffer: &'b mut [u8; MOST_BYTES],
) -> Result<RequestRead<'b>, DeviceFailure>
    // The input was read to its end, or what came settles the answer, whatever bytes follow.
    ensures read { IfOk result (λ read. (given : List ℕ)
        × (R.told input.new ≡ R.told input.old ++ given)
        × (((R.ends input.new ≡ R.ends input.old + 1) × HasNoRequest given
        × IsRequestReadOfInput given given read)
        ⊎ ((R.ends input.new ≡ R.ends input.old) × IsRequestReadFinal given read))) }
    ensures quiet { OnOk result (R.failures input.new ≡ R.failures input.old) }

    // A read failed, and before it there was no whole head.
    ensures fault { OnErr result (R.failures input.old < R.failures input.new) }
    ensures part { OnErr result ((given : List ℕ) × (R.told input.new ≡ R.told input.old ++ given)
        × HasNoRequest given) }
{
    match read_head(input, buffer)? {
        HeadRead::Whole(head) => {
            let came: &'b [u8] = &buffer[..head.filled];
            Ok(RequestRead::Whole(head.request(came)))
        }
        HeadRead::Bad => Ok(RequestRead::Malformed),
        HeadRead::TooLarge => Ok(RequestRead::TooLarge),
    }
}
