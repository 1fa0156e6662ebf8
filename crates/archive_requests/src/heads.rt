//! The head that some bytes begin with.
ghost use Rattle.std.specs.Prelude.{◌≡◌, ◌≤◌, length, IfSome, None};
ghost use Rattle.httparse.specs.Grammar.{HasNoRequest};
ghost use Rattle.archive_requests.specs.Heads.{IsHeadReadFinal};

use httparse::spans::{EMPTY_HEADER_SPAN, HeaderSpan, RequestSpans, parse_request};
use httparse::{Error, Status};

/// The most fields of a head (profile).
pub const MOST_FIELDS: usize = 64;

/// The most bytes of a head (profile).
pub const MOST_BYTES: usize = 8192;

/// A head, as offsets into the bytes that were read.
#[derive(Clone, Copy, Drop)]
pub(crate) struct Head {
    /// Where its method, its target and its fields lie.
    pub spans: RequestSpans,
    /// The first of them, as many as `spans.headers` says, are the head's fields.
    pub fields: [HeaderSpan; MOST_FIELDS],
    /// How many bytes were read.
    pub filled: usize,
}

/// What the bytes of a request are.
#[derive(Clone, Copy, Drop)]
pub(crate) enum HeadRead {
    Whole(Head),
    /// No head, or only a part of one: 400 (RFC 9112, section 3).
    Bad,
    /// More fields or bytes than a head may have: 431 (RFC 6585, section 5).
    TooLarge,
}

/// What at most 8,192 bytes are, where no bytes that follow can change it. None: they hold no head
/// yet.
pub(crate) fn settled(bytes: &[u8]) -> Option<HeadRead>
    requires { length bytes.now ≤ 8192 }
    ensures read { IfSome result (λ read. IsHeadReadFinal bytes.now read) }
    ensures more { result ≡ None → HasNoRequest bytes.now }
{
    let mut fields = [EMPTY_HEADER_SPAN; MOST_FIELDS];
    match parse_request(bytes, &mut fields) {
        Ok(Status::Complete(spans)) => Some(HeadRead::Whole(Head {
            spans,
            fields,
            filled: bytes.len(),
        })),
        Ok(Status::Partial) => None,
        Err(Error::TooManyHeaders) => Some(HeadRead::TooLarge),
        Err(_) => Some(HeadRead::Bad),
    }
}
