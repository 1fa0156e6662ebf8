//! Replies, and the bytes of those that no request changes.
ghost use Rattle.std.specs.Prelude.{◌≡◌};
ghost use Rattle.archive_pages.specs.Replies.{reply_bytes};
ghost use Rattle.archive_pages.specs.Seen.{failure_reply};

use http::StatusCode;

/// Why a request gets none of what it asks for.
#[derive(Clone, Copy, Debug, PartialEq, Eq, Drop)]
pub(crate) enum Failure {
    /// 400: no head, a target that is no path, or more than one token.
    BadRequest,
    /// 401: no token of a person.
    Unauthorized,
    /// 404: no route, no list, no key, no month, or no message that may be seen.
    NotFound,
    /// 405: another method than GET.
    NotAllowed,
    /// 431: more than 64 fields, or no head in 8,192 bytes.
    HeadTooLarge,
    /// 503: no memory was left, or the database refused.
    Unavailable,
}

impl Failure {
    ghost use Rattle.std.specs.Prelude.{◌≡◌};
    ghost use Rattle.archive_pages.specs.Replies.{reply_bytes};
    ghost use Rattle.archive_pages.specs.Seen.{failure_reply};

    /// The status of the reply.
    pub(crate) fn status(self) -> StatusCode
        ensures { result ≡ (failure_reply self).status }
    {
        match self {
            Failure::BadRequest => StatusCode::BAD_REQUEST,
            Failure::Unauthorized => StatusCode::UNAUTHORIZED,
            Failure::NotFound => StatusCode::NOT_FOUND,
            Failure::NotAllowed => StatusCode::METHOD_NOT_ALLOWED,
            Failure::HeadTooLarge => StatusCode::REQUEST_HEADER_FIELDS_TOO_LARGE,
            Failure::Unavailable => StatusCode::SERVICE_UNAVAILABLE,
        }
    }

    /// The whole reply. It takes no memory.
    pub(crate) fn reply(self) -> &'static [u8]
        ensures { result.now ≡ reply_bytes (failure_reply self) }
    {
        match self {
            Failure::BadRequest => {
                b"HTTP/1.1 400 Bad Request\r\nContent-Type: text/plain; charset=us-ascii\r\nContent-Length: 16\r\n\
                  Connection: close\r\n\r\n400 Bad Request\n"
            }
            Failure::Unauthorized => {
                b"HTTP/1.1 401 Unauthorized\r\nContent-Type: text/plain; charset=us-ascii\r\nContent-Length: 17\r\n\
                  WWW-Authenticate: Bearer realm=\"archive\"\r\nConnection: close\r\n\r\n401 Unauthorized\n"
            }
            Failure::NotFound => {
                b"HTTP/1.1 404 Not Found\r\nContent-Type: text/plain; charset=us-ascii\r\nContent-Length: 14\r\n\
                  Connection: close\r\n\r\n404 Not Found\n"
            }
            Failure::NotAllowed => {
                b"HTTP/1.1 405 Method Not Allowed\r\nContent-Type: text/plain; charset=us-ascii\r\nContent-Length: 23\r\n\
                  Allow: GET\r\nConnection: close\r\n\r\n405 Method Not Allowed\n"
            }
            Failure::HeadTooLarge => {
                b"HTTP/1.1 431 Request Header Fields Too Large\r\nContent-Type: text/plain; charset=us-ascii\r\n\
                  Content-Length: 36\r\nConnection: close\r\n\r\n431 Request Header Fields Too Large\n"
            }
            Failure::Unavailable => {
                b"HTTP/1.1 503 Service Unavailable\r\nContent-Type: text/plain; charset=us-ascii\r\nContent-Length: 24\r\n\
                  Connection: close\r\n\r\n503 Service Unavailable\n"
            }
        }
    }
}

/// A reply that is made in memory.
#[derive(Debug, Drop)]
pub(crate) enum Reply<'p> {
    /// 200: a page.
    Page(Vec<u8>),
    /// 200: the whole text of a message.
    Message(Vec<u8>),
    /// 403: the rule that denies a message.
    Forbidden(&'p str),
    /// Any other status.
    Failed(Failure),
}

/// No reply was made: no memory was left, or the database refused.
#[derive(Clone, Copy, Debug, Drop)]
pub(crate) struct Unavailable;
