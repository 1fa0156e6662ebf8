//! Requests for a list without messages: for what is there, for what is not, and those that are none.
use crate::cases::gets;
use archive_port::ArchiveStore;
use desk_tests::checks::expect;
use mail_core::Memory;
use policy_core::Policy;
use std::alloc::Global;
use std::test::Fail;

/// The page of all lists.
pub const LISTS: &[u8] =
    b"HTTP/1.1 200 OK\r\nContent-Type: text/html; charset=us-ascii\r\nContent-Length: 178\r\nConnection: close\r\n\r\n\
      <!DOCTYPE html>\n<html><head><title>Lists</title></head><body>\n<h1>Lists</h1>\n<div class=\"d0\">\
      <a href=\"/l/soc/threads\">soc</a> <a href=\"/l/soc/mbox\">mbox</a></div>\n</body></html>\n";

/// The page of a month without messages.
const NO_APRIL: &[u8] =
    b"HTTP/1.1 200 OK\r\nContent-Type: text/html; charset=us-ascii\r\nContent-Length: 106\r\nConnection: close\r\n\r\n\
      <!DOCTYPE html>\n<html><head><title>soc: 2003-04</title></head><body>\n<h1>soc: 2003-04</h1>\n</body></html>\n";

/// 400.
const BAD_REQUEST: &[u8] =
    b"HTTP/1.1 400 Bad Request\r\nContent-Type: text/plain; charset=us-ascii\r\nContent-Length: 16\r\n\
      Connection: close\r\n\r\n400 Bad Request\n";

/// 401.
const UNAUTHORIZED: &[u8] =
    b"HTTP/1.1 401 Unauthorized\r\nContent-Type: text/plain; charset=us-ascii\r\nContent-Length: 17\r\n\
      WWW-Authenticate: Bearer realm=\"archive\"\r\nConnection: close\r\n\r\n401 Unauthorized\n";

/// 404.
pub const NOT_FOUND: &[u8] =
    b"HTTP/1.1 404 Not Found\r\nContent-Type: text/plain; charset=us-ascii\r\nContent-Length: 14\r\n\
      Connection: close\r\n\r\n404 Not Found\n";

/// 405.
const NOT_ALLOWED: &[u8] =
    b"HTTP/1.1 405 Method Not Allowed\r\nContent-Type: text/plain; charset=us-ascii\r\nContent-Length: 23\r\n\
      Allow: GET\r\nConnection: close\r\n\r\n405 Method Not Allowed\n";

/// 431.
const TOO_LARGE: &[u8] =
    b"HTTP/1.1 431 Request Header Fields Too Large\r\nContent-Type: text/plain; charset=us-ascii\r\n\
      Content-Length: 36\r\nConnection: close\r\n\r\n431 Request Header Fields Too Large\n";

/// Requests, and the reply to each.
static REQUESTS: [(&str, &[u8]); 23] = [
    ("GET / HTTP/1.1\r\n\r\n", LISTS),
    ("GET / HTTP/1.0\n\n", LISTS),
    ("GET /?x=1 HTTP/1.1\r\n\r\n", LISTS),
    (
        "GET / HTTP/1.1\r\nAuthorization: bearer  0123456789abcdef\r\n\r\n",
        LISTS,
    ),
    (
        "GET / HTTP/1.1\r\nAuthorization: Bearer 0123456789abcdef\r\n\r\nGET /nope HTTP/1.1\r\n\r\n",
        LISTS,
    ),
    ("GET /l/soc/month/2003-04 HTTP/1.1\r\n\r\n", NO_APRIL),
    ("GET /l/soc/month/2003-13 HTTP/1.1\r\n\r\n", NOT_FOUND),
    ("GET /l/soc/month/1899-12 HTTP/1.1\r\n\r\n", NOT_FOUND),
    ("GET /nope HTTP/1.1\r\n\r\n", NOT_FOUND),
    ("GET /l/xyz/threads HTTP/1.1\r\n\r\n", NOT_FOUND),
    ("GET /l/xyz/mbox HTTP/1.1\r\n\r\n", NOT_FOUND),
    ("GET /l/xyz/month/2003-04 HTTP/1.1\r\n\r\n", NOT_FOUND),
    ("GET /l/soc/m/1111 HTTP/1.1\r\n\r\n", NOT_FOUND),
    (
        "GET /l/soc/m/a9fda901d43094a70ddaab56f97a3ed4ab7d9e3f14e4c1717930bee493395661 HTTP/1.1\r\n\r\n",
        NOT_FOUND,
    ),
    (
        "GET /l/soc/t/a9fda901d43094a70ddaab56f97a3ed4ab7d9e3f14e4c1717930bee493395661 HTTP/1.1\r\n\r\n",
        NOT_FOUND,
    ),
    ("POST / HTTP/1.1\r\n\r\n", NOT_ALLOWED),
    ("POST /nope HTTP/1.1\r\n\r\n", NOT_ALLOWED),
    (
        "GET / HTTP/1.1\r\nAuthorization: Bearer 0123456789abcdeF\r\n\r\n",
        UNAUTHORIZED,
    ),
    (
        "GET /nope HTTP/1.1\r\nAuthorization: Bearer 0123456789abcdeF\r\n\r\n",
        UNAUTHORIZED,
    ),
    (
        "GET / HTTP/1.1\r\nAuthorization: Basic 0123456789abcdef\r\n\r\n",
        UNAUTHORIZED,
    ),
    (
        "GET / HTTP/1.1\r\nAuthorization: Bearer 0123456789abcdef\r\nAuthorization: Bearer 0123456789abcdef\r\n\r\n",
        BAD_REQUEST,
    ),
    ("OPTIONS * HTTP/1.1\r\n\r\n", BAD_REQUEST),
    ("GET / HTTP/1.1\r\nHost: a", BAD_REQUEST),
];

/// A request for all lists.
const GET: &[u8] = b"GET / HTTP/1.1\r\n\r\n";

/// Each request, whole and byte by byte, and each beginning of one.
pub fn requests<A: ArchiveStore>(alloc: Global, store: &mut A) -> Result<(), Fail> {
    let policy = Policy::open();
    for (request, reply) in &REQUESTS {
        for most in [1, 8192] {
            expect(
                gets(alloc, store, &policy, request.as_bytes(), most, reply)?,
                format_args!("{request}"),
            )?;
        }
    }
    for count in 0..GET.len() {
        expect(
            gets(alloc, store, &policy, &GET[..count], 5, BAD_REQUEST)?,
            format_args!("{count} bytes"),
        )?;
    }
    Ok(())
}

/// A head that is filled up to so many bytes, and then ends so.
fn filled(alloc: Global, size: usize, end: &[u8]) -> Result<Vec<u8>, Memory> {
    let mut head = Vec::new(alloc);
    head.extend_from_slice(b"GET / HTTP/1.1\r\nX: ")?;
    head.resize(size, b'a')?;
    head.extend_from_slice(end)?;
    Ok(head)
}

/// A head of so many fields.
fn of_fields(alloc: Global, count: usize) -> Result<Vec<u8>, Memory> {
    let mut head = Vec::new(alloc);
    head.extend_from_slice(b"GET / HTTP/1.1\r\n")?;
    for _ in 0..count {
        head.extend_from_slice(b"a: b\r\n")?;
    }
    head.extend_from_slice(b"\r\n")?;
    Ok(head)
}

/// Heads by the bytes before their end and by their end, and the reply to each.
static FILLED: [(usize, &[u8], &[u8]); 4] = [
    (8188, b"\r\n\r\n", LISTS),
    (8189, b"\r\n\r\n", TOO_LARGE),
    (8191, b"", BAD_REQUEST),
    (8192, b"", TOO_LARGE),
];

/// Heads as large as may be, and larger ones.
pub fn heads<A: ArchiveStore>(alloc: Global, store: &mut A) -> Result<(), Fail> {
    let policy = Policy::open();
    for (size, end, reply) in &FILLED {
        let head = filled(alloc, *size, end)?;
        expect(
            gets(alloc, store, &policy, &head, 1000, reply)?,
            format_args!("{size} bytes"),
        )?;
    }
    for (count, reply) in [(64, LISTS), (65, TOO_LARGE)] {
        let head = of_fields(alloc, count)?;
        expect(
            gets(alloc, store, &policy, &head, 1000, reply)?,
            format_args!("{count} fields"),
        )?;
    }
    Ok(())
}
