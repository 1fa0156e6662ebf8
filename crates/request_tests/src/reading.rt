//! Requests read from sources: whole ones, each beginning of one, too large ones, and sources that fail.
use archive_requests::{MOST_BYTES, Request, RequestRead, read_request};
use mail_core::Memory;
use mbox_core::device::{Counted, DeviceFailure, Source, Tap};
use std::alloc::Global;
use std::io::{self, Read};
use std::test::Fail;

/// A reader that gives at most so many bytes at once.
#[derive(Drop)]
struct Slow<'a> {
    rest: &'a [u8],
    most: usize,
}

impl<'a> Read for Slow<'a> {
    fn read(&mut self, buffer: &mut [u8]) -> io::Result<usize> {
        let count = buffer.len().min(self.rest.len()).min(self.most);
        buffer[..count].copy_from_slice(&self.rest[..count]);
        self.rest = &self.rest[count..];
        Ok(count)
    }
}

/// Whether this is read of the request.
fn gives<R: Source>(input: &mut R, expected: RequestRead<'_>) -> Result<bool, DeviceFailure> {
    let mut buffer = [0; MOST_BYTES];
    Ok(read_request(input, &mut buffer)? == expected)
}

/// Whether this is read of a text that comes in pieces of at most so many bytes.
fn gives_in_pieces(text: &[u8], most: usize, expected: RequestRead<'_>) -> bool {
    let mut input = Counted::new(Slow { rest: text, most });
    gives(&mut input, expected) == Ok(true)
}

/// What is read of a request for this path.
fn asking<'a>(token: Option<&'a str>, path: &'a str) -> RequestRead<'a> {
    RequestRead::Whole(Request::Asks { token, path })
}

/// Requests, the token of each, and its path.
static ASKING: [(&[u8], Option<&str>, &str); 10] = [
    (b"GET / HTTP/1.1\r\n\r\n", None, "/"),
    (b"GET / HTTP/1.0\n\n", None, "/"),
    (b"\r\n\nGET /nope HTTP/1.1\r\nHost: a\n\r\n", None, "/nope"),
    (
        b"GET /l/soc/mbox?a=1?b HTTP/1.1\r\n\r\nGET /second HTTP/1.1\r\n\r\n",
        None,
        "/l/soc/mbox",
    ),
    (
        b"GET /l/%73oc/by/a%40b#c HTTP/1.1\r\n\r\n",
        None,
        "/l/%73oc/by/a%40b#c",
    ),
    (
        b"GET / HTTP/1.1\r\nProxy-Authorization: x\r\n\r\n",
        None,
        "/",
    ),
    (
        b"GET / HTTP/1.1\r\nAuthorization: Bearer 0123456789abcdef\r\n\r\n",
        Some("0123456789abcdef"),
        "/",
    ),
    (
        b"GET / HTTP/1.1\r\na: b\r\naUTHORIZATION:bEARER    0123456789abcdef \t\r\n\r\n",
        Some("0123456789abcdef"),
        "/",
    ),
    (
        b"GET /?x HTTP/1.1\r\nAuthorization: Bearer 0123456789-._~+/ab=\r\n\r\n",
        Some("0123456789-._~+/ab="),
        "/",
    ),
    (
        b"GET / HTTP/1.1\r\nAuthorization: Bearer 0123456789abcdef\r\nHost: a\r\n\r\nHost",
        Some("0123456789abcdef"),
        "/",
    ),
];

#[test]
fn whole_requests_in_pieces_of_each_size(rt: HostRuntime) -> Result<(), Fail> {
    for (text, token, path) in &ASKING {
        for most in 1..30 {
            assert!(rt;
                gives_in_pieces(text, most, asking(*token, path)),
                "{path} by {most}"
            );
        }
    }
    Ok(())
}

/// Requests that ask for no page.
static OTHERS: [(&[u8], RequestRead<'static>); 27] = [
    (b"", RequestRead::Malformed),
    (b"\r\n\r\n", RequestRead::Malformed),
    (b"GET / HTTP/2.0\r\n\r\n", RequestRead::Malformed),
    (b"GET / HTTP/1.2\r\n\r\n", RequestRead::Malformed),
    (b"GET /\r\n\r\n", RequestRead::Malformed),
    (b"GET  / HTTP/1.1\r\n\r\n", RequestRead::Malformed),
    (b"GET / HTTP/1.1 \r\n\r\n", RequestRead::Malformed),
    (b"G@T / HTTP/1.1\r\n\r\n", RequestRead::Malformed),
    (b"GET / HTTP/1.1\r\nHost\r\n\r\n", RequestRead::Malformed),
    (
        b"GET / HTTP/1.1\r\nHost : a\r\n\r\n",
        RequestRead::Malformed,
    ),
    (
        b"GET / HTTP/1.1\r\nHost: a\r\n b\r\n\r\n",
        RequestRead::Malformed,
    ),
    (b"GET /\xff HTTP/1.1\r\n\r\n", RequestRead::Malformed),
    (b"GET / HTTP/1.1\r\nHost: a\r\n", RequestRead::Malformed),
    (b"GET * HTTP/1.1\r\n\r\n", RequestRead::Whole(Request::Bad)),
    (
        b"OPTIONS * HTTP/1.1\r\n\r\n",
        RequestRead::Whole(Request::Bad),
    ),
    (
        b"GET http://localhost/ HTTP/1.1\r\n\r\n",
        RequestRead::Whole(Request::Bad),
    ),
    (
        b"POST /nope HTTP/1.1\r\n\r\n",
        RequestRead::Whole(Request::OtherMethod),
    ),
    (
        b"HEAD / HTTP/1.1\r\nAuthorization:\r\n\r\n",
        RequestRead::Whole(Request::OtherMethod),
    ),
    (
        b"get / HTTP/1.1\r\n\r\n",
        RequestRead::Whole(Request::OtherMethod),
    ),
    (
        b"GET / HTTP/1.1\r\nAuthorization:\r\n\r\n",
        RequestRead::Whole(Request::Unauthorized),
    ),
    (
        b"GET /nope HTTP/1.1\r\nAuthorization: Bearer\r\n\r\n",
        RequestRead::Whole(Request::Unauthorized),
    ),
    (
        b"GET / HTTP/1.1\r\nAuthorization: Bearer\t0123456789abcdef\r\n\r\n",
        RequestRead::Whole(Request::Unauthorized),
    ),
    (
        b"GET / HTTP/1.1\r\nAuthorization: Bearer \t0123456789abcdef\r\n\r\n",
        RequestRead::Whole(Request::Unauthorized),
    ),
    (
        b"GET / HTTP/1.1\r\nAuthorization: Bearer 0123456789abcde\r\n\r\n",
        RequestRead::Whole(Request::Unauthorized),
    ),
    (
        b"GET / HTTP/1.1\r\nAuthorization: Basic 0123456789abcdef\r\n\r\n",
        RequestRead::Whole(Request::Unauthorized),
    ),
    (
        b"GET / HTTP/1.1\r\nAuthorization: 0123456789abcdef\r\n\r\n",
        RequestRead::Whole(Request::Unauthorized),
    ),
    (
        b"GET / HTTP/1.1\r\nAuthorization: Bearer 0123456789abcdef\r\nauthorization: Bearer 0123456789abcdef\r\n\r\n",
        RequestRead::Whole(Request::Bad),
    ),
];

#[test]
fn requests_that_ask_for_no_page(rt: HostRuntime) -> Result<(), Fail> {
    for (text, expected) in &OTHERS {
        assert!(rt; gives_in_pieces(text, 1, *expected));
        assert!(rt; gives_in_pieces(text, MOST_BYTES, *expected));
    }
    Ok(())
}

const REQUEST: &[u8] =
    b"GET /l/soc/t/k?x=1 HTTP/1.1\r\nHost: 127.0.0.1\r\nAuthorization: Bearer 0123456789abcdef\r\nAccept: */*\r\n\r\n";

/// What is read of the first bytes of the request.
fn beginning(count: usize) -> RequestRead<'static> {
    if count < REQUEST.len() {
        RequestRead::Malformed
    } else {
        asking(Some("0123456789abcdef"), "/l/soc/t/k")
    }
}

#[test]
fn each_beginning_of_a_request(rt: HostRuntime) -> Result<(), Fail> {
    for count in 0..=REQUEST.len() {
        assert!(rt;
            gives_in_pieces(&REQUEST[..count], 5, beginning(count)),
            "{count} bytes"
        );
    }
    Ok(())
}

/// Whether a source that passes so many bytes of the request, and then fails, gives it or fails as it has to.
fn fails_within(alloc: Global, passes: usize) -> Result<bool, Memory> {
    let mut tap = Tap::new(alloc, REQUEST, passes)?;
    let answer = gives(&mut tap, beginning(REQUEST.len()));
    Ok(if passes < REQUEST.len() {
        answer.is_err()
    } else {
        answer == Ok(true)
    })
}

#[test]
fn a_source_that_fails_after_each_number_of_bytes(rt: HostRuntime) -> Result<(), Fail> {
    for passes in 0..REQUEST.len() + 3 {
        assert!(rt; fails_within(rt.alloc(), passes)?, "after {passes}");
    }
    Ok(())
}

/// A head of so many fields and then, if it is not as long as that yet, one that makes it so long.
fn head_of(alloc: Global, fields: usize, size: usize, whole: bool) -> Result<Vec<u8>, Memory> {
    let mut head = Vec::new(alloc);
    head.extend_from_slice(b"GET / HTTP/1.1\r\n")?;
    for _ in 0..fields {
        head.extend_from_slice(b"a:\r\n")?;
    }
    if size > 0 {
        head.extend_from_slice(b"b:")?;
        let end = if whole { 4 } else { 0 };
        for _ in head.len()..size.saturating_sub(end) {
            head.push(b'x')?;
        }
        if whole {
            head.extend_from_slice(b"\r\n")?;
        }
    }
    if whole {
        head.extend_from_slice(b"\r\n")?;
    }
    Ok(head)
}

/// Heads by their fields beside the long one and their length, where one is asked for; whether they are whole; what is read.
static SIZES: [(usize, usize, bool, RequestRead<'static>); 9] = [
    (
        64,
        0,
        true,
        RequestRead::Whole(Request::Asks {
            token: None,
            path: "/",
        }),
    ),
    (65, 0, true, RequestRead::TooLarge),
    (64, 500, true, RequestRead::TooLarge),
    (
        3,
        8192,
        true,
        RequestRead::Whole(Request::Asks {
            token: None,
            path: "/",
        }),
    ),
    (3, 8193, true, RequestRead::TooLarge),
    (3, 9000, true, RequestRead::TooLarge),
    (3, 8191, false, RequestRead::Malformed),
    (3, 8192, false, RequestRead::TooLarge),
    (3, 9000, false, RequestRead::TooLarge),
];

/// Whether this is read of such a head.
fn gives_of_size(
    alloc: Global,
    fields: usize,
    size: usize,
    whole: bool,
    expected: RequestRead<'_>,
) -> Result<bool, Memory> {
    let head = head_of(alloc, fields, size, whole)?;
    Ok((size == 0 || head.len() == size) && gives_in_pieces(&head, 1000, expected))
}

#[test]
fn heads_as_large_as_may_be(rt: HostRuntime) -> Result<(), Fail> {
    for (fields, size, whole, expected) in &SIZES {
        assert!(rt;
            gives_of_size(rt.alloc(), *fields, *size, *whole, *expected)?,
            "{fields} fields, {size} bytes"
        );
    }
    Ok(())
}

/// First bytes that no head begins with: a TLS handshake, as a browser sends it that was told https; zeros; a target before a
/// method; a token that ends in no space.
static NO_BEGINNINGS: [&[u8]; 5] = [
    b"\x16\x03\x01\x02\x00\x01\x00\x01\xfc\x03\x03",
    b"\x00\x00\x00",
    b"/l/soc GET",
    b"GET\t/",
    b"\xff",
];

/// Whether a source that passes just these bytes, and then fails, is read as no request.
fn is_refused_at_once(alloc: Global, text: &[u8]) -> Result<bool, Memory> {
    let mut tap = Tap::new(alloc, text, text.len())?;
    Ok(gives(&mut tap, RequestRead::Malformed) == Ok(true))
}

#[test]
fn first_bytes_that_no_head_begins_with_are_refused_at_once(rt: HostRuntime) -> Result<(), Fail> {
    for (number, text) in NO_BEGINNINGS.iter().enumerate() {
        assert!(rt; is_refused_at_once(rt.alloc(), text)?, "beginning {number}");
    }
    Ok(())
}
