//! Requests for messages and for lists of them.
use crate::cases::{SECOND, TWO, gets, today};
use crate::requests::NOT_FOUND;
use archive_desk::import;
use archive_port::{ArchiveStore, Key};
use desk_tests::checks::expect;
use desk_tests::commands::{grant, merge_set, withdraw};
use mbox_core::cut;
use policy_core::{GrantKind, Policy, WithdrawnBy};
use std::alloc::Global;
use std::test::Fail;

/// What the public may not see: a message that was withdrawn.
pub const WITHDRAWN: &str = "
[[rule]]
name = \"withdrawn\"
effect = \"deny\"
standings = [\"public\"]
withdrawn = [\"author\", \"board\"]

[[rule]]
name = \"all\"
effect = \"allow\"
";

/// The reply that is the first message.
const FIRST: &[u8] =
    b"HTTP/1.1 200 OK\r\nContent-Type: message/rfc822\r\nContent-Length: 51\r\nConnection: close\r\n\r\n\
      From: Anna <anna@example.org>\nSubject: Hello\n\nOne.\n";

/// The page of the author of the first message.
const BY_ANNA: &[u8] =
    b"HTTP/1.1 200 OK\r\nContent-Type: text/html; charset=us-ascii\r\nContent-Length: 453\r\nConnection: close\r\n\r\n\
      <!DOCTYPE html>\n<html><head><title>soc: by anna@example.org</title></head><body>\n\
      <h1>soc: by anna@example.org</h1>\n<div class=\"d0\"><a href=\"/l/soc/month/2003-03\">2003-03-04 10:00</a> \
      <a href=\"/l/soc/by/anna%40example.org\">anna@example.org</a> \
      <a href=\"/l/soc/m/a9fda901d43094a70ddaab56f97a3ed4ab7d9e3f14e4c1717930bee493395661\">Hello</a> \
      <a href=\"/l/soc/t/a9fda901d43094a70ddaab56f97a3ed4ab7d9e3f14e4c1717930bee493395661\">thread</a></div>\n\
      </body></html>\n";

/// Requests, and the reply to each where all may see both messages.
pub static OF_TWO: [(&str, &[u8]); 8] = [
    (
        "GET /l/soc/threads HTTP/1.1\r\n\r\n",
        b"HTTP/1.1 200 OK\r\nContent-Type: text/html; charset=us-ascii\r\nContent-Length: 703\r\nConnection: close\r\n\r\n\
          <!DOCTYPE html>\n<html><head><title>soc: threads</title></head><body>\n<h1>soc: threads</h1>\n\
          <div class=\"d0\"><a href=\"/l/soc/month/2003-03\">2003-03-04 10:00</a> \
          <a href=\"/l/soc/by/anna%40example.org\">anna@example.org</a> \
          <a href=\"/l/soc/m/a9fda901d43094a70ddaab56f97a3ed4ab7d9e3f14e4c1717930bee493395661\">Hello</a> \
          <a href=\"/l/soc/t/a9fda901d43094a70ddaab56f97a3ed4ab7d9e3f14e4c1717930bee493395661\">thread</a></div>\n\
          <div class=\"d1\"><a href=\"/l/soc/month/2003-03\">2003-03-12 10:30</a> (none) \
          <a href=\"/l/soc/m/d41bdfeadb4b458370ddcfa1a3a8aa91197973a0a547288c06ee2a2ae4dbf327\">Re: Hello</a> \
          <a href=\"/l/soc/t/d41bdfeadb4b458370ddcfa1a3a8aa91197973a0a547288c06ee2a2ae4dbf327\">thread</a></div>\n\
          </body></html>\n",
    ),
    (
        "GET /l/soc/t/d41bdfeadb4b458370ddcfa1a3a8aa91197973a0a547288c06ee2a2ae4dbf327 HTTP/1.1\r\n\r\n",
        b"HTTP/1.1 200 OK\r\nContent-Type: text/html; charset=us-ascii\r\nContent-Length: 701\r\nConnection: close\r\n\r\n\
          <!DOCTYPE html>\n<html><head><title>soc: thread</title></head><body>\n<h1>soc: thread</h1>\n\
          <div class=\"d0\"><a href=\"/l/soc/month/2003-03\">2003-03-04 10:00</a> \
          <a href=\"/l/soc/by/anna%40example.org\">anna@example.org</a> \
          <a href=\"/l/soc/m/a9fda901d43094a70ddaab56f97a3ed4ab7d9e3f14e4c1717930bee493395661\">Hello</a> \
          <a href=\"/l/soc/t/a9fda901d43094a70ddaab56f97a3ed4ab7d9e3f14e4c1717930bee493395661\">thread</a></div>\n\
          <div class=\"d1\"><a href=\"/l/soc/month/2003-03\">2003-03-12 10:30</a> (none) \
          <a href=\"/l/soc/m/d41bdfeadb4b458370ddcfa1a3a8aa91197973a0a547288c06ee2a2ae4dbf327\">Re: Hello</a> \
          <a href=\"/l/soc/t/d41bdfeadb4b458370ddcfa1a3a8aa91197973a0a547288c06ee2a2ae4dbf327\">thread</a></div>\n\
          </body></html>\n",
    ),
    (
        "GET /l/soc/month/2003-03 HTTP/1.1\r\n\r\n",
        b"HTTP/1.1 200 OK\r\nContent-Type: text/html; charset=us-ascii\r\nContent-Length: 703\r\nConnection: close\r\n\r\n\
          <!DOCTYPE html>\n<html><head><title>soc: 2003-03</title></head><body>\n<h1>soc: 2003-03</h1>\n\
          <div class=\"d0\"><a href=\"/l/soc/month/2003-03\">2003-03-04 10:00</a> \
          <a href=\"/l/soc/by/anna%40example.org\">anna@example.org</a> \
          <a href=\"/l/soc/m/a9fda901d43094a70ddaab56f97a3ed4ab7d9e3f14e4c1717930bee493395661\">Hello</a> \
          <a href=\"/l/soc/t/a9fda901d43094a70ddaab56f97a3ed4ab7d9e3f14e4c1717930bee493395661\">thread</a></div>\n\
          <div class=\"d0\"><a href=\"/l/soc/month/2003-03\">2003-03-12 10:30</a> (none) \
          <a href=\"/l/soc/m/d41bdfeadb4b458370ddcfa1a3a8aa91197973a0a547288c06ee2a2ae4dbf327\">Re: Hello</a> \
          <a href=\"/l/soc/t/d41bdfeadb4b458370ddcfa1a3a8aa91197973a0a547288c06ee2a2ae4dbf327\">thread</a></div>\n\
          </body></html>\n",
    ),
    ("GET /l/soc/by/anna%40example.org HTTP/1.1\r\n\r\n", BY_ANNA),
    ("GET /l/soc/by/anna@example.org HTTP/1.1\r\n\r\n", BY_ANNA),
    (
        "GET /l/soc/mbox HTTP/1.1\r\n\r\n",
        b"HTTP/1.1 200 OK\r\nContent-Type: application/mbox\r\nConnection: close\r\n\r\n\
          From anna@example.org Tue Mar  4 10:00:00 2003\nFrom: Anna <anna@example.org>\nSubject: Hello\n\nOne.\n\n\
          From bob@example.org Wed Mar 12 10:30:00 2003\nSubject: Re: Hello\n\nTwo.\n\n",
    ),
    (
        "GET /l/soc/m/a9fda901d43094a70ddaab56f97a3ed4ab7d9e3f14e4c1717930bee493395661 HTTP/1.1\r\n\r\n",
        FIRST,
    ),
    (
        "GET /l/soc/m/d41bdfeadb4b458370ddcfa1a3a8aa91197973a0a547288c06ee2a2ae4dbf320 HTTP/1.1\r\n\r\n",
        NOT_FOUND,
    ),
];

/// The request for the first message, and the reply where it is withdrawn and the reader may not see it.
pub static DENIED: [(&str, &[u8]); 1] = [(
    "GET /l/soc/m/a9fda901d43094a70ddaab56f97a3ed4ab7d9e3f14e4c1717930bee493395661 HTTP/1.1\r\n\r\n",
    b"HTTP/1.1 403 Forbidden\r\nContent-Type: text/plain; charset=us-ascii\r\nContent-Length: 25\r\n\
      Connection: close\r\n\r\n403 Forbidden: withdrawn\n",
)];

/// Requests, and the reply to each where the public may not see the first message.
static OF_WITHDRAWN: [(&str, &[u8]); 4] = [
    (
        "GET /l/soc/m/a9fda901d43094a70ddaab56f97a3ed4ab7d9e3f14e4c1717930bee493395661 HTTP/1.1\r\n\
         Authorization: Bearer 0123456789abcdef\r\n\r\n",
        FIRST,
    ),
    (
        "GET /l/soc/t/a9fda901d43094a70ddaab56f97a3ed4ab7d9e3f14e4c1717930bee493395661 HTTP/1.1\r\n\r\n",
        NOT_FOUND,
    ),
    (
        "GET /l/soc/by/anna@example.org HTTP/1.1\r\nAuthorization: Bearer 0123456789abcdef\r\n\r\n",
        BY_ANNA,
    ),
    (
        "GET /l/soc/m/d41bdfeadb4b458370ddcfa1a3a8aa91197973a0a547288c06ee2a2ae4dbf327 HTTP/1.1\r\n\r\n",
        b"HTTP/1.1 200 OK\r\nContent-Type: message/rfc822\r\nContent-Length: 25\r\nConnection: close\r\n\r\n\
          Subject: Re: Hello\n\nTwo.\n",
    ),
];

/// Requests of the public, and the reply to each where it sees the second message alone.
pub static OF_SECOND: [(&str, &[u8]); 5] = [
    (
        "GET /l/soc/threads HTTP/1.1\r\n\r\n",
        b"HTTP/1.1 200 OK\r\nContent-Type: text/html; charset=us-ascii\r\nContent-Length: 380\r\nConnection: close\r\n\r\n\
          <!DOCTYPE html>\n<html><head><title>soc: threads</title></head><body>\n<h1>soc: threads</h1>\n\
          <div class=\"d0\"><a href=\"/l/soc/month/2003-03\">2003-03-12 10:30</a> (none) \
          <a href=\"/l/soc/m/d41bdfeadb4b458370ddcfa1a3a8aa91197973a0a547288c06ee2a2ae4dbf327\">Re: Hello</a> \
          <a href=\"/l/soc/t/d41bdfeadb4b458370ddcfa1a3a8aa91197973a0a547288c06ee2a2ae4dbf327\">thread</a></div>\n\
          </body></html>\n",
    ),
    (
        "GET /l/soc/mbox HTTP/1.1\r\n\r\n",
        b"HTTP/1.1 200 OK\r\nContent-Type: application/mbox\r\nConnection: close\r\n\r\n\
          From bob@example.org Wed Mar 12 10:30:00 2003\nSubject: Re: Hello\n\nTwo.\n\n",
    ),
    (
        "GET /l/soc/month/2003-03 HTTP/1.1\r\n\r\n",
        b"HTTP/1.1 200 OK\r\nContent-Type: text/html; charset=us-ascii\r\nContent-Length: 380\r\nConnection: close\r\n\r\n\
          <!DOCTYPE html>\n<html><head><title>soc: 2003-03</title></head><body>\n<h1>soc: 2003-03</h1>\n\
          <div class=\"d0\"><a href=\"/l/soc/month/2003-03\">2003-03-12 10:30</a> (none) \
          <a href=\"/l/soc/m/d41bdfeadb4b458370ddcfa1a3a8aa91197973a0a547288c06ee2a2ae4dbf327\">Re: Hello</a> \
          <a href=\"/l/soc/t/d41bdfeadb4b458370ddcfa1a3a8aa91197973a0a547288c06ee2a2ae4dbf327\">thread</a></div>\n\
          </body></html>\n",
    ),
    (
        "GET /l/soc/by/anna@example.org HTTP/1.1\r\n\r\n",
        b"HTTP/1.1 200 OK\r\nContent-Type: text/html; charset=us-ascii\r\nContent-Length: 130\r\nConnection: close\r\n\r\n\
          <!DOCTYPE html>\n<html><head><title>soc: by anna@example.org</title></head><body>\n\
          <h1>soc: by anna@example.org</h1>\n</body></html>\n",
    ),
    (
        "GET /l/soc/t/a9fda901d43094a70ddaab56f97a3ed4ab7d9e3f14e4c1717930bee493395661 HTTP/1.1\r\n\r\n",
        NOT_FOUND,
    ),
];

/// Requests, and the reply to each where threads of one subject are not joined: the second message, which names no other, is a
/// thread of its own.
static OF_APART: [(&str, &[u8]); 3] = [
    (
        "GET /l/soc/threads HTTP/1.1\r\n\r\n",
        b"HTTP/1.1 200 OK\r\nContent-Type: text/html; charset=us-ascii\r\nContent-Length: 703\r\nConnection: close\r\n\r\n\
          <!DOCTYPE html>\n<html><head><title>soc: threads</title></head><body>\n<h1>soc: threads</h1>\n\
          <div class=\"d0\"><a href=\"/l/soc/month/2003-03\">2003-03-04 10:00</a> \
          <a href=\"/l/soc/by/anna%40example.org\">anna@example.org</a> \
          <a href=\"/l/soc/m/a9fda901d43094a70ddaab56f97a3ed4ab7d9e3f14e4c1717930bee493395661\">Hello</a> \
          <a href=\"/l/soc/t/a9fda901d43094a70ddaab56f97a3ed4ab7d9e3f14e4c1717930bee493395661\">thread</a></div>\n\
          <div class=\"d0\"><a href=\"/l/soc/month/2003-03\">2003-03-12 10:30</a> (none) \
          <a href=\"/l/soc/m/d41bdfeadb4b458370ddcfa1a3a8aa91197973a0a547288c06ee2a2ae4dbf327\">Re: Hello</a> \
          <a href=\"/l/soc/t/d41bdfeadb4b458370ddcfa1a3a8aa91197973a0a547288c06ee2a2ae4dbf327\">thread</a></div>\n\
          </body></html>\n",
    ),
    (
        "GET /l/soc/t/a9fda901d43094a70ddaab56f97a3ed4ab7d9e3f14e4c1717930bee493395661 HTTP/1.1\r\n\r\n",
        b"HTTP/1.1 200 OK\r\nContent-Type: text/html; charset=us-ascii\r\nContent-Length: 427\r\nConnection: close\r\n\r\n\
          <!DOCTYPE html>\n<html><head><title>soc: thread</title></head><body>\n<h1>soc: thread</h1>\n\
          <div class=\"d0\"><a href=\"/l/soc/month/2003-03\">2003-03-04 10:00</a> \
          <a href=\"/l/soc/by/anna%40example.org\">anna@example.org</a> \
          <a href=\"/l/soc/m/a9fda901d43094a70ddaab56f97a3ed4ab7d9e3f14e4c1717930bee493395661\">Hello</a> \
          <a href=\"/l/soc/t/a9fda901d43094a70ddaab56f97a3ed4ab7d9e3f14e4c1717930bee493395661\">thread</a></div>\n\
          </body></html>\n",
    ),
    (
        "GET /l/soc/t/d41bdfeadb4b458370ddcfa1a3a8aa91197973a0a547288c06ee2a2ae4dbf327 HTTP/1.1\r\n\r\n",
        b"HTTP/1.1 200 OK\r\nContent-Type: text/html; charset=us-ascii\r\nContent-Length: 378\r\nConnection: close\r\n\r\n\
          <!DOCTYPE html>\n<html><head><title>soc: thread</title></head><body>\n<h1>soc: thread</h1>\n\
          <div class=\"d0\"><a href=\"/l/soc/month/2003-03\">2003-03-12 10:30</a> (none) \
          <a href=\"/l/soc/m/d41bdfeadb4b458370ddcfa1a3a8aa91197973a0a547288c06ee2a2ae4dbf327\">Re: Hello</a> \
          <a href=\"/l/soc/t/d41bdfeadb4b458370ddcfa1a3a8aa91197973a0a547288c06ee2a2ae4dbf327\">thread</a></div>\n\
          </body></html>\n",
    ),
];

/// Each request of a table gets its reply.
pub fn all_get<A: ArchiveStore>(
    alloc: Global,
    store: &mut A,
    policy: &Policy,
    table: &[(&str, &[u8])],
) -> Result<(), Fail> {
    for (request, reply) in table {
        expect(
            gets(alloc, store, policy, request.as_bytes(), 8192, reply)?,
            format_args!("{request}"),
        )?;
    }
    Ok(())
}

/// Two messages that all may see.
pub fn pages<A: ArchiveStore>(alloc: Global, store: &mut A) -> Result<(), Fail> {
    import(store, alloc, "soc", TWO)?;
    all_get(alloc, store, &Policy::open(), &OF_TWO)
}

/// Two messages of one subject: the list's threads are not joined by it, and then they are.
pub fn apart<A: ArchiveStore>(alloc: Global, store: &mut A) -> Result<(), Fail> {
    import(store, alloc, "soc", TWO)?;
    let policy = Policy::open();
    merge_set(store, "soc", false)?;
    all_get(alloc, store, &policy, &OF_APART)?;
    merge_set(store, "soc", true)?;
    all_get(alloc, store, &policy, &OF_TWO)
}

/// Imports the two messages, and withdraws the first.
fn withdraw_first<A: ArchiveStore>(alloc: Global, store: &mut A) -> Result<(), Fail> {
    import(store, alloc, "soc", TWO)?;
    let first = Key::of(&cut(TWO)?.next().ok_or("a first message")?);
    withdraw(store, "soc", &first, WithdrawnBy::Author)?;
    Ok(())
}

/// The first message is withdrawn: denied to the public, and served to a moderator.
pub fn withdrawn<A: ArchiveStore>(alloc: Global, store: &mut A) -> Result<(), Fail> {
    withdraw_first(alloc, store)?;
    is_withdrawn(alloc, store)
}

/// The same, once the message is withdrawn.
pub fn is_withdrawn<A: ArchiveStore>(alloc: Global, store: &mut A) -> Result<(), Fail> {
    grant(store, "mo", "soc", GrantKind::Moderator, today()?, today()?)?;
    let policy = Policy::read(alloc, WITHDRAWN)?;
    all_get(alloc, store, &policy, &DENIED)?;
    all_get(alloc, store, &policy, &OF_WITHDRAWN)
}

/// What the public sees where the first message is withdrawn.
pub fn withheld<A: ArchiveStore>(alloc: Global, store: &mut A) -> Result<(), Fail> {
    withdraw_first(alloc, store)?;
    let policy = Policy::read(alloc, WITHDRAWN)?;
    all_get(alloc, store, &policy, &OF_SECOND)
}

/// What the public sees where the first message never came: the same.
pub fn alone<A: ArchiveStore>(alloc: Global, store: &mut A) -> Result<(), Fail> {
    import(store, alloc, "soc", SECOND)?;
    let policy = Policy::read(alloc, WITHDRAWN)?;
    all_get(alloc, store, &policy, &OF_SECOND)
}
