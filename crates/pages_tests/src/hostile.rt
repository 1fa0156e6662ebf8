//! Mail that is made to do harm.
use crate::cases::{gets, today};
use archive_desk::import;
use archive_pages::answer;
use archive_port::{ArchiveStore, Key};
use desk_tests::checks::{expect, expect_equal};
use desk_tests::commands::list_add;
use mbox_core::cut;
use mbox_core::device::Tap;
use policy_core::Policy;
use std::alloc::Global;
use std::test::Fail;
use thread_core::NodeThreader;

/// A message whose subject and author have what a page has to escape.
const TEXTS: &[u8] =
    b"From a@b Tue Mar  4 10:00:00 2003\nSubject: <script>\"&\xe9\nFrom: a\"b\n\nx\n\n";

/// The threads of a list with that message.
const ESCAPED: &[u8] =
    b"HTTP/1.1 200 OK\r\nContent-Type: text/html; charset=us-ascii\r\nContent-Length: 429\r\nConnection: close\r\n\r\n\
      <!DOCTYPE html>\n<html><head><title>soc: threads</title></head><body>\n<h1>soc: threads</h1>\n\
      <div class=\"d0\"><a href=\"/l/soc/month/2003-03\">2003-03-04 10:00</a> \
      <a href=\"/l/soc/by/a%22b\">a&quot;b</a> \
      <a href=\"/l/soc/m/6c0ee48458120530f0b009a37ae29724553e8bbd3783804424ca9466a59bb699\">&lt;script&gt;&quot;&amp;?</a> \
      <a href=\"/l/soc/t/6c0ee48458120530f0b009a37ae29724553e8bbd3783804424ca9466a59bb699\">thread</a></div>\n\
      </body></html>\n";

/// What has to be escaped is, over a whole reply.
pub fn texts<A: ArchiveStore>(alloc: Global, store: &mut A) -> Result<(), Fail> {
    import(store, alloc, "soc", TEXTS)?;
    let request = b"GET /l/soc/threads HTTP/1.1\r\n\r\n";
    expect(
        gets(alloc, store, &Policy::open(), request, 8192, ESCAPED)?,
        "another page",
    )
}

/// How many messages the ring has.
const RING: usize = 500;

/// An mbox in which each message refers to the next one, and the last to the first.
fn ring(alloc: Global) -> Result<Vec<u8>, Fail> {
    let mut mbox = Vec::new(alloc);
    for number in 0..RING {
        let next = (number + 1) % RING;
        let text = format!(in alloc;
            "From a@b Tue Mar  4 10:00:00 2003\nMessage-ID: <{number}@x>\nReferences: <{next}@x>\n\n{number}\n\n"
        )?;
        mbox.extend_from_slice(text.as_bytes())?;
    }
    Ok(mbox)
}

/// The reply to a request for the thread of the first message of an mbox.
fn thread_of<A: ArchiveStore>(
    alloc: Global,
    store: &mut A,
    nodes: &NodeThreader,
    mbox: &[u8],
) -> Result<Tap, Fail> {
    let key = Key::of(&cut(mbox)?.next().ok_or("a message")?);
    let mut request = Vec::new(alloc);
    request.extend_from_slice(b"GET /l/soc/t/")?;
    request.extend_from_slice(key.as_str().as_bytes())?;
    request.extend_from_slice(b" HTTP/1.1\r\n\r\n")?;
    let mut input = Tap::new(alloc, &request, 10_000)?;
    let mut output = Tap::new(alloc, b"", 1_000_000)?;
    answer(
        store,
        alloc,
        &Policy::open(),
        nodes,
        today()?,
        &mut input,
        &mut output,
    )?;
    Ok(output)
}

/// The classes of rows, and how many of the ring's page have each.
static CLASSES: [(&[u8], usize); 5] = [
    (b"d0", 1),
    (b"d1", 1),
    (b"d19", 1),
    (b"d20", 480),
    (b"d21", 0),
];

/// How many times this stands between quotes in a page.
fn count_quoted(page: &[u8], word: &[u8]) -> usize {
    page.split(|byte| *byte == b'"')
        .filter(|part| *part == word)
        .count()
}

/// A ring of messages is one thread, of which each row stands one deeper than the one before.
pub fn rings<A: ArchiveStore>(
    alloc: Global,
    store: &mut A,
    nodes: &NodeThreader,
) -> Result<(), Fail> {
    list_add(store, "soc")?;
    let mbox = ring(alloc)?;
    import(store, alloc, "soc", &mbox)?;
    let page = thread_of(alloc, store, nodes, &mbox)?;
    for (class, count) in &CLASSES {
        expect_equal(count_quoted(page.bytes(), class), *count)?;
    }
    Ok(())
}
