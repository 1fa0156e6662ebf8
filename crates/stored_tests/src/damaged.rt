//! Requests to a store with a message that cannot be read, since another program changed its row: 503 for its own page and for those
//! that list messages of its list, its mbox too, and the page of the definition everywhere else.
use crate::damage::changed;
use archive_pages::answer;
use archive_port::ArchiveStore;
use archive_store::Store;
use mbox_core::device::Tap;
use pages_tests::cases::{TWO, today};
use policy_core::Policy;
use sqlite::MemStore;
use std::alloc::Global;
use std::test::Fail;
use thread_core::PlainThreader;

/// A request, and the status of its reply.
type Case = (&'static [u8], u16);

const CASES: [Case; 14] = [
    (b"GET / HTTP/1.1\r\n\r\n", 200),
    (b"GET /l/soc/month/2003-03 HTTP/1.1\r\n\r\n", 503),
    (b"GET /l/soc/month/2003-04 HTTP/1.1\r\n\r\n", 503),
    (b"GET /l/soc/by/anna%40example.org HTTP/1.1\r\n\r\n", 503),
    (b"GET /l/soc/threads HTTP/1.1\r\n\r\n", 503),
    (
        b"GET /l/soc/m/a9fda901d43094a70ddaab56f97a3ed4ab7d9e3f14e4c1717930bee493395661 HTTP/1.1\r\n\r\n",
        200,
    ),
    (
        b"GET /l/soc/m/d41bdfeadb4b458370ddcfa1a3a8aa91197973a0a547288c06ee2a2ae4dbf327 HTTP/1.1\r\n\r\n",
        503,
    ),
    (
        b"GET /l/soc/t/a9fda901d43094a70ddaab56f97a3ed4ab7d9e3f14e4c1717930bee493395661 HTTP/1.1\r\n\r\n",
        503,
    ),
    (b"GET /l/soc/mbox HTTP/1.1\r\n\r\n", 503),
    // what asks for no page of the list
    (b"GET /nope HTTP/1.1\r\n\r\n", 404),
    (b"POST /l/soc/threads HTTP/1.1\r\n\r\n", 405),
    (b"GET l/soc/threads HTTP/1.1\r\n\r\n", 400),
    (
        b"GET /l/soc/threads HTTP/1.1\r\nAuthorization: Basic eDp5\r\n\r\n",
        401,
    ),
    (b"GET / HTTP/1.1\r\n\r\n", 200),
];

/// The list `soc` with two messages, the second of a sender that is none.
pub fn damaged(alloc: Global) -> Result<Store<MemStore>, Fail> {
    changed(
        alloc,
        TWO,
        "UPDATE message SET sender = x'0a' WHERE pos = 2",
    )
}

/// The status of a reply that went out whole.
fn asked<A: ArchiveStore>(alloc: Global, store: &mut A, request: &[u8]) -> Result<u16, Fail> {
    let mut input = Tap::new(alloc, request, 1000)?;
    let mut output = Tap::new(alloc, b"", 3000)?;
    let told = answer(
        store,
        alloc,
        &Policy::open(),
        &PlainThreader,
        today()?,
        &mut input,
        &mut output,
    );
    match told {
        Ok(status) => Ok(status.as_u16()),
        Err(_) => Err(Fail::from("a whole reply")),
    }
}

#[test]
fn a_message_that_cannot_be_read_is_met_by_pages_of_its_list_alone(
    rt: HostRuntime,
) -> Result<(), Fail> {
    let mut store = damaged(rt.alloc())?;
    for (request, wanted) in CASES.iter() {
        let found = asked(rt.alloc(), &mut store, request)?;
        assert_eq!(rt; found, *wanted);
    }
    Ok(())
}
