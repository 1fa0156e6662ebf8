//! Months and authors of messages that another program filed otherwise.
use crate::damage::changed;
use archive_port::ArchiveStore;
use pages_tests::cases::TWO;
use pages_tests::keeping::{ANNA, APRIL, MARCH, kept_reply, pages_for};
use pages_tests::links::reply;
use policy_core::Policy;
use std::alloc::Global;
use std::process::Abort;
use std::test::Fail;
use thread_core::PlainThreader;

/// The second message under another month, author and sent date.
const FILED_OTHERWISE: &str =
    "UPDATE message SET sent = 1046700000, month = 24039, author = x'616e6e61406578616d706c652e6f7267' WHERE pos = 2";

/// A page of what is kept is that of `answer`, and has so many rows, the first time and later.
fn go_by_the_texts<A: ArchiveStore>(
    rt: &impl Abort,
    alloc: Global,
    store: &mut A,
) -> Result<(), Fail> {
    let policy = Policy::open();
    let mut pages = pages_for(alloc, &policy, &PlainThreader, 1 << 20)?;
    for _ in 0..2 {
        for (path, rows) in [(MARCH, 2), (APRIL, 0), (ANNA, 1)] {
            let wanted = reply(alloc, store, &policy, &PlainThreader, None, path)?;
            let got = kept_reply(store, &mut pages, None, path)?;
            assert!(rt; got.bytes() == wanted.bytes());
            let links = got.bytes().split(|byte| *byte == b'"');
            assert_eq!(rt;
                links.filter(|link| link.starts_with(b"/l/soc/m/")).count(),
                rows
            );
        }
    }
    Ok(())
}

/// Months and authors go by the texts all the same, the first time and later, and by `answer` too.
#[test]
fn months_and_authors_go_by_the_texts(rt: HostRuntime) -> Result<(), Fail> {
    let mut store = changed(rt.alloc(), TWO, FILED_OTHERWISE)?;
    go_by_the_texts(&rt, rt.alloc(), &mut store)
}
