//! Each call of the desk, of the pages and of a server with what it answers, once: what an archive of each kind is told.
use crate::announced::says_where_once;
use crate::cases::TWO;
use crate::keeping::{ANNA, MARCH, THREADS, kept_reply, pages_for};
use crate::links::{first_key, reply};
use crate::pages::{OF_SECOND, OF_TWO, WITHDRAWN, all_get, is_withdrawn};
use crate::serving::{MOST, some_come};
use archive_port::ArchiveStore;
use desk_tests::calls;
use desk_tests::checks::expect;
use desk_tests::commands::{person_add, withdraw};
use policy_core::{Policy, WithdrawnBy};
use std::alloc::Global;
use std::test::Fail;
use thread_core::PlainThreader;

/// The calls of the desk, over an empty archive; then each page of its list, also once the first of both messages is withdrawn; the pages
/// of what is kept; and a server that answers some peers, and one that says first where it listens.
pub fn each_call<A: ArchiveStore>(alloc: Global, store: &mut A) -> Result<(), Fail> {
    calls::each_call(alloc, store)?;
    all_get(alloc, store, &Policy::open(), &OF_TWO)?;
    person_add(store, "mo", "0123456789abcdef")?;
    withdraw(store, "soc", &first_key(TWO)?, WithdrawnBy::Author)?;
    is_withdrawn(alloc, store)?;
    let policy = Policy::read(alloc, WITHDRAWN)?;
    all_get(alloc, store, &policy, &OF_SECOND)?;
    keeps(alloc, store, &policy)?;
    some_come(alloc, store)?;
    says_where_once(alloc, store)
}

/// Pages that are asked for twice, out of what is kept, are those of `answer`.
fn keeps<A: ArchiveStore>(alloc: Global, store: &mut A, policy: &Policy) -> Result<(), Fail> {
    let mut pages = pages_for(alloc, policy, &PlainThreader, MOST)?;
    for path in [THREADS, MARCH, ANNA, THREADS, MARCH, ANNA] {
        let wanted = reply(alloc, store, policy, &PlainThreader, None, path)?;
        let got = kept_reply(store, &mut pages, None, path)?;
        expect(got.bytes() == wanted.bytes(), format_args!("{path:?}"))?;
    }
    Ok(())
}
