//! The worked cases for any archive.
use crate::{asking, exports, imports, listings, messages, shown, streams};
use archive_port::ArchiveStore;
use archive_results::{Ask, Reader};
use civil_time::Day;
use policy_core::Policy;
use std::alloc::Global;
use std::test::Fail;
use thread_core::NodeThreader;

/// Two messages, the second an answer to the first.
pub const TWO: &[u8] =
    b"From anna@example.org Tue Mar  4 10:00:00 2003\nFrom: Anna <anna@example.org>\nSubject: Hello\n\nOne.\n\nFrom bob@example.org Wed Mar 12 10:30:00 2003\nSubject: Re: Hello\n\nTwo.\n\n";

/// What the public may not see: a message that was withdrawn.
pub const WITHDRAWN: &str = "
[[rule]]
name = \"withdrawn\"
effect = \"deny\"
standings = [\"public\"]
withdrawn = [\"author\", \"board\"]

[[rule]]
name = \"all\"
effect = \"allow\"
";

/// The day of a text.
pub fn day(text: &str) -> Result<Day, Fail> {
    Ok(Day::read(text.as_bytes()).ok_or("a day")?)
}

/// Nobody's question on the list `soc` on 20 March 2003.
pub fn by_nobody<'a>(policy: &'a Policy) -> Result<Ask<'a>, Fail> {
    Ok(Ask {
        policy,
        reader: Reader::Nobody,
        list: "soc",
        day: day("2003-03-20")?,
    })
}

/// What an archive is told and asked. `imports::large`, `streams::large` and `streams::batches` are no such cases, because an archive in
/// memory computes the key of a message again and again, looks at each of its messages to add one, and has no transactions.
#[derive(Clone, Copy, Debug, PartialEq, Eq)]
pub enum Case {
    Imports,
    Messages,
    Exports,
    Listings,
    Shown,
    Asking,
    Chain,
    Pieces,
}

/// Tells an empty archive a case.
pub fn tell<A: ArchiveStore>(
    alloc: Global,
    store: &mut A,
    nodes: &NodeThreader,
    case: Case,
) -> Result<(), Fail> {
    match case {
        Case::Imports => imports::imports(alloc, store),
        Case::Messages => messages::messages(alloc, store),
        Case::Exports => exports::exports(alloc, store),
        Case::Listings => listings::listings(alloc, store),
        Case::Shown => shown::shown(alloc, store),
        Case::Asking => asking::asking(alloc, store, nodes),
        Case::Chain => exports::chain(alloc, store),
        Case::Pieces => streams::pieces(alloc, store),
    }
}
