//! Each call of the desk with what it answers, once: what an archive of each kind is told.
use crate::cases::{TWO, by_nobody};
use crate::checks::expect_equal;
use crate::commands::list_add;
use crate::exports::whole;
use crate::imports::counted;
use crate::listings::{Row, are_rows, by_author, by_month};
use crate::messages::is_served;
use archive_desk::{import, thread, threads};
use archive_import::import_from;
use archive_port::{ArchiveStore, Key};
use archive_results::Ask;
use mbox_core::cut;
use mbox_core::device::Tap;
use policy_core::Policy;
use std::alloc::Global;
use std::test::Fail;
use thread_core::PlainThreader;

/// Both imports of two messages into the list `soc` of an empty archive, a message, the view, months, authors, threads, and both exports.
/// The archive keeps the list with both messages.
pub fn each_call<A: ArchiveStore>(alloc: Global, store: &mut A) -> Result<(), Fail> {
    list_add(store, "soc")?;
    both_imports(alloc, store)?;
    let policy = Policy::open();
    let ask = by_nobody(&policy)?;
    is_served(alloc, store, &ask)?;
    by_month(alloc, store, &ask)?;
    by_author(alloc, store, &ask)?;
    by_thread(alloc, store, &ask)?;
    whole(alloc, store, &ask)
}

/// Messages that are read piece by piece are new, and known if they are imported again.
fn both_imports<A: ArchiveStore>(alloc: Global, store: &mut A) -> Result<(), Fail> {
    let mut input = Tap::new(alloc, TWO, 1000)?;
    expect_equal(
        import_from(store, alloc, "soc", &mut input),
        counted(2, 0, 0),
    )?;
    expect_equal(import(store, alloc, "soc", TWO), counted(0, 2, 0))
}

/// All threads are the one of the second message, which answers the first and has no author.
fn by_thread<A: ArchiveStore>(alloc: Global, store: &mut A, ask: &Ask<'_>) -> Result<(), Fail> {
    let second = Key::of(&cut(TWO)?.nth(1).ok_or("a second message")?);
    let wanted: [Row; 2] = [(0, Some(b'a')), (1, None)];
    are_rows(&threads(store, alloc, ask, &PlainThreader)?, &wanted)?;
    are_rows(
        &thread(store, alloc, ask, &PlainThreader, &second)?,
        &wanted,
    )
}
