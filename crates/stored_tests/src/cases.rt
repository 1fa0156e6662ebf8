//! Each call of the desk and of the pages, over a store in memory and over one in a file; and the worked cases of the desk in which the
//! tables matter. `memory_tests` has the others.
use crate::breaking::{Stage, Step, over_files};
use crate::disks::new_files;
use archive_store::Store;
use desk_tests::{imports, listings, streams};
use pages_tests::calls::each_call;
use std::test::Fail;

#[test]
fn each_call_is_answered_over_memory(rt: HostRuntime) -> Result<(), Fail> {
    let mut store = Store::open_in_memory(rt.alloc())?;
    each_call(rt.alloc(), &mut store)
}

#[test]
fn each_call_is_answered_over_a_file(rt: HostRuntime) -> Result<(), Fail> {
    let (stage, _files) = over_files(&rt, rt.alloc(), new_files(rt.alloc()), Step::Call)?;
    assert_eq!(&rt; stage, Stage::Whole);
    Ok(())
}

/// Tables keep no order of their own.
#[test]
fn lines_and_rows_stand_in_their_order(rt: HostRuntime) -> Result<(), Fail> {
    let mut store = Store::open_in_memory(rt.alloc())?;
    listings::listings(rt.alloc(), &mut store)
}

/// A row holds the largest message; one that is larger is passed over.
#[test]
fn the_largest_message_is_kept(rt: HostRuntime) -> Result<(), Fail> {
    let mut store = Store::open_in_memory(rt.alloc())?;
    imports::large(rt.alloc(), &mut store)?;
    streams::large(rt.alloc(), &mut store)
}

#[test]
fn an_import_takes_several_transactions(rt: HostRuntime) -> Result<(), Fail> {
    let mut store = Store::open_in_memory(rt.alloc())?;
    streams::batches(rt.alloc(), &mut store)
}
