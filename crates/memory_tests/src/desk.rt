//! The worked cases over archives in memory.
use archive_memory::MemoryArchive;
use desk_tests::cases::{Case, tell};
use std::alloc::Global;
use std::hash::RandomState;
use std::random::RandomSource;
use std::test::Fail;
use thread_core::NodeThreader;

/// Tells a new archive in memory a case.
fn tell_new(rt: &impl RandomSource, alloc: Global, case: Case) -> Result<(), Fail> {
    let nodes = NodeThreader::new(RandomState::new(rt)?);
    let mut archive = MemoryArchive::new(alloc);
    tell(alloc, &mut archive, &nodes, case)
}

#[test]
fn archives_in_memory(rt: HostRuntime) -> Result<(), Fail> {
    for case in [
        Case::Imports,
        Case::Messages,
        Case::Exports,
        Case::Listings,
        Case::Shown,
        Case::Chain,
    ] {
        tell_new(&rt, rt.alloc(), case)?;
    }
    Ok(())
}

#[test]
fn each_question_asks_the_threader_once_of_the_view_alone(rt: HostRuntime) -> Result<(), Fail> {
    tell_new(&rt, rt.alloc(), Case::Asking)
}

#[test]
fn an_mbox_is_read_in_pieces(rt: HostRuntime) -> Result<(), Fail> {
    tell_new(&rt, rt.alloc(), Case::Pieces)
}
