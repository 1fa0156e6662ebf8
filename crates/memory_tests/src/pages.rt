//! The pages of archives in memory.
use archive_memory::MemoryArchive;
use pages_tests::calls::each_call;
use pages_tests::cases::{CASES, Order, tell_order};
use pages_tests::keeping::READINGS;
use pages_tests::links::Past;
use std::alloc::Global;
use std::hash::RandomState;
use std::random::RandomSource;
use std::test::Fail;
use thread_core::NodeThreader;

/// Tells a new archive in memory an order. What nobody in particular is shown of an archive; else nothing.
fn tell_new(rt: &impl RandomSource, alloc: Global, order: Order) -> Result<Vec<u8>, Fail> {
    let nodes = NodeThreader::new(RandomState::new(rt)?);
    let mut archive = MemoryArchive::new(alloc);
    tell_order(alloc, &mut archive, &nodes, order)
}

#[test]
fn each_call_is_answered_once(rt: HostRuntime) -> Result<(), Fail> {
    let mut archive = MemoryArchive::new(rt.alloc());
    each_call(rt.alloc(), &mut archive)
}

#[test]
fn each_request_gets_its_reply(rt: HostRuntime) -> Result<(), Fail> {
    for case in CASES {
        tell_new(&rt, rt.alloc(), Order::Case(case))?;
    }
    Ok(())
}

#[test]
fn all_links_lead_to_pages(rt: HostRuntime) -> Result<(), Fail> {
    tell_new(&rt, rt.alloc(), Order::Links)?;
    Ok(())
}

#[test]
fn who_wrote_a_withdrawn_message_finds_its_pages(rt: HostRuntime) -> Result<(), Fail> {
    tell_new(&rt, rt.alloc(), Order::OwnLinks)?;
    Ok(())
}

/// All pages that nobody in particular finds, and all that they say, are the same.
#[test]
fn a_withdrawn_message_leaves_no_trace(rt: HostRuntime) -> Result<(), Fail> {
    let withdrawn = tell_new(&rt, rt.alloc(), Order::Shown(Past::Withdrawn))?;
    let never_came = tell_new(&rt, rt.alloc(), Order::Shown(Past::NeverCame))?;
    assert!(rt; !withdrawn.is_empty());
    assert!(rt; withdrawn.as_slice() == never_came.as_slice());
    Ok(())
}

#[test]
fn a_page_of_threads_asks_the_threader_once_of_the_view_alone(rt: HostRuntime) -> Result<(), Fail> {
    tell_new(&rt, rt.alloc(), Order::Asking)?;
    Ok(())
}

/// What is kept changes no reply, and the threader is asked once for each list and reader.
#[test]
fn what_is_kept_changes_no_reply(rt: HostRuntime) -> Result<(), Fail> {
    tell_new(&rt, rt.alloc(), Order::Keeping)?;
    Ok(())
}

#[test]
fn one_reading_of_a_list_serves_all(rt: HostRuntime) -> Result<(), Fail> {
    for reading in READINGS {
        tell_new(&rt, rt.alloc(), Order::Reading(reading))?;
    }
    Ok(())
}

#[test]
fn both_threaders_give_the_same_pages(rt: HostRuntime) -> Result<(), Fail> {
    tell_new(&rt, rt.alloc(), Order::ByBoth)?;
    Ok(())
}

#[test]
fn a_ring_of_messages_is_one_thread(rt: HostRuntime) -> Result<(), Fail> {
    tell_new(&rt, rt.alloc(), Order::Rings)?;
    Ok(())
}

#[test]
fn where_it_listens_is_said_before_the_first_peer(rt: HostRuntime) -> Result<(), Fail> {
    tell_new(&rt, rt.alloc(), Order::Announced)?;
    Ok(())
}

#[test]
fn a_peer_that_fails_at_any_byte_is_told_in_a_line_and_the_next_gets_its_page(
    rt: HostRuntime,
) -> Result<(), Fail> {
    tell_new(&rt, rt.alloc(), Order::Failing)?;
    Ok(())
}

#[test]
fn each_peer_gets_its_page(rt: HostRuntime) -> Result<(), Fail> {
    tell_new(&rt, rt.alloc(), Order::Serving)?;
    Ok(())
}
