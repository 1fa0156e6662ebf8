//! Inputs and outputs that fail.
use crate::cases::{gets, today};
use crate::requests::LISTS;
use archive_pages::{ServeFault, answer};
use archive_port::ArchiveStore;
use desk_tests::checks::{expect, expect_equal};
use mbox_core::device::Tap;
use policy_core::Policy;
use std::alloc::Global;
use std::test::Fail;
use thread_core::PlainThreader;

/// A request for all lists.
const GET: &[u8] = b"GET / HTTP/1.1\r\n\r\n";

/// An input and an output that fail after each number of bytes below the whole, and then the whole reply.
pub fn devices<A: ArchiveStore>(alloc: Global, store: &mut A) -> Result<(), Fail> {
    let policy = Policy::open();
    for passes in 0..GET.len() {
        input_fails(alloc, store, &policy, passes)?;
    }
    for passes in 0..LISTS.len() {
        output_fails(alloc, store, &policy, passes)?;
    }
    expect(
        gets(alloc, store, &policy, GET, 8192, LISTS)?,
        "another whole reply",
    )
}

/// Where the input fails after so many bytes, nothing is written.
fn input_fails<A: ArchiveStore>(
    alloc: Global,
    store: &mut A,
    policy: &Policy,
    passes: usize,
) -> Result<(), Fail> {
    let mut input = Tap::new(alloc, GET, passes)?;
    let mut output = Tap::new(alloc, b"", 1000)?;
    expect_equal(
        answer(
            store,
            alloc,
            policy,
            &PlainThreader,
            today()?,
            &mut input,
            &mut output,
        ),
        Err(ServeFault::Read),
    )?;
    expect(output.bytes().is_empty(), format_args!("after {passes}"))?;
    Ok(())
}

/// Where the output fails after so many bytes, these are the first of the reply.
fn output_fails<A: ArchiveStore>(
    alloc: Global,
    store: &mut A,
    policy: &Policy,
    passes: usize,
) -> Result<(), Fail> {
    let mut input = Tap::new(alloc, GET, 1000)?;
    let mut output = Tap::new(alloc, b"", passes)?;
    let stopped = ServeFault::Write {
        written: passes as u64,
    };
    expect_equal(
        answer(
            store,
            alloc,
            policy,
            &PlainThreader,
            today()?,
            &mut input,
            &mut output,
        ),
        Err(stopped),
    )?;
    expect_equal(Some(output.bytes()), LISTS.get(..passes))?;
    Ok(())
}
