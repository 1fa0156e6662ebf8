//! The worked cases for any store, and the stores over memory that are told them.
use crate::{commands, migrating, questions};
use archive_store::Store;
use sqlite::Alter;
use std::alloc::Global;
use std::process::Abort;
use std::test::Fail;

/// What a store is told and asked.
#[derive(Clone, Copy, Debug, PartialEq, Eq)]
pub enum Case {
    /// Each command with each of its refusals but those of a full list and of a message that is too large, told to an empty
    /// store.
    Commands,
    /// Each command by its own call, told to an empty store.
    Calls,
    /// A list that is full, told to an empty store.
    Limits,
    /// The standings of a person, told to an empty store.
    Standings,
    /// `Fill` and `Filled`.
    Questions,
    /// Lists, a person and messages, told to an empty store.
    Fill,
    /// What was told at `Fill`.
    Filled,
    /// Three lists, told to a store with no list.
    AddThree,
    /// How many of the three lists are there.
    CountThree,
    /// What a file of version 1 held, told to a store over it.
    OfFirst,
    /// What a file of version 2 held, told to a store over it.
    OfSecond,
    /// What a file of version 1 with many lists held, told to a store over it.
    OfMany,
    /// Nothing.
    Nothing,
}

/// The cases of an empty store.
pub const OF_EMPTY: [Case; 5] = [
    Case::Commands,
    Case::Calls,
    Case::Limits,
    Case::Standings,
    Case::Questions,
];

/// Tells a store a case. It answers how many lists were added or found where the case is of three lists, and else 1.
pub fn tell<S: Alter>(
    rt: &impl Abort,
    alloc: Global,
    store: &mut Store<S>,
    case: Case,
) -> Result<usize, Fail> {
    match case {
        Case::Commands => commands::commands(rt, alloc, store)?,
        Case::Calls => commands::calls(rt, alloc, store)?,
        Case::Limits => commands::limits(rt, alloc, store)?,
        Case::Standings => questions::standings(rt, store)?,
        Case::Questions => questions::questions(rt, alloc, store)?,
        Case::Fill => questions::fill(rt, alloc, store)?,
        Case::Filled => questions::is_as_filled(rt, alloc, store)?,
        Case::AddThree => return Ok(commands::add_three(alloc, store)),
        Case::CountThree => return questions::count_three(rt, alloc, store),
        Case::OfFirst => migrating::is_brought_over(rt, alloc, store, false)?,
        Case::OfSecond => migrating::is_brought_over(rt, alloc, store, true)?,
        Case::OfMany => migrating::are_many(rt, alloc, store)?,
        Case::Nothing => {}
    }
    Ok(1)
}

#[test]
fn stores_over_memory(rt: HostRuntime) -> Result<(), Fail> {
    for case in OF_EMPTY {
        let mut store = Store::open_in_memory(rt.alloc())?;
        tell(&rt, rt.alloc(), &mut store, case)?;
    }
    Ok(())
}
