//! The plain threader: RFC 5256 as the definitions have it, by lists of pairs, for short lists.

ghost use Rattle.std.specs.Prelude.{◌≡◌, ◌≤◌, IfOk, length};
ghost use Rattle.thread_links.specs.Links.{parent_of};
ghost use Rattle.thread_core.specs.Parts.{containers_of_parents};
ghost use Rattle.thread_core.specs.Threads.{rows_of_parents, rows_of_containers};

use crate::family::{ContainerTree, MergeLinks};
use crate::forest::find_roots;
use crate::order::order_trees;
use crate::row::Row;
use crate::rows::tree_rows;
use crate::subjects::merge_by_subject;
use crate::threader::Threader;
use mail_core::Memory;
use std::alloc::Global;
use std::hash::RandomState;
use std::sync::ledger::Ledger;
use thread_links::{Entry, Pairs, Steps, join_plain};

/// Steps 2 to 6 over a list of parents, step 5 only where `merge` is true, and then with a table of
/// subjects where a state for it is given.
pub fn table_rows(
    alloc: Global,
    entries: &[Entry],
    merge: bool,
    parents: Vec<Option<usize>>,
    state: Option<RandomState>,
) -> Result<Vec<Row>, Memory>
    ensures { IfOk result (λ rows. rows.items
        ≡ rows_of_containers entries.now merge (containers_of_parents parents.items (length entries.now))) }
{
    let all = ContainerTree::new(alloc, parents, entries.len())?;
    let tops = find_roots(alloc, &all)?;
    let ordered = order_trees(alloc, entries, tops)?;
    let merged = merge_by_subject(alloc, merge, state, entries, ordered)?;
    let trees = order_trees(alloc, entries, merged.trees)?;
    let taken = MergeLinks::new(alloc, merged.links)?;
    tree_rows(alloc, entries, &all, &taken, &trees)
}

/// Threads by lists of pairs: the plain program of the definitions (RFC 5256 section 3,
/// THREAD=REFERENCES), for short lists. It counts no steps. One link takes the square of the links
/// in time, one id as long as the list, and one subject as many comparisons as there are threads.
pub struct PlainThreader;

impl Threader for PlainThreader {
    type Links = Pairs;

    ghost linked = { λ pairs. pairs };

    fn join<L: Ledger>(
        &self,
        alloc: Global,
        entries: &[Entry],
        steps: &mut Steps<L>,
    ) -> Result<Pairs, Memory> {
        join_plain(alloc, entries, steps)
    }

    fn rows<L: Ledger>(
        &self,
        alloc: Global,
        entries: &[Entry],
        merge: bool,
        links: Pairs,
        _steps: &mut Steps<L>,
    ) -> Result<Vec<Row>, Memory> {
        let parents = links.parents(alloc)?;
        table_rows(alloc, entries, merge, parents, None)
    }
}
