//! What a threader is, and `threads`, which asks one and makes the rows.

ghost use Rattle.std.specs.Prelude.{◌≡◌, ◌≤◌, ◌<◌, IfOk, length};
ghost use Rattle.thread_links.specs.Containers.{container_count};
ghost use Rattle.thread_links.specs.Links.{LinkedContainers, IsForestOfLinks, links_of, parent_of};
ghost use Rattle.thread_core.specs.Threads.{rows_of_parents, threads_of};

use crate::row::Row;
use mail_core::Memory;
use std::alloc::Global;
use std::marker::Brand;
use std::sync::ledger::{Blank, Ledger};
use thread_links::{Entry, Steps};

/// Threads entries by RFC 5256, THREAD=REFERENCES, in two parts. Entries stand in mailbox order.
pub trait Threader {
    /// Containers with the links between them.
    type Links;

    /// How many containers there are, and the links by number, however they are kept.
    ghost linked: { Self.Links → LinkedContainers };

    /// Step 1: the links that the references make.
    fn join<L: Ledger>(
        &self,
        alloc: Global,
        entries: &[Entry],
        steps: &mut Steps<L>,
    ) -> Result<Self::Links, Memory>
        ensures step_one { IfOk result (λ links. IsForestOfLinks (container_count entries.now) (links_of entries.now)
            (linked links)) };

    /// Steps 2 to 6 over any links, in preorder, step 5 only where `merge` is true: the first
    /// containers are the messages, by place, and the others are dummies. A refusal drops the links.
    fn rows<L: Ledger>(
        &self,
        alloc: Global,
        entries: &[Entry],
        merge: bool,
        links: Self::Links,
        steps: &mut Steps<L>,
    ) -> Result<Vec<Row>, Memory>
        requires { length entries.now ≤ (linked links).count }
        ensures steps_two_to_six { IfOk result
            (λ rows. rows.items ≡ rows_of_parents entries.now merge (linked links).count
            (parent_of (linked links).links)) };
}

/// The threads of a mailbox in preorder, by both parts of a threader; those of one base subject are
/// gathered (step 5) only where `merge` is true.
pub fn threads<T: Threader>(
    alloc: Global,
    threader: &T,
    entries: &[Entry],
    merge: bool,
) -> Result<Vec<Row>, Memory>
    ensures { IfOk result (λ rows. rows.items ≡ threads_of entries.now merge) }
{
    join_and_rows::<T, Brand>(alloc, threader, entries, merge, Blank::new(1))
}

/// Both parts, one after the other, with a count that nobody reads.
fn join_and_rows<T: Threader, L: Ledger>(
    alloc: Global,
    threader: &T,
    entries: &[Entry],
    merge: bool,
    blank: Blank,
) -> Result<Vec<Row>, Memory>
    requires name { blank.name ≡ L.name }
    requires parts { blank.parts ≡ L.parts }
    requires some { 0 < blank.parts }
    ensures { IfOk result (λ rows. rows.items ≡ threads_of entries.now merge) }
{
    let mut steps = Steps::<L>::new(blank);
    let links = threader.join(alloc, entries, &mut steps)?;
    threader.rows(alloc, entries, merge, links, &mut steps)
}
