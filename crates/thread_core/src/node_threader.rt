//! The threader of numbered nodes.

ghost use Rattle.std.specs.Prelude.{◌≡◌, ◌≤◌, ◌+◌, ◌*◌, IfOk, length};
ghost use Rattle.thread_links.specs.Containers.{container_count, referenced_ids};
ghost use Rattle.thread_links.specs.Links.{IsForestOfLinks, links_of, parent_of};
ghost use Rattle.thread_core.specs.Threads.{rows_of_parents};

use crate::plain::table_rows;
use crate::row::Row;
use crate::threader::Threader;
use mail_core::Memory;
use std::alloc::Global;
use std::hash::RandomState;
use std::marker::Model;
use std::sync::ledger::Ledger;
use thread_links::nodes::{Nodes, read_parents};
use thread_links::{Entry, Steps, join_nodes};

/// Threads by numbered nodes, with ids and subjects in hash maps. Its steps are the parent numbers
/// that it reads.
#[derive(Clone, Copy)]
pub struct NodeThreader {
    state: RandomState,
}

impl Model for NodeThreader {
    ghost use Rattle.std.specs.declared.random_state.RandomState.{RandomState};

    ghost Value = { RandomState };

    ghost view = { λ s. s.state };

    ghost inverse = { λ state. record { state = state } };
}

impl NodeThreader {
    /// A threader whose hash maps have this state (RFC 5256 section 3, THREAD=REFERENCES). It takes
    /// no memory and reads no parent number. No answer depends on the state, only the time does.
    pub fn new(state: RandomState) -> NodeThreader
        ensures { result ≡ state }
    {
        NodeThreader { state }
    }
}

impl Threader for NodeThreader {
    type Links = Nodes;

    ghost linked = { λ nodes. nodes };

    fn join<L: Ledger>(
        &self,
        alloc: Global,
        entries: &[Entry],
        steps: &mut Steps<L>,
    ) -> Result<Nodes, Memory>
        ensures step_one { IfOk result (λ links. IsForestOfLinks (container_count entries.now) (links_of entries.now) links) }
        ensures few { IfOk result (λ _. steps.new ≤ steps.old
            + (length entries.now + length (referenced_ids entries.now)) * container_count entries.now) }
    {
        join_nodes(alloc, self.state, entries, steps)
    }

    fn rows<L: Ledger>(
        &self,
        alloc: Global,
        entries: &[Entry],
        merge: bool,
        links: Nodes,
        steps: &mut Steps<L>,
    ) -> Result<Vec<Row>, Memory>
        ensures steps_two_to_six { IfOk result
            (λ rows. rows.items ≡ rows_of_parents entries.now merge links.count (parent_of links.links)) }
        ensures few { steps.new ≤ steps.old + links.count }
    {
        let parents = read_parents(alloc, &links, steps)?;
        drop(links);
        table_rows(alloc, entries, merge, parents, Some(self.state))
    }
}
