//! Step 5: threads of one subject are gathered.

ghost use Rattle.std.specs.Prelude.{◌≡◌, ◌==◌, ◌∷◌, ◌++◌, [], ℕ, not, bytes_eq, filter, flat_map, map, position, IfOk, OnOk};
ghost use Rattle.thread_core.specs.declared.tree.Tree.{Tree};
ghost use Rattle.std.specs.List.{after_first, before_first, list_any};
ghost use Rattle.thread_core.specs.Merge.{base_subject_at, distinct_subjects, trees_with_subject, is_dummy_tree, has_reply_subject};
ghost use Rattle.thread_core.specs.Merge.{links_under_first, threads_of_merged_group, merged_trees, messages_of_tree};
ghost use Rattle.thread_core.specs.Merge.{non_replies, thread_subject, merged_children_of_group, trees_of_group, with_subject};
ghost use Rattle.thread_core.specs.Merge.{trees_without_subject};
ghost use Rattle.thread_core.specs.Parts.{merged_group_of_message};

use crate::forest::push_dummy;
use crate::order::date_key_of;
use crate::tree::{Places, Tree};
use mail_core::Memory;
use std::alloc::Global;
use thread_links::Entry;

/// The top trees, and the (child, parent) links of messages that were taken from the top.
#[derive(Drop)]
pub struct Merged {
    /// At the top, in their order.
    pub trees: Vec<Tree>,
    /// Each of a child and its parent, by place in the mailbox.
    pub links: Vec<(usize, usize)>,
}

impl Merged {
    /// No trees and no links, which takes no memory.
    pub fn new(alloc: Global) -> Merged
        ensures trees { result.trees.items ≡ [] }
        ensures links { result.links.items ≡ [] }
    {
        Merged {
            trees: Vec::new(alloc),
            links: Vec::new(alloc),
        }
    }

    /// These trees and no links, which takes no memory.
    pub fn without_links(alloc: Global, trees: Vec<Tree>) -> Merged
        ensures trees { result.trees.items ≡ trees.items }
        ensures links { result.links.items ≡ [] }
    {
        Merged {
            trees,
            links: Vec::new(alloc),
        }
    }

    /// Adds what becomes of a group.
    pub fn add(
        &mut self,
        alloc: Global,
        entries: &[Entry],
        group: SubjectGroup,
    ) -> Result<(), Memory>
        ensures trees { OnOk result (self.new.trees.items
            ≡ self.old.trees.items ++ (threads_of_merged_group entries.now group.dummy group.messages.items).trees) }
        ensures links { OnOk result (self.new.links.items
            ≡ self.old.links.items ++ (threads_of_merged_group entries.now group.dummy group.messages.items).links) }
    {
        let plain = find_plain(alloc, entries, &group.messages)?;
        push_links(&mut self.links, &group, &plain)?;
        push_group(alloc, &mut self.trees, group, &plain)
    }
}

/// The messages of one subject at the top.
#[derive(Drop)]
pub struct SubjectGroup {
    /// Whether a dummy stands above them.
    pub dummy: bool,
    /// By place in the mailbox.
    pub messages: Vec<usize>,
}

/// The base subject of the message at a place.
fn base_at(entries: &[Entry], place: usize) -> &[u8]
    ensures { result.now ≡ base_subject_at entries.now place }
{
    match entries.get(place) {
        Some(entry) => entry.base.as_slice(),
        None => &[],
    }
}

/// Whether the message at a place is a reply or a forward.
fn is_reply_at(entries: &[Entry], place: usize) -> bool
    ensures { result ≡ has_reply_subject entries.now place }
{
    match entries.get(place) {
        Some(entry) => entry.reply,
        None => false,
    }
}

/// Whether two messages have the same base subject.
fn is_same_base(entries: &[Entry], place: usize, other: usize) -> bool
    ensures { result ≡ bytes_eq (base_subject_at entries.now place) (base_subject_at entries.now other) }
{
    base_at(entries, place) == base_at(entries, other)
}

/// Whether a tree has an empty subject.
fn has_no_subject(entries: &[Entry], tree: &Tree) -> bool
    ensures { result ≡ bytes_eq [] (thread_subject entries.now tree.now) }
{
    base_at(entries, date_key_of(entries, tree)).is_empty()
}

/// Puts a message before those of other subjects, and drops its subject there.
fn put_leader(entries: &[Entry], leaders: &mut Vec<usize>, place: usize) -> Result<(), Memory>
    ensures { OnOk result (map (base_subject_at entries.now) leaders.new.items
        ≡ with_subject (base_subject_at entries.now place) (map (base_subject_at entries.now) leaders.old.items)) }
{
    if base_at(entries, place).is_empty() {
        return Ok(());
    }
    leaders.retain(|other| !is_same_base(entries, place, *other));
    leaders.insert(0, place)?;
    Ok(())
}

/// A message for each subject that is not empty, in the order of the trees.
fn find_leaders(alloc: Global, entries: &[Entry], trees: &[Tree]) -> Result<Vec<usize>, Memory>
    ensures { IfOk result (λ v. map (base_subject_at entries.now) v.items
        ≡ distinct_subjects (map (thread_subject entries.now) trees.now)) }
{
    let mut leaders = Vec::new(alloc);
    let mut left = trees.len();
    while left > 0 {
        left -= 1;
        put_leader(entries, &mut leaders, date_key_of(entries, &trees[left]))?;
    }
    Ok(leaders)
}

/// Whether a tree is a dummy.
pub fn is_dummy(tree: &Tree) -> bool
    ensures { result ≡ is_dummy_tree tree.now }
{
    match tree {
        Tree::Message(_) => false,
        Tree::DummyOver(_) => true,
    }
}

/// Adds a message, or the children of a dummy.
pub fn push_messages(messages: &mut Vec<usize>, tree: &Tree) -> Result<(), Memory>
    ensures { OnOk result (messages.new.items ≡ messages.old.items ++ messages_of_tree tree.now) }
{
    match tree {
        Tree::Message(place) => messages.push(*place)?,
        Tree::DummyOver(places) => messages.extend_from_slice(places.as_slice())?,
    }
    Ok(())
}

/// The group of a message's subject.
fn find_group(
    alloc: Global,
    entries: &[Entry],
    trees: &[Tree],
    leader: usize,
) -> Result<SubjectGroup, Memory>
    ensures dummy { IfOk result (λ group. group.dummy
        ≡ list_any is_dummy_tree (trees_with_subject entries.now trees.now (base_subject_at entries.now leader))) }
    ensures messages { IfOk result (λ group. group.messages.items
        ≡ flat_map messages_of_tree (trees_with_subject entries.now trees.now (base_subject_at entries.now leader))) }
{
    let mut dummy = false;
    let mut messages = Vec::new(alloc);
    for tree in trees {
        if is_same_base(entries, leader, date_key_of(entries, tree)) {
            dummy = dummy || is_dummy(tree);
            push_messages(&mut messages, tree)?;
        }
    }
    Ok(SubjectGroup { dummy, messages })
}

/// The messages that are no replies.
fn find_plain(alloc: Global, entries: &[Entry], messages: &[usize]) -> Result<Vec<usize>, Memory>
    ensures { IfOk result (λ v. v.items ≡ non_replies entries.now messages.now) }
{
    let mut plain = Vec::from_slice(alloc, messages)?;
    plain.retain(|place| !is_reply_at(entries, *place));
    Ok(plain)
}

/// Where a message stands in a list.
fn find_place(places: &[usize], place: usize) -> Option<usize>
    ensures { result ≡ position (λ (p : ℕ). p == place) places.now }
{
    places.iter().position(|p| *p == place)
}

/// The messages before one, or all.
#[tactic(auto, using(crate::proofs::MergeLemmas::before_none, crate::proofs::MergeLemmas::before_some, crate::proofs::MergeLemmas::place_below))]
fn before(places: &[usize], place: usize) -> &[usize]
    ensures { result.now ≡ before_first (λ (p : ℕ). p == place) places.now }
{
    match find_place(places, place) {
        Some(at) => &places[..at],
        None => places,
    }
}

/// The messages after one, or none.
#[tactic(auto, using(crate::proofs::MergeLemmas::after_none, crate::proofs::MergeLemmas::after_some, crate::proofs::MergeLemmas::place_below))]
fn after(places: &[usize], place: usize) -> &[usize]
    ensures { result.now ≡ after_first (λ (p : ℕ). p == place) places.now }
{
    match find_place(places, place) {
        Some(at) => &places[at + 1..],
        None => &[],
    }
}

/// Links the messages under the first of them that is no reply.
#[tactic(auto, using(crate::proofs::MergeLemmas::links_more_yes, crate::proofs::MergeLemmas::links_more_no))]
fn link_under(
    links: &mut Vec<(usize, usize)>,
    children: &[usize],
    first: usize,
) -> Result<(), Memory>
    ensures { OnOk result (links.new.items ≡ links.old.items
        ++ map (λ (p : ℕ). (p, first)) (filter (λ (p : ℕ). not (p == first)) children.now)) }
{
    for child in children {
        if *child != first {
            links.push((*child, first))?;
        }
    }
    Ok(())
}

/// Adds the links of the messages of a group that become children of its first plain one.
#[tactic(auto, using(crate::proofs::MergeLemmas::no_links_dummy, crate::proofs::MergeLemmas::no_links_none, crate::proofs::MergeLemmas::links_of_one, crate::proofs::MergeLemmas::links_of_two))]
fn push_links(
    links: &mut Vec<(usize, usize)>,
    group: &SubjectGroup,
    plain: &[usize],
) -> Result<(), Memory>
    ensures { OnOk result (links.new.items ≡ links.old.items
        ++ links_under_first plain.now (merged_children_of_group group.now.dummy group.now.messages.items plain.now)) }
{
    if group.dummy || plain.is_empty() {
        return Ok(());
    }
    if plain.len() == 1 {
        return link_under(links, &group.messages, plain[0]);
    }
    link_under(links, before(&group.messages, plain[1]), plain[0])
}

/// The dummy over two plain messages and all that follow.
fn dummy_over(
    alloc: Global,
    first: usize,
    second: usize,
    messages: &[usize],
) -> Result<Tree, Memory>
    ensures { IfOk result (λ tree. tree
        ≡ Tree.DummyOver (first ∷ second ∷ after_first (λ (p : ℕ). p == second) messages.now)) }
{
    let mut places = Vec::from_slice(alloc, &[first, second])?;
    places.extend_from_slice(after(messages, second))?;
    Ok(Tree::DummyOver(Places::of(places)))
}

/// Adds what a group leaves at the top.
fn push_group(
    alloc: Global,
    trees: &mut Vec<Tree>,
    group: SubjectGroup,
    plain: &[usize],
) -> Result<(), Memory>
    ensures { OnOk result (trees.new.items ≡ trees.old.items
        ++ trees_of_group group.dummy group.messages.items plain.now) }
{
    if group.dummy {
        trees.push(Tree::DummyOver(Places::of(group.messages)))?;
        return Ok(());
    }
    if plain.is_empty() {
        return push_dummy(trees, group.messages);
    }
    if plain.len() == 1 {
        trees.push(Tree::Message(plain[0]))?;
        return Ok(());
    }
    trees.push(dummy_over(alloc, plain[0], plain[1], &group.messages)?)?;
    Ok(())
}

/// The trees without a subject before others.
pub fn keep_without_subject(
    entries: &[Entry],
    mut trees: Vec<Tree>,
    merged: Vec<Tree>,
) -> Result<Vec<Tree>, Memory>
    ensures { IfOk result (λ v. v.items ≡ trees_without_subject entries.now trees.items ++ merged.items) }
{
    trees.retain(|tree| has_no_subject(entries, tree));
    trees.extend(merged)?;
    Ok(trees)
}

/// What becomes of the groups of messages' subjects.
#[tactic(auto, using(crate::proofs::MergeLemmas::leader_trees, crate::proofs::MergeLemmas::leader_links))]
fn merge_groups(
    alloc: Global,
    entries: &[Entry],
    trees: &[Tree],
    leaders: &[usize],
) -> Result<Merged, Memory>
    ensures trees { IfOk result (λ merged. merged.trees.items
        ≡ flat_map (λ (leader : ℕ). (merged_group_of_message entries.now trees.now leader).trees) leaders.now) }
    ensures links { IfOk result (λ merged. merged.links.items
        ≡ flat_map (λ (leader : ℕ). (merged_group_of_message entries.now trees.now leader).links) leaders.now) }
{
    let mut merged = Merged::new(alloc);
    for leader in leaders {
        merged.add(alloc, entries, find_group(alloc, entries, trees, *leader)?)?;
    }
    Ok(merged)
}

/// The trees after the merge, given those before it in order.
#[tactic(auto, using(crate::proofs::MergeLemmas::all_gathered_trees, crate::proofs::MergeLemmas::all_gathered_links))]
pub fn merge_trees(alloc: Global, entries: &[Entry], trees: Vec<Tree>) -> Result<Merged, Memory>
    ensures trees { IfOk result (λ merged. merged.trees.items ≡ (merged_trees entries.now trees.items).trees) }
    ensures links { IfOk result (λ merged. merged.links.items ≡ (merged_trees entries.now trees.items).links) }
{
    let leaders = find_leaders(alloc, entries, &trees)?;
    let merged = merge_groups(alloc, entries, &trees, &leaders)?;
    Ok(Merged {
        trees: keep_without_subject(entries, trees, merged.trees)?,
        links: merged.links,
    })
}
