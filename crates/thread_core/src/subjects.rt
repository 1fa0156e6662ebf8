//! Step 5 by a table of subjects: each tree goes to the first message of its subject.

ghost use Rattle.std.specs.HashMap.{get_by};
ghost use Rattle.std.specs.List.{list_any};
ghost use Rattle.std.specs.Prelude.{◌≡◌, ◌≢◌, ◌&&◌, ◌||◌, ◌∷◌, ◌++◌, [], ℕ, List, Some, bytes_eq};
ghost use Rattle.std.specs.Prelude.{if◌then◌else◌, flat_map, get_or, is_none, length, map, IfOk, OnOk};
ghost use Rattle.thread_links.specs.declared.entry.Entry.{Entry};
ghost use Rattle.thread_core.specs.declared.tree.Tree.{Tree};
ghost use Rattle.thread_core.specs.Forest.{tree_key_place};
ghost use Rattle.thread_core.specs.Merge.{base_subject_at, is_dummy_tree, merged_group, merged_trees, messages_of_tree, thread_subject, merged_if_enabled};
ghost use Rattle.thread_core.specs.Subjects.{leader_of_message, trees_at_numbers, AreSubjectLeaders};

use crate::family::{children_at, children_by_parent};
use crate::merging::{
    Merged, SubjectGroup, is_dummy, keep_without_subject, merge_trees, push_messages,
};
use crate::order::date_key_of;
use crate::tree::{Places, Tree};
use mail_core::{Memory, Octets};
use std::alloc::Global;
use std::collections::HashMap;
use std::hash::RandomState;
use thread_links::Entry;

/// The first message of each subject, in order and by subject.
#[derive(Drop)]
struct Leaders {
    places: Vec<usize>,
    table: HashMap<Octets, usize, RandomState>,
}

/// Gives a subject a message unless it has one. The answer says whether it had none.
fn add_subject(
    alloc: Global,
    table: &mut HashMap<Octets, usize, RandomState>,
    base: &Octets,
    place: usize,
) -> Result<bool, Memory>
    ensures added { IfOk result (λ added. added ≡ is_none (get_by (bytes_eq base.now) table.old)) }
    ensures table { OnOk result ((other : List ℕ)
        → get_by (bytes_eq other) table.new
        ≡ (if is_none (get_by (bytes_eq base.now) table.old) && bytes_eq base.now other
        then Some place else get_by (bytes_eq other) table.old)) }
{
    if table.contains_key(base) {
        return Ok(false);
    }
    table.insert(base.try_clone(alloc)?, place)?;
    Ok(true)
}

impl Leaders {
    /// Puts a message behind the others, if it is the first of a subject that is not empty.
    fn add_place(&mut self, alloc: Global, base: &Octets, place: usize) -> Result<(), Memory>
        ensures { (entries : List Entry) (subjects : List (List ℕ)) → base_subject_at entries place ≡ base.now
            → length base.now ≢ 0 → AreSubjectLeaders entries subjects self.old.places.items
            (λ other. get_by (bytes_eq other) self.old.table)
            → OnOk result (AreSubjectLeaders entries (subjects ++ base_subject_at entries place ∷ []) self.new.places.items
            (λ other. get_by (bytes_eq other) self.new.table)) }
    {
        let added = add_subject(alloc, &mut self.table, base, place)?;
        if added {
            self.places.push(place)?;
        }
        Ok(())
    }

    /// Puts a message behind the others, if it is the first of its subject and that is not empty.
    fn note(&mut self, alloc: Global, entries: &[Entry], place: usize) -> Result<(), Memory>
        ensures { (subjects : List (List ℕ))
            → AreSubjectLeaders entries.now subjects self.old.places.items
            (λ other. get_by (bytes_eq other) self.old.table)
            → OnOk result (AreSubjectLeaders entries.now (subjects
            ++ base_subject_at entries.now place ∷ []) self.new.places.items
            (λ other. get_by (bytes_eq other) self.new.table)) }
    {
        match entries.get(place) {
            None => Ok(()),
            Some(entry) => {
                if entry.base.as_slice().is_empty() {
                    return Ok(());
                }
                self.add_place(alloc, &entry.base, place)
            }
        }
    }

    /// The first messages of the subjects of trees.
    fn new(
        alloc: Global,
        state: RandomState,
        entries: &[Entry],
        trees: &[Tree],
    ) -> Result<Leaders, Memory>
        ensures { IfOk result (λ all. AreSubjectLeaders entries.now
            (map (thread_subject entries.now) trees.now) all.places.items
            (λ other. get_by (bytes_eq other) all.table)) }
    {
        let mut all = Leaders {
            places: Vec::new(alloc),
            table: HashMap::with_hasher(alloc, state),
        };
        for tree in trees {
            all.note(alloc, entries, date_key_of(entries, tree))?;
        }
        Ok(all)
    }

    /// The first message of a message's subject, if that is not empty.
    fn lead(&self, entries: &[Entry], place: usize) -> Option<usize>
        ensures { result ≡ leader_of_message entries.now (λ other. get_by (bytes_eq other) self.now.table) place }
    {
        match entries.get(place) {
            None => None,
            Some(entry) => self.table.get(&entry.base).copied(),
        }
    }

    /// The first message of each tree's subject, if that is not empty.
    fn leads(
        &self,
        alloc: Global,
        entries: &[Entry],
        trees: &[Tree],
    ) -> Result<Vec<Option<usize>>, Memory>
        ensures { IfOk result (λ v. v.items
            ≡ map (λ (tree : Tree). leader_of_message entries.now
            (λ other. get_by (bytes_eq other) self.now.table) (tree_key_place entries.now tree)) trees.now) }
    {
        let mut leads = Vec::new(alloc);
        for tree in trees {
            leads.push(self.lead(entries, date_key_of(entries, tree)))?;
        }
        Ok(leads)
    }
}

/// Adds the tree of a number to a group, if there is one.
#[tactic(auto, using(crate::proofs::SubjectLemmas::picked_dummy, crate::proofs::SubjectLemmas::no_dummy, crate::proofs::SubjectLemmas::picked_messages, crate::proofs::SubjectLemmas::no_messages))]
fn pick_tree(group: &mut SubjectGroup, trees: &[Tree], number: usize) -> Result<(), Memory>
    ensures dummy { OnOk result (group.new.dummy
        ≡ (group.old.dummy || list_any is_dummy_tree (trees_at_numbers trees.now (number ∷ [])))) }
    ensures messages { OnOk result (group.new.messages.items ≡ group.old.messages.items
        ++ flat_map messages_of_tree (trees_at_numbers trees.now (number ∷ []))) }
{
    match trees.get(number) {
        None => Ok(()),
        Some(tree) => {
            group.dummy = group.dummy || is_dummy(tree);
            push_messages(&mut group.messages, tree)
        }
    }
}

/// The trees of some numbers as a group.
#[tactic(auto, using(crate::proofs::SubjectLemmas::dummies_more, crate::proofs::SubjectLemmas::messages_more))]
fn pick_group(alloc: Global, trees: &[Tree], numbers: &[usize]) -> Result<SubjectGroup, Memory>
    ensures dummy { IfOk result (λ group. group.dummy ≡ list_any is_dummy_tree (trees_at_numbers trees.now numbers.now)) }
    ensures messages { IfOk result (λ group. group.messages.items
        ≡ flat_map messages_of_tree (trees_at_numbers trees.now numbers.now)) }
{
    let mut group = SubjectGroup {
        dummy: false,
        messages: Vec::new(alloc),
    };
    for number in numbers {
        pick_tree(&mut group, trees, *number)?;
    }
    Ok(group)
}

/// What becomes of groups, by the numbers of the trees of each leader.
#[tactic(auto, using(crate::proofs::SubjectLemmas::listed_trees, crate::proofs::SubjectLemmas::listed_links))]
fn merge_listed(
    alloc: Global,
    entries: &[Entry],
    trees: &[Tree],
    leaders: &[usize],
    lists: &[Places],
) -> Result<Merged, Memory>
    ensures trees { IfOk result (λ merged. merged.trees.items
        ≡ flat_map (λ (leader : ℕ). (merged_group entries.now
        (trees_at_numbers trees.now (get_or lists.now leader []))).trees) leaders.now) }
    ensures links { IfOk result (λ merged. merged.links.items
        ≡ flat_map (λ (leader : ℕ). (merged_group entries.now
        (trees_at_numbers trees.now (get_or lists.now leader []))).links) leaders.now) }
{
    let mut merged = Merged::new(alloc);
    for leader in leaders {
        merged.add(
            alloc,
            entries,
            pick_group(alloc, trees, children_at(lists, *leader))?,
        )?;
    }
    Ok(merged)
}

/// The trees after the merge, by a table of this state.
fn merge_by_table(
    alloc: Global,
    state: RandomState,
    entries: &[Entry],
    trees: Vec<Tree>,
) -> Result<Merged, Memory>
    ensures trees { IfOk result (λ merged. merged.trees.items ≡ (merged_trees entries.now trees.items).trees) }
    ensures links { IfOk result (λ merged. merged.links.items ≡ (merged_trees entries.now trees.items).links) }
{
    let leaders = Leaders::new(alloc, state, entries, &trees)?;
    let leads = leaders.leads(alloc, entries, &trees)?;
    let lists = children_by_parent(alloc, &leads)?;
    let merged = merge_listed(alloc, entries, &trees, &leaders.places, &lists)?;
    Ok(Merged {
        trees: keep_without_subject(entries, trees, merged.trees)?,
        links: merged.links,
    })
}

/// The trees below the root, given those before step 5 in order: after it, by a table where a state
/// for it is given and else by comparisons; or as they were, where it is left out.
pub fn merge_by_subject(
    alloc: Global,
    merge: bool,
    state: Option<RandomState>,
    entries: &[Entry],
    trees: Vec<Tree>,
) -> Result<Merged, Memory>
    ensures trees { IfOk result (λ merged. merged.trees.items ≡ (merged_if_enabled entries.now merge trees.items).trees) }
    ensures links { IfOk result (λ merged. merged.links.items ≡ (merged_if_enabled entries.now merge trees.items).links) }
{
    if !merge {
        return Ok(Merged::without_links(alloc, trees));
    }
    match state {
        Some(state) => merge_by_table(alloc, state, entries, trees),
        None => merge_trees(alloc, entries, trees),
    }
}
