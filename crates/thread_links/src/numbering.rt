//! The number of each id: the place of the message that owns it, or that of a dummy behind the messages.

ghost use Rattle.std.specs.Prelude.{◌≡◌, ◌≤◌, ◌<◌, ◌∷◌, ◌++◌, not, length, filter, OnOk, IfOk, IfSome, false};
ghost use Rattle.std.specs.Option.{option_map_or};
ghost use Rattle.thread_links.specs.Containers.{same_id, has_id, owner, real, dummy, is_dummy, dummy_ids, index_of, container_number_of_id};
ghost use Rattle.thread_links.specs.Parts.{distinct_ids_before};

use crate::entry::Entry;
use mail_core::{Memory, MsgId, MsgIdRef, References};
use std::alloc::Global;

/// Whether two ids are the same, compared with case.
fn is_same(id: &MsgIdRef<'_>, other: &MsgId) -> bool
    ensures { result ≡ same_id id.now other.now }
{
    id.left() == other.left() && id.right() == other.right()
}

/// Whether a message has the id.
fn is_of(entry: &Entry, id: &MsgIdRef<'_>) -> bool
    ensures { result ≡ has_id entry.now id.now }
{
    match &entry.id {
        Some(own) => is_same(id, own),
        None => false,
    }
}

/// The place of the first message that has the id.
#[tactic(auto, using(crate::proofs::NumberLemmas::owner_more, crate::proofs::NumberLemmas::owner_end))]
pub fn find_owner(entries: &[Entry], id: &MsgIdRef<'_>) -> Option<usize>
    ensures value { owner entries.now id.now ≡ option_map_or real result (dummy id.now) }
    ensures below { IfSome result (λ place. place < length entries.now) }
{
    for place in 0..entries.len() {
        let entry = &entries[place];
        if is_of(entry, id) {
            return Some(place);
        }
    }
    None
}

/// Whether no message has the id.
fn is_unowned(entries: &[Entry], id: &MsgId) -> bool
    ensures { result ≡ is_dummy (owner entries.now id.now) }
{
    find_owner(entries, &id.borrowed()).is_none()
}

/// Puts an id before the others, and drops it there.
fn put_first(alloc: Global, ids: &mut Vec<MsgId>, id: &MsgIdRef<'_>) -> Result<(), Memory>
    ensures { OnOk result (ids.new.items ≡ id.now ∷ filter (λ other. not (same_id id.now other)) ids.old.items) }
{
    let first = id.try_owned(alloc)?;
    ids.retain(|other| !is_same(id, other));
    ids.insert(0, first)?;
    Ok(())
}

/// The place of an id in a list, or its length.
#[tactic(auto, using(crate::proofs::NumberLemmas::index_more, crate::proofs::NumberLemmas::index_end))]
fn find_index(ids: &[MsgId], id: &MsgIdRef<'_>) -> usize
    ensures value { result ≡ index_of ids.now id.now }
    ensures within { result ≤ length ids.now }
{
    for at in 0..ids.len() {
        let other = &ids[at];
        if is_same(id, other) {
            return at;
        }
    }
    ids.len()
}

/// The number of the container of an id.
pub fn find_number(entries: &[Entry], unowned: &[MsgId], id: &MsgIdRef<'_>) -> usize
    requires { unowned.now ≡ dummy_ids entries.now }
    ensures { result ≡ container_number_of_id entries.now id.now }
{
    match find_owner(entries, id) {
        Some(place) => place,
        None => entries.len() + find_index(unowned, id),
    }
}

/// Puts ids before others, each once.
#[tactic(auto, using(crate::proofs::NumberLemmas::onto_more))]
fn put_all_first(alloc: Global, ids: &mut Vec<MsgId>, refs: &References) -> Result<(), Memory>
    ensures { OnOk result (ids.new.items ≡ distinct_ids_before refs.now ids.old.items) }
{
    let mut left = refs.len();
    while left > 0 {
        left -= 1;
        put_first(alloc, ids, &refs.get(left))?;
    }
    Ok(())
}

/// The mentioned ids that no message has, in the order of first mention.
#[tactic(auto, using(crate::proofs::NumberLemmas::mentioned_more))]
pub fn find_dummies(alloc: Global, entries: &[Entry]) -> Result<Vec<MsgId>, Memory>
    ensures { IfOk result (λ ids. ids.items ≡ dummy_ids entries.now) }
{
    let mut ids = Vec::new(alloc);
    let mut left = entries.len();
    while left > 0 {
        left -= 1;
        let entry = &entries[left];
        put_all_first(alloc, &mut ids, &entry.refs)?;
    }
    ids.retain(|id| is_unowned(entries, id));
    Ok(ids)
}
