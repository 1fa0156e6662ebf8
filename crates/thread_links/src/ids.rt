//! The numbers of ids, by a hash map whose keys stand in the messages.

ghost use Rattle.std.specs.HashMap.{get_by};
ghost use Rattle.std.specs.Prelude.{◌≡◌, ◌&&◌, ◌∷◌, ◌++◌, [], List, Some, if◌then◌else◌, is_none, length, map, IfOk, OnOk};
ghost use Rattle.mail_core.specs.MsgIds.{MessageId};
ghost use Rattle.thread_links.specs.declared.entry.Entry.{Entry};
ghost use Rattle.thread_links.specs.Containers.{same_id, owner, referenced_ids, container_number_of_id};
ghost use Rattle.thread_links.specs.Ids.{place_of_container, AreNumbered, NumbersContainers};

use crate::entry::Entry;
use mail_core::{Memory, MsgIdRef, References};
use std::alloc::Global;
use std::collections::HashMap;
use std::hash::RandomState;

/// The number of each id, how many containers there are, and the numbers of the references, one
/// after the other.
#[derive(Drop)]
pub struct Ids<'a> {
    numbers: HashMap<MsgIdRef<'a>, usize, RandomState>,
    count: usize,
    refs: Vec<usize>,
}

/// Gives an id a number unless it has one. The answer is the number that it had.
fn add<'a>(
    numbers: &mut HashMap<MsgIdRef<'a>, usize, RandomState>,
    id: MsgIdRef<'a>,
    number: usize,
) -> Result<Option<usize>, Memory>
    ensures had { IfOk result (λ had. had ≡ get_by (same_id id.entry) numbers.old) }
    ensures numbers { OnOk result ((other : MessageId)
        → get_by (same_id other) numbers.new
        ≡ (if is_none (get_by (same_id id.entry) numbers.old) && same_id id.entry other
        then Some number else get_by (same_id other) numbers.old)) }
{
    let before = numbers.len();
    let held = *numbers.entry(id)?.or_insert(number);
    if numbers.len() > before {
        return Ok(None);
    }
    Ok(Some(held))
}

/// Gives the id of a message its place, unless a message before it has that id.
fn add_message<'a>(
    numbers: &mut HashMap<MsgIdRef<'a>, usize, RandomState>,
    entry: &'a Entry,
    place: usize,
) -> Result<(), Memory>
    ensures { (before : List Entry) → length before ≡ place
        → ((id : MessageId) → get_by (same_id id) numbers.old ≡ place_of_container (owner before id))
        → OnOk result ((id : MessageId) → get_by (same_id id) numbers.new
        ≡ place_of_container (owner (before ++ entry.now ∷ []) id)) }
{
    match &entry.id {
        None => Ok(()),
        Some(id) => {
            add(numbers, id.borrowed(), place)?;
            Ok(())
        }
    }
}

/// The ids of messages, each with the place of the first message that has it.
fn number_messages<'a>(
    alloc: Global,
    state: RandomState,
    entries: &'a [Entry],
) -> Result<HashMap<MsgIdRef<'a>, usize, RandomState>, Memory>
    ensures { IfOk result (λ numbers. (id : MessageId) → get_by (same_id id) numbers ≡ place_of_container (owner entries.entry.now id)) }
{
    let mut numbers = HashMap::with_hasher(alloc, state);
    for place in 0..entries.len() {
        add_message(&mut numbers, &entries[place], place)?;
    }
    Ok(numbers)
}

impl<'a> Ids<'a> {
    /// Gives an id the next number unless it has one, and notes its number. More numbers than there
    /// are take more memory than there is.
    fn note(&mut self, id: MsgIdRef<'a>) -> Result<(), Memory>
        ensures containers { (entries : List Entry) (refs : List MessageId)
            → NumbersContainers entries refs self.old.count (λ other. get_by (same_id other) self.old.numbers)
            → OnOk result (NumbersContainers entries (refs ++ id.entry ∷ []) self.new.count
            (λ other. get_by (same_id other) self.new.numbers)) }
        ensures references { (refs : List MessageId)
            → AreNumbered (λ other. get_by (same_id other) self.old.numbers) refs self.old.refs.items
            → OnOk result (AreNumbered (λ other. get_by (same_id other) self.new.numbers) (refs ++ id.entry ∷ [])
            self.new.refs.items) }
    {
        let next = self.count.checked_add(1).ok_or(Memory)?;
        match add(&mut self.numbers, id, self.count)? {
            Some(number) => self.refs.push(number)?,
            None => {
                self.refs.push(self.count)?;
                self.count = next;
            }
        }
        Ok(())
    }

    /// The same for each of some ids in turn.
    fn note_all(&mut self, ids: &'a References) -> Result<(), Memory>
        ensures containers { (entries : List Entry) (refs : List MessageId)
            → NumbersContainers entries refs self.old.count (λ other. get_by (same_id other) self.old.numbers)
            → OnOk result (NumbersContainers entries (refs ++ ids.entry.now) self.new.count
            (λ other. get_by (same_id other) self.new.numbers)) }
        ensures references { (refs : List MessageId)
            → AreNumbered (λ other. get_by (same_id other) self.old.numbers) refs self.old.refs.items
            → OnOk result (AreNumbered (λ other. get_by (same_id other) self.new.numbers) (refs ++ ids.entry.now)
            self.new.refs.items) }
    {
        for at in 0..ids.len() {
            self.note(ids.get(at))?;
        }
        Ok(())
    }

    /// The numbers of the ids of messages and of their references.
    pub fn new(alloc: Global, state: RandomState, entries: &'a [Entry]) -> Result<Ids<'a>, Memory>
        ensures containers { IfOk result (λ ids. NumbersContainers entries.entry.now (referenced_ids entries.entry.now) ids.count
            (λ other. get_by (same_id other) ids.numbers)) }
        ensures references { IfOk result (λ ids. ids.refs.items
            ≡ map (container_number_of_id entries.entry.now) (referenced_ids entries.entry.now)) }
    {
        let mut ids = Ids {
            numbers: number_messages(alloc, state, entries)?,
            count: entries.len(),
            refs: Vec::new(alloc),
        };
        for entry in entries {
            ids.note_all(&entry.refs)?;
        }
        Ok(ids)
    }

    /// How many containers there are.
    pub fn count(&self) -> usize
        ensures { result ≡ self.now.count }
    {
        self.count
    }

    /// The numbers of the references, message by message.
    pub fn numbers(&self) -> &[usize]
        ensures { result.now ≡ self.now.refs.items }
    {
        &self.refs
    }
}
