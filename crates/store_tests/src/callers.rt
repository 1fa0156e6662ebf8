//! Calls that follow one another, with what they do together proved, whatever is filed: of a walk that is dropped early, and a
//! question behind it.
ghost use Rattle.std.specs.Prelude.{◌≡◌, IfOk};
ghost use Rattle.archive_model.specs.Questions.{has_list};
ghost use Rattle.archive_store.specs.Told.{HadCleanDisk, StoreHasCleanDisk, HoldsTables, archive_in};

use archive_store::{Message, Store, StoreFault};
use sqlite::Alter;
use std::alloc::Global;

/// The first message of a list, and whether there is another list. The walk is dropped at its first message.
pub fn first_of<S: Alter>(
    store: &mut Store<S>,
    alloc: Global,
    list: &str,
    other: &str,
) -> Result<(Option<Message>, bool), StoreFault>
    ensures left { StoreHasCleanDisk S.Store store.new → HoldsTables S.Store store.old → IfOk result (λ found. HoldsTables S.Store store.new
        × (archive_in S.Store store.new ≡ archive_in S.Store store.old) × (found.1 ≡ has_list (archive_in S.Store store.old) other.now)) }
    ensures clean { HadCleanDisk S.Store store.old store.new }
{
    let first = walk_to_first(store, alloc, list)?;
    let is_there = store.has_list(other)?;
    Ok((first, is_there))
}

fn walk_to_first<S: Alter>(
    store: &mut Store<S>,
    alloc: Global,
    list: &str,
) -> Result<Option<Message>, StoreFault>
    ensures left { StoreHasCleanDisk S.Store store.new → HoldsTables S.Store store.old → IfOk result (λ _. HoldsTables S.Store store.new
        × (archive_in S.Store store.new ≡ archive_in S.Store store.old)) }
    ensures clean { HadCleanDisk S.Store store.old store.new }
{
    let mut walk = store.each_row(alloc, list)?;
    walk.next(store)
}
