//! How many messages a list may hold.
ghost use Rattle.std.specs.Prelude.{[], ◌∷◌};
ghost use Rattle.archive_model.specs.Machine.{add_within_limit};
ghost use Rattle.archive_model.specs.Commands.{add, no_list, too_large, list_full};
ghost use Rattle.archive_store.specs.Held.{store_connection};
ghost use Rattle.archive_store.specs.Told.{EndsWrite};
ghost use Rattle.archive_store.specs.Refusals.{IsCommandRefusedWithin};
ghost use Rattle.archive_store.specs.Crashes.{CrashSteps};
ghost use Rattle.archive_store.specs.Replies.{PerformsModelStep};
ghost use Rattle.archive_port.specs.Replies.{reply_if_added};

use crate::commands::added;
use crate::store::Store;
use archive_port::{Added, Command, StoreFault};
use mbox_items::Item;
use sqlite::Alter;
use std::alloc::Global;

/// The most messages that a list holds.
pub const MESSAGES: u32 = 50_000;

/// `Store::add` with this limit of messages in place of `MESSAGES`.
pub fn add_limited<S: Alter>(
    store: &mut Store<S>,
    alloc: Global,
    list: &str,
    item: &Item<'_>,
    limit: u32,
) -> Result<Added, StoreFault>
    ensures step { PerformsModelStep S.Store (store_connection store.old) (store_connection store.new)
        (λ a. add_within_limit limit a list.now item.now) (reply_if_added result) }
    ensures crash { CrashSteps S.Store (store_connection store.old) (store_connection store.new)
        (λ a. add_within_limit limit a list.now item.now) }
    ensures ends { EndsWrite S.Store store.old store.new result (no_list ∷ too_large ∷ list_full ∷ [])
        (IsCommandRefusedWithin limit (add list.now item.now)) }
{
    added(store.carry_within(&Command::Add { alloc, list, item }, limit))
}
