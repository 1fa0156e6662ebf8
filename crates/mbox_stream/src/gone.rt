//! A list of messages that only clauses read.
ghost use Rattle.std.specs.Prelude.{◌≡◌, ◌++◌, List, []};
ghost use Rattle.std.specs.Borrow.{ftrue};
ghost use Rattle.mbox_core.specs.Division.{Item as Message};

use mbox_core::OwnedItem;
use std::marker::{Model, PhantomData};

/// The messages that were taken so far. It takes no room, and its calls do nothing when they run.
#[derive(Drop)]
pub(crate) struct Gone {
    marker: PhantomData<u8>,
    pub(crate) ghost items: { List Message },
}

impl Model for Gone {
    ghost also_owns = { λ _. ftrue };
}

impl Gone {
    /// No message yet.
    pub(crate) fn new() -> Gone
        ensures { result.items ≡ [] }
    {
        Gone {
            marker: PhantomData,
        }
    }

    /// Adds these messages at the end.
    pub(crate) fn note(&mut self, _items: &[OwnedItem])
        ensures { self.new.items ≡ self.old.items ++ _items.now }
    {}
}
