//! The archive in memory.
ghost use Rattle.std.specs.Prelude.{◌≡◌};
ghost use Rattle.archive_memory.specs.Entries.{empty_archive};
ghost use Rattle.archive_memory.specs.State.{IsSoundArchive, archive_in_memory, refusal_count};

use crate::counting::RefusalCounter;
use crate::entries::{AddressEntry, GrantEntry, ListEntry, MessageEntry, PersonEntry};
use std::alloc::Global;

/// An archive in memory: an `ArchiveStore` that writes no file. The archive ends when it is dropped. Questions and commands look
/// through what is held, entry by entry. E15 comes only from a walk over another archive. `check` answers Ok without looking,
/// because at rest nothing can be damaged.
#[derive(Drop)]
pub struct MemoryArchive {
    pub(crate) alloc: Global,
    pub(crate) lists: Vec<ListEntry>,
    pub(crate) persons: Vec<PersonEntry>,
    pub(crate) addresses: Vec<AddressEntry>,
    pub(crate) grants: Vec<GrantEntry>,
    pub(crate) messages: Vec<MessageEntry>,
    pub(crate) refusals: RefusalCounter,
}

impl MemoryArchive {
    /// Makes an empty archive. The call takes no memory.
    pub fn new(alloc: Global) -> MemoryArchive
        ensures archive { archive_in_memory result ≡ empty_archive }
        ensures at_rest { IsSoundArchive (archive_in_memory result) }
        ensures none_refused { refusal_count result ≡ 0 }
    {
        MemoryArchive {
            alloc,
            lists: Vec::new(alloc),
            persons: Vec::new(alloc),
            addresses: Vec::new(alloc),
            grants: Vec::new(alloc),
            messages: Vec::new(alloc),
            refusals: RefusalCounter::new(),
        }
    }
}
