//! One message, asked for by its list and its key.
ghost use Rattle.archive_port.specs.Crashes.{WritesNothing};
ghost use Rattle.archive_commands.specs.Working.{EndsGet, GetsMessage};

use archive_desk::{DeskError, message};
use archive_port::{ArchiveStore, Key};
use archive_results::{Ask, Asked};
use std::alloc::Global;

/// Why a message is not given.
#[derive(Debug, Drop)]
pub enum GetError<'p> {
    /// G1: there is no such list. G2: there is no such person. G4, G5.
    Fault(DeskError),
    /// E8: the list holds no message of this key, or the key is none.
    NoMessage,
    /// The rule of this name denies it, `default` where none fits.
    Denied(&'p str),
}

/// The whole text of a message, as far as the policy lets the reader see it on the day. E8 where the key is none, before
/// G1 and G2; E8 also where the list does not hold it.
pub fn get<'p, S: ArchiveStore>(
    store: &mut S,
    alloc: Global,
    ask: &Ask<'p>,
    key: &str,
) -> Result<Vec<u8>, GetError<'p>>
    ensures got { GetsMessage S.ArchiveState store.old store.new ask.entry.now key.now result }
    ensures ends { EndsGet S.ArchiveState store.old store.new ask.entry.now key.now result }
    ensures writes_nothing { WritesNothing S.ArchiveState store.old store.new }
{
    let Some(key) = Key::read(key) else {
        return Err(GetError::NoMessage);
    };
    match message(store, alloc, ask, &key) {
        Ok(Asked::Served(text)) => Ok(text),
        Ok(Asked::Denied(rule)) => Err(GetError::Denied(rule)),
        Ok(Asked::Absent) => Err(GetError::NoMessage),
        Err(fault) => Err(GetError::Fault(fault)),
    }
}
