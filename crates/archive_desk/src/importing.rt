//! Taking the messages of a file into a list.
ghost use Rattle.std.specs.Prelude.{◌≡◌, ◌∷◌, [], true, drop, IfOk, IfErr};
ghost use Rattle.mbox_core.specs.Division.{DividesIntoItems};
ghost use Rattle.archive_model.specs.Commands.{no_list};
ghost use Rattle.archive_model.specs.Questions.{has_list, list_refusal};
ghost use Rattle.archive_port.specs.Replies.{refusal_of_fault};
ghost use Rattle.archive_port.specs.Told.{AnswersFromStoreUnder, EndsQuestion, HoldsTables, WasOpen};
ghost use Rattle.archive_port.specs.Crashes.{WritesNothing, CrashOutcome};
ghost use Rattle.archive_port.specs.Adding.{HasAddedAtLeast, RefusesAnItem};
ghost use Rattle.archive_desk.specs.Crashes.{CrashAfterTablesCall, HasImportedAtLeast};
ghost use Rattle.archive_desk.specs.Ending.{EndsImport};
ghost use Rattle.archive_desk.specs.Holding.{CallsStoreWithTables};
ghost use Rattle.archive_desk.specs.Importing.{HasAddedAllItems, IsBrokenAdd, IsBrokenImport, IsImportStoreMemoryRefusal, IsSplitError};
ghost use Rattle.archive_desk.specs.Importing.{IsImported, IsRefusedAdd, IsRefusedImport, RowsRefuseImportItem, import_stop_reason};

use archive_port::{ArchiveStore, StoreFault};
use mbox_core::{Item, MboxFault, cut};
use std::alloc::{AllocError, Global};
use std::error::Error;
use std::fmt;

/// What became of the messages of a file: how many were new on the list, how many it held, and how many are too large.
#[derive(Clone, Copy, Debug, PartialEq, Eq)]
pub struct Report {
    /// Messages that the list did not hold.
    pub new: u64,
    /// Messages that it held.
    pub known: u64,
    /// Messages that no list takes.
    pub too_large: u64,
}

/// Where an import stopped: the first `done` messages of the file were taken in, known or too large, and no other was
/// taken in; after E14 and E15 that is so if the connection is still open.
#[derive(Clone, Copy, Debug, PartialEq, Eq, Drop)]
pub struct ImportStop {
    /// How many messages of the file were seen to.
    pub done: u64,
    /// Why no more were.
    pub fault: ImportError,
}

/// Why an import stopped. It prints its number and its name.
#[derive(Clone, Copy, Debug, PartialEq, Eq, Drop)]
pub enum ImportError {
    /// M1: the file is no mbox. Of one that is read piece by piece also M2 and M3: a read failed, or no memory was left.
    Mbox(MboxFault),
    /// E4: there is no such list. E12: the list holds 50,000 messages, and the next is not on it. E14, E15.
    Store(StoreFault),
}

impl fmt::Display for ImportError {
    fn fmt<W: fmt::Write>(&self, f: &mut fmt::Formatter<W>) -> fmt::Result {
        match self {
            ImportError::Mbox(fault) => write!(f, "{fault}"),
            ImportError::Store(fault) => write!(f, "{fault}"),
        }
    }
}

impl Error for ImportError {}

/// Adds the messages of an mbox (RFC 4155) to a list, one after the other. A message that the list holds is known and
/// changes nothing, one that is too large is passed over. The list is looked up before the file is cut: E4 where there
/// is no such list, M1 where the file's first line that is not empty is no separator line, E12 where the list holds
/// 50,000 messages and the next is not on it, E14 where no memory is left, E15 where the database fails. After a stop the
/// same file can be imported again. Wherever the machine stops, an open finds so many first messages of the file, and no
/// other, and once the call has returned an error at least those that it told: what is repeated then is known.
pub fn import<S: ArchiveStore>(
    store: &mut S,
    alloc: Global,
    list: &str,
    mbox: &[u8],
) -> Result<Report, ImportStop>
    ensures imports { CallsStoreWithTables S.ArchiveState store.old store.new import_stop_reason result
        (λ a b report. IsImported list.now mbox.now a b report)
        (λ a b why. IsRefusedImport list.now mbox.now a b why.0 why.1)
        (λ a b stop. IsBrokenImport list.now mbox.now a b stop.done stop.fault) }
    ensures crash { CrashOutcome S.ArchiveState store.old store.new
        (HasImportedAtLeast list.now mbox.now 0) result
        (λ stop. HasImportedAtLeast list.now mbox.now stop.done) }
    ensures ends { EndsImport S.ArchiveState store.old store.new (HoldsTables S.ArchiveState) IsImportStoreMemoryRefusal result
        (λ _ done last. RowsRefuseImportItem S.ArchiveState list.now mbox.now done last) }
{
    if let Err(fault) = check_list_exists(store, list) {
        return Err(ImportStop {
            done: 0,
            fault: ImportError::Store(fault),
        });
    }
    match cut_items(alloc, mbox) {
        Ok(items) => add_items(store, alloc, list, &items),
        Err(Uncut::Mbox(fault)) => {
            let fault = ImportError::Mbox(fault);
            Err(ImportStop { done: 0, fault })
        }
        Err(Uncut::Refused(refused)) => {
            store.count_refusal(refused.into());
            let fault = ImportError::Store(StoreFault::Memory);
            Err(ImportStop { done: 0, fault })
        }
    }
}

/// Why a file is not cut.
enum Uncut {
    /// M1.
    Mbox(MboxFault),
    /// Memory for its messages was refused.
    Refused(AllocError),
}

/// Looks a list up: E4 where there is none of this name; E14, E15.
pub fn check_list_exists<S: ArchiveStore>(store: &mut S, list: &str) -> Result<(), StoreFault>
    ensures found { AnswersFromStoreUnder S.ArchiveState (HoldsTables S.ArchiveState) store.old store.new refusal_of_fault result
        (λ a. list_refusal a list.now)
        (λ a _. has_list a list.now ≡ true) }
    ensures writes_nothing { WritesNothing S.ArchiveState store.old store.new }
    ensures was_open { WasOpen S.ArchiveState store.old store.new refusal_of_fault result }
    ensures ends { EndsQuestion S.ArchiveState store.old store.new result (no_list ∷ []) }
{
    match store.has_list(list) {
        Ok(true) => Ok(()),
        Ok(false) => Err(StoreFault::NoList),
        Err(fault) => Err(fault),
    }
}

/// The messages of a file. Their texts are the file's own bytes.
fn cut_items<'a>(alloc: Global, mbox: &'a [u8]) -> Result<Vec<Item<'a>>, Uncut>
    ensures divided { IfOk result (λ items. DividesIntoItems mbox.entry.now items.items) }
    ensures fault { IfErr result (λ fault. IsSplitError mbox.entry.now fault) }
{
    let messages = match cut(mbox) {
        Ok(messages) => messages,
        Err(fault) => return Err(Uncut::Mbox(fault)),
    };
    match messages.collect(alloc) {
        Ok(items) => Ok(items),
        Err(refused) => Err(Uncut::Refused(refused)),
    }
}

/// Adds messages to a list, and counts what became of them.
fn add_items<S: ArchiveStore>(
    store: &mut S,
    alloc: Global,
    list: &str,
    items: &[Item<'_>],
) -> Result<Report, ImportStop>
    ensures added { CallsStoreWithTables S.ArchiveState store.old store.new import_stop_reason result
        (λ a b report. HasAddedAllItems list.now items.entry.now a b report)
        (λ a b why. IsRefusedAdd list.now items.entry.now a b why.0 why.1)
        (λ a b stop. IsBrokenAdd list.now items.entry.now a b stop.done stop.fault) }
    ensures crash { CrashAfterTablesCall S.ArchiveState store.old store.new result
        (λ a stop b. HasAddedAtLeast list.now items.entry.now stop.done a b) }
    ensures ends { EndsImport S.ArchiveState store.old store.new (HoldsTables S.ArchiveState) IsImportStoreMemoryRefusal result
        (λ _ done db. RefusesAnItem S.ArchiveState db list.now (drop done items.entry.now)) }
{
    match store.add_all(alloc, list, items) {
        Ok(counts) => Ok(Report {
            new: counts.new as u64,
            known: counts.known as u64,
            too_large: counts.too_large as u64,
        }),
        Err(stop) => Err(ImportStop {
            done: stop.done as u64,
            fault: ImportError::Store(stop.fault),
        }),
    }
}
