//! Taking the messages of an mbox that is read piece by piece into a list.
ghost use Rattle.std.specs.Prelude.{◌≡◌, ◌≢◌, ◌+◌, ◌++◌, ◌∷◌, [], ℕ, List, drop, IfOk, IfErr, OnOk, Ok, Err};
ghost use Rattle.mbox_core.specs.Division.{Item as Message};
ghost use Rattle.mbox_stream.specs.Cutter.{IsCutterConsistent};
ghost use Rattle.archive_model.specs.Commands.{list_full, no_list};
ghost use Rattle.archive_model.specs.Records.{Archive};
ghost use Rattle.archive_port.specs.Adding.{AddsAllMessages, HasAddedAtLeast, RefusesAnItem};
ghost use Rattle.archive_port.specs.Crashes.{CrashAddsAllBatches};
ghost use Rattle.archive_port.specs.Replies.{done_count_on_error, map_error_to_fault};
ghost use Rattle.archive_port.specs.Told.{EndsPartialWrite};
ghost use Rattle.archive_desk.specs.Crashes.{CrashAfterTablesCall};
ghost use Rattle.archive_desk.specs.Holding.{CallsStoreWithTables};
ghost use Rattle.archive_desk.specs.Importing.{IsBrokenAdd};
ghost use Rattle.archive_import.specs.Streaming.{CrashImportsInput, EndsReading, ImportsInput, halt_reason, ResultHasReadFailures};
ghost use Rattle.archive_import.specs.Streaming.{FaultHasReadFailures, IsCutterAtStart, IsImportError, IsBrokenInputImport, IsInputImported, HasAddedReadAtLeast};
ghost use Rattle.archive_import.specs.Streaming.{IsCutterDrained, ReadsInputThroughCutter, RowsRefuseReadItem, TakesWaiting};
ghost use Rattle.archive_import.specs.Intake.{IsUnderWay, IsAddError, IsErrorAfterFailedRead, IsStoreFault, RowsRefusePending, RowsRefusePendingOrMore, RowsRefusePendingRead, ReportsWithinItems};

use crate::intake::Intake;
use archive_desk::{ImportError, ImportStop, Report, check_list_exists};
use archive_port::{AddError, AddReport, ArchiveStore, StoreFault};
use mbox_core::device::Source;
use mbox_core::{Item, MboxFault, OwnedItem};
use mbox_stream::Cutter;
use std::alloc::{AllocError, Global};

/// Adds the messages of an mbox (RFC 4155) to a list, as `import` does, and reads it piece by piece: it holds at most 4,000
/// messages with 8 MiB of texts, or one that is longer, and one piece. The list is looked up before the first read: E4 if
/// there is no such list. M1: the first line that is not empty is no separator line; nothing was added. M2: a read failed,
/// and all messages that were settled before it were done. M3: no memory was left to hold a message, or there were 2^64
/// reads. E12, E14 (also after 2^64 messages), E15 as of `import`. After each stop the first `done` messages were taken in,
/// known or too large, and no other was taken in (after E14 and E15 that is so if the connection is still open); the same
/// input can be imported again. After a crash at any moment an open finds so many first messages of the input, and no other;
/// once the call has returned an error, at least those that it told.
pub fn import_from<S: ArchiveStore, R: Source>(
    store: &mut S,
    alloc: Global,
    list: &str,
    input: &mut R,
) -> Result<Report, ImportStop>
    ensures imports { (text : List ℕ) × (ends : ℕ) × (R.told input.new ≡ R.told input.old ++ text)
        × (R.ends input.new ≡ R.ends input.old + ends)
        × ImportsInput S.ArchiveState store.old store.new list.now text ends result }
    ensures crash { (text : List ℕ) (ends : ℕ) → R.told input.new ≡ R.told input.old ++ text
        → R.ends input.new ≡ R.ends input.old + ends
        → CrashImportsInput S.ArchiveState store.old store.new list.now text ends result }
    ensures failures { (failed : ℕ) × (R.failures input.new ≡ R.failures input.old + failed)
        × ResultHasReadFailures result failed }
    ensures end { OnOk result (R.ends input.new ≡ R.ends input.old + 1) }
    ensures ends { EndsReading S.ArchiveState store.old store.new result (λ _ done db.
        (text : List ℕ) (ends : ℕ) → R.told input.new ≡ R.told input.old ++ text
        → R.ends input.new ≡ R.ends input.old + ends
        → RowsRefuseReadItem S.ArchiveState list.now text ends done db) }
{
    if let Err(fault) = check_list_exists(store, list) {
        return Err(ImportStop {
            done: 0,
            fault: ImportError::Store(fault),
        });
    }
    let mut cutter = Cutter::new(alloc);
    let mut intake = Intake::new(alloc);
    match add_settled(store, alloc, list, input, &mut cutter, &mut intake) {
        Ok(()) => {}
        Err(stop) => return Err(stop),
    }
    match add_last(store, alloc, list, &mut cutter, &mut intake) {
        Ok(()) => Ok(intake.report()),
        Err(stop) => Err(stop),
    }
}

/// Reads to the end, and after each read takes what waits. Where a read fails, all that was settled before it is done.
fn add_settled<S: ArchiveStore, R: Source>(
    store: &mut S,
    alloc: Global,
    list: &str,
    input: &mut R,
    cutter: &mut Cutter,
    intake: &mut Intake,
) -> Result<(), ImportStop>
    requires { IsCutterAtStart cutter.old }
    ensures adds { CallsStoreWithTables S.ArchiveState store.old store.new halt_reason result
        (λ b c _. (a : Archive) → IsUnderWay list.now a b [] intake.old
        → IsUnderWay list.now a c cutter.new.taken intake.new)
        (λ b c why. (a : Archive) → IsUnderWay list.now a b [] intake.old
        → IsImportError list.now cutter.new.stream 0 a c why.0 why.1)
        (λ b c stop. (a : Archive) → IsUnderWay list.now a b [] intake.old
        → IsBrokenInputImport list.now cutter.new.stream 0 a c stop.done stop.fault) }
    ensures crash { CrashAfterTablesCall S.ArchiveState store.old store.new result
        (λ b stop c. (a : Archive) → IsUnderWay list.now a b [] intake.old
        → HasAddedReadAtLeast list.now cutter.new.stream 0 stop.done a c) }
    ensures read { ReadsInputThroughCutter (R.told input.old) (R.told input.new) (R.ends input.old)
        (R.ends input.new)
        (R.failures input.old) (R.failures input.new) cutter.new result }
    ensures ends { EndsReading S.ArchiveState store.old store.new result
        (RowsRefusePendingRead S.ArchiveState list.now cutter.new.stream 0 [] intake.old) }
{
    for _ in 0..u64::MAX {
        match cutter.read_from(input) {
            Ok(true) => {}
            Ok(false) => return Ok(()),
            Err(MboxFault::Read) => return stop_unread(store, alloc, list, intake),
            Err(MboxFault::Preamble(at)) => {
                return Err(intake.stop_uncut(store, MboxFault::Preamble(at)));
            }
            Err(MboxFault::Memory) => {
                return Err(intake.stop_uncut(store, MboxFault::Memory));
            }
            Err(MboxFault::Failed) => {
                return Err(intake.stop_uncut(store, MboxFault::Failed));
            }
        }
        match add_waiting(store, alloc, list, cutter, intake) {
            Ok(()) => {}
            Err(stop) => return Err(stop),
        }
    }
    Err(intake.stop_uncut(store, MboxFault::Memory))
}

/// A read failed: what is held is added, and then it is M2.
fn stop_unread<S: ArchiveStore>(
    store: &mut S,
    alloc: Global,
    list: &str,
    intake: &mut Intake,
) -> Result<(), ImportStop>
    ensures stopped { OnOk result ⊥ }
    ensures kind { IfErr result (λ stop. FaultHasReadFailures stop.fault 1) }
    ensures adds { CallsStoreWithTables S.ArchiveState store.old store.new halt_reason result
        (λ b c _. (a : Archive) (items : List Message) → IsUnderWay list.now a b items intake.old
        → ⊥)
        (λ b c why. (a : Archive) (items : List Message) → IsUnderWay list.now a b items intake.old
        → IsErrorAfterFailedRead list.now items a c why.0 why.1)
        (λ b c stop. (a : Archive) (items : List Message) → IsUnderWay list.now a b items intake.old
        → IsBrokenAdd list.now items a c stop.done stop.fault) }
    ensures crash { CrashAfterTablesCall S.ArchiveState store.old store.new result
        (λ b stop c. (a : Archive) (items : List Message) → IsUnderWay list.now a b items intake.old
        → HasAddedAtLeast list.now items stop.done a c) }
    ensures ends { EndsReading S.ArchiveState store.old store.new result
        (RowsRefusePending S.ArchiveState list.now intake.old) }
{
    match add_held(store, alloc, list, intake) {
        Ok(()) => Err(intake.stop(ImportError::Mbox(MboxFault::Read))),
        Err(stop) => Err(stop),
    }
}

/// Ends the stream, and adds the rest of its messages.
fn add_last<S: ArchiveStore>(
    store: &mut S,
    alloc: Global,
    list: &str,
    cutter: &mut Cutter,
    intake: &mut Intake,
) -> Result<(), ImportStop>
    requires { IsCutterDrained cutter.old }
    ensures adds { CallsStoreWithTables S.ArchiveState store.old store.new halt_reason result
        (λ b c _. (a : Archive) → IsUnderWay list.now a b cutter.old.taken intake.old
        → IsInputImported list.now cutter.old.stream 1 a c intake.new.report)
        (λ b c why. (a : Archive) → IsUnderWay list.now a b cutter.old.taken intake.old
        → IsImportError list.now cutter.old.stream 1 a c why.0 why.1)
        (λ b c stop. (a : Archive) → IsUnderWay list.now a b cutter.old.taken intake.old
        → IsBrokenInputImport list.now cutter.old.stream 1 a c stop.done stop.fault) }
    ensures crash { CrashAfterTablesCall S.ArchiveState store.old store.new result
        (λ b stop c. (a : Archive) → IsUnderWay list.now a b cutter.old.taken intake.old
        → HasAddedReadAtLeast list.now cutter.old.stream 1 stop.done a c) }
    ensures kind { IfErr result (λ stop. FaultHasReadFailures stop.fault 0) }
    ensures ends { EndsReading S.ArchiveState store.old store.new result
        (RowsRefusePendingRead S.ArchiveState list.now cutter.old.stream 1 cutter.old.taken intake.old) }
{
    match cutter.finish() {
        Ok(()) => {}
        Err(fault) => return Err(intake.stop_uncut(store, fault)),
    }
    match add_waiting(store, alloc, list, cutter, intake) {
        Ok(()) => add_held(store, alloc, list, intake),
        Err(stop) => Err(stop),
    }
}

/// Takes all messages that wait, and holds them. As often as no more can be held, those that are held are added.
fn add_waiting<S: ArchiveStore>(
    store: &mut S,
    alloc: Global,
    list: &str,
    cutter: &mut Cutter,
    intake: &mut Intake,
) -> Result<(), ImportStop>
    requires { IsCutterConsistent cutter.old }
    ensures adds { CallsStoreWithTables S.ArchiveState store.old store.new halt_reason result
        (λ b c _. (a : Archive) (items : List Message) → IsUnderWay list.now a b items intake.old
        → IsUnderWay list.now a c (items ++ cutter.old.waiting) intake.new)
        (λ b c why. (a : Archive) (items : List Message) → IsUnderWay list.now a b items intake.old
        → IsAddError list.now (items ++ cutter.old.waiting) a c why.0 why.1)
        (λ b c stop. (a : Archive) (items : List Message) → IsUnderWay list.now a b items intake.old
        → IsBrokenAdd list.now (items ++ cutter.old.waiting) a c stop.done stop.fault) }
    ensures crash { CrashAfterTablesCall S.ArchiveState store.old store.new result
        (λ b stop c. (a : Archive) (items : List Message) → IsUnderWay list.now a b items intake.old
        → HasAddedAtLeast list.now (items ++ cutter.old.waiting) stop.done a c) }
    ensures takes { TakesWaiting cutter.old cutter.new result }
    ensures ends { EndsReading S.ArchiveState store.old store.new result
        (RowsRefusePendingOrMore S.ArchiveState list.now intake.old cutter.old.waiting) }
{
    while let Some(item) = cutter.take() {
        match hold_one(store, alloc, list, item, intake) {
            Ok(()) => {}
            Err(stop) => return Err(stop),
        }
    }
    Ok(())
}

/// Holds a message. Where it cannot be held too, those that are held are added first.
fn hold_one<S: ArchiveStore>(
    store: &mut S,
    alloc: Global,
    list: &str,
    item: OwnedItem,
    intake: &mut Intake,
) -> Result<(), ImportStop>
    ensures adds { CallsStoreWithTables S.ArchiveState store.old store.new halt_reason result
        (λ b c _. (a : Archive) (items : List Message) → IsUnderWay list.now a b items intake.old
        → IsUnderWay list.now a c (items ++ item ∷ []) intake.new)
        (λ b c why. (a : Archive) (items : List Message) → IsUnderWay list.now a b items intake.old
        → IsAddError list.now (items ++ item ∷ []) a c why.0 why.1)
        (λ b c stop. (a : Archive) (items : List Message) → IsUnderWay list.now a b items intake.old
        → IsBrokenAdd list.now (items ++ item ∷ []) a c stop.done stop.fault) }
    ensures crash { CrashAfterTablesCall S.ArchiveState store.old store.new result
        (λ b stop c. (a : Archive) (items : List Message) → IsUnderWay list.now a b items intake.old
        → HasAddedAtLeast list.now (items ++ item ∷ []) stop.done a c) }
    ensures kind { IfErr result (λ stop. FaultHasReadFailures stop.fault 0) }
    ensures ends { EndsReading S.ArchiveState store.old store.new result
        (RowsRefusePendingOrMore S.ArchiveState list.now intake.old (item ∷ [])) }
{
    if intake.has_room(&item) {
        return intake.hold(store, item);
    }
    match add_held(store, alloc, list, intake) {
        Ok(()) => intake.hold(store, item),
        Err(stop) => Err(stop),
    }
}

/// Adds the messages that are held, in one call of the store, and then holds none.
fn add_held<S: ArchiveStore>(
    store: &mut S,
    alloc: Global,
    list: &str,
    intake: &mut Intake,
) -> Result<(), ImportStop>
    ensures adds { CallsStoreWithTables S.ArchiveState store.old store.new halt_reason result
        (λ b c _. (a : Archive) (items : List Message) → IsUnderWay list.now a b items intake.old
        → IsUnderWay list.now a c items intake.new)
        (λ b c why. (a : Archive) (items : List Message) → IsUnderWay list.now a b items intake.old
        → IsAddError list.now items a c why.0 why.1)
        (λ b c stop. (a : Archive) (items : List Message) → IsUnderWay list.now a b items intake.old
        → IsBrokenAdd list.now items a c stop.done stop.fault) }
    ensures crash { CrashAfterTablesCall S.ArchiveState store.old store.new result
        (λ b stop c. (a : Archive) (items : List Message) → IsUnderWay list.now a b items intake.old
        → HasAddedAtLeast list.now items stop.done a c) }
    ensures kind { IfErr result (λ stop. IsStoreFault stop.fault) }
    ensures none { OnOk result (intake.new.held ≡ []) }
    ensures ends { EndsReading S.ArchiveState store.old store.new result
        (RowsRefusePending S.ArchiveState list.now intake.old) }
{
    match intake.done_after() {
        Ok(_) => {}
        Err(refused) => {
            store.count_refusal(refused.into());
            return Err(intake.stop(ImportError::Store(StoreFault::Memory)));
        }
    }
    match add_owned(store, alloc, list, intake.held()) {
        Ok(counts) => {
            intake.count(alloc, counts);
            Ok(())
        }
        Err(stop) => Err(intake.stop_amid(stop)),
    }
}

/// Adds messages that own their bytes. E14: there was no memory to lend them.
fn add_owned<S: ArchiveStore>(
    store: &mut S,
    alloc: Global,
    list: &str,
    items: &[OwnedItem],
) -> Result<AddReport, AddError>
    ensures step { AddsAllMessages S.ArchiveState store.old
        store.new result list.now items.now }
    ensures crash { CrashAddsAllBatches S.ArchiveState store.old store.new
        list.now items.now result }
    ensures tells { ReportsWithinItems items.now result }
    ensures ends { EndsPartialWrite S.ArchiveState store.old store.new (map_error_to_fault (λ stop. stop.fault) result)
        (no_list ∷ list_full ∷ [])
        (λ store. RefusesAnItem S.ArchiveState store list.now (drop (done_count_on_error (λ stop. stop.done) result) items.now)) }
{
    match lend_items(alloc, items) {
        Ok(lent) => store.add_all(alloc, list, &lent),
        Err(refused) => {
            store.count_refusal(refused.into());
            Err(AddError {
                done: 0,
                fault: StoreFault::Memory,
            })
        }
    }
}

/// The messages, with their bytes lent.
fn lend_items<'a>(alloc: Global, owned: &'a [OwnedItem]) -> Result<Vec<Item<'a>>, AllocError>
    ensures { IfOk result (λ items. items.items ≡ owned.entry.now) }
{
    let mut items = Vec::with_capacity(alloc, owned.len())?;
    for one in owned.iter() {
        items.push(one.as_item())?;
    }
    Ok(items)
}
