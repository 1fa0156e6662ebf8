//! Many messages to one list, in transactions of many messages.
ghost use Rattle.std.specs.Prelude.{◌≡◌, [], ◌∷◌, ◌≤◌, ◌<◌, ◌+◌, ◌⊎◌, IfOk, IfErr, Some, None, length, take, drop};
ghost use Rattle.mbox_items.specs.Division.{Item};
ghost use Rattle.archive_store.specs.Held.{store_connection};
ghost use Rattle.sqlite.specs.Held.{state};
ghost use Rattle.archive_store.specs.Told.{EndsPartialWrite, EndsPart, EndsUnrefused};
ghost use Rattle.archive_store.specs.Refusals.{RowsRefuseAnItem};
ghost use Rattle.archive_port.specs.Replies.{map_error_to_fault, done_count_on_error};
ghost use Rattle.archive_model.specs.Commands.{no_list, list_full};
ghost use Rattle.archive_store.specs.Crashes.{CrashLosesOpenBatch, CrashAddsOneMessage, CrashAddsAllBatches, CrashBatch};
ghost use Rattle.archive_store.specs.Batches.{AddsOneMessage, AddsWithinTransaction, AddsBatch, AddsAllMessages, IsBatchRange, StopsAtIndex, E15MeansBatchRefused, WritesOneMessage};
ghost use Rattle.archive_port.specs.Adding.{reported_count, total_text_bytes};

use crate::limits::MESSAGES;
use crate::store::Store;
use archive_database::taking::{insert_message, is_too_large};
use archive_model::Key;
use archive_port::{AddError, AddReport, StoreFault};
use archive_tables::texts;
use mbox_items::Item;
use sqlite::Alter;
use std::alloc::Global;

/// Messages of one transaction, at most.
const MESSAGES_AT_ONCE: usize = 500;

/// Bytes of the texts of one transaction, at most, unless its one text is longer.
const BYTES_AT_ONCE: usize = 8_388_608;

/// Messages for a list, with the allocator that serves while they are added.
#[derive(Clone, Copy)]
struct Additions<'l, 'i, 't> {
    alloc: Global,
    list: &'l str,
    items: &'i [Item<'t>],
}

/// What becomes of one message.
pub(crate) enum Taken {
    New,
    Known,
    TooLarge,
    Full,
}

impl<S: Alter> Store<S> {
    /// Adds messages to a list, one after the other, in transactions of many. One that is too large is passed over. E4 if
    /// there is no such list, E12 if the list holds 50,000 messages and the next is not on it. After E14 and E15 the first
    /// `done` were taken in, known or too large, and no other was taken in, if the connection is still open.
    pub fn add_all(
        &mut self,
        alloc: Global,
        list: &str,
        items: &[Item<'_>],
    ) -> Result<AddReport, AddError>
        ensures step { AddsAllMessages S.Store (store_connection self.old)
            (store_connection self.new) result list.now items.entry.now }
        ensures crash { CrashAddsAllBatches S.Store (store_connection self.old) (store_connection self.new)
            list.now items.entry.now result }
        ensures total { IfOk result (λ report. reported_count report ≡ length items.entry.now) }
        ensures bound { IfErr result (λ stop. stop.done ≤ length items.entry.now) }
        ensures ends { EndsPartialWrite S.Store self.old self.new (map_error_to_fault (λ stop. stop.fault) result)
            (no_list ∷ list_full ∷ [])
            (RowsRefuseAnItem list.now (drop (done_count_on_error (λ stop. stop.done) result) items.entry.now)) }
    {
        let additions = Additions { alloc, list, items };
        let mut done = 0;
        let mut count = match self.count(list) {
            Ok(count) => count,
            Err(fault) => return Err(AddError { done, fault }),
        };
        let mut report = AddReport {
            new: 0,
            known: 0,
            too_large: 0,
        };
        while done < items.len() {
            let to = batch_end(items, done);
            match add_batch(self, &additions, done, to, &mut count, &mut report) {
                Ok(at) => {
                    done = at;
                    if at < to {
                        return Err(AddError {
                            done,
                            fault: StoreFault::ListFull,
                        });
                    }
                }
                Err(fault) => {
                    return Err(AddError { done, fault });
                }
            }
        }
        Ok(report)
    }
}

/// Where the transaction ends that begins with this message: after 500 messages, or before the message with which its
/// texts have more than 8 MiB.
fn batch_end(items: &[Item<'_>], from: usize) -> usize
    requires there { from < length items.now }
    ensures more { from < result }
    ensures within { result ≤ length items.now }
    ensures few { result ≤ from + MESSAGES_AT_ONCE }
    ensures small { (total_text_bytes (take result items.now) ≤ total_text_bytes
        (take from items.now) + BYTES_AT_ONCE)
        ⊎ (total_text_bytes (take result items.now) ≤ total_text_bytes (take (from + 1) items.now)) }
{
    let mut room = BYTES_AT_ONCE.saturating_sub(text_len(&items[from]));
    let mut to = from + 1;
    while to < items.len() && to - from < MESSAGES_AT_ONCE {
        let more = text_len(&items[to]);
        if more > room {
            break;
        }
        room -= more;
        to += 1;
    }
    to
}

fn text_len(item: &Item<'_>) -> usize
    ensures { result ≡ length item.now.text }
{
    item.text.len()
}

/// Adds messages in a transaction of their own, until the list is full: the place that it came to.
fn add_batch<S: Alter>(
    store: &mut Store<S>,
    additions: &Additions<'_, '_, '_>,
    from: usize,
    to: usize,
    count: &mut usize,
    report: &mut AddReport,
) -> Result<usize, StoreFault>
    requires begins { IsBatchRange additions.now.items.now from to report.now }
    ensures step { AddsBatch S.Store (store_connection store.old)
        (store_connection store.new) result additions.now.list.now additions.now.items.now from to count.old report.entry.now count.new report.exit.now }
    ensures crash { CrashBatch S.Store (store_connection store.old) (store_connection store.new)
        additions.now.list.now additions.now.items.now from to count.old report.entry.now }
    ensures came { StopsAtIndex result from to report.exit.now }
    ensures ends { EndsPart S.Store store.old store.new
        (E15MeansBatchRefused S.Store store.old store.new None result additions.now.list.now
        additions.now.items.now from count.old report.entry.now
        (state S.Store (store_connection store.new)).now) result }
{
    let begun = texts::schema::begin(&mut store.conn);
    store.wants.pass(begun)?;
    match add_some(store, additions, from, to, count, report) {
        Ok(at) => {
            let committed = texts::schema::commit(&mut store.conn);
            match store.wants.pass(committed) {
                Ok(_) => Ok(at),
                Err(fault) => {
                    let _undone = texts::schema::rollback(&mut store.conn);
                    Err(fault)
                }
            }
        }
        Err(fault) => {
            let _undone = texts::schema::rollback(&mut store.conn);
            Err(fault)
        }
    }
}

/// Adds messages one after the other, until the list is full: the place that it came to.
fn add_some<S: Alter>(
    store: &mut Store<S>,
    additions: &Additions<'_, '_, '_>,
    from: usize,
    to: usize,
    count: &mut usize,
    report: &mut AddReport,
) -> Result<usize, StoreFault>
    requires begins { IsBatchRange additions.now.items.now from to report.now }
    ensures step { AddsWithinTransaction S.Store (store_connection store.old)
        (store_connection store.new) result additions.now.list.now additions.now.items.now from to count.old report.entry.now count.new report.exit.now }
    ensures quiet { CrashLosesOpenBatch S.Store (store_connection store.old) (store_connection store.new)
        additions.now.list.now additions.now.items.now from count.old report.entry.now }
    ensures came { StopsAtIndex result from to report.exit.now }
    ensures ends { EndsPart S.Store store.old store.new ((db : _)
        → E15MeansBatchRefused S.Store store.old store.new (Some db) result additions.now.list.now
        additions.now.items.now from count.old report.entry.now
        (state S.Store (store_connection store.old)).now) result }
{
    let mut at = from;
    while at < to {
        let item = &additions.items[at];
        match add_counted(store, additions.alloc, additions.list, item, count)? {
            Taken::New => report.new += 1,
            Taken::Known => report.known += 1,
            Taken::TooLarge => report.too_large += 1,
            Taken::Full => return Ok(at),
        }
        at += 1;
    }
    Ok(at)
}

/// Adds a message to a list that is there and holds so many messages, and counts it.
pub(crate) fn add_counted<S: Alter>(
    store: &mut Store<S>,
    alloc: Global,
    list: &str,
    item: &Item<'_>,
    count: &mut usize,
) -> Result<Taken, StoreFault>
    ensures step { AddsOneMessage S.Store (store_connection store.old)
        (store_connection store.new) result list.now item.now count.old count.new }
    ensures crash { CrashAddsOneMessage S.Store (store_connection store.old) (store_connection store.new)
        list.now item.now count.old }
    ensures uncounted { IfErr result (λ _. count.new ≡ count.old) }
    ensures rows { WritesOneMessage S.Store store.old store.new result list.now item.now count.old }
    ensures ends { EndsUnrefused S.Store store.old store.new result }
{
    if is_too_large(item) {
        return Ok(Taken::TooLarge);
    }
    let key = Key::of(item);
    let known = texts::messages::has_message(&mut store.conn, list, key.as_str());
    if store.wants.pass(known)? {
        return Ok(Taken::Known);
    }
    if *count >= MESSAGES as usize {
        return Ok(Taken::Full);
    }
    let taken = insert_message(&mut store.conn, alloc, list, &key, item);
    store.wants.pass_fault(taken)?;
    *count += 1;
    Ok(Taken::New)
}
