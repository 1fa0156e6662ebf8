//! Walks over the messages of a list.
ghost use Rattle.std.specs.Prelude.{◌≡◌, ◌+◌, ◌∷◌, [], map, slice_get, pos, IfOk, MatchResult, MatchOption, ◌-◌};
ghost use Rattle.archive_model.specs.Messages.{archived_message};
ghost use Rattle.archive_model.specs.Questions.{list_refusal, messages_in};
ghost use Rattle.archive_tables.specs.Calls.{AnswersFromRows};
ghost use Rattle.archive_tables.specs.Rows.{decoded_dated_marks, message_from_result_row, rowid_result_row};
ghost use Rattle.archive_store.specs.Held.{store_connection};
ghost use Rattle.archive_model.specs.Commands.{no_list};
ghost use Rattle.archive_port.specs.Replies.{IsRefusedOnlyFor};
ghost use Rattle.archive_store.specs.Told.{EndsQuestion, EndsQuestionOrUnreadable, EndsUnrefused, WritesNothing};
ghost use Rattle.archive_port.specs.Messages.{IsReadable};
ghost use Rattle.archive_store.specs.Walking.{GivesNext, GivesAll, E15MeansNextUnreadable, E15MeansSomeUnreadable, ShowsRow, PeeksNextMarks, E15MeansMessageUnreadable};
ghost use Rattle.archive_store.specs.Walking.{FindsMessageNumbers, IsWalkNotBegun, TakesNextRow, PassesNext, TakesRowIfLeft, remaining_count, walk_over_store, selected_numbers};

use crate::store::Store;
use crate::words::month_number;
use archive_database::reading::{checked_dated_marks, checked_message, read_rowids};
use archive_model::Message;
use archive_port::{DatedMarks, Selection, StoreFault};
use archive_tables::rows::{DatedMarksRow, MessageRow};
use archive_tables::texts;
use civil_time::Month;
use sqlite::{Alter, Connection, Error, Row};
use std::alloc::Global;

/// Messages of a list, one at a time: all in mailbox order, or those of a month or an author. It holds the numbers of the messages,
/// and the row of the next one if that was peeked at; each call is told the store. It may be dropped at any message.
#[derive(Drop)]
pub struct MessageWalk {
    places: Vec<i64>,
    at: usize,
    peeked: Option<MessageRow>,
}

impl<S: Alter> Store<S> {
    ghost use Rattle.archive_store.specs.Replies.{AnswersStoreQuestion};
    ghost use Rattle.std.specs.Prelude.{pos};
    ghost use Rattle.std.specs.List.{All};
    ghost use Rattle.archive_port.specs.Messages.{IsReadable};
    ghost use Rattle.archive_store.specs.Told.{WritesNothing};
    ghost use Rattle.archive_model.specs.Filing.{messages_in_month, messages_by_author};
    ghost use Rattle.archive_port.specs.Walking.{selected_messages};
    ghost use Rattle.archive_store.specs.Walking.{BeginsListWalk, BeginsOver, WalkFailsToBegin, walk_over_store};

    /// The messages of a list in mailbox order. E4 where there is no such list.
    pub fn rows(&mut self, alloc: Global, list: &str) -> Result<Vec<Message>, StoreFault>
        ensures answer { AnswersStoreQuestion S.Store (store_connection self.old) (store_connection self.new) result
            (λ a. list_refusal a list.now)
            (λ a found. map (archived_message list.now) found.items ≡ messages_in a list.now) }
        ensures ends { EndsQuestionOrUnreadable S.Store self.old self.new result (no_list ∷ [])
            (λ a. ¬ All IsReadable (messages_in a list.now)) }
        ensures writes_nothing { WritesNothing S.Store self.old self.new }
    {
        self.read_selected(alloc, list, &Selection::Every)
    }

    /// The messages of a list that are filed under a month, by the sent date that is filed and then in mailbox order. E4 where
    /// there is no such list.
    pub fn in_month(
        &mut self,
        alloc: Global,
        list: &str,
        month: Month,
    ) -> Result<Vec<Message>, StoreFault>
        ensures answer { AnswersStoreQuestion S.Store (store_connection self.old) (store_connection self.new) result
            (λ a. list_refusal a list.now)
            (λ a found. map (archived_message list.now) found.items ≡ messages_in_month a list.now (pos month)) }
        ensures ends { EndsQuestionOrUnreadable S.Store self.old self.new result (no_list ∷ [])
            (λ a. ¬ All IsReadable (messages_in_month a list.now (pos month))) }
        ensures writes_nothing { WritesNothing S.Store self.old self.new }
    {
        self.read_selected(alloc, list, &Selection::InMonth(month))
    }

    /// The messages of a list that are filed under an author key, in the same order. E4 where there is no such list.
    pub fn by_author(
        &mut self,
        alloc: Global,
        list: &str,
        key: &[u8],
    ) -> Result<Vec<Message>, StoreFault>
        ensures answer { AnswersStoreQuestion S.Store (store_connection self.old) (store_connection self.new) result
            (λ a. list_refusal a list.now)
            (λ a found. map (archived_message list.now) found.items ≡ messages_by_author a list.now key.now) }
        ensures ends { EndsQuestionOrUnreadable S.Store self.old self.new result (no_list ∷ [])
            (λ a. ¬ All IsReadable (messages_by_author a list.now key.now)) }
        ensures writes_nothing { WritesNothing S.Store self.old self.new }
    {
        self.read_selected(alloc, list, &Selection::ByAuthor(key))
    }

    /// These of a list's messages. E4 where there is no such list.
    fn read_selected(
        &mut self,
        alloc: Global,
        list: &str,
        which: &Selection<'_>,
    ) -> Result<Vec<Message>, StoreFault>
        ensures answer { AnswersStoreQuestion S.Store (store_connection self.old) (store_connection self.new) result
            (λ a. list_refusal a list.now)
            (λ a found. map (archived_message list.now) found.items ≡ selected_messages a list.now which.now) }
        ensures ends { EndsQuestionOrUnreadable S.Store self.old self.new result (no_list ∷ [])
            (λ a. ¬ All IsReadable (selected_messages a list.now which.now)) }
        ensures writes_nothing { WritesNothing S.Store self.old self.new }
    {
        let mut walk = self.each_selected(alloc, list, which)?;
        read_rows(self, alloc, &mut walk)
    }

    /// Begins a walk over the messages of a list, in mailbox order. E4 where there is no such list.
    pub fn each_row(&mut self, alloc: Global, list: &str) -> Result<MessageWalk, StoreFault>
        ensures refused { WalkFailsToBegin S.Store self.old list.now result self.new }
        ensures begun { IfOk result (λ walk. BeginsListWalk S.Store self.old list.now (walk_over_store self.new walk)) }
        ensures kind { IsRefusedOnlyFor result (no_list ∷ []) }
        ensures writes_nothing { WritesNothing S.Store self.old self.new }
    {
        self.each_selected(alloc, list, &Selection::Every)
    }

    /// Begins a walk over these of a list's messages. E4 where there is no such list.
    pub fn each_selected(
        &mut self,
        alloc: Global,
        list: &str,
        which: &Selection<'_>,
    ) -> Result<MessageWalk, StoreFault>
        ensures refused { WalkFailsToBegin S.Store self.old list.now result self.new }
        ensures begun { IfOk result (λ walk. BeginsOver S.Store self.old list.now
            (λ a. selected_messages a list.now which.now) (walk_over_store self.new walk)) }
        ensures kind { IsRefusedOnlyFor result (no_list ∷ []) }
        ensures writes_nothing { WritesNothing S.Store self.old self.new }
    {
        let places = find_places(self, alloc, list, which)?;
        Ok(MessageWalk {
            places,
            at: 0,
            peeked: None,
        })
    }
}

impl MessageWalk {
    /// How many messages it has not given yet.
    pub fn left(&self) -> usize
        ensures { result ≡ remaining_count self.now }
    {
        self.places.len().saturating_sub(self.at)
    }

    /// The next message. `None` if all were given. After E14 and E15 as many messages are left as before, and the walk is where it
    /// was if the connection is still open.
    pub fn next<S: Alter>(&mut self, store: &mut Store<S>) -> Result<Option<Message>, StoreFault>
        ensures given { GivesNext S.Store (walk_over_store store.old self.old) (walk_over_store store.new self.new) result }
        ensures left { MatchResult result (λ found. MatchOption found
            ((remaining_count self.old ≡ 0) × (remaining_count self.new ≡ 0))
            (λ _. remaining_count self.old ≡ remaining_count self.new + 1))
            (λ _. remaining_count self.new ≡ remaining_count self.old) }
        ensures caused { E15MeansNextUnreadable S.Store (walk_over_store store.old self.old) (walk_over_store store.new self.new) result }
        ensures ends { EndsUnrefused S.Store store.old store.new result }
        ensures writes_nothing { WritesNothing S.Store store.old store.new }
    {
        let Some(row) = self.take_row(store)? else {
            return Ok(None);
        };
        let message = store.wants.pass_fault(checked_message(row))?;
        self.pass();
        Ok(Some(message))
    }

    /// The arrival and the marks of the next message, which stays the next: its row is read, and its text is not looked at. `None`
    /// if all were given. After E14 and E15 as many messages are left as before, and the walk is where it was if the connection is
    /// still open.
    pub fn peek_marks<S: Alter>(
        &mut self,
        store: &mut Store<S>,
    ) -> Result<Option<DatedMarks>, StoreFault>
        ensures shown { PeeksNextMarks S.Store (walk_over_store store.old self.old) (walk_over_store store.new self.new) result }
        ensures caused { E15MeansNextUnreadable S.Store (walk_over_store store.old self.old) (walk_over_store store.new self.new) result }
        ensures ends { EndsUnrefused S.Store store.old store.new result }
        ensures writes_nothing { WritesNothing S.Store store.old store.new }
    {
        let Some(row) = self.take_row(store)? else {
            return Ok(None);
        };
        let marks = checked_dated_marks(marks_in(&row));
        self.peeked = Some(row);
        Ok(Some(store.wants.pass_fault(marks)?))
    }

    /// The row of the next message, as it was peeked at or as the store has it. `None` where all were given.
    fn take_row<S: Alter>(&mut self, store: &mut Store<S>) -> Result<Option<MessageRow>, StoreFault>
        ensures given { TakesNextRow S.Store (walk_over_store store.old self.old) (walk_over_store store.new self.new) result }
        ensures left { TakesRowIfLeft self.old self.new result }
        ensures caused { E15MeansNextUnreadable S.Store (walk_over_store store.old self.old) (walk_over_store store.new self.new) result }
        ensures ends { EndsUnrefused S.Store store.old store.new result }
        ensures writes_nothing { WritesNothing S.Store store.old store.new }
    {
        let peeked = self.peeked.take();
        let Some(place) = place_at(&self.places, self.at) else {
            return Ok(None);
        };
        match peeked {
            Some(row) => Ok(Some(row)),
            None => Ok(Some(row_at(store, place)?)),
        }
    }

    /// Passes the next message by, as if it were given. It does nothing where all were given.
    pub fn pass(&mut self)
        ensures passed { PassesNext self.old self.new }
        ensures left { remaining_count self.new ≡ remaining_count self.old - 1 }
    {
        self.peeked = None;
        if self.at < self.places.len() {
            self.at = self.at + 1;
        }
    }
}

/// The messages that a walk has not given yet.
fn read_rows<S: Alter>(
    store: &mut Store<S>,
    alloc: Global,
    walk: &mut MessageWalk,
) -> Result<Vec<Message>, StoreFault>
    ensures given { GivesAll S.Store (walk_over_store store.old walk.old) (walk_over_store store.new walk.new) result }
    ensures caused { E15MeansSomeUnreadable S.Store (walk_over_store store.old walk.old) (walk_over_store store.new walk.new) result }
    ensures ends { EndsUnrefused S.Store store.old store.new result }
    ensures writes_nothing { WritesNothing S.Store store.old store.new }
{
    let mut found = match Vec::with_capacity(alloc, walk.left()) {
        Ok(found) => found,
        Err(refused) => return Err(store.wants.refuse(refused.into())),
    };
    while let Some(message) = walk.next(store)? {
        match found.push(message) {
            Ok(()) => {}
            Err(refused) => return Err(store.wants.refuse(refused.into())),
        }
    }
    Ok(found)
}

/// The numbers of these of a list's messages. E4 where there is no such list.
fn find_places<S: Alter>(
    store: &mut Store<S>,
    alloc: Global,
    list: &str,
    which: &Selection<'_>,
) -> Result<Vec<i64>, StoreFault>
    ensures refused { IsWalkNotBegun S.Store store.old list.now result store.new }
    ensures found { FindsMessageNumbers S.Store store.old store.new list.now
        (λ trees. selected_numbers trees list.now which.now) result }
    ensures ends { EndsQuestion S.Store store.old store.new result (no_list ∷ []) }
    ensures writes_nothing { WritesNothing S.Store store.old store.new }
{
    if !store.has_list(list)? {
        return Err(StoreFault::NoList);
    }
    let shown = store.wants.pass(show_places(&mut store.conn, list, which))?;
    store.wants.pass_fault(read_rowids(alloc, &shown))
}

/// The rows that show those numbers.
fn show_places<S: Alter>(
    conn: &mut Connection<S>,
    list: &str,
    which: &Selection<'_>,
) -> Result<Vec<Row>, Error>
    ensures { AnswersFromRows S.Store conn.old conn.new result
        (λ trees rows. rows.items ≡ map rowid_result_row (selected_numbers trees list.now which.now)) ⊥ }
{
    match which {
        Selection::Every => texts::messages::places(conn, list),
        Selection::InMonth(month) => {
            texts::messages::month_rowids(conn, list, month_number(*month))
        }
        Selection::ByAuthor(key) => texts::messages::author_rowids(conn, list, key),
    }
}

fn place_at(places: &[i64], at: usize) -> Option<i64>
    ensures { result ≡ slice_get places.now at }
{
    places.get(at).copied()
}

/// The row of the message of a number.
fn row_at<S: Alter>(store: &mut Store<S>, place: i64) -> Result<MessageRow, StoreFault>
    ensures shown { ShowsRow S.Store store.old store.new place result }
    ensures caused { E15MeansMessageUnreadable S.Store store.old store.new place result }
    ensures ends { EndsUnrefused S.Store store.old store.new result }
    ensures writes_nothing { WritesNothing S.Store store.old store.new }
{
    let found = texts::messages::message_at(&mut store.conn, place);
    match store.wants.pass(found)? {
        Some(row) => Ok(row),
        None => Err(StoreFault::Store),
    }
}

/// The arrival and the marks in the row of a message.
fn marks_in(row: &MessageRow) -> DatedMarksRow
    ensures { (list : _) → result ≡ decoded_dated_marks (message_from_result_row list row.now) }
{
    DatedMarksRow {
        arrival: row.arrival,
        withdrawn: row.withdrawn,
        embargo: row.embargo,
    }
}
