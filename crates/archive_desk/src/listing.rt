//! The lists of a month and of an author, and threads.
ghost use Rattle.std.specs.Prelude.{◌≡◌, map, pos, Some};
ghost use Rattle.archive_model.specs.Filing.{messages_by_author, messages_in_month};
ghost use Rattle.archive_model.specs.Questions.{merge_of, messages_in};
ghost use Rattle.archive_results.specs.Access.{view_of};
ghost use Rattle.archive_results.specs.Index.{AreSummariesOf};
ghost use Rattle.archive_results.specs.Filed.{indexed_author_lines, indexed_month_lines};
ghost use Rattle.archive_results.specs.Results.{author_lines, month_lines, tree_lines, thread_lines};
ghost use Rattle.archive_results.specs.Shown.{shown_message};
ghost use Rattle.archive_port.specs.Told.{AnswersFromReadyStore, AnswersFromStoreUnder, HoldsTables};
ghost use Rattle.archive_port.specs.Crashes.{WritesNothing};
ghost use Rattle.archive_desk.specs.Causes.{IsQuestionUnreadable};
ghost use Rattle.archive_desk.specs.Ending.{EndsDeskCall, EndsDeskQuestion};
ghost use Rattle.archive_desk.specs.Faults.{IsAskFault, ask_reason, missing_list_reason, refusal_reason};
ghost use Rattle.archive_desk.specs.Holding.{AnswersFromStoreTables};
ghost use Rattle.archive_port.specs.Walking.{selected_messages};
ghost use Rattle.archive_desk.specs.Listing.{IsThreadFault, lines_shown, thread_reason, view_in};

use crate::faults::DeskError;
use crate::index::read_headers;
use archive_port::{ArchiveStore, Key, Selection};
use archive_results::{Ask, Line, MessageSummary, TreeLine, columns_of, thread_lines, tree_lines};
use civil_time::Month;
use std::alloc::Global;
use thread_core::Threader;

/// The messages of the view whose sent date lies in a month, by sent date and then in mailbox order: those that are filed under
/// it, by the sent date that is filed, also where another program filed them otherwise. G1 where there is no such list, G2
/// where there is no such person; G5 where no memory is left, G4 where the store has none or fails. No other message of the list
/// is read.
pub fn month<S: ArchiveStore>(
    store: &mut S,
    alloc: Global,
    ask: &Ask<'_>,
    month: Month,
) -> Result<Vec<Line>, DeskError>
    ensures listed { AnswersFromReadyStore S.ArchiveState store.old store.new refusal_reason result (λ a. ask_reason a ask.now)
        (λ a lines. lines.items ≡ month_lines month (map shown_message (view_of a ask.now))) }
    ensures filed { AnswersFromStoreUnder S.ArchiveState (HoldsTables S.ArchiveState) store.old store.new refusal_reason result
        (λ a. ask_reason a ask.now)
        (λ a lines. lines.items ≡ indexed_month_lines a ask.now (pos month)) }
    ensures ends { EndsDeskQuestion S.ArchiveState store.old store.new IsAskFault result
        (λ a. IsQuestionUnreadable a ask.now (messages_in_month a ask.now.list (pos month))) }
    ensures writes_nothing { WritesNothing S.ArchiveState store.old store.new }
{
    read_lines(store, alloc, ask, &Selection::InMonth(month))
}

/// The messages of the view that have an author key, by sent date and then in mailbox order: those that are filed under it, as
/// for a month. G1 where there is no such list, G2 where there is no such person; G5 where no memory is left, G4 where the
/// store has none or fails.
pub fn author<S: ArchiveStore>(
    store: &mut S,
    alloc: Global,
    ask: &Ask<'_>,
    key: &[u8],
) -> Result<Vec<Line>, DeskError>
    ensures listed { AnswersFromReadyStore S.ArchiveState store.old store.new refusal_reason result (λ a. ask_reason a ask.now)
        (λ a lines. lines.items ≡ author_lines key.now (map shown_message (view_of a ask.now))) }
    ensures filed { AnswersFromStoreUnder S.ArchiveState (HoldsTables S.ArchiveState) store.old store.new refusal_reason result
        (λ a. ask_reason a ask.now)
        (λ a lines. lines.items ≡ indexed_author_lines a ask.now key.now) }
    ensures ends { EndsDeskQuestion S.ArchiveState store.old store.new IsAskFault result
        (λ a. IsQuestionUnreadable a ask.now (messages_by_author a ask.now.list key.now)) }
    ensures writes_nothing { WritesNothing S.ArchiveState store.old store.new }
{
    read_lines(store, alloc, ask, &Selection::ByAuthor(key))
}

/// The lines of these of a list's messages, as far as the policy shows them, in their order.
fn read_lines<S: ArchiveStore>(
    store: &mut S,
    alloc: Global,
    ask: &Ask<'_>,
    which: &Selection<'_>,
) -> Result<Vec<Line>, DeskError>
    ensures held { AnswersFromStoreUnder S.ArchiveState (HoldsTables S.ArchiveState) store.old store.new refusal_reason result
        (λ a. ask_reason a ask.now)
        (λ a lines. lines.items ≡ lines_shown (view_in a ask.now which.now)) }
    ensures ends { EndsDeskQuestion S.ArchiveState store.old store.new IsAskFault result
        (λ a. IsQuestionUnreadable a ask.now (selected_messages a ask.now.list which.now)) }
    ensures writes_nothing { WritesNothing S.ArchiveState store.old store.new }
{
    let headers = match read_headers(store, alloc, ask, which) {
        Ok(headers) => headers,
        Err(fault) => return Err(fault),
    };
    match columns_of(alloc, headers) {
        Ok(columns) => Ok(columns.lines),
        Err(refused) => {
            store.count_refusal(refused.into());
            Err(DeskError::Memory)
        }
    }
}

/// The threads of the view (RFC 5256, section 3, THREAD=REFERENCES), in preorder. Those of one subject are gathered where the
/// list has it so. G1 where there is no such list, G2 where there is no such person; G5 where no memory is left, G4 where the
/// store has none or fails.
pub fn threads<T: Threader, S: ArchiveStore>(
    store: &mut S,
    alloc: Global,
    ask: &Ask<'_>,
    threader: &T,
) -> Result<Vec<TreeLine>, DeskError>
    ensures listed { AnswersFromStoreTables S.ArchiveState store.old store.new refusal_reason result (λ a. ask_reason a ask.now)
        (λ a rows. rows.items ≡ tree_lines (merge_of a ask.now.list)
        (map shown_message (view_of a ask.now))) }
    ensures ends { EndsDeskQuestion S.ArchiveState store.old store.new IsAskFault result
        (λ a. IsQuestionUnreadable a ask.now (messages_in a ask.now.list)) }
    ensures writes_nothing { WritesNothing S.ArchiveState store.old store.new }
{
    let index = match read_view_summaries(store, alloc, ask) {
        Ok(index) => index,
        Err(fault) => return Err(fault),
    };
    match tree_lines(alloc, threader, index.headers, index.merge) {
        Ok(rows) => Ok(rows),
        Err(refused) => {
            store.count_refusal(refused.into());
            Err(DeskError::Memory)
        }
    }
}

/// The rows of the top thread of the view that holds the message of a key. G1 where there is no such list, G2 where there is
/// no such person, G3 where the view does not hold the message; G5 where no memory is left, G4 where the store has none or
/// fails.
pub fn thread<T: Threader, S: ArchiveStore>(
    store: &mut S,
    alloc: Global,
    ask: &Ask<'_>,
    threader: &T,
    key: &Key,
) -> Result<Vec<TreeLine>, DeskError>
    ensures listed { AnswersFromStoreTables S.ArchiveState store.old store.new refusal_reason result
        (λ a. thread_reason a ask.now key.now)
        (λ a rows. thread_lines (merge_of a ask.now.list) key.now
        (map shown_message (view_of a ask.now)) ≡ Some rows.items) }
    ensures ends { EndsDeskQuestion S.ArchiveState store.old store.new IsThreadFault result
        (λ a. IsQuestionUnreadable a ask.now (messages_in a ask.now.list)) }
    ensures writes_nothing { WritesNothing S.ArchiveState store.old store.new }
{
    let index = match read_view_summaries(store, alloc, ask) {
        Ok(index) => index,
        Err(fault) => return Err(fault),
    };
    match thread_lines(alloc, threader, index.headers, index.merge, key) {
        Ok(Some(rows)) => Ok(rows),
        Ok(None) => Err(DeskError::NotInView),
        Err(refused) => {
            store.count_refusal(refused.into());
            Err(DeskError::Memory)
        }
    }
}

/// The headers of the messages of a view, in mailbox order, and whether its threads of one subject are gathered.
#[derive(Drop)]
pub struct ViewSummaries {
    /// In mailbox order.
    pub headers: Vec<MessageSummary>,
    /// Whether threads of one subject are gathered (RFC 5256, REFERENCES, step 5).
    pub merge: bool,
}

/// The index of the view: the list is walked, one message at a time, and is then asked how it is threaded. G1 where there is no
/// such list, G2 where there is no such person; G5 where no memory is left, G4 where the store has none or fails.
pub fn read_view_summaries<S: ArchiveStore>(
    store: &mut S,
    alloc: Global,
    ask: &Ask<'_>,
) -> Result<ViewSummaries, DeskError>
    ensures held { AnswersFromStoreUnder S.ArchiveState (HoldsTables S.ArchiveState) store.old store.new refusal_reason result
        (λ a. ask_reason a ask.now)
        (λ a index. AreSummariesOf (view_of a ask.now) index.headers.items
        × (index.merge ≡ merge_of a ask.now.list)) }
    ensures ends { EndsDeskQuestion S.ArchiveState store.old store.new IsAskFault result
        (λ a. IsQuestionUnreadable a ask.now (messages_in a ask.now.list)) }
    ensures writes_nothing { WritesNothing S.ArchiveState store.old store.new }
{
    let headers = match read_headers(store, alloc, ask, &Selection::Every) {
        Ok(headers) => headers,
        Err(fault) => return Err(fault),
    };
    match find_merge(store, ask) {
        Ok(merge) => Ok(ViewSummaries { headers, merge }),
        Err(fault) => Err(fault),
    }
}

/// Whether the threads of the list are gathered by subject.
fn find_merge<S: ArchiveStore>(store: &mut S, ask: &Ask<'_>) -> Result<bool, DeskError>
    ensures found { AnswersFromStoreUnder S.ArchiveState (HoldsTables S.ArchiveState) store.old store.new refusal_reason result
        (λ a. missing_list_reason a ask.now)
        (λ a merge. merge ≡ merge_of a ask.now.list) }
    ensures ends { EndsDeskCall S.ArchiveState store.old store.new IsAskFault result (λ _. ⊥) }
    ensures writes_nothing { WritesNothing S.ArchiveState store.old store.new }
{
    Ok(store.merge_of(ask.list)?)
}
