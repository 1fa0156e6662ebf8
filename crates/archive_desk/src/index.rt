//! The index of a view, the headers of its messages, read by one walk.
ghost use Rattle.std.specs.Prelude.{◌≡◌, ◌∷◌, [], ◌++◌, filter, map, IfErr, OnOk};
ghost use Rattle.archive_model.specs.Messages.{archived_message};
ghost use Rattle.archive_results.specs.Access.{is_shown};
ghost use Rattle.archive_results.specs.Index.{AreSummariesOf, summary_of};
ghost use Rattle.archive_port.specs.Told.{AnswersFromStoreUnder, HoldsTables};
ghost use Rattle.archive_port.specs.Crashes.{WritesNothing};
ghost use Rattle.archive_port.specs.Walking.{walk_over_store, selected_messages};
ghost use Rattle.archive_desk.specs.Causes.{IsQuestionUnreadable};
ghost use Rattle.archive_desk.specs.Ending.{EndsDeskQuestion, EndsWalk};
ghost use Rattle.archive_desk.specs.Faults.{IsAskFault, ask_reason, refusal_reason};
ghost use Rattle.archive_desk.specs.Listing.{view_in};
ghost use Rattle.archive_desk.specs.Walking.{IsMemoryOrDatabaseFault, ListsRows};

use crate::faults::DeskError;
use crate::passing::pass_withheld;
use crate::viewing::resolve_reader;
use archive_port::{ArchiveStore, Message, Selection};
use archive_results::{Ask, MessageSummary, ReaderFacts, is_shown, summary_of};
use mail_core::Memory;
use std::alloc::Global;

/// The headers of these of a list's messages, as far as the policy shows them, in their order. They are walked over once: it
/// holds one message at a time, and reads the headers of those that the policy shows.
pub(crate) fn read_headers<S: ArchiveStore>(
    store: &mut S,
    alloc: Global,
    ask: &Ask<'_>,
    which: &Selection<'_>,
) -> Result<Vec<MessageSummary>, DeskError>
    ensures held { AnswersFromStoreUnder S.ArchiveState (HoldsTables S.ArchiveState) store.old store.new refusal_reason result
        (λ a. ask_reason a ask.now)
        (λ a headers. AreSummariesOf (view_in a ask.now which.now) headers.items) }
    ensures ends { EndsDeskQuestion S.ArchiveState store.old store.new IsAskFault result
        (λ a. IsQuestionUnreadable a ask.now (selected_messages a ask.now.list which.now)) }
    ensures writes_nothing { WritesNothing S.ArchiveState store.old store.new }
{
    let reader = match resolve_reader(store, ask) {
        Ok(reader) => reader,
        Err(fault) => return Err(fault),
    };
    match store.each_selected(alloc, ask.list, which) {
        Ok(mut walk) => walk_headers(store, alloc, ask, &reader, &mut walk),
        Err(fault) => Err(DeskError::from(fault)),
    }
}

/// The headers of the messages that a walk has not given yet, as far as the policy shows them.
fn walk_headers<S: ArchiveStore>(
    store: &mut S,
    alloc: Global,
    ask: &Ask<'_>,
    reader: &ReaderFacts,
    walk: &mut S::Walk,
) -> Result<Vec<MessageSummary>, DeskError>
    ensures listed { ListsRows S.ArchiveState (walk_over_store store.old walk.old) (walk_over_store store.new walk.new) ask.now reader.now (map summary_of) result }
    ensures fault { IfErr result (λ fault. IsMemoryOrDatabaseFault fault) }
    ensures ends { EndsWalk S.ArchiveState (walk_over_store store.old walk.old) (walk_over_store store.new walk.new) ask.now (λ fault. fault) result }
    ensures writes_nothing { WritesNothing S.ArchiveState store.old store.new }
{
    let mut headers = Vec::new(alloc);
    loop {
        pass_withheld(store, ask, reader, walk)?;
        let Some(message) = store.next(walk)? else {
            return Ok(headers);
        };
        match push_header(alloc, ask, reader, &message, &mut headers) {
            Ok(()) => {}
            Err(refused) => {
                store.count_refusal(refused.into());
                return Err(DeskError::Memory);
            }
        }
    }
}

/// The header of a message more, if the policy shows it.
fn push_header(
    alloc: Global,
    ask: &Ask<'_>,
    reader: &ReaderFacts,
    message: &Message,
    headers: &mut Vec<MessageSummary>,
) -> Result<(), Memory>
    ensures { OnOk result (headers.new.items ≡ headers.old.items
        ++ map summary_of (filter (is_shown ask.now reader.now)
        (archived_message ask.now.list message.now ∷ []))) }
{
    if is_shown(alloc, ask, reader, message)? {
        headers.push(summary_of(alloc, message)?)?;
    }
    Ok(())
}
