//! One message, asked for by its key.
ghost use Rattle.std.specs.Prelude.{◌≡◌, ◌⊎◌, None, option_map};
ghost use Rattle.archive_model.specs.Questions.{message_of};
ghost use Rattle.archive_model.specs.Messages.{archived_message};
ghost use Rattle.archive_results.specs.Access.{asked_for_key, asked_of_message, message_facts, reader_facts, spec_asked};
ghost use Rattle.archive_port.specs.Told.{AnswersFromStoreUnder, HoldsTables};
ghost use Rattle.archive_port.specs.Crashes.{WritesNothing};
ghost use Rattle.archive_desk.specs.Asking.{standing_reason};
ghost use Rattle.archive_desk.specs.Causes.{IsMessageUnreadable, IsReaderUnreadable};
ghost use Rattle.archive_desk.specs.Ending.{EndsDeskCall, EndsDeskQuestion};
ghost use Rattle.archive_desk.specs.Faults.{IsAskFault, ask_reason, missing_list_reason, refusal_reason};
ghost use Rattle.archive_desk.specs.Holding.{AnswersFromStoreTables};

use crate::faults::DeskError;
use crate::passing::weighed_found;
use crate::viewing::find_marks;
use archive_port::{ArchiveStore, Key, Message};
use archive_results::{Ask, Asked, MessageFacts, lookup_message};
use std::alloc::Global;

/// The message of a key, as far as the policy lets the reader see it on the day: it never reads the list. G1 where there is
/// no such list, G2 where there is no such person; G5 where no memory is left for the text, G4 where the store has none or
/// fails.
pub fn message<'p, S: ArchiveStore>(
    store: &mut S,
    alloc: Global,
    ask: &Ask<'p>,
    key: &Key,
) -> Result<Asked<'p>, DeskError>
    ensures asked { AnswersFromStoreTables S.ArchiveState store.old store.new refusal_reason result
        (λ a. ask_reason a ask.entry.now)
        (λ a answer. spec_asked answer ≡ asked_for_key a ask.entry.now key.now) }
    ensures ends { EndsDeskQuestion S.ArchiveState store.old store.new IsAskFault result
        (λ a. IsMessageUnreadable a ask.entry.now key.now ⊎ IsReaderUnreadable a ask.entry.now) }
    ensures writes_nothing { WritesNothing S.ArchiveState store.old store.new }
{
    match find_row(store, ask, key) {
        Ok(held) => answer_on(store, alloc, ask, &held),
        Err(fault) => Err(fault),
    }
}

/// The message of a key, if the list holds it. G1 where there is no such list; G4 where the store has no memory or fails.
pub fn find_row<S: ArchiveStore>(
    store: &mut S,
    ask: &Ask<'_>,
    key: &Key,
) -> Result<Option<Message>, DeskError>
    ensures held { AnswersFromStoreUnder S.ArchiveState (HoldsTables S.ArchiveState) store.old store.new refusal_reason result
        (λ a. missing_list_reason a ask.now)
        (λ a found. option_map (archived_message ask.now.list) found ≡ message_of a ask.now.list key.now) }
    ensures ends { EndsDeskQuestion S.ArchiveState store.old store.new IsAskFault result
        (λ a. IsMessageUnreadable a ask.now key.now) }
    ensures writes_nothing { WritesNothing S.ArchiveState store.old store.new }
{
    Ok(store.row(ask.list, key)?)
}

/// What a policy weighs of the message of a key where it is not the reader's own, if the list holds the message: its text is not read.
/// G1 where there is no such list; G4 where the store has no memory or fails.
pub fn find_message_facts<S: ArchiveStore>(
    store: &mut S,
    ask: &Ask<'_>,
    key: &Key,
) -> Result<Option<MessageFacts>, DeskError>
    ensures held { AnswersFromStoreUnder S.ArchiveState (HoldsTables S.ArchiveState) store.old store.new refusal_reason result
        (λ a. missing_list_reason a ask.now)
        (λ a found. found ≡ option_map (message_facts None) (message_of a ask.now.list key.now)) }
    ensures ends { EndsDeskQuestion S.ArchiveState store.old store.new IsAskFault result
        (λ a. IsMessageUnreadable a ask.now key.now) }
    ensures writes_nothing { WritesNothing S.ArchiveState store.old store.new }
{
    let found = store.marks(ask.list, key)?;
    Ok(weighed_found(found))
}

/// What the reader gets of a message that the list holds, or of one that it does not hold.
fn answer_on<'p, S: ArchiveStore>(
    store: &mut S,
    alloc: Global,
    ask: &Ask<'p>,
    held: &Option<Message>,
) -> Result<Asked<'p>, DeskError>
    ensures asked { AnswersFromStoreUnder S.ArchiveState (HoldsTables S.ArchiveState) store.old store.new refusal_reason result
        (λ a. standing_reason a ask.entry.now)
        (λ a answer. spec_asked answer ≡ asked_of_message ask.entry.now (reader_facts a ask.entry.now)
        (option_map (archived_message ask.entry.now.list) held.now)) }
    ensures ends { EndsDeskCall S.ArchiveState store.old store.new IsAskFault result
        (λ a. IsReaderUnreadable a ask.entry.now) }
    ensures writes_nothing { WritesNothing S.ArchiveState store.old store.new }
{
    let reader = find_marks(store, ask)?;
    match lookup_message(alloc, ask, &reader, held) {
        Ok(answer) => Ok(answer),
        Err(refused) => {
            store.count_refusal(refused.into());
            Err(DeskError::Memory)
        }
    }
}
