//! The view: the messages of a list that the policy allows the reader.
ghost use Rattle.std.specs.Prelude.{◌≡◌, map, filter, IfOk, Some, option_map, string_bytes};
ghost use Rattle.archive_model.specs.Questions.{address_of, messages_in, standing_of, standing_refusal};
ghost use Rattle.archive_model.specs.Messages.{archived_message};
ghost use Rattle.archive_results.specs.Access.{is_shown, standing_of_rank, view_of};
ghost use Rattle.archive_port.specs.Told.{AnswersFromStoreUnder, HoldsTables};
ghost use Rattle.archive_port.specs.Crashes.{WritesNothing};
ghost use Rattle.archive_desk.specs.Asking.{DeterminesVerdicts, person_reason, standing_reason};
ghost use Rattle.archive_desk.specs.Causes.{HasUnreadableMessage, IsAddressUnreadable, IsPersonUnreadable, IsRankUnknown};
ghost use Rattle.archive_desk.specs.Causes.{IsReaderUnreadable, IsQuestionUnreadable};
ghost use Rattle.archive_desk.specs.Ending.{EndsDeskCall, EndsDeskQuestion};
ghost use Rattle.archive_desk.specs.Faults.{IsAskFault, ask_reason, missing_list_reason, refusal_reason, reason_of_refusal};
ghost use Rattle.archive_desk.specs.Holding.{AnswersFromStoreTables};

use crate::faults::DeskError;
use crate::importing::check_list_exists;
use archive_port::{ArchiveStore, Message};
use archive_results::{Ask, Reader, ReaderFacts, is_shown};
use mail_core::Memory;
use policy_core::Standing;
use std::alloc::Global;

/// The messages of the list that the policy lets the reader see on the day, in mailbox order. G1 where there is no such
/// list, G2 where there is no such person; G5 where no memory is left, G4 where the store has none or fails.
pub fn view<S: ArchiveStore>(
    store: &mut S,
    alloc: Global,
    ask: &Ask<'_>,
) -> Result<Vec<Message>, DeskError>
    ensures shown { AnswersFromStoreTables S.ArchiveState store.old store.new refusal_reason result (λ a. ask_reason a ask.now)
        (λ a found. map (archived_message ask.now.list) found.items ≡ view_of a ask.now) }
    ensures ends { EndsDeskCall S.ArchiveState store.old store.new IsAskFault result
        (λ a. IsQuestionUnreadable a ask.now (messages_in a ask.now.list)) }
    ensures writes_nothing { WritesNothing S.ArchiveState store.old store.new }
{
    let messages = match read_list(store, alloc, ask) {
        Ok(messages) => messages,
        Err(fault) => return Err(fault),
    };
    let reader = match find_marks(store, ask) {
        Ok(reader) => reader,
        Err(fault) => return Err(fault),
    };
    match keep_shown(alloc, ask, &reader, messages) {
        Ok(kept) => Ok(kept),
        Err(refused) => {
            store.count_refusal(refused.into());
            Err(DeskError::Memory)
        }
    }
}

/// All messages of the list.
pub(crate) fn read_list<S: ArchiveStore>(
    store: &mut S,
    alloc: Global,
    ask: &Ask<'_>,
) -> Result<Vec<Message>, DeskError>
    ensures held { AnswersFromStoreUnder S.ArchiveState (HoldsTables S.ArchiveState) store.old store.new refusal_reason result
        (λ a. missing_list_reason a ask.now)
        (λ a found. map (archived_message ask.now.list) found.items ≡ messages_in a ask.now.list) }
    ensures ends { EndsDeskCall S.ArchiveState store.old store.new IsAskFault result
        (λ a. HasUnreadableMessage (messages_in a ask.now.list)) }
    ensures writes_nothing { WritesNothing S.ArchiveState store.old store.new }
{
    Ok(store.rows(alloc, ask.list)?)
}

/// What a policy asks of the reader of a list that is there: the standing on the list and the day, and the address where a rule
/// turns on it. G1 where there is no such list, and then G2 where there is no such person; G4 where the store has no memory or
/// fails.
pub fn resolve_reader<S: ArchiveStore>(
    store: &mut S,
    ask: &Ask<'_>,
) -> Result<ReaderFacts, DeskError>
    ensures found { AnswersFromStoreUnder S.ArchiveState (HoldsTables S.ArchiveState) store.old store.new refusal_reason result
        (λ a. ask_reason a ask.now)
        (λ a reader. DeterminesVerdicts a ask.now reader) }
    ensures ends { EndsDeskQuestion S.ArchiveState store.old store.new IsAskFault result
        (λ a. IsReaderUnreadable a ask.now) }
    ensures writes_nothing { WritesNothing S.ArchiveState store.old store.new }
{
    match check_list_exists(store, ask.list) {
        Ok(()) => find_marks(store, ask),
        Err(fault) => Err(DeskError::from(fault)),
    }
}

/// What a policy asks of the reader, on the list and the day: nobody is the public.
pub(crate) fn find_marks<S: ArchiveStore>(
    store: &mut S,
    ask: &Ask<'_>,
) -> Result<ReaderFacts, DeskError>
    ensures found { AnswersFromStoreUnder S.ArchiveState (HoldsTables S.ArchiveState) store.old store.new refusal_reason result
        (λ a. standing_reason a ask.now)
        (λ a reader. DeterminesVerdicts a ask.now reader) }
    ensures ends { EndsDeskCall S.ArchiveState store.old store.new IsAskFault result
        (λ a. IsReaderUnreadable a ask.now) }
    ensures writes_nothing { WritesNothing S.ArchiveState store.old store.new }
{
    match ask.reader {
        Reader::Nobody => Ok(ReaderFacts {
            standing: Standing::Public,
            address: None,
        }),
        Reader::Person(name) => person_marks(store, ask, name),
    }
}

/// What a policy asks of this person. The address is asked only where a rule asks whether a message is the reader's own, since
/// nothing else turns on it.
fn person_marks<S: ArchiveStore>(
    store: &mut S,
    ask: &Ask<'_>,
    name: &str,
) -> Result<ReaderFacts, DeskError>
    ensures found { AnswersFromStoreUnder S.ArchiveState (HoldsTables S.ArchiveState) store.old store.new refusal_reason result
        (λ a. option_map reason_of_refusal (standing_refusal a name.now ask.now.list))
        (λ a reader. DeterminesVerdicts a (record ask.now { reader = Some name.now }) reader) }
    ensures ends { EndsDeskCall S.ArchiveState store.old store.new IsAskFault result
        (λ a. IsPersonUnreadable a ask.now name.now) }
    ensures writes_nothing { WritesNothing S.ArchiveState store.old store.new }
{
    let standing = match find_standing(store, ask, name) {
        Ok(standing) => standing,
        Err(fault) => return Err(fault),
    };
    if !ask.policy.asks_own() {
        return Ok(ReaderFacts {
            standing,
            address: None,
        });
    }
    match find_address(store, name) {
        Ok(address) => Ok(ReaderFacts { standing, address }),
        Err(fault) => Err(fault),
    }
}

/// The standing of a person, on the list and the day.
fn find_standing<S: ArchiveStore>(
    store: &mut S,
    ask: &Ask<'_>,
    name: &str,
) -> Result<Standing, DeskError>
    ensures found { AnswersFromStoreUnder S.ArchiveState (HoldsTables S.ArchiveState) store.old store.new refusal_reason result
        (λ a. option_map reason_of_refusal (standing_refusal a name.now ask.now.list))
        (λ a standing. standing ≡ standing_of_rank
        (standing_of a name.now ask.now.list ask.now.day)) }
    ensures ends { EndsDeskCall S.ArchiveState store.old store.new IsAskFault result
        (λ a. IsRankUnknown a ask.now name.now) }
    ensures writes_nothing { WritesNothing S.ArchiveState store.old store.new }
{
    Ok(store.standing(name, ask.list, ask.day)?)
}

/// The address of a person, who may have none.
fn find_address<S: ArchiveStore>(store: &mut S, name: &str) -> Result<Option<String>, DeskError>
    ensures found { AnswersFromStoreUnder S.ArchiveState (HoldsTables S.ArchiveState) store.old store.new refusal_reason result
        (λ a. person_reason a name.now)
        (λ a address. option_map string_bytes address ≡ address_of a name.now) }
    ensures ends { EndsDeskCall S.ArchiveState store.old store.new IsAskFault result
        (λ a. IsAddressUnreadable a name.now) }
    ensures writes_nothing { WritesNothing S.ArchiveState store.old store.new }
{
    Ok(store.address(name)?)
}

/// Those of these messages that the policy shows, in their order.
fn keep_shown(
    alloc: Global,
    ask: &Ask<'_>,
    reader: &ReaderFacts,
    messages: Vec<Message>,
) -> Result<Vec<Message>, Memory>
    ensures { IfOk result (λ kept.
        kept.items ≡ filter (λ m. is_shown ask.now reader.now
        (archived_message ask.now.list m)) messages.items) }
{
    let mut kept = Vec::new(alloc);
    for message in messages {
        if is_shown(alloc, ask, reader, &message)? {
            kept.push(message)?;
        }
    }
    Ok(kept)
}
