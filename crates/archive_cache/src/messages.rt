//! A message, asked for by its key: withheld by its marks, which are kept or a store has, or read of a store.
ghost use Rattle.std.specs.Prelude.{◌≡◌, ◌⊎◌, IfErr, IfSome, option_map};
ghost use Rattle.archive_model.specs.Records.{Archive};
ghost use Rattle.archive_model.specs.Questions.{message_of};
ghost use Rattle.archive_model.specs.Messages.{archived_message};
ghost use Rattle.archive_results.specs.Access.{asked_for_key, asked_of_message, denied_by, spec_asked};
ghost use Rattle.archive_port.specs.Crashes.{WritesNothing};
ghost use Rattle.archive_desk.specs.Asking.{DeterminesVerdicts};
ghost use Rattle.archive_desk.specs.Causes.{IsMessageUnreadable, IsReaderUnreadable};
ghost use Rattle.archive_desk.specs.Ending.{EndsDeskCall, EndsDeskQuestion};
ghost use Rattle.archive_desk.specs.Faults.{IsAskFault, ask_reason, refusal_reason};
ghost use Rattle.archive_desk.specs.Holding.{AnswersFromStoreTables};
ghost use Rattle.archive_cache.specs.Coherence.{AnswersOfFoundList, IsCacheCoherent, AreWithheldCoherent, ChangesOnlyWithheld, KeepsCacheCoherent};

use crate::cache::Cache;
use archive_desk::{DeskError, find_message_facts, resolve_reader};
use archive_model::Key;
use archive_port::{ArchiveStore, Message};
use archive_results::{Ask, Asked, ReaderFacts, asks_author, lookup_message, verdict};
use policy_core::Verdict;
use std::alloc::Global;

/// The message of a key, as far as the policy lets the reader see it on the day. A message that the policy withholds is withheld by its
/// marks, without a look at its text, and they are cached; if who wrote it matters to the reader, it is read. The store is asked for the
/// list and the reader each time. If what was cached is of the archive that the store remembers, this is the answer of
/// `archive_desk::message`, and what is cached then is of that archive too. The refusals are those of `archive_desk::message`.
pub fn find_message<'p, S: ArchiveStore>(
    store: &mut S,
    kept: &mut Cache,
    alloc: Global,
    ask: &Ask<'p>,
    key: &Key,
) -> Result<Asked<'p>, DeskError>
    ensures asked { AnswersFromStoreTables S.ArchiveState store.old store.new refusal_reason result
        (λ a. ask_reason a ask.entry.now)
        (λ a answer. IsCacheCoherent a ask.entry.now.rules ask.entry.now.day kept.old
        → spec_asked answer ≡ asked_for_key a ask.entry.now key.now) }
    ensures keeps { KeepsCacheCoherent S.ArchiveState store.old store.new ask.entry.now.rules ask.entry.now.day kept.old kept.new }
    ensures ends { EndsDeskQuestion S.ArchiveState store.old store.new IsAskFault result
        (λ a. IsMessageUnreadable a ask.entry.now key.now ⊎ IsReaderUnreadable a ask.entry.now) }
    ensures writes_nothing { WritesNothing S.ArchiveState store.old store.new }
{
    let reader = match resolve_reader(store, ask) {
        Ok(reader) => reader,
        Err(fault) => return Err(fault),
    };
    match denial(kept, ask, &reader, key) {
        Some(rule) => Ok(Asked::Denied(rule)),
        None => judge_message(store, kept, alloc, ask, &reader, key),
    }
}

/// The name of the rule that denies a message to a reader of these marks, by the marks that are kept of the message. `None` where none are
/// kept, where the policy shows it, and where who wrote it matters.
fn denial<'p>(kept: &Cache, ask: &Ask<'p>, reader: &ReaderFacts, key: &Key) -> Option<&'p str>
    ensures { IfSome result (λ rule. (a : Archive) → AreWithheldCoherent a kept.now.withheld
        → DeterminesVerdicts a ask.now reader.now → denied_by rule.now ≡ asked_for_key a ask.now key.now) }
{
    if asks_author(ask, reader) {
        return None;
    }
    let marks = kept.marks(ask.list, key)?;
    match verdict(ask, reader, marks) {
        Verdict::Allowed(_) => None,
        Verdict::Denied(rule) => Some(rule),
    }
}

/// What a reader of these marks gets who asks for a message that no kept marks withhold. If it is in the view of its list that is kept for
/// such readers, or if who wrote it matters, it is read. Else the store is asked for its marks: if the policy denies it by these, they are
/// kept and it is not read.
fn judge_message<'p, S: ArchiveStore>(
    store: &mut S,
    kept: &mut Cache,
    alloc: Global,
    ask: &Ask<'p>,
    reader: &ReaderFacts,
    key: &Key,
) -> Result<Asked<'p>, DeskError>
    ensures asked { AnswersOfFoundList S.ArchiveState store.old store.new ask.entry.now result
        (λ a answer. spec_asked answer ≡ asked_of_message ask.entry.now reader.now
        (message_of a ask.entry.now.list key.now)
        × (AreWithheldCoherent a kept.old.withheld → AreWithheldCoherent a kept.new.withheld)) }
    ensures same { IfErr result (λ _. kept.new ≡ kept.old) }
    ensures rest { ChangesOnlyWithheld kept.old kept.new }
    ensures ends { EndsDeskCall S.ArchiveState store.old store.new IsAskFault result
        (λ a. IsMessageUnreadable a ask.entry.now key.now) }
    ensures writes_nothing { WritesNothing S.ArchiveState store.old store.new }
{
    if asks_author(ask, reader) || kept.find_line(ask.list, reader, key).is_some() {
        return read_message(store, alloc, ask, reader, key);
    }
    let found = match find_message_facts(store, ask, key) {
        Ok(found) => found,
        Err(fault) => return Err(fault),
    };
    let Some(marks) = found else {
        return Ok(Asked::Absent);
    };
    match verdict(ask, reader, marks) {
        Verdict::Allowed(_) => read_message(store, alloc, ask, reader, key),
        Verdict::Denied(rule) => {
            kept.put_marks(alloc, ask.list, key, marks);
            Ok(Asked::Denied(rule))
        }
    }
}

/// What a reader of these marks gets who asks for a message, which is read.
fn read_message<'p, S: ArchiveStore>(
    store: &mut S,
    alloc: Global,
    ask: &Ask<'p>,
    reader: &ReaderFacts,
    key: &Key,
) -> Result<Asked<'p>, DeskError>
    ensures asked { AnswersOfFoundList S.ArchiveState store.old store.new ask.entry.now result
        (λ a answer. spec_asked answer ≡ asked_of_message ask.entry.now reader.now
        (message_of a ask.entry.now.list key.now)) }
    ensures ends { EndsDeskCall S.ArchiveState store.old store.new IsAskFault result
        (λ a. IsMessageUnreadable a ask.entry.now key.now) }
    ensures writes_nothing { WritesNothing S.ArchiveState store.old store.new }
{
    let held = match find_listed(store, ask, key) {
        Ok(held) => held,
        Err(fault) => return Err(fault),
    };
    match lookup_message(alloc, ask, reader, &held) {
        Ok(answer) => Ok(answer),
        Err(refused) => {
            store.count_refusal(refused.into());
            Err(DeskError::Memory)
        }
    }
}

/// The message of a key in a list that was found, by one SELECT. `None` where the list does not hold it.
fn find_listed<S: ArchiveStore>(
    store: &mut S,
    ask: &Ask<'_>,
    key: &Key,
) -> Result<Option<Message>, DeskError>
    ensures held { AnswersOfFoundList S.ArchiveState store.old store.new ask.now result
        (λ a found. option_map (archived_message ask.now.list) found ≡ message_of a ask.now.list key.now) }
    ensures ends { EndsDeskCall S.ArchiveState store.old store.new IsAskFault result
        (λ a. IsMessageUnreadable a ask.now key.now) }
    ensures writes_nothing { WritesNothing S.ArchiveState store.old store.new }
{
    Ok(store.find(ask.list, key)?)
}
