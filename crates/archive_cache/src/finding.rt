//! The outline of a part of a view, out of what is kept or read of a store.
ghost use Rattle.std.specs.Prelude.{◌≡◌, ◌<◌, length, Some, IfOk};
ghost use Rattle.archive_model.specs.Questions.{messages_in};
ghost use Rattle.archive_port.specs.Crashes.{WritesNothing};
ghost use Rattle.archive_desk.specs.Causes.{IsQuestionUnreadable};
ghost use Rattle.archive_desk.specs.Ending.{EndsDeskCall, EndsDeskQuestion};
ghost use Rattle.archive_desk.specs.Faults.{IsAskFault, ask_reason, refusal_reason};
ghost use Rattle.archive_desk.specs.Holding.{AnswersFromStoreTables};
ghost use Rattle.archive_cache.specs.ListIndexes.{index_for_ask};
ghost use Rattle.archive_cache.specs.Parts.{model_part, whole};
ghost use Rattle.archive_cache.specs.Coherence.{IsCacheCoherent, FindsListIndex, KeepsCacheCoherent};
ghost use Rattle.archive_cache.specs.Views.{cached_index_at};

use crate::cache::Cache;
use crate::list_indexes::{ListIndex, outline_of};
use crate::parts::ViewPart;
use archive_desk::{DeskError, read_view_summaries, resolve_reader};
use archive_port::ArchiveStore;
use archive_results::{Ask, ReaderFacts};
use std::alloc::Global;
use thread_core::Threader;

/// The outline of the whole view, made of what is read of the store.
fn read_threads<T: Threader, S: ArchiveStore>(
    store: &mut S,
    alloc: Global,
    ask: &Ask<'_>,
    threader: &T,
) -> Result<ListIndex, DeskError>
    ensures made { AnswersFromStoreTables S.ArchiveState store.old store.new refusal_reason result (λ a. ask_reason a ask.now)
        (λ a outline. outline ≡ index_for_ask a ask.now whole) }
    ensures ends { EndsDeskCall S.ArchiveState store.old store.new IsAskFault result
        (λ a. IsQuestionUnreadable a ask.now (messages_in a ask.now.list)) }
    ensures writes_nothing { WritesNothing S.ArchiveState store.old store.new }
{
    let index = match read_view_summaries(store, alloc, ask) {
        Ok(index) => index,
        Err(fault) => return Err(fault),
    };
    match outline_of(alloc, threader, ask.list, index.headers, index.merge) {
        Ok(outline) => Ok(outline),
        Err(refused) => {
            store.count_refusal(refused.into());
            Err(DeskError::Memory)
        }
    }
}

/// The place of the outline of the whole view: one that is kept, or that is read now, and kept.
fn find_whole<T: Threader, S: ArchiveStore>(
    store: &mut S,
    kept: &mut Cache,
    alloc: Global,
    ask: &Ask<'_>,
    reader: &ReaderFacts,
    threader: &T,
) -> Result<usize, DeskError>
    ensures finds { FindsListIndex S.ArchiveState store.old store.new ask.now reader.now whole kept.old kept.new result }
    ensures ends { EndsDeskCall S.ArchiveState store.old store.new IsAskFault result
        (λ a. IsQuestionUnreadable a ask.now (messages_in a ask.now.list)) }
    ensures there { IfOk result (λ place. place < length kept.new.views) }
    ensures writes_nothing { WritesNothing S.ArchiveState store.old store.new }
{
    if let Some(place) = kept.find(ask.list, reader, &ViewPart::Whole) {
        return Ok(place);
    }
    let outline = match read_threads(store, alloc, ask, threader) {
        Ok(outline) => outline,
        Err(fault) => return Err(fault),
    };
    match kept.put(alloc, ask.list, reader, &ViewPart::Whole, outline) {
        Ok(place) => Ok(place),
        Err(refused) => {
            store.count_refusal(refused.into());
            Err(DeskError::Memory)
        }
    }
}

/// The place of the outline of a part of the view: one that is kept, that of the whole view, or one that is made of that now, and kept.
fn find_part<T: Threader, S: ArchiveStore>(
    store: &mut S,
    kept: &mut Cache,
    alloc: Global,
    ask: &Ask<'_>,
    reader: &ReaderFacts,
    part: &ViewPart<'_>,
    threader: &T,
) -> Result<usize, DeskError>
    ensures finds { FindsListIndex S.ArchiveState store.old store.new ask.now reader.now
        (model_part part.now) kept.old kept.new result }
    ensures ends { EndsDeskCall S.ArchiveState store.old store.new IsAskFault result
        (λ a. IsQuestionUnreadable a ask.now (messages_in a ask.now.list)) }
    ensures there { IfOk result (λ place. place < length kept.new.views) }
    ensures writes_nothing { WritesNothing S.ArchiveState store.old store.new }
{
    if let Some(place) = kept.find(ask.list, reader, part) {
        return Ok(place);
    }
    let place = match find_whole(store, kept, alloc, ask, reader, threader) {
        Ok(place) => place,
        Err(fault) => return Err(fault),
    };
    if matches!(part, ViewPart::Whole) {
        return Ok(place);
    }
    match kept.put_part(alloc, ask.list, reader, part, place) {
        Ok(place) => Ok(place),
        Err(refused) => {
            store.count_refusal(refused.into());
            Err(DeskError::Memory)
        }
    }
}

/// The place of the outline of a part of the view: one that is cached, or that is made now, and cached. A month and an author are made
/// of the outline of the whole list, so that no text is read for them if that is cached. The store is asked for the list and the reader
/// each time. If what was cached is of the archive that the store remembers, under the policy and on the day of the question, the
/// outline is that of the view, and what is cached then is of that archive too; it never weighs more than it may. The place is good
/// until the next call. G1 if there is no such list, G2 if there is no such person; G5 if no memory is left, G4 if the store has none
/// or fails.
pub fn get_or_build_index<T: Threader, S: ArchiveStore>(
    store: &mut S,
    kept: &mut Cache,
    alloc: Global,
    ask: &Ask<'_>,
    part: &ViewPart<'_>,
    threader: &T,
) -> Result<usize, DeskError>
    ensures found { AnswersFromStoreTables S.ArchiveState store.old store.new refusal_reason result (λ a. ask_reason a ask.now)
        (λ a place. IsCacheCoherent a ask.now.rules ask.now.day kept.old
        → cached_index_at kept.new place ≡ Some (index_for_ask a ask.now (model_part part.now))) }
    ensures keeps { KeepsCacheCoherent S.ArchiveState store.old store.new ask.now.rules ask.now.day kept.old kept.new }
    ensures ends { EndsDeskQuestion S.ArchiveState store.old store.new IsAskFault result
        (λ a. IsQuestionUnreadable a ask.now (messages_in a ask.now.list)) }
    ensures there { IfOk result (λ place. place < length kept.new.views) }
    ensures writes_nothing { WritesNothing S.ArchiveState store.old store.new }
{
    match resolve_reader(store, ask) {
        Ok(reader) => find_part(store, kept, alloc, ask, &reader, part, threader),
        Err(fault) => Err(fault),
    }
}
