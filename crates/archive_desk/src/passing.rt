//! Messages that a walk passes by: those that the policy withholds whatever their texts are. Their texts are not read. What it weighs
//! of a message without its text.
ghost use Rattle.std.specs.Prelude.{◌≡◌, Option, None, false, option_map, MatchOption};
ghost use Rattle.std.specs.Option.{IsSomeAnd};
ghost use Rattle.archive_model.specs.Records.{Message as Remembered};
ghost use Rattle.archive_port.specs.Messages.{AreDatedMarksOf};
ghost use Rattle.archive_results.specs.Access.{message_facts};
ghost use Rattle.archive_port.specs.Told.{CountsRefusals, StaysOpenUnlessDiskFails};
ghost use Rattle.archive_port.specs.Crashes.{WritesNothing};
ghost use Rattle.archive_port.specs.Walking.{walk_over_store};
ghost use Rattle.archive_port.specs.Wanting.{IsMemoryRefusal};
ghost use Rattle.archive_desk.specs.Walking.{SkipsAtMostOne, SkipsWithheldMessages, E15MeansDiskFailedOrMessageUnreadable};

use archive_port::{ArchiveStore, DatedMarks, StoreFault};
use archive_results::{Ask, MessageFacts, ReaderFacts, asks_author, is_withheld};

/// Passes by the messages in front of a walk that the policy withholds whatever their texts are, so that the next is one that it
/// may show. Where who wrote a message matters to the reader, it passes none by.
pub(crate) fn pass_withheld<S: ArchiveStore>(
    store: &mut S,
    ask: &Ask<'_>,
    reader: &ReaderFacts,
    walk: &mut S::Walk,
) -> Result<(), StoreFault>
    ensures passed { SkipsWithheldMessages S.ArchiveState (walk_over_store store.old walk.old) (walk_over_store store.new walk.new) ask.now reader.now result }
    ensures lasts { StaysOpenUnlessDiskFails S.ArchiveState store.old store.new }
    ensures caused { E15MeansDiskFailedOrMessageUnreadable S.ArchiveState (walk_over_store store.old walk.old) (walk_over_store store.new walk.new) ask.now result }
    ensures counted { CountsRefusals S.ArchiveState IsMemoryRefusal store.old store.new result }
    ensures writes_nothing { WritesNothing S.ArchiveState store.old store.new }
{
    while pass_next(store, ask, reader, walk)? {}
    Ok(())
}

/// Passes the next message by, if the policy withholds it whatever its text is: whether it did.
fn pass_next<S: ArchiveStore>(
    store: &mut S,
    ask: &Ask<'_>,
    reader: &ReaderFacts,
    walk: &mut S::Walk,
) -> Result<bool, StoreFault>
    ensures passed { SkipsAtMostOne S.ArchiveState (walk_over_store store.old walk.old) (walk_over_store store.new walk.new) ask.now reader.now result }
    ensures lasts { StaysOpenUnlessDiskFails S.ArchiveState store.old store.new }
    ensures caused { E15MeansDiskFailedOrMessageUnreadable S.ArchiveState (walk_over_store store.old walk.old) (walk_over_store store.new walk.new) ask.now result }
    ensures counted { CountsRefusals S.ArchiveState IsMemoryRefusal store.old store.new result }
    ensures writes_nothing { WritesNothing S.ArchiveState store.old store.new }
{
    if asks_author(ask, reader) {
        return Ok(false);
    }
    let Some(marks) = store.peek_marks(walk)? else {
        return Ok(false);
    };
    if !is_withheld(ask, reader, weighed(marks)) {
        return Ok(false);
    }
    S::pass(walk);
    Ok(true)
}

/// What a policy weighs of the marks that a store found, of a message that is not the reader's own.
pub(crate) fn weighed_found(found: Option<DatedMarks>) -> Option<MessageFacts>
    ensures { (held : Option Remembered)
        → MatchOption found (held ≡ None) (λ marks. IsSomeAnd held (AreDatedMarksOf marks))
        → result ≡ option_map (message_facts None) held }
{
    match found {
        Some(marks) => Some(weighed(marks)),
        None => None,
    }
}

/// What a policy weighs of these marks, of a message that is not the reader's own.
fn weighed(marks: DatedMarks) -> MessageFacts
    ensures { (m : Remembered) → AreDatedMarksOf marks m
        → result ≡ record (message_facts None m) { own = false } }
{
    MessageFacts {
        arrival: marks.arrival,
        withdrawn: marks.withdrawn,
        embargo_until: marks.embargo_until,
        own: false,
    }
}
