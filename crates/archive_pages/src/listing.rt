//! The pages that list messages: of a month, of an author, of all threads and of one.
ghost use Rattle.std.specs.Prelude.{◌≡◌, ◌<◌, IfOk, IfSome, length};
ghost use Rattle.archive_requests.specs.Routing.{model_route};
ghost use Rattle.archive_port.specs.Crashes.{WritesNothing};
ghost use Rattle.archive_cache.specs.Coherence.{KeepsCacheCoherent};
ghost use Rattle.archive_cache.specs.Parts.{model_part};
ghost use Rattle.archive_pages.specs.Calls.{IsCacheCoherentForAsk, EndsFindingReply, FindsReplyIf, IsCachedIndexPlace};
ghost use Rattle.archive_pages.specs.Causes.{FindsOrHasCause, IsListDataUnreadable, IsUnreadableOrReaderUnknown};
ghost use Rattle.archive_pages.specs.KeptServing.{FindsInArchiveIf};
ghost use Rattle.archive_pages.specs.Listings.{IsPageOfIndex, IsWantedBy, listing_reply, wanted_part};

use crate::replies::{Failure, Reply, Unavailable};
use archive_cache::{Cache, ListIndex, ViewPart, get_or_build_index};
use archive_desk::DeskError;
use archive_html::{author_page, month_page, thread_page, threads_page};
use archive_port::{ArchiveStore, Key};
use archive_requests::{Route, percent_decoded};
use archive_results::Ask;
use civil_time::Month;
use mail_core::Memory;
use std::alloc::Global;
use thread_core::Threader;

/// The place of the outline of what is asked for, which is kept, or is read and kept. `None`: there is no such list.
pub(crate) fn find_place<T: Threader, S: ArchiveStore>(
    store: &mut S,
    kept: &mut Cache,
    alloc: Global,
    ask: &Ask<'_>,
    part: &ViewPart<'_>,
    threader: &T,
) -> Result<Option<usize>, Unavailable>
    ensures found { FindsInArchiveIf S.ArchiveState store.old store.new (IsCacheCoherentForAsk ask.now kept.old) result
        (λ a place. IsCachedIndexPlace a ask.now kept.new (model_part part.now) place) }
    ensures there { IfOk result (λ place. IfSome place (λ at. at < length kept.new.views)) }
    ensures keeps { KeepsCacheCoherent S.ArchiveState store.old store.new ask.now.rules ask.now.day kept.old kept.new }
    ensures caused { FindsOrHasCause S.ArchiveState store.old store.new result
        (IsUnreadableOrReaderUnknown (IsListDataUnreadable ask.now) ask.now.reader) }
    ensures writes_nothing { WritesNothing S.ArchiveState store.old store.new }
{
    match get_or_build_index(store, kept, alloc, ask, part, threader) {
        Ok(place) => Ok(Some(place)),
        Err(fault) => match fault {
            DeskError::NoList => Ok(None),
            _ => Err(Unavailable),
        },
    }
}

/// What a route asks of a list, with its words read.
#[derive(Drop)]
pub(crate) enum Wanted {
    /// The messages of a month.
    Month(Month),
    /// The messages of an author, by the key.
    Author(Vec<u8>),
    /// All threads.
    Threads,
    /// The thread that holds the message of a key.
    Thread(Key),
}

impl Wanted {
    /// What the route asks for. `None`: a month or a key that is none, or a route that lists no messages. `Memory`: that of an author's
    /// key was refused.
    fn of(alloc: Global, route: &Route<'_>) -> Result<Option<Wanted>, Memory>
        ensures { IfOk result (IsWantedBy (model_route route.now)) }
    {
        Ok(match route {
            Route::Month { month, .. } => Month::read(month.as_bytes()).map(Wanted::Month),
            Route::Author { author, .. } => Some(Wanted::Author(percent_decoded(alloc, author)?)),
            Route::Threads { .. } => Some(Wanted::Threads),
            Route::Thread { key, .. } => Key::read(key).map(Wanted::Thread),
            _ => None,
        })
    }

    /// The part of the list whose outline the page is made of.
    fn part(&self) -> ViewPart<'_>
        ensures { model_part result ≡ wanted_part self.now }
    {
        match self {
            Wanted::Month(month) => ViewPart::Month(*month),
            Wanted::Author(key) => ViewPart::Author(key),
            Wanted::Threads | Wanted::Thread(_) => ViewPart::Whole,
        }
    }

    /// The page, made of the outline of its part. `None`: no message there has the key.
    fn page(
        &self,
        alloc: Global,
        list: &str,
        outline: &ListIndex,
    ) -> Result<Option<Vec<u8>>, Memory>
        ensures { IfOk result (IsPageOfIndex list.now self.now outline.now) }
    {
        Ok(Some(match self {
            Wanted::Month(month) => month_page(alloc, list, *month, outline.text())?,
            Wanted::Author(key) => author_page(alloc, list, key, outline.text())?,
            Wanted::Threads => threads_page(alloc, list, outline.text())?,
            Wanted::Thread(key) => {
                let Some(rows) = outline.thread(key) else {
                    return Ok(None);
                };
                thread_page(alloc, list, rows)?
            }
        }))
    }
}

/// The page that a route asks of the list, out of the outline that is kept, or of one that is read and kept. 404 of a route that lists
/// no messages.
pub(crate) fn find_listing<T: Threader, S: ArchiveStore>(
    store: &mut S,
    kept: &mut Cache,
    alloc: Global,
    ask: &Ask<'_>,
    threader: &T,
    route: &Route<'_>,
) -> Result<Reply<'static>, Unavailable>
    ensures found { FindsReplyIf S.ArchiveState store.old store.new result (IsCacheCoherentForAsk ask.now kept.old)
        (λ a. listing_reply a ask.now (model_route route.now)) }
    ensures keeps { KeepsCacheCoherent S.ArchiveState store.old store.new ask.now.rules ask.now.day kept.old kept.new }
    ensures why { EndsFindingReply S.ArchiveState store.old store.new result
        (IsUnreadableOrReaderUnknown (IsListDataUnreadable ask.now) ask.now.reader) }
    ensures writes_nothing { WritesNothing S.ArchiveState store.old store.new }
{
    let wanted = match Wanted::of(alloc, route) {
        Ok(Some(wanted)) => wanted,
        Ok(None) => return Ok(Reply::Failed(Failure::NotFound)),
        Err(refused) => {
            store.count_refusal(refused.into());
            return Err(Unavailable);
        }
    };
    let Some(place) = find_place(store, kept, alloc, ask, &wanted.part(), threader)? else {
        return Ok(Reply::Failed(Failure::NotFound));
    };
    let Some(outline) = kept.outline(place) else {
        return Err(Unavailable);
    };
    match wanted.page(alloc, ask.list, outline) {
        Ok(Some(page)) => Ok(Reply::Page(page)),
        Ok(None) => Ok(Reply::Failed(Failure::NotFound)),
        Err(refused) => {
            store.count_refusal(refused.into());
            Err(Unavailable)
        }
    }
}
