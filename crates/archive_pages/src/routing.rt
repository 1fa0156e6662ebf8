//! The answer of a route.
ghost use Rattle.std.specs.Prelude.{◌≡◌, ◌≤◌, MatchResult, option_map};
ghost use Rattle.archive_requests.specs.Routes.{mbox};
ghost use Rattle.archive_requests.specs.Routing.{model_route};
ghost use Rattle.archive_results.specs.Access.{reader_name};
ghost use Rattle.archive_port.specs.Told.{StaysOpenUnlessDiskFails, LeavesArchive, memory_refusal_count};
ghost use Rattle.archive_port.specs.Crashes.{WritesNothing};
ghost use Rattle.archive_cache.specs.Coherence.{KeepsCacheCoherent};
ghost use Rattle.archive_cache.specs.Sending.{mbox_text_of_lines};
ghost use Rattle.archive_pages.specs.Answers.{ask_of_reader, list_reply, reply_unless_mbox, route_reply};
ghost use Rattle.archive_pages.specs.Calls.{IsCacheCoherentForAsk, IsPagesCacheCoherent, EndsReplyFromPages, EndsReply};
ghost use Rattle.archive_pages.specs.Calls.{EndsFindingReply, FindsReplyIf, ChangesOnlyPagesCache, ServesReplyIf, WritesReply};
ghost use Rattle.archive_pages.specs.Causes.{IsListDataUnreadable, IsRouteDataUnreadable, IsUnreadableOrReaderUnknown, SendsOr503, ServesOr503};
ghost use Rattle.archive_pages.specs.Listings.{list_of_route};
ghost use Rattle.archive_pages.specs.Replies.{IsReplyOr503, mbox_reply, unavailable};
ghost use Rattle.archive_pages.specs.Seen.{model_reply};
ghost use Rattle.archive_pages.specs.Serving.{SendsFromArchive};

use crate::faults::ServeFault;
use crate::finding::{find_lists, find_message};
use crate::listing::{find_listing, find_place};
use crate::pages::Pages;
use crate::replies::{Failure, Reply, Unavailable};
use crate::writing::{write_failure, write_reply};
use archive_cache::{Cache, ViewPart, export_lines};
use archive_desk::DeskError;
use archive_port::ArchiveStore;
use archive_requests::Route;
use archive_results::{Ask, Line, Reader};
use civil_time::Day;
use http::StatusCode;
use mbox_core::device::Sink;
use policy_core::Policy;
use std::alloc::Global;
use thread_core::Threader;

/// The head of an mbox.
const MBOX_HEAD: &[u8] =
    b"HTTP/1.1 200 OK\r\nContent-Type: application/mbox\r\nConnection: close\r\n\r\n";

/// What a reader asks of a list.
fn ask_of<'a>(policy: &'a Policy, reader: Reader<'a>, day: Day, list: &'a str) -> Ask<'a>
    ensures { result ≡ ask_of_reader policy.now day (reader_name reader.entry) list.now }
{
    Ask {
        policy,
        reader,
        list,
        day,
    }
}

/// The list that a route leads to. `None`: all lists.
fn list_of<'p>(route: &Route<'p>) -> Option<&'p str>
    ensures { option_map (λ l. l.now) result ≡ list_of_route (model_route route.now) }
{
    match route {
        Route::Lists => None,
        Route::Message { list, .. } => Some(list),
        Route::Month { list, .. } => Some(list),
        Route::Threads { list } => Some(list),
        Route::Thread { list, .. } => Some(list),
        Route::Author { list, .. } => Some(list),
        Route::Mbox { list } => Some(list),
    }
}

/// The reply of a route, made in memory: a page out of what is kept, or a message. An mbox is not, which is written message by message: of
/// that route it is 404.
fn find_page<'a: 'p, 'p, T: Threader, S: ArchiveStore>(
    store: &mut S,
    pages: &mut Pages<'a, T>,
    reader: Reader<'p>,
    route: &Route<'p>,
) -> Result<Reply<'p>, Unavailable>
    ensures found { FindsReplyIf S.ArchiveState store.old store.new result (IsPagesCacheCoherent pages.old)
        (λ a. reply_unless_mbox a (ask_of_reader pages.old.policy.now pages.old.day (reader_name reader.entry))
        (model_route route.now)) }
    ensures why { EndsFindingReply S.ArchiveState store.old store.new result (IsUnreadableOrReaderUnknown
        (IsRouteDataUnreadable (ask_of_reader pages.old.policy.now pages.old.day (reader_name reader.entry))
        (model_route route.now)) (reader_name reader.entry)) }
    ensures keeps { ChangesOnlyPagesCache S.ArchiveState store.old store.new pages.old pages.new }
    ensures writes_nothing { WritesNothing S.ArchiveState store.old store.new }
{
    let alloc = pages.alloc;
    let Some(list) = list_of(route) else {
        return find_lists(store, alloc);
    };
    let ask = ask_of(pages.policy, reader, pages.day, list);
    match route {
        Route::Message { key, .. } => find_message(store, &mut pages.kept, alloc, &ask, key),
        _ => {
            let threader = pages.threader;
            find_listing(store, &mut pages.kept, alloc, &ask, threader, route)
        }
    }
}

/// Writes the reply that was found, or 503 where none was.
fn write_found<S: ArchiveStore, W: Sink>(
    store: &mut S,
    alloc: Global,
    output: &mut W,
    found: &Result<Reply<'_>, Unavailable>,
) -> Result<StatusCode, ServeFault>
    ensures sent { MatchResult found.now (λ reply. WritesReply W.Sink output.old output.new
        (IsReplyOr503 (model_reply reply)) result)
        (λ _. WritesReply W.Sink output.old output.new (λ reply. reply ≡ unavailable) result) }
    ensures ends { EndsReply W.Sink output.old output.new result }
    ensures counted { MatchResult found.now (λ reply. SendsOr503
        (memory_refusal_count S.ArchiveState store.old) (memory_refusal_count S.ArchiveState store.new)
        (model_reply reply) result)
        (λ _. memory_refusal_count S.ArchiveState store.old ≤ memory_refusal_count S.ArchiveState store.new) }
    ensures leaves { LeavesArchive S.ArchiveState store.old store.new }
    ensures writes_nothing { WritesNothing S.ArchiveState store.old store.new }
{
    match found {
        Ok(reply) => write_reply(store, alloc, output, reply),
        Err(_) => write_failure(output, Failure::Unavailable),
    }
}

/// Answers the messages of a list, as an mbox, one message after the other, by the outline that is kept, or by one that is read and kept:
/// no other message is asked for than those that the reader is shown. No reply but this one ends with the connection, and no other breaks
/// off: S3 where the store refuses behind the first byte, and 503 before it.
fn answer_mbox<T: Threader, S: ArchiveStore, W: Sink>(
    store: &mut S,
    kept: &mut Cache,
    alloc: Global,
    ask: &Ask<'_>,
    threader: &T,
    output: &mut W,
) -> Result<StatusCode, ServeFault>
    ensures sent { ServesReplyIf S.ArchiveState W.Sink store.old store.new output.old output.new result
        (IsCacheCoherentForAsk ask.now kept.old)
        (λ a. list_reply a ask.now (mbox ask.now.list)) }
    ensures ends { EndsReply W.Sink output.old output.new result }
    ensures caused { ServesOr503 S.ArchiveState store.old store.new result
        (IsUnreadableOrReaderUnknown (IsListDataUnreadable ask.now) ask.now.reader) }
    ensures keeps { KeepsCacheCoherent S.ArchiveState store.old store.new ask.now.rules ask.now.day kept.old kept.new }
    ensures writes_nothing { WritesNothing S.ArchiveState store.old store.new }
{
    let place = match find_place(store, kept, alloc, ask, &ViewPart::Whole, threader) {
        Ok(Some(place)) => place,
        Ok(None) => return write_failure(output, Failure::NotFound),
        Err(_) => return write_failure(output, Failure::Unavailable),
    };
    let Some(outline) = kept.outline(place) else {
        return write_failure(output, Failure::Unavailable);
    };
    write_mbox(store, ask, outline.lines(), output)
}

/// Writes the messages of a list by the keys of lines, as an mbox; 503 where the store refuses before the first byte.
fn write_mbox<S: ArchiveStore, W: Sink>(
    store: &mut S,
    ask: &Ask<'_>,
    lines: &[Line],
    output: &mut W,
) -> Result<StatusCode, ServeFault>
    ensures sent { SendsFromArchive S.ArchiveState store.old store.new
        (λ a reply. reply ≡ mbox_reply (mbox_text_of_lines a ask.now.list lines.now))
        (W.told output.old) (W.told output.new) result }
    ensures lasts { StaysOpenUnlessDiskFails S.ArchiveState store.old store.new }
    ensures ends { EndsReply W.Sink output.old output.new result }
    ensures caused { ServesOr503 S.ArchiveState store.old store.new result
        (IsUnreadableOrReaderUnknown (IsListDataUnreadable ask.now) ask.now.reader) }
    ensures writes_nothing { WritesNothing S.ArchiveState store.old store.new }
{
    let stop = match export_lines(store, ask.list, lines, MBOX_HEAD, output) {
        Ok(_) => return Ok(StatusCode::OK),
        Err(stop) => stop,
    };
    let written = stop.written;
    match stop.fault {
        DeskError::Write => Err(ServeFault::Write { written }),
        _ if written > 0 => Err(ServeFault::Broken { written }),
        _ => write_failure(output, Failure::Unavailable),
    }
}

/// Answers what a route leads to: an mbox as it is read, and any other reply once it is made.
pub(crate) fn answer_route<T: Threader, S: ArchiveStore, W: Sink>(
    store: &mut S,
    pages: &mut Pages<'_, T>,
    reader: Reader<'_>,
    route: &Route<'_>,
    output: &mut W,
) -> Result<StatusCode, ServeFault>
    ensures sent { ServesReplyIf S.ArchiveState W.Sink store.old store.new output.old output.new result
        (IsPagesCacheCoherent pages.old)
        (λ a. route_reply a (ask_of_reader pages.old.policy.now pages.old.day (reader_name reader.entry))
        (model_route route.now)) }
    ensures ends { EndsReplyFromPages S.ArchiveState W.Sink store.old store.new output.old output.new result
        (IsUnreadableOrReaderUnknown (IsRouteDataUnreadable
        (ask_of_reader pages.old.policy.now pages.old.day (reader_name reader.entry))
        (model_route route.now)) (reader_name reader.entry))
        pages.old pages.new }
    ensures writes_nothing { WritesNothing S.ArchiveState store.old store.new }
{
    let alloc = pages.alloc;
    match route {
        Route::Mbox { list } => {
            let ask = ask_of(pages.policy, reader, pages.day, list);
            let threader = pages.threader;
            answer_mbox(store, &mut pages.kept, alloc, &ask, threader, output)
        }
        _ => {
            let found = find_page(store, pages, reader, route);
            write_found(store, alloc, output, &found)
        }
    }
}
