//! The answer of a path.
ghost use Rattle.std.specs.Prelude.{◌≡◌, IfOk, IfSome, IsOk, None, Some, option_map};
ghost use Rattle.std.specs.Option.{option_map_or};
ghost use Rattle.archive_requests.specs.Asked.{model_request};
ghost use Rattle.archive_requests.specs.Routes.{route_of};
ghost use Rattle.archive_requests.specs.Routing.{model_route};
ghost use Rattle.archive_port.specs.Crashes.{WritesNothing};
ghost use Rattle.archive_results.specs.Access.{reader_name};
ghost use Rattle.archive_pages.specs.Answers.{pathless_reply, path_reply, reader_of, request_reply, unrouted_reply};
ghost use Rattle.archive_pages.specs.Calls.{IsPagesCacheCoherent, EndsReplyFromPages, ServesReplyIf, WritesReply, WritesReplyIfWanted};
ghost use Rattle.archive_pages.specs.Causes.{IsTokenDataUnreadable, IsPathDataUnreadable, IsRequestDataUnreadable, IsUnreadableOrReaderUnknown};
ghost use Rattle.archive_pages.specs.Replies.{not_found, unauthorized};

use crate::faults::ServeFault;
use crate::finding::find_person;
use crate::pages::Pages;
use crate::replies::Failure;
use crate::routing::answer_route;
use crate::writing::write_failure;
use archive_port::ArchiveStore;
use archive_requests::{Request, Route, Routes, route_of};
use archive_results::Reader;
use http::StatusCode;
use mail_core::Memory;
use mbox_core::device::Sink;
use std::alloc::Global;
use thread_core::Threader;

/// The route of a path, by routes that were made before, which takes no memory, or else by a router that is made for it.
/// `Memory`: the router's was refused.
fn find_route<'p>(
    alloc: Global,
    routes: &Option<Routes>,
    path: &'p str,
) -> Result<Option<Route<'p>>, Memory>
    ensures route { IfOk result (λ route. option_map model_route route ≡ route_of path.now) }
    ensures made { IfSome routes.now (λ _. IsOk result) }
{
    match routes {
        Some(routes) => Ok(routes.find(path)),
        None => route_of(alloc, path),
    }
}

/// Answers a path: 404 where no route leads there.
fn answer_path<T: Threader, S: ArchiveStore, W: Sink>(
    store: &mut S,
    pages: &mut Pages<'_, T>,
    reader: Reader<'_>,
    path: &str,
    output: &mut W,
) -> Result<StatusCode, ServeFault>
    ensures sent { ServesReplyIf S.ArchiveState W.Sink store.old store.new output.old output.new result
        (IsPagesCacheCoherent pages.old)
        (λ a. path_reply a pages.old.policy.now pages.old.day path.now (reader_name reader.entry)) }
    ensures unrouted { IfSome pages.old.routes (λ _. route_of path.now ≡ None
        → WritesReply W.Sink output.old output.new (λ reply. reply ≡ not_found) result) }
    ensures ends { EndsReplyFromPages S.ArchiveState W.Sink store.old store.new output.old output.new result
        (IsUnreadableOrReaderUnknown (IsPathDataUnreadable pages.old.policy.now pages.old.day path.now
        (reader_name reader.entry)) (reader_name reader.entry))
        pages.old pages.new }
    ensures writes_nothing { WritesNothing S.ArchiveState store.old store.new }
{
    match find_route(pages.alloc, &pages.routes, path) {
        Ok(Some(route)) => answer_route(store, pages, reader, &route, output),
        Ok(None) => write_failure(output, Failure::NotFound),
        Err(refused) => {
            store.count_refusal(refused.into());
            write_failure(output, Failure::Unavailable)
        }
    }
}

/// Answers a path to whoever has a token: 401 where nobody has it.
fn answer_holder<T: Threader, S: ArchiveStore, W: Sink>(
    store: &mut S,
    pages: &mut Pages<'_, T>,
    token: &str,
    path: &str,
    output: &mut W,
) -> Result<StatusCode, ServeFault>
    ensures sent { ServesReplyIf S.ArchiveState W.Sink store.old store.new output.old output.new result
        (IsPagesCacheCoherent pages.old)
        (λ a. option_map_or (path_reply a pages.old.policy.now pages.old.day path.now)
        (reader_of a (Some token.now)) unauthorized) }
    ensures ends { EndsReplyFromPages S.ArchiveState W.Sink store.old store.new output.old output.new result
        (IsTokenDataUnreadable pages.old.policy.now pages.old.day token.now path.now)
        pages.old pages.new }
    ensures writes_nothing { WritesNothing S.ArchiveState store.old store.new }
{
    match find_person(store, token) {
        Ok(Some(name)) => answer_path(store, pages, Reader::Person(name.as_str()), path, output),
        Ok(None) => write_failure(output, Failure::Unauthorized),
        Err(_) => write_failure(output, Failure::Unavailable),
    }
}

/// Answers what a request asks for.
pub(crate) fn answer_request<T: Threader, S: ArchiveStore, W: Sink>(
    store: &mut S,
    pages: &mut Pages<'_, T>,
    request: &Request<'_>,
    output: &mut W,
) -> Result<StatusCode, ServeFault>
    ensures sent { ServesReplyIf S.ArchiveState W.Sink store.old store.new output.old output.new result
        (IsPagesCacheCoherent pages.old)
        (λ a. request_reply a pages.old.policy.now pages.old.day (model_request request.now)) }
    ensures direct { WritesReplyIfWanted W.Sink output.old output.new
        (pathless_reply (model_request request.now)) result }
    ensures unrouted { IfSome pages.old.routes
        (λ _. WritesReplyIfWanted W.Sink output.old output.new
        (unrouted_reply (model_request request.now)) result) }
    ensures ends { EndsReplyFromPages S.ArchiveState W.Sink store.old store.new output.old output.new result
        (IsRequestDataUnreadable pages.old.policy.now pages.old.day (model_request request.now))
        pages.old pages.new }
    ensures writes_nothing { WritesNothing S.ArchiveState store.old store.new }
{
    match request {
        Request::Bad => write_failure(output, Failure::BadRequest),
        Request::OtherMethod => write_failure(output, Failure::NotAllowed),
        Request::Unauthorized => write_failure(output, Failure::Unauthorized),
        Request::Asks { token: None, path } => {
            answer_path(store, pages, Reader::Nobody, path, output)
        }
        Request::Asks {
            token: Some(token),
            path,
        } => answer_holder(store, pages, token, path, output),
    }
}
