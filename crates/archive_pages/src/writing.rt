//! Writing a reply.
ghost use Rattle.std.specs.Prelude.{◌≡◌, IfOk, string_bytes};
ghost use Rattle.archive_port.specs.Crashes.{WritesNothing};
ghost use Rattle.archive_port.specs.Told.{LeavesArchive, memory_refusal_count};
ghost use Rattle.archive_pages.specs.Calls.{EndsReplyMadeInMemory, EndsReply, WritesReply};
ghost use Rattle.archive_pages.specs.Replies.{head_bytes, reply_with_length, forbidden, IsReplyOr503};
ghost use Rattle.archive_pages.specs.Seen.{failure_reply, model_reply};

use crate::faults::ServeFault;
use crate::replies::{Failure, Reply};
use archive_port::ArchiveStore;
use http::StatusCode;
use mbox_core::device::{Sink, write_bytes, write_two_slices};
use std::alloc::{AllocError, Global};

/// Writes a reply that no request changes. It takes no memory.
pub(crate) fn write_failure<W: Sink>(
    output: &mut W,
    failure: Failure,
) -> Result<StatusCode, ServeFault>
    ensures sent { WritesReply W.Sink output.old output.new (λ r. r ≡ failure_reply failure) result }
    ensures ends { EndsReply W.Sink output.old output.new result }
{
    write_bytes(output, failure.reply())?;
    Ok(failure.status())
}

/// The head of a reply whose length it tells.
fn sized_head(
    alloc: Global,
    status: StatusCode,
    content_type: &str,
    body: &[u8],
) -> Result<String, AllocError>
    ensures { IfOk result (λ head. string_bytes head ≡ head_bytes
        (reply_with_length status content_type.now body.now)) }
{
    let length = body.len();
    format!(in alloc;
        "HTTP/1.1 {status}\r\nContent-Type: {content_type}\r\nContent-Length: {length}\r\nConnection: close\r\n\r\n"
    )
}

/// Writes a reply whose length its head tells. Where there is no memory for its head, 503 goes out
/// in its place.
fn write_sized<S: ArchiveStore, W: Sink>(
    store: &mut S,
    alloc: Global,
    output: &mut W,
    status: StatusCode,
    content_type: &str,
    body: &[u8],
) -> Result<StatusCode, ServeFault>
    ensures sent { WritesReply W.Sink output.old output.new
        (IsReplyOr503 (reply_with_length status content_type.now body.now)) result }
    ensures ends { EndsReplyMadeInMemory W.Sink output.old output.new
        (memory_refusal_count S.ArchiveState store.old) (memory_refusal_count S.ArchiveState store.new)
        (reply_with_length status content_type.now body.now) result }
    ensures leaves { LeavesArchive S.ArchiveState store.old store.new }
    ensures writes_nothing { WritesNothing S.ArchiveState store.old store.new }
{
    let head = match sized_head(alloc, status, content_type, body) {
        Ok(head) => head,
        Err(refused) => {
            store.count_refusal(refused.into());
            return write_failure(output, Failure::Unavailable);
        }
    };
    match write_two_slices(output, head.as_bytes(), body) {
        Ok(()) => Ok(status),
        Err(fault) => Err(ServeFault::from(fault)),
    }
}

/// Writes the denial of a message by a rule.
fn write_denial<S: ArchiveStore, W: Sink>(
    store: &mut S,
    alloc: Global,
    output: &mut W,
    rule: &str,
) -> Result<StatusCode, ServeFault>
    ensures sent { WritesReply W.Sink output.old output.new (IsReplyOr503 (forbidden rule.now)) result }
    ensures ends { EndsReplyMadeInMemory W.Sink output.old output.new
        (memory_refusal_count S.ArchiveState store.old) (memory_refusal_count S.ArchiveState store.new)
        (forbidden rule.now) result }
    ensures leaves { LeavesArchive S.ArchiveState store.old store.new }
    ensures writes_nothing { WritesNothing S.ArchiveState store.old store.new }
{
    let status = StatusCode::FORBIDDEN;
    match format!(in alloc; "{status}: {rule}\n") {
        Ok(body) => write_sized(
            store,
            alloc,
            output,
            status,
            "text/plain; charset=us-ascii",
            body.as_bytes(),
        ),
        Err(refused) => {
            store.count_refusal(refused.into());
            write_failure(output, Failure::Unavailable)
        }
    }
}

/// Writes a reply, and answers its status. Where there is no memory for its head, 503 goes out in
/// its place. Where the writer fails, exactly the first `written` bytes went out.
pub(crate) fn write_reply<S: ArchiveStore, W: Sink>(
    store: &mut S,
    alloc: Global,
    output: &mut W,
    reply: &Reply<'_>,
) -> Result<StatusCode, ServeFault>
    ensures sent { WritesReply W.Sink output.old output.new (IsReplyOr503 (model_reply reply.now)) result }
    ensures ends { EndsReplyMadeInMemory W.Sink output.old output.new
        (memory_refusal_count S.ArchiveState store.old) (memory_refusal_count S.ArchiveState store.new)
        (model_reply reply.now) result }
    ensures leaves { LeavesArchive S.ArchiveState store.old store.new }
    ensures writes_nothing { WritesNothing S.ArchiveState store.old store.new }
{
    match reply {
        Reply::Page(page) => write_sized(
            store,
            alloc,
            output,
            StatusCode::OK,
            "text/html; charset=us-ascii",
            page,
        ),
        Reply::Message(text) => write_sized(
            store,
            alloc,
            output,
            StatusCode::OK,
            "message/rfc822",
            text,
        ),
        Reply::Forbidden(rule) => write_denial(store, alloc, output, rule),
        Reply::Failed(failure) => write_failure(output, *failure),
    }
}
