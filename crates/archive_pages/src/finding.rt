//! What is asked of the store and of the desk.
ghost use Rattle.std.specs.Prelude.{◌≡◌, option_map, string_bytes};
ghost use Rattle.archive_model.specs.Questions.{person_of_token};
ghost use Rattle.archive_port.specs.Crashes.{WritesNothing};
ghost use Rattle.archive_desk.specs.Readable.{AreListsUnreadable, IsTokenHolderUnreadable};
ghost use Rattle.archive_pages.specs.Answers.{lists_reply, reply_for_message};
ghost use Rattle.archive_cache.specs.Coherence.{KeepsCacheCoherent};
ghost use Rattle.archive_pages.specs.Calls.{IsCacheCoherentForAsk, EndsFindingReply, FindsReply, FindsReplyIf};
ghost use Rattle.archive_pages.specs.Causes.{FindsOrHasCause, IsMessageDataUnreadable, IsUnreadableOrReaderUnknown};
ghost use Rattle.archive_pages.specs.Serving.{FindsInArchive};

use crate::replies::{Failure, Reply, Unavailable};
use archive_cache::Cache;
use archive_desk::DeskError;
use archive_html::lists_page;
use archive_port::{ArchiveStore, Key};
use archive_results::{Ask, Asked};
use std::alloc::Global;

/// The name of the person who has a token, if somebody has it.
pub(crate) fn find_person<S: ArchiveStore>(
    store: &mut S,
    token: &str,
) -> Result<Option<String>, Unavailable>
    ensures found { FindsInArchive S.ArchiveState store.old store.new result
        (λ a name. option_map string_bytes name ≡ person_of_token a token.now) }
    ensures caused { FindsOrHasCause S.ArchiveState store.old store.new result
        (λ a. IsTokenHolderUnreadable a token.now) }
    ensures writes_nothing { WritesNothing S.ArchiveState store.old store.new }
{
    match store.person_of_token(token) {
        Ok(name) => Ok(name),
        Err(_) => Err(Unavailable),
    }
}

/// The page of all lists.
pub(crate) fn find_lists<S: ArchiveStore>(
    store: &mut S,
    alloc: Global,
) -> Result<Reply<'static>, Unavailable>
    ensures found { FindsReply S.ArchiveState store.old store.new result lists_reply }
    ensures why { EndsFindingReply S.ArchiveState store.old store.new result AreListsUnreadable }
    ensures writes_nothing { WritesNothing S.ArchiveState store.old store.new }
{
    let names = match store.lists(alloc) {
        Ok(names) => names,
        Err(_) => return Err(Unavailable),
    };
    match lists_page(alloc, &names) {
        Ok(page) => Ok(Reply::Page(page)),
        Err(refused) => {
            store.count_refusal(refused.into());
            Err(Unavailable)
        }
    }
}

/// What a reader gets who asks for a message by its key: a denial out of what is kept of it, or what the store holds.
pub(crate) fn find_message<'p, S: ArchiveStore>(
    store: &mut S,
    kept: &mut Cache,
    alloc: Global,
    ask: &Ask<'p>,
    key: &str,
) -> Result<Reply<'p>, Unavailable>
    ensures found { FindsReplyIf S.ArchiveState store.old store.new result (IsCacheCoherentForAsk ask.entry.now kept.old)
        (reply_for_message ask.entry.now key.now) }
    ensures keeps { KeepsCacheCoherent S.ArchiveState store.old store.new ask.entry.now.rules ask.entry.now.day kept.old kept.new }
    ensures why { EndsFindingReply S.ArchiveState store.old store.new result
        (IsUnreadableOrReaderUnknown (IsMessageDataUnreadable ask.entry.now key.now) ask.entry.now.reader) }
    ensures writes_nothing { WritesNothing S.ArchiveState store.old store.new }
{
    let Some(key) = Key::read(key) else {
        return Ok(Reply::Failed(Failure::NotFound));
    };
    match archive_cache::find_message(store, kept, alloc, ask, &key) {
        Ok(Asked::Served(text)) => Ok(Reply::Message(text)),
        Ok(Asked::Denied(rule)) => Ok(Reply::Forbidden(rule)),
        Ok(Asked::Absent) => Ok(Reply::Failed(Failure::NotFound)),
        Err(fault) => match fault {
            DeskError::NoList => Ok(Reply::Failed(Failure::NotFound)),
            _ => Err(Unavailable),
        },
    }
}
