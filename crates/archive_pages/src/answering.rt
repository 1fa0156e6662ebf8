//! Answering a request: from the bytes of its head to the bytes of the reply.
ghost use Rattle.std.specs.Prelude.{◌≡◌, ◌++◌, ⊤, ℕ, List, OnOk, IfErr, IfSome};
ghost use Rattle.httparse.specs.Grammar.{HasNoRequest};
ghost use Rattle.archive_port.specs.Crashes.{WritesNothing};
ghost use Rattle.archive_desk.specs.Holding.{RelatesTableArchives};
ghost use Rattle.archive_requests.specs.Reading.{IsRequestReadOfInput};
ghost use Rattle.archive_pages.specs.Answered.{AnswersRequestFromStore, IfAnsweredOrUnread, IsAnsweredFromStore, Sends404IfUnrouted, ReadsRequestInput};
ghost use Rattle.archive_pages.specs.Calls.{IsPagesCacheCoherent, EndsAnswer, EndsReplyFromPages, ChangesOnlyPagesCache};
ghost use Rattle.archive_pages.specs.Causes.{IsReadRequestDataUnreadable, IsInputDataUnreadable, ServesOr503};
ghost use Rattle.archive_pages.specs.KeptServing.{IsTrueOfRememberedArchive};
ghost use Rattle.archive_pages.specs.Replies.{HasServeFaultCause};
ghost use Rattle.archive_pages.specs.Serving.{StoreKeepsArchive};

use crate::faults::ServeFault;
use crate::pages::Pages;
use crate::paths::answer_request;
use crate::replies::Failure;
use crate::writing::write_failure;
use archive_cache::Cache;
use archive_port::ArchiveStore;
use archive_requests::{MOST_BYTES, RequestRead, read_request};
use civil_time::Day;
use http::StatusCode;
use mbox_core::device::{Sink, Source};
use policy_core::Policy;
use std::alloc::Global;
use thread_core::Threader;

/// Answers what was read of a request.
fn answer_read<T: Threader, S: ArchiveStore, W: Sink>(
    store: &mut S,
    pages: &mut Pages<'_, T>,
    read: &RequestRead<'_>,
    output: &mut W,
) -> Result<StatusCode, ServeFault>
    ensures answered { IsTrueOfRememberedArchive S.ArchiveState store.old store.new (IsPagesCacheCoherent pages.old)
        → (given more : List ℕ) → IsRequestReadOfInput given (given ++ more) read.now
        → IsAnsweredFromStore S.ArchiveState store.old store.new pages.old.policy.now pages.old.day given
        (given ++ more)
        (W.told output.old) (W.told output.new) result }
    ensures unrouted { IfSome pages.old.routes
        (λ _. (given more : List ℕ) → IsRequestReadOfInput given (given ++ more) read.now
        → Sends404IfUnrouted (given ++ more) (W.told output.old) (W.told output.new) result) }
    ensures stays { StoreKeepsArchive S.ArchiveState store.old store.new result }
    ensures ends { EndsReplyFromPages S.ArchiveState W.Sink store.old store.new output.old output.new result
        (IsReadRequestDataUnreadable pages.old.policy.now pages.old.day read.now) pages.old pages.new }
    ensures writes_nothing { WritesNothing S.ArchiveState store.old store.new }
{
    match read {
        RequestRead::Whole(request) => answer_request(store, pages, request, output),
        RequestRead::Malformed => write_failure(output, Failure::BadRequest),
        RequestRead::TooLarge => write_failure(output, Failure::HeadTooLarge),
    }
}

/// Answers one request as `answer` does, out of what is kept where it can, and keeps the outline of a list that it reads for
/// threads, of a month and of an author. What is kept has to be of what the store remembers, this policy and this day: then the reply is the one of `answer`,
/// and what is kept stays so. Nothing is kept at first (`Cache::new`), and only this call may change it. With routes a head without
/// a token that asks for a path that no route fits gets 404 and nothing else; without them a router is made where the path is looked
/// at, which is 503 where there is no memory for it.
pub fn answer_cached<T: Threader, S: ArchiveStore, R: Source, W: Sink>(
    store: &mut S,
    pages: &mut Pages<'_, T>,
    input: &mut R,
    output: &mut W,
) -> Result<StatusCode, ServeFault>
    ensures answered { IsTrueOfRememberedArchive S.ArchiveState store.old store.new (IsPagesCacheCoherent pages.old)
        → AnswersRequestFromStore S.ArchiveState store.old store.new pages.old.policy.now pages.old.day
        (R.told input.old) (R.told input.new) (R.ends input.old) (R.ends input.new)
        (W.told output.old) (W.told output.new) result }
    ensures unrouted { IfSome pages.old.routes (λ _. IfAnsweredOrUnread result
        (ReadsRequestInput (R.told input.old) (R.told input.new) (R.ends input.old) (R.ends input.new)
        (λ given all. Sends404IfUnrouted all (W.told output.old) (W.told output.new) result)) ⊤) }
    ensures keeps { ChangesOnlyPagesCache S.ArchiveState store.old store.new pages.old pages.new }
    ensures ends { EndsAnswer S.ArchiveState R.Source W.Sink store.old store.new input.old input.new output.old output.new result }
    ensures caused { ServesOr503 S.ArchiveState store.old store.new result (IsInputDataUnreadable
        (R.told input.old) (R.told input.new) pages.old.policy.now pages.old.day) }
{
    let mut buffer = [0; MOST_BYTES];
    let Ok(read) = read_request(input, &mut buffer) else {
        return Err(ServeFault::Read);
    };
    answer_read(store, pages, &read, output)
}

/// Answers one request: reads its head from `input`, writes the reply to `output`, and answers the status of the reply, which went
/// out whole. The store remembers the same archive if it is still open; if it was open, it still is after any status but 503, and
/// the next request can follow. S1 if the input failed before it told a head: nothing was written. S2 if the output failed. If
/// memory or the database refuses before the first byte of the reply, the reply is 503; S3 if it refuses later, as it can in an
/// mbox, which is written message by message. After S2 and S3 exactly the first bytes of the reply went out, as many as they count.
pub fn answer<T: Threader, S: ArchiveStore, R: Source, W: Sink>(
    store: &mut S,
    alloc: Global,
    policy: &Policy,
    threader: &T,
    day: Day,
    input: &mut R,
    output: &mut W,
) -> Result<StatusCode, ServeFault>
    ensures answered { IfAnsweredOrUnread result
        (ReadsRequestInput (R.told input.old) (R.told input.new) (R.ends input.old) (R.ends input.new)
        (λ given all. IsAnsweredFromStore S.ArchiveState store.old store.new policy.now day given all
        (W.told output.old) (W.told output.new) result))
        ((given : List ℕ) × (R.told input.new ≡ R.told input.old ++ given) × HasNoRequest given
        × (W.told output.new ≡ W.told output.old)
        × RelatesTableArchives S.ArchiveState store.old store.new (λ a b. b ≡ a)) }
    ensures ends { EndsAnswer S.ArchiveState R.Source W.Sink store.old store.new input.old input.new output.old output.new result }
    ensures caused { ServesOr503 S.ArchiveState store.old store.new result (IsInputDataUnreadable
        (R.told input.old) (R.told input.new) policy.now day) }
{
    let mut pages = Pages {
        alloc,
        policy,
        threader,
        day,
        routes: None,
        kept: Cache::new(alloc, 0),
    };
    answer_cached(store, &mut pages, input, output)
}
