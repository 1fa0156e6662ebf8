//! A list with the messages of an mbox, of which one is withdrawn, and a request that is answered out of it: over any archive.
ghost use Rattle.std.specs.Prelude.{◌≡◌, IfOk};
ghost use Rattle.archive_desk.specs.Holding.{RelatesTableArchives, RelatesTableArchivesIfOpen};
ghost use Rattle.archive_pages.specs.Calls.{AnswersClient};
ghost use Rattle.archive_port.specs.Told.{StoreHasCleanDisk, HoldsTables, archive_in};
ghost use Rattle.example_memory.specs.Published.{IsPublished};

use archive_desk::{ImportStop, import};
use archive_pages::{Client, ServeFault, answer};
use archive_port::{ArchiveStore, Command, Key, StoreFault};
use civil_time::Day;
use http::StatusCode;
use mbox_core::device::{Sink, Source};
use policy_core::{Policy, WithdrawnBy};
use std::alloc::Global;
use thread_core::Threader;

/// Why nothing was published.
#[derive(Drop)]
pub enum PublishError {
    /// The list was not added, or the message not withdrawn.
    Command(StoreFault),
    /// The import stopped.
    Import(ImportStop),
}

/// Adds a list to an archive, imports an mbox into it, and then withdraws a message of the list for its author. The error has the refusal
/// of the first of these three that failed; the ones before it were carried out.
pub fn publish<A: ArchiveStore>(
    archive: &mut A,
    alloc: Global,
    list: &str,
    mbox: &[u8],
    key: &Key,
) -> Result<(), PublishError>
    ensures { IfOk result (λ _. RelatesTableArchives A.ArchiveState archive.old archive.new
        (λ before after. IsPublished list.now mbox.now key.now before after)) }
{
    if let Err(fault) = archive.carry(&Command::ListAdd { name: list }) {
        return Err(PublishError::Command(fault));
    }
    if let Err(stop) = import(archive, alloc, list, mbox) {
        return Err(PublishError::Import(stop));
    }
    let by = WithdrawnBy::Author;
    match archive.carry(&Command::Withdraw { list, key, by }) {
        Ok(_found) => Ok(()),
        Err(fault) => Err(PublishError::Command(fault)),
    }
}

/// Answers one request as `answer` does: the client is sent the reply of what the archive holds, by the policy and on the day, or 503. S1,
/// S2 and S3 are those of `answer`. The archive stays as it is.
pub fn answer_client<A: ArchiveStore, T: Threader, R: Source, W: Sink>(
    archive: &mut A,
    alloc: Global,
    policy: &Policy,
    threader: &T,
    day: Day,
    client: &mut Client<R, W>,
) -> Result<StatusCode, ServeFault>
    ensures answered { StoreHasCleanDisk A.ArchiveState archive.new → HoldsTables A.ArchiveState archive.old
        → AnswersClient R.Source W.Sink (archive_in A.ArchiveState archive.old) policy.now day client.old client.new result }
    ensures stays { RelatesTableArchivesIfOpen A.ArchiveState archive.old archive.new (λ before after. after ≡ before) }
{
    answer(
        archive,
        alloc,
        policy,
        threader,
        day,
        &mut client.input,
        &mut client.output,
    )
}
