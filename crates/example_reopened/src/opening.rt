//! Opening files of whatever version, and a request to them.
ghost use Rattle.std.specs.Prelude.{◌≡◌, None, IfOk, IfErr, IsTrue};
ghost use Rattle.archive_pages.specs.Calls.{AnswersClient};
ghost use Rattle.archive_port.specs.Replies.{refusal_of_fault};
ghost use Rattle.example_reopened.specs.Opening.{EndsAnswerAfterOpening, IsTrueOfArchiveInFiles, IsTrueOfArchiveByCommands};

use crate::reopening::open;
use archive_pages::{Client, ServeFault, answer};
use archive_store::{Store, StoreFault};
use civil_time::Day;
use http::StatusCode;
use mbox_core::device::{Sink, Source};
use policy_core::Policy;
use sqlite::{FileStore, Files, Options};
use sqlite_disk::Disk;
use std::alloc::Global;
use thread_core::Threader;

/// Opens the files of an archive, of whatever version, 1 to 3, and answers one request as `answer` does: the reply is of the archive
/// that the files held, or 503. Those of an older version are brought over on the way. E14 or E15 where the files were not opened:
/// then nothing was read and nothing was written.
pub fn open_and_answer<D: Disk + Drop, T: Threader, R: Source, W: Sink>(
    alloc: Global,
    files: Files<D>,
    options: Options,
    policy: &Policy,
    threader: &T,
    day: Day,
    peer: &mut Client<R, W>,
) -> Result<(Store<FileStore<D>>, Result<StatusCode, ServeFault>), StoreFault>
    requires log { IsTrue (D.Disk.is_usable files.log) }
    requires db { IsTrue (D.Disk.is_usable files.db) }
    ensures answered { IfOk result (λ told. IsTrueOfArchiveInFiles files told.0
        (λ archive. AnswersClient R.Source W.Sink archive policy.now day peer.old peer.new told.1)) }
    ensures commanded { IfOk result (λ told. IsTrueOfArchiveByCommands files told.0
        (λ archive. AnswersClient R.Source W.Sink archive policy.now day peer.old peer.new told.1)) }
    ensures ends { IfOk result (λ told. EndsAnswerAfterOpening files told.0 R.Source W.Sink peer.old peer.new told.1) }
    ensures stopped { IfErr result (λ fault. (refusal_of_fault fault ≡ None) × (peer.new ≡ peer.old)) }
{
    let mut store = open(alloc, files, options)?;
    let answered = answer(
        &mut store,
        alloc,
        policy,
        threader,
        day,
        &mut peer.input,
        &mut peer.output,
    );
    Ok((store, answered))
}
