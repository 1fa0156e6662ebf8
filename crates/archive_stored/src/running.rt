//! Commands one after the other, and then a request: the reply is of the archive that the machine
//! makes by the commands.
ghost use Rattle.std.specs.Prelude.{◌≡◌, None, map, IfOk, IfErr, OnOk};
ghost use Rattle.archive_model.specs.Runs.{run};
ghost use Rattle.archive_tables.specs.Making.{empty_archive};
ghost use Rattle.archive_port.specs.Replies.{refusal_of_fault};
ghost use Rattle.archive_port.specs.Commands.{spec_command};
ghost use Rattle.archive_store.specs.Told.{HoldsTables, archive_in, StoreHasCleanDisk};
ghost use Rattle.archive_pages.specs.Calls.{AnswersClient, ClientMeetsNoFailure, HasClientFaultCause};

use archive_pages::{Client, ServeFault, answer};
use archive_store::{Command, CommandRunError, Store, StoreFault};
use civil_time::Day;
use http::StatusCode;
use mbox_core::device::{Sink, Source};
use policy_core::Policy;
use sqlite::Alter;
use std::alloc::Global;
use thread_core::Threader;

/// Carries commands out as `Store::run` does, which goes on after a refused command, and then answers
/// one request as `answer` does: with the status of the reply, or S1, S2 or S3. If the run stopped, for
/// E14 or E15, that is the error, and nothing was read and nothing was written.
pub fn run_and_answer<T: Threader, S: Alter, R: Source, W: Sink>(
    store: &mut Store<S>,
    alloc: Global,
    commands: &[Command<'_>],
    policy: &Policy,
    threader: &T,
    day: Day,
    peer: &mut Client<R, W>,
) -> Result<Result<StatusCode, ServeFault>, CommandRunError>
    ensures answered { IfOk result (λ answer. StoreHasCleanDisk S.Store store.new
        → HoldsTables S.Store store.old → AnswersClient R.Source W.Sink
        (run (archive_in S.Store store.old) (map spec_command commands.entry.now)).archive policy.now day peer.old peer.new answer) }
    ensures quiet { IfOk result (λ answer. OnOk answer
        (ClientMeetsNoFailure R.Source W.Sink peer.old peer.new)) }
    ensures cause { IfOk result (λ answer. IfErr answer
        (λ fault. HasClientFaultCause R.Source W.Sink peer.old peer.new fault)) }
    ensures stopped { IfErr result (λ stop. (refusal_of_fault stop.fault ≡ None) × (peer.new ≡ peer.old)) }
{
    match store.run(alloc, commands) {
        Ok(_outcomes) => Ok(answer(
            store,
            alloc,
            policy,
            threader,
            day,
            &mut peer.input,
            &mut peer.output,
        )),
        Err(stop) => Err(stop),
    }
}

/// Carries commands out in an empty store in memory, and then answers one request as
/// `run_and_answer` does. If the store was not opened or the run stopped, for E14 or E15, that is the
/// error, and nothing was read and nothing was written.
pub fn run_and_answer_in_memory<T: Threader, R: Source, W: Sink>(
    alloc: Global,
    commands: &[Command<'_>],
    policy: &Policy,
    threader: &T,
    day: Day,
    peer: &mut Client<R, W>,
) -> Result<Result<StatusCode, ServeFault>, StoreFault>
    ensures answered { IfOk result (λ answer. AnswersClient R.Source W.Sink
        (run empty_archive (map spec_command commands.entry.now)).archive policy.now day peer.old peer.new answer) }
    ensures quiet { IfOk result (λ answer. OnOk answer
        (ClientMeetsNoFailure R.Source W.Sink peer.old peer.new)) }
    ensures cause { IfOk result (λ answer. IfErr answer
        (λ fault. HasClientFaultCause R.Source W.Sink peer.old peer.new fault)) }
    ensures stopped { IfErr result (λ fault. (refusal_of_fault fault ≡ None) × (peer.new ≡ peer.old)) }
{
    let mut store = Store::open_in_memory(alloc)?;
    match run_and_answer(&mut store, alloc, commands, policy, threader, day, peer) {
        Ok(answer) => Ok(answer),
        Err(stop) => Err(stop.fault),
    }
}
