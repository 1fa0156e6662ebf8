//! Answering connections out of a store.
ghost use Rattle.std.specs.Prelude.{◌≡◌, ◌≢◌, ◌≤◌, Err, IfErr, OnOk};
ghost use Rattle.archive_port.specs.Crashes.{WritesNothing};
ghost use Rattle.archive_listen.specs.Connections.{error_stream_state};
ghost use Rattle.archive_listen.specs.Serving.{ServesAllConnections, ServesFewerConnections, server_state};
ghost use Rattle.archive_serve.specs.Pages.{OnlyCountsRefusal};
ghost use Rattle.archive_serve.specs.Runs.{ServingAnswerLaw};

use crate::faults::ServingError;
use crate::pages::{PageService, ServingContext};
use archive_listen::{Listener, serve_each};
use archive_port::ArchiveStore;
use mbox_core::device::Sink;
use thread_core::Threader;

/// Takes `count` connections, one after the other, and answers one request on each as `answer` does, by the policy and on the day,
/// where its tables are an archive's: all out of the archive that it remembers, which stays as it is. What is read of a list for its
/// threads, of a month and of an author is kept for the connections behind, and let go behind the last. A connection that fails is
/// told in one line, S1 to S3, and the next one follows. F4: after fewer, the listener gave no more. F5: the memory of the routes
/// was refused, which the store counts; the archive is as it was, and nothing was written.
pub fn serve_on<T: Threader, S: ArchiveStore, L: Listener, E: Sink>(
    store: &mut S,
    terms: &ServingContext<'_, T>,
    listener: &mut L,
    count: u32,
    faults: &mut E,
) -> Result<(), ServingError>
    ensures served { OnOk result (ServesAllConnections (ServingAnswerLaw S.ArchiveState terms.now.policy.now terms.now.day store.old store.new) L.accepts L.closes
        (server_state listener.old store.old)
        (error_stream_state E.Sink faults.old) (error_stream_state E.Sink faults.new) count (server_state listener.new store.new)) }
    ensures stopped { result ≡ Err ServingError.Listen
        → ServesFewerConnections (ServingAnswerLaw S.ArchiveState terms.now.policy.now terms.now.day store.old store.new) L.accepts L.closes
        (server_state listener.old store.old)
        (error_stream_state E.Sink faults.old) (error_stream_state E.Sink faults.new) count (server_state listener.new store.new) }
    ensures untouched { IfErr result (λ stop. stop ≢ ServingError.Listen → (stop ≡ ServingError.Memory)
        × OnlyCountsRefusal S.ArchiveState store.old store.new × (listener.new ≡ listener.old) × (faults.new ≡ faults.old)) }
    ensures failures { E.failures faults.old ≤ E.failures faults.new }
    ensures writes_nothing { WritesNothing S.ArchiveState store.old store.new }
{
    let mut service = PageService::new(terms, store)?;
    match serve_each(&mut service, store, listener, count, faults) {
        Ok(()) => Ok(()),
        Err(_) => Err(ServingError::Listen),
    }
}
