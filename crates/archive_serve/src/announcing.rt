//! Saying where the archive listens, and then serving it.
ghost use Rattle.std.specs.Prelude.{◌≡◌, ◌≢◌, ◌≤◌, ◌<◌, Err, IfErr, OnOk};
ghost use Rattle.archive_port.specs.Crashes.{WritesNothing};
ghost use Rattle.archive_listen.specs.Connections.{error_stream_state};
ghost use Rattle.archive_listen.specs.Serving.{ServesAllConnections, ServesFewerConnections, server_state};
ghost use Rattle.archive_serve.specs.Announced.{WritesListeningLine};
ghost use Rattle.archive_serve.specs.Pages.{OnlyCountsRefusal};
ghost use Rattle.archive_serve.specs.Runs.{ServingAnswerLaw};

use crate::faults::ServingError;
use crate::pages::{PageService, ServingContext};
use archive_listen::{BufferedSink, Listener, serve_each};
use archive_port::ArchiveStore;
use itoa::Buffer;
use mbox_core::device::{Sink, write_bytes};
use thread_core::Threader;

/// Writes the line that says where the archive listens, and passes it on. It takes no memory.
fn announce<O: BufferedSink>(port: u16, output: &mut O) -> Result<(), ServingError>
    ensures ok { OnOk result (WritesListeningLine port (O.told output.old) (O.told output.new)
        (O.sent output.new)) }
    ensures write { IfErr result (λ stop. (stop ≡ ServingError.Write)
        × (O.failures output.old < O.failures output.new)) }
{
    let mut digits = Buffer::new();
    let Ok(()) = write_bytes(output, b"listening on 127.0.0.1:") else {
        return Err(ServingError::Write);
    };
    let Ok(()) = write_bytes(output, digits.format(port).as_bytes()) else {
        return Err(ServingError::Write);
    };
    let Ok(()) = write_bytes(output, b"\n") else {
        return Err(ServingError::Write);
    };
    match output.flush() {
        Ok(()) => Ok(()),
        Err(_) => Err(ServingError::Write),
    }
}

/// Says on the output where the archive listens, and then answers `count` connections as `serve_on` does. The listener listens
/// on that port already, and the line is passed on before the first connection is taken.
pub fn serve<T: Threader, S: ArchiveStore, L: Listener, O: BufferedSink, E: Sink>(
    store: &mut S,
    terms: &ServingContext<'_, T>,
    listener: &mut L,
    port: u16,
    count: u32,
    output: &mut O,
    faults: &mut E,
) -> Result<(), ServingError>
    ensures served { OnOk result (WritesListeningLine port (O.told output.old) (O.told output.new)
        (O.sent output.new)
        × ServesAllConnections (ServingAnswerLaw S.ArchiveState terms.now.policy.now terms.now.day store.old store.new) L.accepts L.closes
        (server_state listener.old store.old)
        (error_stream_state E.Sink faults.old) (error_stream_state E.Sink faults.new) count (server_state listener.new store.new)) }

    // At F4 it was said where the archive listens, and fewer connections were answered. At F2 the output failed. At F5 the store counts one
    // more refusal of memory. At F2 and F5 nothing else was touched.
    ensures stopped { result ≡ Err ServingError.Listen
        → WritesListeningLine port (O.told output.old) (O.told output.new) (O.sent output.new)
        × ServesFewerConnections (ServingAnswerLaw S.ArchiveState terms.now.policy.now terms.now.day store.old store.new) L.accepts L.closes
        (server_state listener.old store.old)
        (error_stream_state E.Sink faults.old) (error_stream_state E.Sink faults.new) count (server_state listener.new store.new) }
    ensures untouched { IfErr result (λ stop. stop ≢ ServingError.Listen
        → (listener.new ≡ listener.old) × (faults.new ≡ faults.old)
        × (stop ≡ ServingError.Write → (store.new ≡ store.old) × (O.failures output.old < O.failures output.new))
        × (stop ≡ ServingError.Memory → OnlyCountsRefusal S.ArchiveState store.old store.new × (output.new ≡ output.old))) }
    ensures failures { E.failures faults.old ≤ E.failures faults.new }
    ensures writes_nothing { WritesNothing S.ArchiveState store.old store.new }
{
    let mut service = PageService::new(terms, store)?;
    announce(port, output)?;
    match serve_each(&mut service, store, listener, count, faults) {
        Ok(()) => Ok(()),
        Err(_) => Err(ServingError::Listen),
    }
}
