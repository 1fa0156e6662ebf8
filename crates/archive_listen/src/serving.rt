//! Answering connections one after the other.
ghost use Rattle.std.specs.Prelude.{◌≡◌, ◌≤◌, Some, IfOk, OnOk, OnErr};
ghost use Rattle.archive_listen.specs.declared.faults.AcceptError.TheVariants as accepting;
ghost use Rattle.archive_listen.specs.Connections.{WritesOutcomeLine, connection_transcript, is_reply_incomplete, error_stream_state};
ghost use Rattle.archive_listen.specs.Serving.{AnswersConnection, ServesAllConnections, ServesFewerConnections, ServesOneConnection, running_service, service_answer_law, server_state};

use crate::connections::{BufferedSink, Connection, Listener, Service};
use crate::faults::{AcceptError, ConnectionError, ListenError};
use byte_device::{Sink, Source, write_bytes};

/// One answer on a connection, which is passed on to its peer whole. S2 where that fails.
fn answer_connection<St, V: Service<St>, I: Source, O: BufferedSink>(
    service: &mut V,
    state: &mut St,
    connection: &mut Connection<I, O>,
) -> Result<u16, ConnectionError>
    ensures { AnswersConnection (service_answer_law V.answers) (running_service service.old state.old)
        (running_service service.new state.new)
        (connection_transcript (I.told connection.old.input) (I.ends connection.old.input)
        (I.failures connection.old.input)
        (O.told connection.old.output) (O.failures connection.old.output))
        (connection_transcript (I.told connection.new.input) (I.ends connection.new.input)
        (I.failures connection.new.input)
        (O.told connection.new.output) (O.failures connection.new.output))
        (O.sent connection.new.output) result }
{
    let status = service.answer(state, &mut connection.input, &mut connection.output)?;
    match connection.output.flush() {
        Ok(()) => Ok(status),
        Err(_) => Err(ConnectionError::Write),
    }
}

/// Whether a reply broke off: behind S2 and S3.
fn breaks_off(outcome: &Result<u16, ConnectionError>) -> bool
    ensures { result ≡ is_reply_incomplete outcome.now }
{
    match outcome {
        Ok(_) | Err(ConnectionError::Read) => false,
        Err(ConnectionError::Write | ConnectionError::Broken) => true,
    }
}

/// Takes the next connection, answers it once, and gives it back. A peer that is gone by then is S1. F4: there is no
/// next one.
fn serve_next<St, V: Service<St>, L: Listener>(
    service: &mut V,
    state: &mut St,
    listener: &mut L,
) -> Result<Result<u16, ConnectionError>, ListenError>
    ensures served { IfOk result (λ outcome. ServesOneConnection (service_answer_law V.answers) L.accepts L.closes outcome
        (server_state listener.old (running_service service.old state.old))
        (server_state listener.new (running_service service.new state.new))) }
    ensures stopped { OnErr result ((running_service service.new state.new ≡ running_service service.old state.old)
        × L.accepts listener.old listener.new (Some accepting.Listener)) }
{
    let mut connection = match listener.accept() {
        Ok(connection) => connection,
        Err(AcceptError::Peer) => return Ok(Err(ConnectionError::Read)),
        Err(AcceptError::Listener) => return Err(ListenError),
    };
    let outcome = answer_connection(service, state, &mut connection);
    listener.close(connection, breaks_off(&outcome));
    Ok(outcome)
}

/// Tells a fault in one line, and a reply in none.
fn tell_outcome<E: Sink>(faults: &mut E, outcome: &Result<u16, ConnectionError>)
    ensures told { WritesOutcomeLine outcome.now (error_stream_state E.Sink faults.old) (error_stream_state E.Sink faults.new) }
    ensures failures { E.failures faults.old ≤ E.failures faults.new }
{
    if let Err(fault) = outcome {
        let _ = write_bytes(faults, fault.line());
    }
}

/// Takes `count` connections, one after the other, and answers each once; a fault of a connection is told in one line, and the
/// next connection follows. F4: after fewer, the listener gave no more.
pub fn serve_each<St, V: Service<St>, L: Listener, E: Sink>(
    service: &mut V,
    state: &mut St,
    listener: &mut L,
    count: u32,
    faults: &mut E,
) -> Result<(), ListenError>
    ensures served { OnOk result (ServesAllConnections (service_answer_law V.answers) L.accepts L.closes
        (server_state listener.old (running_service service.old state.old))
        (error_stream_state E.Sink faults.old) (error_stream_state E.Sink faults.new) count
        (server_state listener.new (running_service service.new state.new))) }
    ensures stopped { OnErr result (ServesFewerConnections (service_answer_law V.answers) L.accepts L.closes
        (server_state listener.old (running_service service.old state.old))
        (error_stream_state E.Sink faults.old) (error_stream_state E.Sink faults.new) count
        (server_state listener.new (running_service service.new state.new))) }
    ensures failures { E.failures faults.old ≤ E.failures faults.new }
{
    let mut taken = 0;
    while taken < count {
        let outcome = match serve_next(service, state, listener) {
            Ok(outcome) => outcome,
            Err(fault) => return Err(fault),
        };
        tell_outcome(faults, &outcome);
        taken += 1;
    }
    Ok(())
}
