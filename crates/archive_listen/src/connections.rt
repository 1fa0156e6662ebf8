//! What listens, what answers, and the connections between them.
use crate::faults::{AcceptError, ConnectionError, ListenError};
use byte_device::{DeviceFailure, Sink, Source};

/// What is written to through a buffer.
pub trait BufferedSink: Sink {
    ghost use Rattle.std.specs.Prelude.{◌≡◌, ◌<◌, ℕ, List, OnOk, OnErr};
    ghost use Rattle.archive_listen.specs.Connections.{IsPrefixOf};

    // The bytes that were passed on so far.
    ghost sent: { Self → List ℕ };

    /// Passes on what is held back. A failure leaves a beginning of it passed on.
    fn flush(&mut self) -> Result<(), DeviceFailure>
        ensures told { Self.told self.new ≡ Self.told self.old }
        ensures sent { OnOk result (sent self.new ≡ Self.told self.new) }
        ensures quiet { OnOk result (Self.failures self.new ≡ Self.failures self.old) }
        ensures cause { OnErr result (Self.failures self.old < Self.failures self.new) };

    // They are a beginning of those that it told.
    ghost begins: { (s : Self) → IsPrefixOf (sent s) (Self.told s) };
}

/// A connection with a peer: what is read of it, and what is written to it.
#[derive(Drop)]
pub struct Connection<I, O> {
    /// What the peer sends.
    pub input: I,
    /// What it is sent.
    pub output: O,
}

/// Whatever connections come from, one after the other.
pub trait Listener {
    ghost use Rattle.std.specs.Prelude.{◌≡◌, ◌++◌, List, [], ◌∷◌, Bool, Option, Some, None, IfOk, MatchResult};
    ghost use Rattle.archive_listen.specs.declared.faults.AcceptError.{AcceptError};
    ghost use Rattle.archive_listen.specs.Connections.{Exchange, exchange, connection_transcript, empty_transcript};

    type Input: Source + Drop;

    type Output: BufferedSink + Drop;

    // What went over each connection that it took back, in their order.
    ghost over: { Self → List Exchange };

    // Holds of a listener before it is asked for a connection and after, and of why it gave none.
    ghost accepts: { Self → Self → Option AcceptError → Type 0 };

    // Holds of a listener before it takes a connection back and after, of what went over it, and of whether its reply broke off.
    ghost closes: { Self → Self → Exchange → Bool → Type 0 };

    /// The next connection, over which nothing went yet.
    fn accept(&mut self) -> Result<Connection<Self::Input, Self::Output>, AcceptError>
        ensures untold { IfOk result (λ c. connection_transcript (Self.Input.told c.input)
            (Self.Input.ends c.input) (Self.Input.failures c.input)
            (Self.Output.told c.output) (Self.Output.failures c.output) ≡ empty_transcript) }
        ensures accepts { MatchResult result (λ _. accepts self.old self.new None)
            (λ fault. accepts self.old self.new (Some fault)) };

    /// Takes a connection back and ends it: in order, so that the peer gets all that it was sent, or, where its reply broke off,
    /// so that the peer can tell.
    fn close(&mut self, connection: Connection<Self::Input, Self::Output>, breaks_off: bool)
        ensures closes { closes self.old self.new
            (exchange (Self.Input.told connection.input)
            (Self.Output.sent connection.output)) breaks_off };

    // A connection that is given was not taken back yet.
    ghost accepts_none: { (old new : Self) (fault : Option AcceptError) → accepts old new fault → over new ≡ over old };

    // What went over one that is taken back stands last.
    ghost closes_one: { (old new : Self) (went : Exchange) (broke_off : Bool) → closes old new went broke_off → over new ≡ over old ++ went ∷ [] };
}

/// A listener, and the port that it listens on.
#[derive(Drop)]
pub struct BoundListener<L> {
    /// What gives its peers.
    pub listener: L,
    /// From 1 to 65535.
    pub port: u16,
}

/// Whoever can listen.
pub trait Ports {
    ghost use Rattle.std.specs.Prelude.{◌≡◌, ◌++◌, ℕ, List, [], Result, Ok};
    ghost use Rattle.archive_listen.specs.Connections.{Exchange};
    ghost use Rattle.archive_listen.specs.declared.connections.BoundListener.{BoundListener};
    ghost use Rattle.archive_listen.specs.declared.faults.ListenError.{ListenError};

    type Listener: Listener + Drop;

    // What went over each connection of the listeners that were ended, in their order.
    ghost went: { Self → List Exchange };

    // Holds of the ports before one is asked for and after, of its number, and of what is given.
    ghost listens: { Self → Self → ℕ → Result (BoundListener Self.Listener) ListenError → Type 0 };

    /// Listens on a port; 0 stands for one that the system picks. F4: the port is taken, or may not be used.
    fn listen(&mut self, port: u16) -> Result<BoundListener<Self::Listener>, ListenError>
        ensures { listens self.old self.new port result };

    /// Ends a listener, which gives no more connections.
    fn end(&mut self, listener: Self::Listener)
        ensures { went self.new ≡ went self.old ++ Self.Listener.over listener };

    // A listener that is given took no connection back yet, and no other was ended meanwhile.
    ghost listens_none: { (old new : Self) (port : ℕ) (listening : BoundListener Self.Listener) → listens old new port (Ok listening)
        → (went new ≡ went old) × (Self.Listener.over listening.listener ≡ []) };
}

/// Whatever answers what comes over a connection, out of a state; what it keeps itself may change with each answer.
pub trait Service<St> {
    ghost use Rattle.archive_listen.specs.Connections.{ConnectionTranscript, connection_transcript, ConnectionResult};

    // Holds of the service before and after, of the state before and after, of what the connection told before and after, and
    // of the answer.
    ghost answers: { Self → Self → St → St → ConnectionTranscript → ConnectionTranscript → ConnectionResult → Type 0 };

    /// Answers one request, and tells the status of the reply.
    fn answer<R: Source, W: Sink>(
        &mut self,
        state: &mut St,
        input: &mut R,
        output: &mut W,
    ) -> Result<u16, ConnectionError>
        ensures { answers self.old self.new state.old state.new
            (connection_transcript (R.told input.old) (R.ends input.old) (R.failures input.old)
            (W.told output.old) (W.failures output.old))
            (connection_transcript (R.told input.new) (R.ends input.new) (R.failures input.new)
            (W.told output.new) (W.failures output.new)) result };
}
