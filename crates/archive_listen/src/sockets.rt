//! Connections over the loopback interface.
ghost use Rattle.std.specs.Prelude.{◌≡◌, ◌≤◌, ◌+◌, ◌++◌, [], ◌∷◌, ◌↔◌, length, take, true, Some, None, Ok, IfOk, IfSome, IsNone, IsTrue, MatchResult};
ghost use Rattle.std.specs.Net.Socket.{socket_port};
ghost use Rattle.byte_device.specs.Device.{ends_met_by_read, failures_of_read, failures_of_write};
ghost use Rattle.std.specs.Duration.{as_nanos};
ghost use Rattle.archive_listen.specs.Asking.{accept_error_of_kind};
ghost use Rattle.archive_listen.specs.Connections.{exchange, connection_transcript, empty_transcript};
ghost use Rattle.archive_listen.specs.Streams.{DrainsOrResets};
ghost use Rattle.archive_listen.specs.Sockets.{IsBoundAddress, IsHeadTimeLimit, IsReplyTimeLimit, ListensOnLoopback, RefusesAddress, RefusesPort, graceful_closes_after, nothing_read, nothing_written};

use crate::asking::{Asked, Given};
use crate::connections::{BoundListener, Connection, Listener, Ports};
use crate::exchanges::Exchanges;
use crate::faults::{AcceptError, ListenError};
use crate::gathered::{ROOM, WriteBuffer};
use crate::handles::StreamHandle;
use crate::open::StillOpen;
use crate::peeked::Peeked;
use crate::streams::{Ends, Reading};
use crate::system::HasPorts;
use crate::waiting::{Span, Timed, Waited};
use byte_device::{DeviceFailure, Sink, Source, Transcript};
use std::alloc::Global;
use std::io::{ErrorKind, Read, Write};
use std::marker::Model;
use std::net::{IpAddr, Ipv4Addr, Net, OpenStream, SocketAddr};
use std::rt::Clock;
use std::time::{Duration, Instant};

/// How long the first byte of a request may take, in seconds: browsers open connections in advance that say nothing.
const FIRST_SECONDS: u64 = 2;

/// How long the next bytes may take, in seconds.
const NEXT_SECONDS: u64 = 5;

/// How long the whole head may take, in seconds.
const HEAD_SECONDS: u64 = 10;

/// How long one write may take, in seconds.
const WRITE_SECONDS: u64 = 30;

/// How long a whole reply may take from its first write on, in seconds, before any of it was written.
const REPLY_SECONDS: u64 = 30;

/// How many bytes of a reply, once written, give the whole of it one second more.
const BYTES_A_SECOND: u64 = 1_000_000;

/// How long a peer that sends more than its head is read on, in seconds.
const LINGER_SECONDS: u64 = 1;

/// How many bytes are read on at most.
const LINGER_BYTES: usize = 1_048_576;

/// What is read of a peer, within the times that a request may take. A read past them fails. What the last read told stays in the
/// socket, so that the system resets the connection if it is closed before its end.
#[derive(Drop)]
pub struct DeadlineReader<'a, R, S> {
    stream: Peeked<'a, R, StreamHandle<S>>,
    begun: bool,
    ends: Transcript,
    faults: Transcript,
}

impl<'a, R, S> Model for DeadlineReader<'a, R, S> {
    ghost use Rattle.std.specs.Prelude.{◌≤◌, ◌*◌, length};
    ghost use Rattle.archive_listen.specs.Sockets.{InputState};

    ghost Value = { InputState };

    ghost view = { λ i. record {
      since = i.stream.stream.since;
      told = i.stream.stream.stream.given;
      failures = length i.faults.bytes;
      ends = length i.ends.bytes;
      latest = i.stream.stream.latest;
    } };

    ghost invariant = { λ i. i.stream.stream.latest ≤ 10 * 1_000_000_000 };
}

impl<'a, R: Clock, S: Read + OpenStream> DeadlineReader<'a, R, S> {
    /// Nothing was read yet. The time that a request may take begins.
    fn new(clock: &'a R, stream: StreamHandle<S>, since: Instant) -> DeadlineReader<'a, R, S>
        ensures { result ≡ nothing_read since }
    {
        DeadlineReader {
            stream: Peeked::new(Timed::new(clock, stream, Some(since))),
            begun: false,
            ends: Transcript::new(),
            faults: Transcript::new(),
        }
    }
}

/// The time that the next bytes of a request may take.
fn head_span(begun: bool) -> Span
    ensures { IsHeadTimeLimit begun result }
{
    let most = if begun { NEXT_SECONDS } else { FIRST_SECONDS };
    Span {
        whole: Duration::from_secs(HEAD_SECONDS),
        most: Duration::from_secs(most),
    }
}

impl<'a, R: Clock, S: Read + OpenStream> Source for DeadlineReader<'a, R, S> {
    ghost told = { λ i. i.told };

    ghost failures = { λ i. i.failures };

    ghost ends = { λ i. i.ends };

    fn read(&mut self, buffer: &mut [u8]) -> Result<usize, DeviceFailure>
        ensures count { IfOk result (λ n. n ≤ length buffer.old) }
        ensures bytes { MatchResult result (λ n. self.new.told ≡ self.old.told ++ take n buffer.new)
            (λ _. self.new.told ≡ self.old.told) }
        ensures faults { self.new.failures ≡ self.old.failures + failures_of_read result }
        ensures end { self.new.ends ≡ self.old.ends + ends_met_by_read buffer.old result }
        ensures since { IfSome self.old.since (λ at. self.new.since ≡ Some at) }
    {
        match self.stream.look_on(head_span(self.begun), buffer) {
            Ok(count) => {
                self.begun = true;
                if count == 0 && !buffer.is_empty() {
                    self.ends.note(&[0]);
                }
                Ok(count)
            }
            Err(failure) => {
                self.faults.note(&[0]);
                Err(failure)
            }
        }
    }
}

/// The time that the next write of a reply may take, of which so many bytes were written.
fn reply_span(written: u64) -> Span
    ensures { IsReplyTimeLimit written result }
{
    let whole = REPLY_SECONDS + written / BYTES_A_SECOND;
    Span {
        whole: Duration::from_secs(whole),
        most: Duration::from_secs(WRITE_SECONDS),
    }
}

/// What is written to a peer, within the times that a reply may take. A write past them fails.
#[derive(Drop)]
pub struct DeadlineWriter<'a, R, S> {
    stream: Timed<'a, R, StreamHandle<S>>,
    written: u64,
    faults: Transcript,
}

impl<'a, R, S> Model for DeadlineWriter<'a, R, S> {
    ghost use Rattle.std.specs.Prelude.{◌≤◌, ◌*◌, length};
    ghost use Rattle.archive_listen.specs.Sockets.{OutputState, reply_seconds};

    ghost Value = { OutputState };

    ghost view = { λ o. record {
      told = o.stream.stream.took;
      failures = length o.faults.bytes;
      latest = o.stream.latest;
    } };

    ghost invariant = { λ o. (o.written ≤ length o.stream.stream.took)
        × (o.stream.latest ≤ reply_seconds o.written * 1_000_000_000) };
}

impl<'a, R: Clock, S: Write + OpenStream> DeadlineWriter<'a, R, S> {
    /// Nothing was written yet.
    fn new(clock: &'a R, stream: StreamHandle<S>) -> DeadlineWriter<'a, R, S>
        ensures { result ≡ nothing_written }
    {
        DeadlineWriter {
            stream: Timed::new(clock, stream, None),
            written: 0,
            faults: Transcript::new(),
        }
    }
}

impl<'a, R: Clock, S: Write + OpenStream> Sink for DeadlineWriter<'a, R, S> {
    ghost told = { λ o. o.told };

    ghost failures = { λ o. o.failures };

    fn write(&mut self, bytes: &[u8]) -> Result<usize, DeviceFailure> {
        match self.stream.write_within(reply_span(self.written), bytes) {
            Ok(count) => {
                if count == 0 && !bytes.is_empty() {
                    self.faults.note(&[0]);
                }
                self.written = self.written.saturating_add(count as u64);
                Ok(count)
            }
            Err(failure) => {
                self.faults.note(&[0]);
                Err(failure)
            }
        }
    }
}

/// Reads and drops what comes of a peer that sends more than its head, for a while. How long its waits could take.
fn read_on<R: Clock, S: Read + OpenStream + Drop>(clock: &R, stream: S) -> Duration
    ensures { as_nanos result ≤ 1_000_000_000 }
{
    let whole = Duration::from_secs(LINGER_SECONDS);
    let span = Span { whole, most: whole };
    let mut stream = Timed::new(clock, stream, None);
    let mut dropped = [0; 8192];
    let mut total = 0;
    while total < LINGER_BYTES {
        match stream.read_within(span, Reading::Takes, &mut dropped) {
            Ok(count) if count > 0 => total += count,
            _ => return stream.latest(),
        }
    }
    stream.latest()
}

/// What an error in place of a connection stands for.
fn accept_fault(kind: ErrorKind) -> AcceptError
    ensures { result ≡ accept_error_of_kind kind }
{
    match kind {
        ErrorKind::ConnectionAborted
        | ErrorKind::ConnectionReset
        | ErrorKind::Interrupted
        | ErrorKind::TimedOut
        | ErrorKind::NetworkDown
        | ErrorKind::NetworkUnreachable
        | ErrorKind::HostUnreachable => AcceptError::Peer,
        _ => AcceptError::Listener,
    }
}

/// Whether an address is the one that was asked for, with a port that the system picked where it has none.
fn is_had(asked: SocketAddr, had: SocketAddr) -> bool
    ensures { IsTrue result ↔ IsBoundAddress asked had }
{
    had.ip() == asked.ip() && (asked.port() == 0 || had.port() == asked.port()) && had.port() > 0
}

/// Listens on an address, and tells the one that the system gives in its place, which differs by a port that it picked alone. F4: the
/// system gave an error, or another address.
fn listen_at<R: HasPorts>(
    rt: &R,
    asked: SocketAddr,
) -> Result<(R::Listener, SocketAddr), ListenError>
    ensures { MatchResult result (λ it. R.binds rt.now asked (Ok it.1) × IsBoundAddress asked it.1)
        (λ _. RefusesAddress (R.binds rt.now) asked) }
{
    match rt.bind_address(asked) {
        Ok((listener, had)) if is_had(asked, had) => Ok((listener, had)),
        Ok(_) | Err(_) => Err(ListenError),
    }
}

/// Listens on 127.0.0.1, and on no other address. The last sixteen connections stay open behind their replies, until their peers
/// had the time to read them. Contracts see where it listens, and what went over each connection that it took back.
#[derive(Drop)]
pub struct Loopback<'a, R: Net> {
    rt: &'a R,
    alloc: Global,
    listener: Asked<R::Listener>,
    address: SocketAddr,
    still_open: StillOpen<StreamHandle<R::Stream>>,
    exchanges: Exchanges,
    ended: Ends,
    waited: Waited,
}

impl<'a, R: Net> Model for Loopback<'a, R> {
    ghost use Rattle.archive_listen.specs.Sockets.{LoopbackState};

    ghost Value = { LoopbackState };

    ghost view = { λ l. record {
      address = l.address;
      exchanges = l.exchanges.all;
      asked = l.listener;
      ended = l.ended;
      waited = l.waited;
    } };
}

impl<'a, R: HasPorts> Loopback<'a, R> {
    /// Listens on a port; 0 stands for one that the system picks. F4: the port is taken, or may not be used.
    pub fn bind(rt: &'a R, alloc: Global, port: u16) -> Result<Loopback<'a, R>, ListenError>
        ensures { MatchResult result (ListensOnLoopback port) (λ _. RefusesPort (R.binds rt.now) port) }
    {
        let asked = SocketAddr::new(IpAddr::V4(Ipv4Addr::LOCALHOST), port);
        let (listener, address) = listen_at(rt, asked)?;
        Ok(Loopback {
            rt,
            alloc,
            listener: Asked::new(listener),
            address,
            still_open: StillOpen::new(alloc),
            exchanges: Exchanges::new(),
            ended: Ends::new(),
            waited: Waited {
                head: Duration::ZERO,
                reply: Duration::ZERO,
                rest: Duration::ZERO,
            },
        })
    }
}

impl<'a, R: Net> Loopback<'a, R> {
    /// The port that it listens on.
    pub fn port(&self) -> u16
        ensures { result ≡ socket_port self.now.address }
    {
        self.address.port()
    }
}

/// The ports of 127.0.0.1. Contracts see the system, and what went over the connections of the listeners that were ended.
#[derive(Drop)]
pub struct LoopbackPorts<'a, R> {
    rt: &'a R,
    alloc: Global,
    went: Exchanges,
}

impl<'a, R> Model for LoopbackPorts<'a, R> {
    ghost use Rattle.archive_listen.specs.Sockets.{PortsState};

    ghost Value = { PortsState R };

    ghost view = { λ p. record { system = p.rt.now; exchanges = p.went.all } };
}

impl<'a, R> LoopbackPorts<'a, R> {
    /// Those of a system, where no listener was ended yet. The memory is for connections.
    pub fn new(rt: &'a R, alloc: Global) -> LoopbackPorts<'a, R>
        ensures { result ≡ record { system = rt.now; exchanges = [] } }
    {
        LoopbackPorts {
            rt,
            alloc,
            went: Exchanges::new(),
        }
    }
}

impl<'a, R: HasPorts + Clock> Ports for LoopbackPorts<'a, R> {
    ghost use Rattle.std.specs.Prelude.{MatchResult};
    ghost use Rattle.std.proofs.Common.{ap};
    ghost use Rattle.archive_listen.specs.Sockets.{ListensOnReportedPort, RefusesPort};

    type Listener = Loopback<'a, R>;

    ghost went = { λ ports. ports.exchanges };

    ghost listens = { λ old new port result. (new ≡ old)
        × MatchResult result (ListensOnReportedPort port) (λ _. RefusesPort (R.binds old.system) port) };

    ghost listens_none = { λ old new port listening given.
        (ap (λ ports. ports.exchanges) given.0, given.1.listens_on_loopback.no_exchange_yet) };

    fn listen(&mut self, port: u16) -> Result<BoundListener<Loopback<'a, R>>, ListenError> {
        let listener = Loopback::bind(self.rt, self.alloc, port)?;
        let port = listener.port();
        Ok(BoundListener { listener, port })
    }

    fn end(&mut self, listener: Loopback<'a, R>) {
        self.went = Exchanges::and(&self.went, &listener.exchanges);
    }
}

/// Both directions of a connection that the system gave, over which nothing went yet. Its time began when it was given.
fn connection_of<'a, R: Clock, S: Read + Write + OpenStream + Drop>(
    clock: &'a R,
    given: Given<S>,
) -> Connection<DeadlineReader<'a, R, S>, WriteBuffer<DeadlineWriter<'a, R, S>, ROOM>>
    ensures input { result.input ≡ nothing_read given.at }
    ensures output { result.output ≡ record { inner = nothing_written; held = []; free = 16_384; failures = 0 } }
{
    Connection {
        input: DeadlineReader::new(clock, given.read, given.at),
        output: WriteBuffer::new(DeadlineWriter::new(clock, given.written)),
    }
}

/// Ends a connection in order, and takes what was seen of its peer. Whether more came. None: it is dropped as it is, since its reply
/// broke off, or its socket failed.
fn finish<R: Clock, S: Read + OpenStream>(
    peeked: &mut Peeked<'_, R, S>,
    ended: &mut Ends,
    breaks_off: bool,
) -> Option<bool>
    ensures counted { ended.new ≡ graceful_closes_after breaks_off ended.old }
    ensures taken { DrainsOrResets breaks_off peeked.old.unread peeked.old.taken peeked.new.taken }
    ensures dropped { breaks_off ≡ true → IsNone result }
{
    if breaks_off {
        return None;
    }
    peeked.end(ended)
}

/// Lets go of a socket that was ended: one of whose peer more came is read on for a while, and another stays open. How long the waits
/// for what its peer sends could take.
fn let_go<R: Clock, S: Read + OpenStream + Drop>(
    clock: &R,
    still_open: &mut StillOpen<S>,
    stream: S,
    more: Option<bool>,
) -> Duration
    ensures { as_nanos result ≤ 1_000_000_000 }
{
    match more {
        Some(true) => read_on(clock, stream),
        Some(false) => {
            still_open.keep(clock, stream);
            Duration::ZERO
        }
        None => Duration::ZERO,
    }
}

impl<'a, R: Net + Clock> Listener for Loopback<'a, R> {
    ghost use Rattle.archive_listen.specs.Sockets.{CallsAcceptOnce, ClosesConnection, accept_keeps_exchanges, close_adds_one_exchange};

    type Input = DeadlineReader<'a, R, R::Stream>;

    type Output = WriteBuffer<DeadlineWriter<'a, R, R::Stream>, ROOM>;

    ghost over = { λ l. l.exchanges };

    ghost accepts = { CallsAcceptOnce };

    ghost accepts_none = { accept_keeps_exchanges };

    ghost closes = { ClosesConnection };

    ghost closes_one = { close_adds_one_exchange };

    fn accept(
        &mut self,
    ) -> Result<
        Connection<
            DeadlineReader<'a, R, R::Stream>,
            WriteBuffer<DeadlineWriter<'a, R, R::Stream>, ROOM>,
        >,
        AcceptError,
    >
        ensures untold { IfOk result (λ c. connection_transcript c.input.told c.input.ends c.input.failures
            (c.output.inner.told ++ c.output.held) c.output.failures ≡ empty_transcript) }
        ensures accepts { MatchResult result (λ _. CallsAcceptOnce self.old self.new None)
            (λ fault. CallsAcceptOnce self.old self.new (Some fault)) }
        ensures since { IfOk result (λ c. c.input.since ≡ self.new.asked.at) }
    {
        let given = match self.listener.next(self.rt, self.alloc) {
            Ok(given) => given,
            Err(kind) => return Err(accept_fault(kind)),
        };
        Ok(connection_of(self.rt, given))
    }

    fn close(
        &mut self,
        connection: Connection<
            DeadlineReader<'a, R, R::Stream>,
            WriteBuffer<DeadlineWriter<'a, R, R::Stream>, ROOM>,
        >,
        breaks_off: bool,
    )
        ensures closes { ClosesConnection self.old self.new
            (exchange connection.entry.input.told connection.entry.output.inner.told) breaks_off }
        ensures head { as_nanos self.new.waited.head ≡ connection.entry.input.latest }
        ensures reply { as_nanos self.new.waited.reply ≡ connection.entry.output.inner.latest }
    {
        let Connection { input, output } = connection;
        let output = output.into_inner();
        self.exchanges = Exchanges::with(
            &self.exchanges,
            input.stream.given(),
            output.stream.took(),
        );
        let head = input.stream.latest();
        let reply = output.stream.latest();
        let mut peeked = input.stream;
        let more = finish(&mut peeked, &mut self.ended, breaks_off);
        let rest = let_go(self.rt, &mut self.still_open, peeked.into_stream(), more);
        self.waited = Waited { head, reply, rest };
    }
}
