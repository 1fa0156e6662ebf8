//! What listens for the system, and what its calls gave. No clause says what the toolchain's own calls give, so the bodies here only call
//! them and write down what came of it.
ghost use Rattle.std.specs.Prelude.{◌≡◌, Ok, Err, MatchResult};
ghost use Rattle.archive_listen.specs.Asking.{after_accept_call, no_accept_calls};

use crate::errors::Errors;
use crate::handles::StreamHandle;
use byte_device::Transcript;
use std::alloc::Global;
use std::io::{self, ErrorKind};
use std::marker::Model;
use std::net::{OpenListener, OpenStream};
use std::rt::Clock;
use std::time::Instant;

/// A connection that the system gave.
#[derive(Drop)]
pub(crate) struct Given<S> {
    /// The handle that is read.
    pub read: StreamHandle<S>,
    /// The handle of the same stream that is written to.
    pub written: StreamHandle<S>,
    /// When it was given.
    pub at: Instant,
}

/// Asks for a connection and for the time, and makes two handles of its stream.
fn ask<R: Clock, S: OpenStream + Drop, L: OpenListener<Stream = S>>(
    listener: &L,
    clock: &R,
    alloc: Global,
) -> io::Result<Given<S>> {
    let (stream, _) = listener.accept()?;
    let at = Instant::now(clock)?;
    let (read, written) = StreamHandle::pair(alloc, stream)?;
    Ok(Given { read, written, at })
}

/// What listens for the system. Contracts see how often it was asked for a connection, what errors it gave, and when it last gave one.
#[derive(Drop)]
pub(crate) struct Asked<L> {
    inner: L,
    times: Transcript,
    errors: Errors,
    at: Option<Instant>,
}

impl<L> Model for Asked<L> {
    ghost use Rattle.std.specs.Prelude.{length};
    ghost use Rattle.archive_listen.specs.Asking.{AcceptState};

    ghost Value = { AcceptState };

    ghost view = { λ a. record { times = length a.times.bytes; errors = a.errors.kinds; at = a.at } };
}

impl<L> Asked<L> {
    /// It was not asked yet.
    pub(crate) fn new(inner: L) -> Asked<L>
        ensures { result ≡ no_accept_calls }
    {
        Asked {
            inner,
            times: Transcript::new(),
            errors: Errors::new(),
            at: None,
        }
    }
}

impl<L> Asked<L> {
    /// The next connection, or why the system gave none.
    pub(crate) fn next<R: Clock, S: OpenStream + Drop>(
        &mut self,
        clock: &R,
        alloc: Global,
    ) -> Result<Given<S>, ErrorKind>
    where
        L: OpenListener<Stream = S>,
        ensures { MatchResult result (λ given. self.new ≡ after_accept_call (Ok given.at) self.old)
            (λ kind. self.new ≡ after_accept_call (Err kind) self.old) }
    {
        self.times.note(&[0]);
        match ask(&self.inner, clock, alloc) {
            Ok(given) => {
                self.at = Some(given.at);
                Ok(given)
            }
            Err(error) => {
                let kind = error.kind();
                self.errors = Errors::with(&self.errors, &kind);
                Err(kind)
            }
        }
    }
}
