//! One stream that is read at one place and written at another. If there is no memory to share it, it has a second descriptor, so that a
//! reply can still say so.

use std::alloc::Global;
use std::cell::{RefCell, RefMut};
use std::io::{self, Read, Write};
use std::net::{OpenStream, Shutdown};
use std::rc::Rc;
use std::time::Duration;

/// One of two handles of a stream, which is closed when both are dropped.
#[derive(Drop)]
pub(crate) enum StreamHandle<S> {
    /// Both handles own one descriptor.
    Shared(Rc<RefCell<S>, Global>),
    /// Each handle owns a descriptor.
    Own(RefCell<S>),
}

impl<S: OpenStream + Drop> StreamHandle<S> {
    /// Both handles of a stream, which take memory, or a second descriptor if there is none. An error: the system gave neither.
    pub(crate) fn pair(alloc: Global, stream: S) -> io::Result<(StreamHandle<S>, StreamHandle<S>)> {
        match Rc::new(alloc, RefCell::new(stream)) {
            Ok(first) => {
                let second = first.clone()?;
                Ok((StreamHandle::Shared(first), StreamHandle::Shared(second)))
            }
            Err(refused) => {
                let first = refused.value.into_inner();
                let second = first.try_clone()?;
                Ok((
                    StreamHandle::Own(RefCell::new(first)),
                    StreamHandle::Own(RefCell::new(second)),
                ))
            }
        }
    }
}

impl<S> StreamHandle<S> {
    /// The stream, for one call. An error: another call has it; none does, because calls come one after the other.
    fn borrow(&self) -> io::Result<RefMut<'_, S>> {
        let stream: &RefCell<S> = match self {
            StreamHandle::Shared(stream) => stream,
            StreamHandle::Own(stream) => stream,
        };
        Ok(stream.try_borrow_mut()?)
    }
}

impl<S: Read> Read for StreamHandle<S> {
    fn read(&mut self, buffer: &mut [u8]) -> io::Result<usize> {
        self.borrow()?.read(buffer)
    }
}

impl<S: Write> Write for StreamHandle<S> {
    fn write(&mut self, bytes: &[u8]) -> io::Result<usize> {
        self.borrow()?.write(bytes)
    }

    fn flush(&mut self) -> io::Result<()> {
        self.borrow()?.flush()
    }
}

/// The calls that this crate makes. Any other is `Unsupported`.
impl<S: OpenStream> OpenStream for StreamHandle<S> {
    fn shutdown(&self, how: Shutdown) -> io::Result<()> {
        self.borrow()?.shutdown(how)
    }

    fn set_read_timeout(&self, wait: Option<Duration>) -> io::Result<()> {
        self.borrow()?.set_read_timeout(wait)
    }

    fn set_write_timeout(&self, wait: Option<Duration>) -> io::Result<()> {
        self.borrow()?.set_write_timeout(wait)
    }

    fn peek(&self, buffer: &mut [u8]) -> io::Result<usize> {
        self.borrow()?.peek(buffer)
    }
}
