//! Files of a system whose inputs fail after so many bytes.
use mbox_core::device::{Counted, Source};
use sift_run::{FileError, ReadFiles, StreamedFiles, SystemFiles};
use std::alloc::{AllocGlobal, Global};
use std::io::{self, ErrorKind, Read};
use std::rt::Files;

/// A reader that passes so many bytes of another one, and then fails at each call that asks for a byte.
#[derive(Drop)]
pub struct FailingReader<I> {
    inner: I,
    left: usize,
}

impl<I: Source> Read for FailingReader<I> {
    fn read(&mut self, buffer: &mut [u8]) -> io::Result<usize> {
        let most = buffer.len().min(self.left);
        if most < 1 && !buffer.is_empty() {
            return Err(io::Error::from(ErrorKind::Other));
        }
        match self.inner.read(&mut buffer[..most]) {
            Ok(count) => {
                self.left = self.left.saturating_sub(count);
                Ok(count)
            }
            Err(_failure) => Err(io::Error::from(ErrorKind::Other)),
        }
    }
}

/// The files of a system. The inputs that are opened fail after `passes` bytes.
#[derive(Drop)]
pub struct FailingFiles<'a, R> {
    /// The files that fail.
    pub files: SystemFiles<'a, R>,
    /// How many bytes they give before.
    pub passes: usize,
}

impl<'a, R: Files + AllocGlobal> ReadFiles for FailingFiles<'a, R> {
    fn read_file(&self, alloc: Global, name: &str) -> Result<Vec<u8>, FileError> {
        self.files.read_file(alloc, name)
    }
}

impl<'a, R: Files + AllocGlobal> StreamedFiles for FailingFiles<'a, R> {
    type Input = Counted<FailingReader<Counted<R::File>>>;

    fn open_file(
        &self,
        alloc: Global,
        name: &str,
    ) -> Result<Counted<FailingReader<Counted<R::File>>>, FileError> {
        match self.files.open_file(alloc, name) {
            Ok(inner) => Ok(Counted::new(FailingReader {
                inner,
                left: self.passes,
            })),
            Err(fault) => Err(fault),
        }
    }
}
