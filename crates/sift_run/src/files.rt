//! The bytes of files, by their names.
ghost use Rattle.std.specs.Prelude.{◌≡◌};
ghost use Rattle.sift_run.specs.Systems.{file_error_of_kind};

use crate::system::HasFiles;
use mbox_core::device::{Counted, Source};
use std::alloc::Global;
use std::io::ErrorKind;

/// Why a file was not read, or not opened.
#[derive(Debug, Clone, Copy, PartialEq, Eq, Drop)]
pub enum FileError {
    /// It is not there, may not be opened, or a read failed.
    Read,
    /// There was no memory to hold it, or to open it.
    Memory,
}

/// Whoever has files that are read whole.
pub trait ReadFiles {
    ghost use Rattle.std.specs.Prelude.{ℕ, List, Result, Ok, Err, ⊤, MatchResult};
    ghost use Rattle.sift_run.specs.declared.files.FileError.{FileError};

    // Holds of a name, and of what is read under it.
    ghost gives: { Self → List ℕ → Result (List ℕ) FileError → Type 0 } = { λ _ _ _. ⊤ };

    /// The bytes of the file of this name.
    fn read_file(&self, alloc: Global, name: &str) -> Result<Vec<u8>, FileError>
        ensures { MatchResult result (λ bytes. gives self.now name.now (Ok bytes.items)) (λ why. gives self.now name.now (Err why)) };
}

/// Whoever has files that are read piece by piece. No clause says that an input told nothing before it was given: so what was
/// told by then is a mark, which an input that another name gave is not known to have.
pub trait StreamedFiles {
    ghost use Rattle.std.specs.Prelude.{ℕ, List, Result, ⊤};
    ghost use Rattle.sift_run.specs.declared.files.FileError.{FileError};

    type Input: Source + Drop;

    // Holds of a name, and of the input that it gave, or of why it gave none.
    ghost inputs: { Self → List ℕ → Result Self.Input FileError → Type 0 } = { λ _ _ _. ⊤ };

    /// An input of the bytes of the file of this name, of which nothing was read yet.
    fn open_file(&self, alloc: Global, name: &str) -> Result<Self::Input, FileError>
        ensures { inputs self.now name.now result };
}

/// The files of a system.
#[derive(Drop)]
pub struct SystemFiles<'a, R> {
    /// The system whose files they are.
    pub rt: &'a R,
}

/// What a system's fault is called here.
fn fault_of(kind: ErrorKind) -> FileError
    ensures { result ≡ file_error_of_kind kind }
{
    match kind {
        ErrorKind::OutOfMemory => FileError::Memory,
        _ => FileError::Read,
    }
}

impl<'a, R: HasFiles> ReadFiles for SystemFiles<'a, R> {
    ghost use Rattle.sift_run.specs.Systems.{ReadsSystemFile};

    ghost gives = { λ files name result. ReadsSystemFile R.reads files.rt.now name result };

    fn read_file(&self, _alloc: Global, name: &str) -> Result<Vec<u8>, FileError> {
        match self.rt.bytes_of(name) {
            Ok(bytes) => Ok(bytes),
            Err(kind) => Err(fault_of(kind)),
        }
    }
}

impl<'a, R: HasFiles> StreamedFiles for SystemFiles<'a, R> {
    ghost use Rattle.sift_run.specs.Systems.{OpensSystemFile};

    type Input = Counted<R::Opened>;

    ghost inputs = { λ files name result. OpensSystemFile R.opens files.rt.now name result };

    fn open_file(&self, _alloc: Global, name: &str) -> Result<Counted<R::Opened>, FileError> {
        match self.rt.opened(name) {
            Ok(file) => Ok(Counted::new(file)),
            Err(kind) => Err(fault_of(kind)),
        }
    }
}
