//! The calls of a system that a run needs. Each has a relation that says what the system gave, so code over these traits is proved for
//! every system. No clause says what the toolchain's own calls give, so the bodies here do nothing but call them.
use std::alloc::AllocGlobal;
use std::env::{self, Args};
use std::fs;
use std::io::{self, ErrorKind, Read};
use std::rt::{Clock, Env, Files};
use std::time::{SystemTime, UNIX_EPOCH};

/// A system that tells the time.
pub trait HasClock {
    ghost use Rattle.std.specs.Prelude.{ℕ, Option, ⊤};

    // Holds of a system, and of the seconds that it told, if any.
    ghost tells: { Self → Option ℕ → Type 0 } = { λ _ _. ⊤ };

    /// The whole seconds since 1970-01-01 00:00:00 UTC. `None` if the clock cannot be read, or is set to an earlier time.
    fn seconds(&self) -> Option<u64>
        ensures { tells self.now result };
}

/// A system that has files.
pub trait HasFiles {
    ghost use Rattle.std.specs.Prelude.{ℕ, List, Result, Ok, Err, ⊤, MatchResult};
    ghost use Rattle.std.specs.declared.io.ErrorKind.{ErrorKind};

    type Opened: Read + Drop;

    // Holds of a system, of a name, and of the bytes of the file of that name, or of why they were not read.
    ghost reads: { Self → List ℕ → Result (List ℕ) ErrorKind → Type 0 } = { λ _ _ _. ⊤ };

    // Holds of a system, of a name, and of the file that was opened under it, or of why none was.
    ghost opens: { Self → List ℕ → Result Self.Opened ErrorKind → Type 0 } = { λ _ _ _. ⊤ };

    /// The bytes of the file of this name.
    fn bytes_of(&self, name: &str) -> Result<Vec<u8>, ErrorKind>
        ensures { MatchResult result (λ bytes. reads self.now name.now (Ok bytes.items)) (λ kind. reads self.now name.now (Err kind)) };

    /// The file of this name, of which nothing was read yet.
    fn opened(&self, name: &str) -> Result<Self::Opened, ErrorKind>
        ensures { opens self.now name.now result };
}

/// A system that was given words.
pub trait HasArguments {
    ghost use Rattle.std.specs.Prelude.{ℕ, List, Option, Some, None, map, string_bytes, ⊤, MatchResult};
    ghost use Rattle.std.specs.Vec.Iter.{into_iter_items};

    // Holds of a system, and of the words that it gave, if any.
    ghost gave: { Self → Option (List (List ℕ)) → Type 0 } = { λ _ _. ⊤ };

    /// The words of the command line. The first is the program's name. An error, if one of them is no UTF-8, or there was no memory.
    fn all_words(&self) -> io::Result<Args>
        ensures { MatchResult result (λ words. gave self.now (Some (map string_bytes (into_iter_items words)))) (λ _. gave self.now None) };
}

impl<R: Clock> HasClock for R {
    fn seconds(&self) -> Option<u64> {
        let now = SystemTime::now(self).ok()?;
        Some(now.duration_since(UNIX_EPOCH).ok()?.as_secs())
    }
}

impl<R: Files + AllocGlobal> HasFiles for R {
    type Opened = R::File;

    fn bytes_of(&self, name: &str) -> Result<Vec<u8>, ErrorKind> {
        fs::read(self, name).map_err(|error| error.kind())
    }

    fn opened(&self, name: &str) -> Result<R::File, ErrorKind> {
        fs::open(self, name).map_err(|error| error.kind())
    }
}

impl<R: Env + AllocGlobal> HasArguments for R {
    fn all_words(&self) -> io::Result<Args> {
        env::args(self)
    }
}
