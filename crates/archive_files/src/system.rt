//! The calls of a system by which a database is opened. Each has a relation that says what the system gave, so code over these traits
//! is proved for every system. No clause says what the toolchain's own calls give, so the bodies here do nothing but call them.
use crate::pages::pages_to_keep;
use sqlite::{FileFrom, Files, Start};
use sqlite_std_file::OpenError;
use std::hash::RandomState;

/// A system that gives random bytes.
pub trait HasRandom {
    ghost use Rattle.std.specs.Prelude.{Bool, is_some, ⊤};

    // Holds of a system, and of whether it gave random bytes.
    ghost seeds: { Self → Bool → Type 0 } = { λ _ _. ⊤ };

    /// What hashes by random bytes. `None`: the system gave none.
    fn random_state(&self) -> Option<RandomState>
        ensures { seeds self.now (is_some result) };
}

/// A system that has files of databases.
pub trait HasDatabaseFiles: HasRandom {
    ghost use Rattle.std.specs.Prelude.{ℕ, true, false, List, Option, Some, None, IsTrue, IfOk, MatchResult, ⊤};
    ghost use Rattle.sqlite_std_file.specs.File.{file_is_usable, IsFresh};
    ghost use Rattle.sqlite_std_file.specs.declared.pair.OpenError.{OpenError};

    // Holds of a system, of a name, and of how many pages of the file of that name are kept in memory.
    ghost keeps: { Self → List ℕ → ℕ → Type 0 } = { λ _ _ _. ⊤ };

    // Holds of a system, of a name, and of why the database file of that name and its log were not opened, if they were not.
    ghost opens: { Self → List ℕ → Option OpenError → Type 0 } = { λ _ _ _. ⊤ };

    /// How many pages of the file of this name are kept in memory.
    fn pages_for(&self, name: &str) -> usize
        ensures { keeps self.now name.now result };

    /// The database file of this name and its log, which are made if they are not there, and which held what `start` stands for. Or why
    /// the system did not open them.
    fn open_pair<S: Start>(&self, name: &str, start: S) -> Result<Files<FileFrom<S>>, OpenError>
        ensures opened { MatchResult result (λ _. opens self.now name.now None) (λ error. opens self.now name.now (Some error)) }
        ensures log { IfOk result (λ files. IsTrue (file_is_usable S.Start files.log)) }
        ensures db { IfOk result (λ files. IsTrue (file_is_usable S.Start files.db)) }
        ensures fresh { IfOk result (λ files. IsFresh true files.log × IsFresh false files.db) };
}

impl HasRandom for HostRuntime {
    fn random_state(&self) -> Option<RandomState> {
        RandomState::new(self).ok()
    }
}

impl HasDatabaseFiles for HostRuntime {
    fn pages_for(&self, name: &str) -> usize {
        pages_to_keep(self, name)
    }

    fn open_pair<S: Start>(&self, name: &str, start: S) -> Result<Files<FileFrom<S>>, OpenError> {
        sqlite_std_file::open(self, name, start)
    }
}
