//! How often memory was refused.
ghost use Rattle.std.specs.Prelude.{◌≡◌, ◌+◌, None, Ok, Err, IfErr, IsErrAnd, MatchResult};
ghost use Rattle.archive_store.specs.Replies.{store_fault_of_error};
ghost use Rattle.archive_database.specs.Faults.{as_store_fault};
ghost use Rattle.archive_port.specs.Replies.{refusal_of_fault};
ghost use Rattle.archive_port.specs.Wanting.{IsMemoryRefusal, RaisesCountOnlyIfRefused};
ghost use Rattle.archive_port.specs.declared.faults.StoreFault.TheVariants.{Memory};

use crate::faults::database_fault;
use archive_database::DatabaseError;
use archive_port::{MemoryRefusal, StoreFault};
use byte_device::Transcript;
use sqlite::{Error, ErrorCode};
use std::marker::Model;

/// How often memory was refused in the calls of a store and of the layers above it, as devices count their failures. Only clauses
/// read it: it takes no room, and its calls do nothing when they run.
#[derive(Drop)]
pub struct RefusalCounter {
    told: Transcript,
}

impl Model for RefusalCounter {
    ghost use Rattle.std.specs.Prelude.{ℕ, length};

    ghost Value = { ℕ };

    ghost view = { λ w. length w.told.bytes };
}

impl RefusalCounter {
    /// None yet.
    pub(crate) fn new() -> RefusalCounter
        ensures { result ≡ 0 }
    {
        RefusalCounter {
            told: Transcript::new(),
        }
    }

    /// One more: a call refused memory. Who answers that none is left calls it before.
    pub fn increment(&mut self, _why: MemoryRefusal)
        ensures { self.new ≡ self.old + 1 }
    {
        self.told.note(&[0]);
    }

    /// One more, and E14.
    pub(crate) fn refuse(&mut self, why: MemoryRefusal) -> StoreFault
        ensures fault { result ≡ Memory }
        ensures raised { self.new ≡ self.old + 1 }
    {
        self.counted(StoreFault::from(why))
    }

    /// One more, and this fault.
    fn counted(&mut self, fault: StoreFault) -> StoreFault
        ensures same { result ≡ fault }
        ensures raised { self.new ≡ self.old + 1 }
    {
        self.told.note(&[0]);
        fault
    }

    /// Hands on what the database told: an error as its fault, E14 where memory was wanted, which is counted, or else E15.
    pub(crate) fn pass<T>(&mut self, told: Result<T, Error>) -> Result<T, StoreFault>
        ensures passed { MatchResult result (λ found. told ≡ Ok found)
            (λ fault. IsErrAnd told (λ error. fault ≡ store_fault_of_error error)) }
        ensures kind { IfErr result (λ fault. refusal_of_fault fault ≡ None) }
        ensures counted { RaisesCountOnlyIfRefused IsMemoryRefusal self.old self.new result }
    {
        match told {
            Ok(found) => Ok(found),
            Err(Error::SqliteFailure(ErrorCode::OutOfMemory)) => Err(self.counted(
                StoreFault::Memory,
            )),
            Err(error) => Err(database_fault(error)),
        }
    }

    /// The same of what was done on a database.
    pub(crate) fn pass_fault<T>(&mut self, told: Result<T, DatabaseError>) -> Result<T, StoreFault>
        ensures passed { MatchResult result (λ found. told ≡ Ok found)
            (λ fault. IsErrAnd told (λ error. fault ≡ as_store_fault error)) }
        ensures kind { IfErr result (λ fault. refusal_of_fault fault ≡ None) }
        ensures counted { RaisesCountOnlyIfRefused IsMemoryRefusal self.old self.new result }
    {
        match told {
            Ok(found) => Ok(found),
            Err(error) => Err(self.fault_of(error)),
        }
    }

    /// What an error of that is called: E14, which is counted, or E15.
    pub(crate) fn fault_of(&mut self, error: DatabaseError) -> StoreFault
        ensures called { result ≡ as_store_fault error }
        ensures counted { RaisesCountOnlyIfRefused {A = Unit {0}} IsMemoryRefusal self.old self.new (Err result) }
    {
        match error {
            DatabaseError::Memory => self.counted(StoreFault::Memory),
            DatabaseError::Database => StoreFault::Store,
        }
    }
}
