//! Why a database was not made, read or written.
ghost use Rattle.archive_database.specs.Faults.{database_error_of, as_store_fault};
ghost use Rattle.archive_port.specs.Replies.{refusal_of_fault};
ghost use Rattle.archive_database.specs.declared.faults.DatabaseError.TheVariants.{Memory};

use archive_port::StoreFault;
use std::alloc::{AllocError, AllocFailed};

/// Why a database was not made, read or written.
#[derive(Clone, Copy, Debug, Drop)]
pub enum DatabaseError {
    /// No memory was left.
    Memory,
    /// The database refused, or what it holds is no archive's.
    Database,
}

impl From<sqlite::Error> for DatabaseError {
    ghost use Rattle.std.specs.Prelude.{◌≡◌};

    ghost from_gives = { λ error fault. fault ≡ database_error_of error };

    fn from(error: sqlite::Error) -> DatabaseError {
        match error {
            sqlite::Error::SqliteFailure(sqlite::ErrorCode::OutOfMemory) => DatabaseError::Memory,
            _ => DatabaseError::Database,
        }
    }
}

impl From<AllocError> for DatabaseError {
    ghost use Rattle.std.specs.Prelude.{◌≡◌};

    ghost from_gives = { λ _ fault. fault ≡ Memory };

    fn from(_error: AllocError) -> DatabaseError {
        DatabaseError::Memory
    }
}

impl From<mail_core::Memory> for DatabaseError {
    ghost use Rattle.std.specs.Prelude.{◌≡◌};

    ghost from_gives = { λ _ fault. fault ≡ Memory };

    fn from(_error: mail_core::Memory) -> DatabaseError {
        DatabaseError::Memory
    }
}

impl<T: Drop> From<AllocFailed<T>> for DatabaseError {
    ghost use Rattle.std.specs.Prelude.{◌≡◌};

    ghost from_gives = { λ _ fault. fault ≡ Memory };

    fn from(_error: AllocFailed<T>) -> DatabaseError {
        DatabaseError::Memory
    }
}

impl From<DatabaseError> for StoreFault {
    ghost use Rattle.std.specs.Prelude.{◌≡◌, None};

    ghost from_gives = { λ error fault. (fault ≡ as_store_fault error) × (refusal_of_fault fault ≡ None) };

    fn from(fault: DatabaseError) -> StoreFault {
        match fault {
            DatabaseError::Memory => StoreFault::Memory,
            DatabaseError::Database => StoreFault::Store,
        }
    }
}
