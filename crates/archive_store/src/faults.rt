//! What the library of databases told, as a fault.
ghost use Rattle.std.specs.Prelude.{◌≡◌, None};
ghost use Rattle.archive_store.specs.Replies.{store_fault_of_error};
ghost use Rattle.archive_port.specs.Replies.{refusal_of_fault};

use archive_database::DatabaseError;
use archive_port::StoreFault;
use sqlite::Error;

/// The fault of what a database told: E14 where it wanted memory, else E15.
pub fn database_fault(error: Error) -> StoreFault
    ensures value { result ≡ store_fault_of_error error }
    ensures kind { refusal_of_fault result ≡ None }
{
    StoreFault::from(DatabaseError::from(error))
}
