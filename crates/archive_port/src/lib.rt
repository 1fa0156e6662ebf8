//! What an archive is asked and answers, whatever stores it. A command is one step of the archive's machine. It is refused for one of the
//! machine's reasons (E1 to E13), or because memory (E14) or what stores the archive (E15) failed.
#![tactic(auto)]

mod checking;
mod commands;
mod databases;
mod faults;
mod marks;
mod reports;
mod state;
mod store;
mod walking;
mod wants;
mod words;

pub use archive_model::{CommandFacts, Key, Message};
pub use checking::CheckError;
pub use commands::Command;
pub use databases::Databases;
pub use faults::StoreFault;
pub use marks::DatedMarks;
pub use reports::{AddError, AddReport};
pub use state::ArchiveState;
pub use store::ArchiveStore;
pub use walking::Selection;
pub use wants::MemoryRefusal;
pub use words::Added;
