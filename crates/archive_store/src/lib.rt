//! The archive in the tables of a database: each command is one step of the archive's machine, and each question is
//! answered from what the tables hold.
#![tactic(auto)]

mod adopting;
mod batches;
mod checking;
mod commands;
mod deciding;
mod faults;
mod grants;
mod keys;
pub mod laws;
pub mod limits;
mod looking;
mod messages;
mod options;
mod persons;
mod questions;
mod reading;
mod running;
mod state;
mod store;
mod walking;
mod wants;
mod words;
mod writing;

pub use adopting::AdoptStop;
pub use archive_port::{
    AddError, AddReport, Added, CheckError, Command, CommandFacts, DatedMarks, Key, MemoryRefusal,
    Message, Selection, StoreFault,
};
pub use faults::database_fault;
pub use keys::key_of;
pub use running::{CommandRunError, Outcome};
pub use store::Store;
pub use walking::MessageWalk;
pub use wants::RefusalCounter;
