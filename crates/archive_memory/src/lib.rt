//! An archive in memory: the definition of the archive as a program. Each list of the definition is a vector. The archive writes no
//! file, and a crash leaves nothing of it.
#![tactic(auto)]

mod adding;
mod archive;
mod asking;
mod changing;
mod columns;
mod copying;
mod counting;
mod deciding;
mod entries;
mod looking;
mod selecting;
mod state;
mod writable;

pub use archive::MemoryArchive;
pub use selecting::MessageWalk;
