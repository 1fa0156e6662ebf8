//! The archives in a system's files: how one is opened, opened again and closed, and what is left of its file and log.
#![tactic(auto)]

mod databases;
mod holding;
mod pages;
mod system;

pub use databases::{FilesLeft, SystemDatabases};
pub use holding::ArchiveDatabases;
pub use system::{HasDatabaseFiles, HasRandom};
