//! How the program is used: its commands with their words, as `clap` reads them, and the texts of the help.
//!
//! `specs/Program.antt` says which words there are; what they order is another crate's to say.
#![tactic(auto)]

mod building;
mod help;

pub use building::{command_named, program_usage};
