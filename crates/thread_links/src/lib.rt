//! The links between messages that their references make: RFC 5256 section 3, THREAD=REFERENCES,
//! step 1.
#![tactic(auto)]

pub use entry::Entry;
pub use joining::join_plain;
pub use mail_core::References;
pub use node_joining::join_nodes;
pub use pairs::Pairs;
pub use steps::Steps;

mod entry;
mod ids;
mod joining;
pub mod laws;
mod linker;
mod links;
mod node_joining;
pub mod nodes;
mod numbering;
mod pairs;
mod steps;
