//! The replies to known requests, byte for byte, and an archive's pages over connections: peers of memory, some of which fail. The cases
//! are for any archive: `memory_tests` runs all of them over an archive in memory, and `stored_tests` each call once over a database.
#![tactic(auto)]

pub mod announced;
pub mod calls;
pub mod cases;
pub mod devices;
pub mod failing;
pub mod hostile;
pub mod keeping;
pub mod links;
pub mod own;
pub mod pages;
pub mod peers;
pub mod requests;
pub mod serving;
