//! Threads of messages by their references: RFC 5256, THREAD=REFERENCES.
#![tactic(auto)]

pub use node_threader::NodeThreader;
pub use plain::PlainThreader;
pub use row::Row;
pub use thread_links::{Entry, Pairs, References, Steps, nodes};
pub use threader::{Threader, threads};
pub use top_thread::thread_of;

mod family;
mod forest;
pub mod laws;
mod merging;
mod node_threader;
mod order;
mod plain;
mod row;
mod rows;
mod sorting;
mod subjects;
mod threader;
mod top_thread;
mod tree;
mod waiting;
