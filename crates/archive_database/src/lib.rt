//! What a store does on its database: the tables are made in an empty one, or found in another and brought over, rows are
//! read as names, numbers, ranks and messages, and a list and a message are written down.
#![tactic(auto)]

pub mod checking;
mod faults;
pub mod filing;
pub mod lists;
pub mod making;
pub mod ranks;
pub mod reading;
pub mod taking;

pub use faults::DatabaseError;
