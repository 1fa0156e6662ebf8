//! Each SQL text, in a function of its own, in a file for each table.

pub mod addresses;
pub mod checking;
pub mod grants;
pub mod lists;
pub mod messages;
pub mod options;
pub mod persons;
pub mod schema;
