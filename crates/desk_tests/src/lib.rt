//! What the desk answers, by worked cases for any archive: mboxes that are imported, whole and read piece by piece, by readers that give
//! one byte at once and by readers that fail; and questions on what was imported. `memory_tests` runs most of them over an archive in memory,
//! and `stored_tests` runs those in which the tables matter over a database. They are no tests here, because a crate with tests is proved
//! twice.
#![tactic(auto)]

pub mod asking;
pub mod calls;
pub mod cases;
pub mod chain;
pub mod checks;
pub mod commands;
pub mod exports;
pub mod imports;
pub mod listings;
pub mod messages;
pub mod noting;
pub mod shown;
pub mod streams;
