//! The tables of the archive in a database of `sqlite`: their schema, and each SQL text in a function of its own.
//!
//! Each function makes one call of the database. Its clause says what the tables hold afterwards, as lists of records,
//! wherever they were an archive's before (`IsOpenArchive`), outside a transaction or within one, and how the call ends.
#![tactic(auto)]

pub mod filed;
pub mod laws;
pub mod rows;
pub mod texts;
