//! When a database that holds an archive carries out each command: laws over the definitions of the statements and of SQL.
#![tactic(auto)]

pub mod laws;
