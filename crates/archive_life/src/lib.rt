//! What one database holds, and what is sent of it, over every crash and restart: laws over the definitions of the program's runs.
#![tactic(auto)]

pub mod laws;
