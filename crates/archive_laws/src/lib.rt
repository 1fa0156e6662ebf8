//! What the replies tell: laws over the definitions of the archive's pages.
#![tactic(auto)]

pub mod laws;
