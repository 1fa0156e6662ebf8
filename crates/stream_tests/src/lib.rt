//! What a cutter does with known mboxes, in pieces of every size, and with readers that fail.
#![tactic(auto)]

#[cfg(test)]
mod pieces;
