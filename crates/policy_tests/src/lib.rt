//! Worked policies: what is read, what is refused, and what is decided.
#![tactic(auto)]

#[cfg(test)]
mod policies;
