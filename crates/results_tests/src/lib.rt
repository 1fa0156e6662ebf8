//! What is shown of a small list: to the public, to a moderator, and to who wrote it; and its threads, gathered by subject or not.
#![tactic(auto)]

#[cfg(test)]
mod asking;
#[cfg(test)]
mod gathering;
pub mod noting;
#[cfg(test)]
mod own;
#[cfg(test)]
mod views;
