//! Whole pages, with ample memory.
#![tactic(auto)]

#[cfg(test)]
mod pages;
