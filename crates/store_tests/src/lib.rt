//! What keys, tokens, the tables and the store do, by worked cases: over memory, over files, and over disks that stop.
#![tactic(auto)]

#[cfg(test)]
mod adopting;
#[cfg(test)]
mod batches;
pub mod callers;
#[cfg(test)]
mod cases;
#[cfg(test)]
mod checking;
#[cfg(test)]
mod commands;
#[cfg(test)]
mod files;
#[cfg(test)]
mod filing;
#[cfg(test)]
mod keys;
#[cfg(test)]
mod migrating;
#[cfg(test)]
mod questions;
#[cfg(test)]
mod stops;
#[cfg(test)]
mod tables;
#[cfg(test)]
mod versions;
