//! What known requests ask for, read in pieces of each size, and the routes of known paths.
#![tactic(auto)]

#[cfg(test)]
mod reading;
#[cfg(test)]
mod routes;
