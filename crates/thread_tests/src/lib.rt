//! Worked threads, and the threads of many lists beside a plain program after the text of RFC 5256.
#![tactic(auto)]

#[cfg(test)]
mod nodes;
#[cfg(test)]
mod threads;
#[cfg(test)]
mod walk;
