//! Connections one after the other, over memory and over sockets.
#![tactic(auto)]

#[cfg(test)]
mod memory;
#[cfg(test)]
mod sockets;
#[cfg(test)]
mod words;
