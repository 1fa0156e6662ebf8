//! What an archive in memory answers: the cases of the desk and of the pages over it, and one client on the loopback interface.
#![tactic(auto)]

#[cfg(test)]
mod desk;
#[cfg(test)]
mod pages;
#[cfg(test)]
mod sockets;
