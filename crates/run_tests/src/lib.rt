//! The commands that serve and that import, alone and in a row, from their orders to their exit status, over devices of memory.
#![tactic(auto)]

#[cfg(test)]
mod devices;
#[cfg(test)]
mod importing;
#[cfg(test)]
mod publishing;
#[cfg(test)]
mod restarting;
#[cfg(test)]
mod serving;
