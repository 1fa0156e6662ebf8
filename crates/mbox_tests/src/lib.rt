//! What cutting, writing and the devices do with known mboxes, beside plain programs that find the same.
#![tactic(auto)]

#[cfg(test)]
mod devices;
#[cfg(test)]
mod mboxes;
#[cfg(test)]
mod owned;
#[cfg(test)]
mod plain;
#[cfg(test)]
mod separators;
