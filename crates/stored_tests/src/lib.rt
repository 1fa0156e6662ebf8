//! What a store over SQL tables answers through the desk and its pages: each of their calls over memory and over a file, and the cases in
//! which the tables matter; rows that another program changed; files of older versions; and disks that stop while messages are imported,
//! while files are migrated, and while requests are answered.
#![tactic(auto)]

#[cfg(test)]
mod breaking;
#[cfg(test)]
mod cases;
#[cfg(test)]
mod damage;
#[cfg(test)]
mod damaged;
#[cfg(test)]
mod disks;
#[cfg(test)]
mod filed;
#[cfg(test)]
mod files;
#[cfg(test)]
mod older;
#[cfg(test)]
mod standing;
#[cfg(test)]
mod stops;
