//! What the words of a command line order: each row of the command line as a value, with its values read.
//!
//! `order` reads the words of the program; `specs/Orders.antt` says what words order, over the command line of
//! `archive_usage` as `clap` reads it. It touches no file.
#![tactic(auto)]

mod commands;
mod orders;
mod reading;
mod stops;
mod table_reading;
mod values;

pub use commands::StoreCommand;
pub use orders::{
    CheckArgs, GetArgs, ImportArgs, Order, OrderStop, ReaderArgs, ServeArgs, SiftArgs, StoreArgs,
};
pub use reading::order;
