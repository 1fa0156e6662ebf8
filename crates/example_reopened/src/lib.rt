//! Calls of several layers in a row, over files that are opened, closed and opened again, and in memory: what they say together, proved by
//! their contracts alone.
#![tactic(auto)]

mod asking;
mod importing;
mod in_memory;
mod opening;
mod publishing;
mod reopening;
mod withdrawing;

pub use asking::{MonthAndThreads, month_and_threads, reopen_and_ask};
pub use importing::{ReimportError, import_and_reopen, import_reopen_and_answer};
pub use in_memory::{InMemoryError, import_withdraw_and_answer_in_memory};
pub use opening::open_and_answer;
pub use publishing::{FilesError, withdraw_and_reopen, withdraw_reopen_and_answer};
pub use reopening::reopen;
pub use withdrawing::{
    TwoAnswers, WithdrawError, Withdrawal, import_and_withdraw, import_withdraw_and_answer,
};
