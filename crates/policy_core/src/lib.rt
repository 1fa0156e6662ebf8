//! Who may read which message: a policy is a list of named rules, and the first rule that fits decides.
#![tactic(auto)]

mod access;
mod conditions;
mod faults;
mod keys;
mod names;
mod reading;
mod rule_reading;
mod rules;
mod words;

pub use access::{Facts, GrantKind, MOST_DAYS, Standing, Verdict, Withdrawn, WithdrawnBy};
pub use faults::PolicyFault;
pub use names::is_name;
pub use rules::Policy;
