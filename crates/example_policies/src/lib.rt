//! The policies of `samples/`: whom each denies what was withdrawn or is held back, proved of its text.
#![tactic(auto)]

mod laws;

pub use laws::the_sample_policies_hide_withheld_messages;
