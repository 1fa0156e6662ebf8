//! The threader that notes what it is asked, as the tests of results have it.
pub use results_tests::noting::Noting;
