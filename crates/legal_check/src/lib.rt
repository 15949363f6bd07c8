//! The checker: whether a transcript is one legal run of a script on the one-thread board, and where it is not.
#![tactic(auto)]

mod actors;
mod checking;
mod ending;
mod laws;
mod same;
mod verdict;

pub use checking::check;
pub use laws::has_one_verdict;
pub use verdict::{Flaw, Verdict};
