//! The summary of a generated script: what a replay of it counts.
#![tactic(auto)]

mod counting;
mod kind;
mod laws;
mod summary;

pub use kind::Kind;
pub use laws::summaries_are_one;
pub use summary::sum;
