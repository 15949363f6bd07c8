//! Counters in the manner of eventfd (eventfd(2)): a count each, which a write adds to, a signal adds one to, and a read
//! takes whole.
//!
//! Contracts see `Counters` as the list of its counts, each at most 2^64 - 2.
#![tactic(auto)]

mod counters;

pub use counters::{Counters, Over};
