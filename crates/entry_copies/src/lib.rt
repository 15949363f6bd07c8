//! Copies of calls and events, and entries made of them.
#![tactic(auto)]

mod copies;
mod entries;

pub use entries::copied_entry;
