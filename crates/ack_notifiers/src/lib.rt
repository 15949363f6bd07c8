//! Acknowledge notifiers: watches, each of which asks that a counter be signalled when a GSI is acknowledged.
//!
//! Contracts see `Watches` as the list of its rows in order of registration (`specs/Rows.antt`).
#![tactic(auto)]

mod watches;

pub use watches::{Watch, Watches};
