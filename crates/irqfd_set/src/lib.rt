//! The irqfds of a board (KVM_IRQFD): which counter, the trigger, injects on which GSI, and which counter, if any, is
//! signalled when that GSI is acknowledged.
//!
//! Contracts see `Irqfds` as the list of its rows in order of registration (`specs/Rows.antt`). A row is found by its
//! trigger in one step, by an index (`specs/Index.antt`).
#![tactic(auto)]

mod irqfds;

pub use irqfds::{Irqfd, Irqfds};
