//! ioeventfds (KVM_IOEVENTFD): guest writes at an address, of a length and with a value if one is given, ring a counter.
//!
//! Contracts see `IoEvents` as the list of its rows in order of registration (`specs/Rows.antt`). A write finds its row by
//! an index in order of addresses (`specs/Index.antt`).
#![tactic(auto)]

mod events;
mod row;

pub use events::IoEvents;
pub use row::IoRow;
