//! Working copies of the parts that a pen holds: taken in from their slots, and written back.
//!
//! While a call works on copies, each slot keeps its part as the history has it. To undo is to drop the copies; where the entry
//! of the call was committed, the copies are written back. `copy_each` and `write_each` go through a list of parts in hand.
#![tactic(auto)]

mod copies;

pub use copies::{Copies, copy_each, write_each};
