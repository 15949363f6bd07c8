//! Working copies of the parts of a running board.
//!
//! While a call works on copies, each slot keeps its part as it was. To undo is to drop the copies; where the call has its
//! entry, the copies are written back. No memory is taken: a registry and counters are copied over those that stand there.
//!
//! Reading order of the definitions: `Copied` (what is taken in of a slot, and written back), `RoomStays`, `Gathering` (the parts
//! of a board as slots, and slots as parts).
#![tactic(auto)]

mod restoring;
mod row;
mod slots;

pub use restoring::restored;
pub use slots::{copy_slot, write_slot};
