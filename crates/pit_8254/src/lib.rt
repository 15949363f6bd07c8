//! Channel 0 of an 8254 interval timer that ticks on a board.
//!
//! The guest programs it over the ports 40h and 43h, and the monitor advances it by the clocks that went by: each tick is asked of the
//! board by the `Face` of a device. It counts in binary, in modes 0, 2, 3 and 4. When ticks fall, what stops the channel and what a read
//! of the count gives are this project's own rules, after the 8254; they say nothing of that part's counting element.
//!
//! Reading order of the definitions: `Words` (control words), `Clocks` (what a clock does, and the ticks of many), `Accesses` (what the
//! two ports do), `Asks` (what a face gains), `Operations` (one access or some clocks, and lists of them).
#![tactic(auto)]

mod channel;
mod countdown;
mod pit;
mod ticking;
mod words;

pub use pit::{CHANNEL_PORT, CONTROL_PORT, Pit};
pub use ticking::PitSpent;
