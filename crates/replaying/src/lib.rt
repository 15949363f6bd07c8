//! A script replayed: its lines asked of a board on one thread, in the order of the file.
#![tactic(auto)]

mod laws;
mod player;
mod running;
mod stops;

pub use laws::replays_are_one;
pub use running::{Run, replay};
