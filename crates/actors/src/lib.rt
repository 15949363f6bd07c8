//! The actors of a script, each on a thread of its own.
//!
//! An actor asks its calls through its `Face`, be it a way to a running board or to a board on one thread. `run_faces` runs all
//! actors of a script and gathers the entries of their calls by their places.
//!
//! Reading order of the definitions: `Turns` (the calls of one actor, and what its face tells of them), `Runs` (those of all).
#![tactic(auto)]

mod gathering;
mod kept;
mod playing;
mod running;
mod seats;

pub use running::{RunLog, RunStop, run_faces};
