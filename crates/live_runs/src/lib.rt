//! A script run on a running board, a thread an actor.
//!
//! `run_on` makes a pass for each actor, lets all actors ask at the same time, and then lets the passes learn of each other. The history
//! of the run is what the first pass has then seen on that board.
//!
//! Reading order of the definitions: `Made` (the passes of the actors), `Running` (what a run is), and the code's own `Ran` and
//! `Telling`.
#![tactic(auto)]

mod facing;
mod making;
mod running;
mod telling;

pub use running::{RunOut, run_on};
