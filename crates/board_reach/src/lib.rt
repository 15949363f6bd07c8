//! What a call reaches, asked of a board before the call: a closed form of the table of reach, which runs no step.
//!
//! The table itself stands in `board_step` (`Reach`), and so do its laws. Reading order here: the definitions of `ReachNow` and
//! `Seen`, then `signals`, `acks`, `registrations`, `accesses`, and `calls`, which puts them together. `Reach` asks it of a
//! `Board`.
#![tactic(auto)]

mod accesses;
mod acks;
mod board;
mod calls;
mod registrations;
mod seen;
mod signals;

pub use board::{Reach, reach_is_now};
