//! A running board as the machine of a book: `impl Machine`, whose laws stand in `part_slots`.
#![tactic(auto)]

mod machine;

pub use machine::RunningBoard;
