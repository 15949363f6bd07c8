//! Generated scripts: a storm of calls by all processors and two devices, as a function of three numbers.
//!
//! The numbers are where the draws start, how many lines are drawn, and how many processors there are. The draws are the words of
//! PCG XSH RR 64/32 (`rand_pcg`'s `Pcg32`), so that the same numbers give the same script on every machine.
#![tactic(auto)]

mod drawing;
mod laws;
mod setting_up;
mod text;

pub use laws::workloads_are_read;
pub use text::generate;
