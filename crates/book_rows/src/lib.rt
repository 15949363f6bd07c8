//! Tests of the book of turns: over a machine of a few counters, one that publishes a number and one that publishes a registry, and of the ring
//! of coalesced writes, which is a machine of its own. The machines stand outside the tests, for the definitions speak of them; what asks them
//! is for tests alone.
#![tactic(auto)]

#[cfg(test)]
mod asking;
#[cfg(test)]
mod bank_calls;
mod bank_machine;
#[cfg(test)]
mod bank_publishing;
#[cfg(test)]
mod bank_reading;
#[cfg(test)]
mod bank_registries;
#[cfg(test)]
mod calls;
mod machine;
#[cfg(test)]
mod moving;
mod posting;
#[cfg(test)]
mod publishing;
#[cfg(test)]
mod readers;
#[cfg(test)]
mod ring_calls;
#[cfg(test)]
mod ring_reading;
#[cfg(test)]
mod ring_threads;
#[cfg(test)]
mod ring_writing;
#[cfg(test)]
mod several;
#[cfg(test)]
mod threads;

pub use bank_machine::{Board, Change as Routed, Registry, Routing, TICK};
pub use machine::{Change, Counting, Counts};
pub use posting::{Post, Posting, Posts};
