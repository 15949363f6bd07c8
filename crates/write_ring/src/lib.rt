//! A ring of coalesced writes: guest writes that would leave for the monitor are put into one queue, which a device empties
//! (after KVM's coalesced MMIO ring, `KVM_REGISTER_COALESCED_MMIO`). The capacity of 128 writes and the rules are this project's
//! own.
//!
//! `WriteRing` is shared by threads; it holds one book of turns with one part, the queue. `RingDesk` makes the passes, numbered
//! from 0. A `RingPass` is one caller's way to the ring: it knows a list of entries, which begins the one history of the ring. A
//! `RingNote` carries what a pass has seen to another pass.
//!
//! # What each call promises
//!
//! - **One history of a queue**: each list that a pass, a note or the desk has seen is a list of puts and takes from the empty
//!   queue, each with the answer of a queue with room for 128 writes (`IsRingHistory` of `specs/Ring.antt`; clauses `legal`).
//! - **A call stands once in it**, after all that its pass had seen, with its answer (`IsEntered` of `specs/Seen.antt`; clauses
//!   `entered` of `WriteRing::put`, `try_put`, `take` and `try_take`). A call that was not answered has no entry (`stopped`,
//!   `spent`, `own`).
//! - **What was seen goes from pass to pass**: `WriteRing::note`, `WriteRing::learn` and `RingDesk::join`. The desk's list has of each
//!   pass joined just the entries that the pass had seen (`ended` and `just` of `RingDesk::join` and `RingDesk::pass`).
//! - **No write is lost**: along each such list the writes placed are the writes taken, and behind them those that stand
//!   (`no_write_is_lost`).
#![tactic(auto)]

mod asked;
mod attempting;
mod desk;
mod entering;
mod handling;
mod laws;
mod learning;
mod machine;
mod note;
mod opening;
mod pass;
mod putting;
mod queue;
mod ring;
mod stop;
mod taking;
mod write;

pub use desk::RingDesk;
pub use laws::no_write_is_lost;
pub use machine::{Ring, RingEntry, RingState};
pub use note::RingNote;
pub use pass::RingPass;
pub use queue::RingQueue;
pub use ring::WriteRing;
pub use stop::{RingSpent, RingStop};
pub use turn_book::NoMemory;
pub use write::{RingPut, RingWrite, RingWrites};
