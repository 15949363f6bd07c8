//! A local APIC (SDM volume 3, advanced programmable interrupt controller): its registers, how it takes a message, which
//! vector it gives next and which an end of interrupt ends.
//!
//! Contracts see `Lapic` as the record of `specs/Registers.antt`, with IRR, ISR and TMR as sets of vectors. Loads and
//! stores are defined register by register in `specs/Offsets.antt`, what is accepted in `specs/Messages.antt`, and the
//! order of vectors in `specs/Priority.antt`.
#![tactic(auto)]

mod chip;
mod outcome;
mod register;

pub use chip::{Lapic, registers_start_as_told};
pub use outcome::{Accepted, Effect, Ipi, Shorthand};
