//! The pair of 8259A interrupt controllers of a PC: master and slave in cascade, with their edge/level registers.
//!
//! Contracts see a `Pair` as two chips, each with sets of levels for its mask (IMR), its edge latches, its high pins, its
//! in-service register (ISR) and its edge/level register (ELCR), with its vector base, its level of lowest priority and
//! its modes. `specs/Priority.antt` tells which level is the top, `specs/Accesses.antt` what each word, read, acknowledge
//! and pin does to one chip, and `specs/Pair.antt` what the ports, the sixteen pins and the acknowledge cycle do to the
//! pair. Source: the 8259A data sheet.
#![tactic(auto)]

mod chip;
mod levels;
mod pair;
mod ports;

pub use chip::PinOutcome;
pub use pair::{AckedPins, Pair};
pub use ports::ports_start_as_told;
