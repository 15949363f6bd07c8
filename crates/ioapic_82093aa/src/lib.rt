//! The 82093AA I/O APIC: 24 pins, each with a redirection entry.
//!
//! Contracts see an `Ioapic` as the list of its entries, records of named fields, with the set of its high pins, the index
//! that IOREGSEL keeps, and the identity. `specs/Entries.antt` tells how the two words of an entry read and what a write
//! leaves, `specs/Registers.antt` which register an index selects, and `specs/Pins.antt` what each access, each pin and
//! each acknowledge does. Source: the 82093AA data sheet.
#![tactic(auto)]

mod entries;
mod entry;
mod ioapic;
mod pins;
mod registers;

pub use ioapic::{Ioapic, Raise, registers_start_as_told, words_tell_the_entry};
pub use pins::Pins;
