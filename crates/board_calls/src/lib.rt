//! What each call of a board does, and the calls in code, on the parts of a board that a rig holds: each does there what its
//! plan does.
//!
//! Reading order of the definitions: `Refusals` (why a call is refused), `Registrations`, `Ticks`, `Processors` and `Accesses`
//! (what each call does), `Calls` (all of them); and of the code: `Families` (which call has which function), `Done` (what a
//! call in code is to its plan: reply, parts and wishes are the plan's, or what is lacking is), `Told` (events past their
//! room), `Moved` (holds of pins whose GSI moves), `Pieces` (the first steps of calls that signal after them), `Accessed` (those
//! of accesses of the guest), `Own` (those of what a processor does with its own local APIC).
#![tactic(auto)]

mod acks;
mod asks;
mod counters;
mod ends;
mod families;
mod guest;
mod ioapic;
mod irqfds;
mod page;
mod pair;
mod range;
mod refusals;
mod registrations;
mod reroute;
mod ring;
mod signals;
mod ticks;

pub use asks::hears_pair;
pub use families::{device_call, registration, tick_call};
pub use guest::{guest_access, processor_call};
pub use range::{is_ioapic_address, is_lapic_address, is_port, refused_by_range};
pub use refusals::{assign_refusal, unwatch_refusal, watch_refusal};
