//! Ticks that wait: where a tick falls while the one before it is not acknowledged, it is kept and injected later (tick
//! reinjection, KVM_REINJECT_CONTROL).
//!
//! Contracts see `TickState` as the record of its fields; what each call does to it is told in `specs/Ticks.antt`.
#![tactic(auto)]

mod state;

pub use state::TickState;
