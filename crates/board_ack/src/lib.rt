//! The acknowledge of a pin: who is told of it, and what may be requested again.
//!
//! Reading order of the definitions: `Ticks` (a tick is injected), `Acknowledge` (one acknowledge, in its five steps), `OnHand`
//! (what it tells and changes on the parts in hand), and then what holds of it: `ReachLaws`. The function without a body is a
//! law: its contract is what holds.
#![tactic(auto)]

mod concerned;
mod entry;
mod on_rig;
mod ticks;

ghost use Rattle.board_ack.specs.ReachLaws.{AcknowledgesReachTheSame};

pub use concerned::concern;
pub use entry::{end_level, resend};
pub use on_rig::ack_pin;
pub use ticks::{end_tick, inject_tick};

/// A law: an acknowledge looks at and writes the parts that its GSI concerns, the I/O APIC where the pin is there, the tick
/// where the GSI is its own, and the local APICs of each message that is sent, the same under all wishes.
pub fn acknowledges_reach_the_same()
    ensures { AcknowledgesReachTheSame }
{}
