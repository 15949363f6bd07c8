//! Destinations: whether a message is for a processor, and which of two has the lower priority (SDM volume 3, determining
//! IPI destination, lowest priority delivery).
#![tactic(auto)]

ghost use Rattle.std.specs.Prelude.{◌≡◌, ℕ, ◌<◌, ◌↔◌, IsTrue};
ghost use Rattle.dest_match.specs.Match.{does_match, matches_logical, matches_in_model, share_a_bit};

mod destination;

pub use destination::BROADCAST;
use irq_base::{DestView, Message};

const FLAT: u32 = 0b1111;

const CLUSTER: u32 = 0b0000;

/// Whether the message is for the processor of this view. A physical destination is a number, or FFh for all. A logical
/// one is compared with LDR by the model of DFR, FFh being all.
pub fn matches(view: &DestView, message: &Message) -> bool
    ensures { result ≡ does_match view.now message.now }
{
    if message.logical {
        matches_logical(view, message.dest)
    } else {
        message.dest == BROADCAST || message.dest == view.number as u32
    }
}

/// Whether the processor priority of `a` is below that of `b`.
pub fn better(a: &DestView, b: &DestView) -> bool
    ensures { IsTrue result ↔ (a.now.ppr < b.now.ppr) }
{
    a.ppr < b.ppr
}

// Whether a logical destination is for the processor.
fn matches_logical(view: &DestView, dest: u32) -> bool
    ensures { result ≡ matches_logical view.now dest }
{
    let DestView { ldr, dfr, .. } = *view;
    if dest == BROADCAST {
        true
    } else if dest > 0xff {
        false
    } else {
        matches_in_model(dfr >> 28, (ldr >> 24) as u8, dest as u8)
    }
}

// Whether a destination of eight bits names the logical identity in the model.
fn matches_in_model(model: u32, identity: u8, dest: u8) -> bool
    ensures { result ≡ matches_in_model model identity dest }
{
    match model {
        FLAT => share_a_bit(dest, identity),
        CLUSTER => dest >> 4 == identity >> 4 && share_a_bit(dest & 0xf, identity & 0xf),
        _ => false,
    }
}

// Whether a bit is set in both.
#[tactic(auto, using(crate::proofs::Bits::share_rules))]
fn share_a_bit(a: u8, b: u8) -> bool
    ensures { result ≡ share_a_bit a b }
{
    a & b != 0
}
