//! What a processor would be given now.
ghost use Rattle.std.specs.Prelude.{◌≡◌, ◌<◌, length, option_map};
ghost use Rattle.board_raise.specs.declared.parts.PicPart.{PicPart};
ghost use Rattle.board_raise.specs.OnRow.{apic_in};
ghost use Rattle.board_step.specs.Due.{due_by, due_in};

use board_calls::hears_pair;
use board_raise::Parts;
use lapic::Lapic;
use pic_8259a::Pair;

/// What an `Ack` by a processor would answer now.
#[derive(Clone, Copy, Debug, PartialEq, Eq)]
pub enum Due {
    /// There is nothing to give.
    None,
    /// A pending NMI.
    Nmi,
    /// An interrupt of the 8259A pair through LINT0; its vector is told by the acknowledge cycle.
    Extint,
    /// The vector that the local APIC gives.
    Vector(u8),
}

// What the local APIC of processor n and the pair would give it.
fn due_of(lapic: &Lapic, pair: &Pair, n: u16) -> Due
    ensures { result ≡ due_by n lapic.now pair.now }
{
    if lapic.has_nmi() {
        return Due::Nmi;
    }
    if hears_pair(lapic, n) && pair.output() {
        return Due::Extint;
    }
    match lapic.giveable() {
        None => Due::None,
        Some(vector) => Due::Vector(vector),
    }
}

// What processor n would be given by the parts in hand.
pub(crate) fn due_in_hand(parts: &Parts, n: u16) -> Due
    requires { n < length parts.now.lapics }
    ensures { result ≡ due_in n (apic_in parts.now.lapics n) (option_map (λ (part : PicPart). part.pair) parts.now.pic) }
{
    match (parts.lapics.at(n), &parts.pic) {
        (Some(lapic), Some(pic)) => due_of(lapic, &pic.pair, n),
        _ => Due::None,
    }
}
