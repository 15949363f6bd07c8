//! What is requested of a processor.
ghost use Rattle.std.specs.Prelude.{◌≡◌, ◌<◌, length};
ghost use Rattle.board_raise.specs.OnRow.{apic_in};
ghost use Rattle.board_step.specs.Requests.{requests_in, nmi_in};

use board_raise::Parts;
use irq_bits::Set256;

// The vectors that are requested of processor n's local APIC; none where that is not in hand.
pub(crate) fn requests_in_hand(parts: &Parts, n: u16) -> Set256
    requires { n < length parts.now.lapics }
    ensures { result ≡ requests_in (apic_in parts.now.lapics n) }
{
    match parts.lapics.at(n) {
        None => Set256::empty(),
        Some(lapic) => lapic.requests(),
    }
}

// Whether an NMI is pending at processor n's local APIC; not where that is not in hand.
pub(crate) fn nmi_in_hand(parts: &Parts, n: u16) -> bool
    requires { n < length parts.now.lapics }
    ensures { result ≡ nmi_in (apic_in parts.now.lapics n) }
{
    match parts.lapics.at(n) {
        None => false,
        Some(lapic) => lapic.has_nmi(),
    }
}
