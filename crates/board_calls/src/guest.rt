//! Accesses of the guest, and what a processor asks of its interrupts.
ghost use Rattle.std.specs.Prelude.{◌≡◌, ◌<◌, IsTrue, false, None, [], ◌∷◌, length};
ghost use Rattle.irq_base.specs.declared.shape.Shape.{Shape as Sizes};
ghost use Rattle.irq_base.specs.Refusals.{first_of};
ghost use Rattle.board_model.specs.Published.{routing_of_words};
ghost use Rattle.board_model.specs.Run.{run_on};
ghost use Rattle.board_raise.specs.Fit.{PinsFit};
ghost use Rattle.board_raise.specs.InHand.{parts_of, chips_of};
ghost use Rattle.board_calls.specs.Accesses.{store, load};
ghost use Rattle.board_calls.specs.Calls.{plan_in_range};
ghost use Rattle.board_calls.specs.Refusals.{range_reasons, does_fit};
ghost use Rattle.board_calls.specs.Done.{Replies, IsMissing, SameInHand, FitsShape};
ghost use Rattle.board_calls.specs.Families.{is_access, is_of_interrupts};
ghost use Rattle.board_calls.specs.Told.{TellsOn};

use crate::asks::next_interrupt;
use crate::ends::end_of_interrupt;
use crate::ioapic::{ioapic_load, ioapic_store};
use crate::page::{lapic_load, lapic_store};
use crate::pair::{inta, port_in, port_out};
use crate::range::{is_ioapic_address, is_lapic_address};
use crate::ring::ring;
use board_raise::{Lacks, Rig};
use irq_base::{Call, Events, Reply, Shape, Space};

/// Processor n writes to a port or to memory, or reads there. The call is one that `refused_by_range` does not refuse, and the
/// parts in hand fit the shape.
///
/// The reply is that of the call's plan on the parts in hand, by the published words for which the rig stands, and the parts
/// and the wishes are left as that leaves them; its events stand after those that stood there, but for what finds no room.
/// `Lacks` names a part that is not in hand, the one that the plan lacks, and then nothing is promised of the parts' values.
/// Where the rig is astray, the reply may be another; a part that is named is not in hand there either. The same parts are in
/// hand after the call as before it, and they fit the shape.
pub fn guest_access<R: Rig>(
    rig: &mut R,
    shape: &Shape,
    n: u16,
    call: &Call,
    events: &mut Events,
) -> Result<Reply, Lacks>
    requires kind { IsTrue (is_access call.now) }
    requires range { first_of (range_reasons shape.now call.now) ≡ None }
    requires processor { n < shape.now.cpus }
    requires fits { FitsShape shape.now (R.held rig.old) }
    ensures does { R.astray rig.new ≡ false →
        TellsOn (λ reply. reply ∷ []) result events.old.items events.new.items (parts_of (R.held rig.new)) (R.wishes rig.new)
        (run_on (plan_in_range (routing_of_words (R.published rig.old)) shape.now n call.now) (parts_of (R.held rig.old))
        (R.wishes rig.old)) }
    ensures missing { IsMissing result (R.held rig.old) }
    ensures held { SameInHand (R.held rig.old) (R.held rig.new) }
    ensures fits { FitsShape shape.now (R.held rig.new) }
    ensures published { R.published rig.new ≡ R.published rig.old }
    ensures strays { R.astray rig.new ≡ false → R.astray rig.old ≡ false }
    ensures noted { R.noted rig.new ≡ R.noted rig.old }
{
    match call {
        Call::PortOut { port, len, value } => port_out(rig, shape, *port, *len, *value, events),
        Call::PortIn { port, len } => port_in(rig, shape, *port, *len, events),
        Call::Store {
            address,
            len,
            value,
        } => store(rig, shape, n, *address, *len, *value, events),
        Call::Load { address, len } => load(rig, n, *address, *len),
        _ => unreachable!(),
    }
}

// Processor n writes to memory: to the I/O APIC, to its own local APIC, or to an address of no chip.
fn store<R: Rig>(
    rig: &mut R,
    shape: &Shape,
    n: u16,
    address: u64,
    len: u8,
    value: u64,
    events: &mut Events,
) -> Result<Reply, Lacks>
    requires processor { n < shape.now.cpus }
    requires value { IsTrue (does_fit value len) }
    requires fits { FitsShape shape.now (R.held rig.old) }
    ensures does { R.astray rig.new ≡ false →
        TellsOn (λ reply. reply ∷ []) result events.old.items events.new.items (parts_of (R.held rig.new)) (R.wishes rig.new)
        (run_on (store (routing_of_words (R.published rig.old)) shape.now n address len value) (parts_of (R.held rig.old))
        (R.wishes rig.old)) }
    ensures missing { IsMissing result (R.held rig.old) }
    ensures held { SameInHand (R.held rig.old) (R.held rig.new) }
    ensures fits { FitsShape shape.now (R.held rig.new) }
    ensures published { R.published rig.new ≡ R.published rig.old }
    ensures strays { R.astray rig.new ≡ false → R.astray rig.old ≡ false }
    ensures noted { R.noted rig.new ≡ R.noted rig.old }
{
    if is_ioapic_address(address) {
        ioapic_store(
            rig,
            shape,
            (address - 0xfec0_0000) as u8,
            len,
            value,
            events,
        )
    } else if is_lapic_address(address) {
        let offset = (address - 0xfee0_0000) as u16;
        lapic_store(rig, shape, n, offset, len, value, events)
    } else {
        ring(rig, shape, Space::Memory, address, len, value, events)
    }
}

// Processor n reads memory: the I/O APIC or its own local APIC; an address of no chip is the monitor's.
fn load<R: Rig>(rig: &mut R, n: u16, address: u64, len: u8) -> Result<Reply, Lacks>
    requires place { n < length (R.held rig.old).lapics }
    requires pins { PinsFit (chips_of (R.held rig.old)) }
    ensures does { Replies (load n address len) (R.held rig.old) (R.wishes rig.old) result (R.held rig.new) (R.wishes rig.new) }
    ensures missing { IsMissing result (R.held rig.old) }
    ensures held { SameInHand (R.held rig.old) (R.held rig.new) }
    ensures fits { (shape : Sizes) → FitsShape shape (R.held rig.old) → FitsShape shape (R.held rig.new) }
    ensures published { R.published rig.new ≡ R.published rig.old }
    ensures strays { R.astray rig.new ≡ false → R.astray rig.old ≡ false }
    ensures noted { R.noted rig.new ≡ R.noted rig.old }
{
    if is_ioapic_address(address) {
        ioapic_load(rig.parts(), (address - 0xfec0_0000) as u8, len)
    } else if is_lapic_address(address) {
        lapic_load(rig, n, (address - 0xfee0_0000) as u16, len)
    } else {
        Ok(Reply::Exit)
    }
}

/// Processor n asks for its next interrupt or ends the greatest that it serves, or processor 0 makes an acknowledge cycle of the
/// 8259A pair. The parts in hand fit the shape.
///
/// What it promises is what `guest_access` promises.
pub fn processor_call<R: Rig>(
    rig: &mut R,
    shape: &Shape,
    n: u16,
    call: &Call,
    events: &mut Events,
) -> Result<Reply, Lacks>
    requires kind { IsTrue (is_of_interrupts call.now) }
    requires processor { n < shape.now.cpus }
    requires fits { FitsShape shape.now (R.held rig.old) }
    ensures does { R.astray rig.new ≡ false →
        TellsOn (λ reply. reply ∷ []) result events.old.items events.new.items (parts_of (R.held rig.new)) (R.wishes rig.new)
        (run_on (plan_in_range (routing_of_words (R.published rig.old)) shape.now n call.now) (parts_of (R.held rig.old))
        (R.wishes rig.old)) }
    ensures missing { IsMissing result (R.held rig.old) }
    ensures held { SameInHand (R.held rig.old) (R.held rig.new) }
    ensures fits { FitsShape shape.now (R.held rig.new) }
    ensures published { R.published rig.new ≡ R.published rig.old }
    ensures strays { R.astray rig.new ≡ false → R.astray rig.old ≡ false }
    ensures noted { R.noted rig.new ≡ R.noted rig.old }
{
    match call {
        Call::Ack => next_interrupt(rig, shape, n, events),
        Call::Inta => inta(rig, shape, events),
        Call::Eoi => end_of_interrupt(rig, shape, n, events),
        _ => unreachable!(),
    }
}
