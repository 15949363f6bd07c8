//! Step 4 of an acknowledge: a level-triggered redirection entry may be requested again.
ghost use Rattle.std.specs.Prelude.{◌≡◌, ◌<◌, ◌≤◌, length, IfErr, Some, false, is_some};
ghost use Rattle.irq_base.specs.declared.event.Pin.TheVariants.{Ioapic as IoapicPin};
ghost use Rattle.route_table.specs.Pins.{IsPin};
ghost use Rattle.board_model.specs.Hand.{part_in};
ghost use Rattle.board_model.specs.Run.{Wishes, run_on};
ghost use Rattle.board_raise.specs.Fit.{IoapicFits, PinsFit};
ghost use Rattle.board_raise.specs.InHand.{ioapic_of, parts_of, chips_of, OnlyPinsChange};
ghost use Rattle.board_raise.specs.Shown.{DoesQuietly};
ghost use Rattle.board_ack.specs.Acknowledge.{resend, end_level};
ghost use Rattle.board_ack.specs.OnHand.{Adds, end_entry, entry_ended, sent_again, OnlyAcked};
ghost use Rattle.irq_bits.specs.declared.limits.TheConstants.{MAX_CPUS};

use board_raise::{IoPart, Lacks, Parts, Rig, send_of_pin};
use irq_base::{Event, Events, Message, Part, Pin, tell};

/// The interrupt of a pin has ended: of a level-triggered entry of the I/O APIC remote IRR is cleared, and its message is sent
/// again where the pin is still high and unmasked (SDM volume 3, level-triggered interrupts and EOI). A pin of the 8259A pair
/// has no entry.
#[tactic(auto, using(crate::proofs::Adding::told_rules))]
pub fn end_level<R: Rig>(rig: &mut R, cpus: u16, pin: Pin, events: &mut Events) -> Result<(), Lacks>
    requires few_cpus { cpus ≤ MAX_CPUS }
    requires places { length (R.held rig.old).lapics ≡ cpus }
    requires pins { PinsFit (chips_of (R.held rig.old)) }
    requires pin { IsPin pin }
    ensures does { Adds result events.old.items events.new.items (parts_of (R.held rig.new)) (R.wishes rig.new)
        (run_on (end_level cpus pin) (parts_of (R.held rig.old)) (R.wishes rig.old)) }
    ensures missing { IfErr result (λ l. is_some (part_in (parts_of (R.held rig.old)) l.part) ≡ false) }
    ensures kept { OnlyAcked (R.held rig.old) (R.held rig.new) }
    ensures pins { PinsFit (chips_of (R.held rig.new)) }
    ensures published { R.published rig.new ≡ R.published rig.old }
    ensures strays { R.astray rig.new ≡ R.astray rig.old }
    ensures noted { R.noted rig.new ≡ R.noted rig.old }
{
    match pin {
        Pin::Pic(_) => Ok(()),
        Pin::Ioapic(pin) => end_ioapic(rig, cpus, pin, events),
    }
}

// The same of a pin of the I/O APIC.
#[tactic(auto, using(crate::proofs::Adding::told_rules))]
fn end_ioapic<R: Rig>(rig: &mut R, cpus: u16, pin: u8, events: &mut Events) -> Result<(), Lacks>
    requires few_cpus { cpus ≤ MAX_CPUS }
    requires places { length (R.held rig.old).lapics ≡ cpus }
    requires pins { PinsFit (chips_of (R.held rig.old)) }
    requires pin { pin < 24 }
    ensures does { Adds result events.old.items events.new.items (parts_of (R.held rig.new)) (R.wishes rig.new)
        (run_on (end_level cpus (IoapicPin pin)) (parts_of (R.held rig.old)) (R.wishes rig.old)) }
    ensures missing { IfErr result (λ l. is_some (part_in (parts_of (R.held rig.old)) l.part) ≡ false) }
    ensures kept { OnlyAcked (R.held rig.old) (R.held rig.new) }
    ensures pins { PinsFit (chips_of (R.held rig.new)) }
    ensures published { R.published rig.new ≡ R.published rig.old }
    ensures strays { R.astray rig.new ≡ R.astray rig.old }
    ensures noted { R.noted rig.new ≡ R.noted rig.old }
{
    let parts = rig.parts();
    let message = match end_entry(parts, pin) {
        Ok(message) => message,
        Err(lacks) => return Err(lacks),
    };
    match message {
        None => Ok(()),
        Some(message) => resend(rig, cpus, pin, &message, events),
    }
}

/// The message of a pin of the I/O APIC, of 0 to 23, is sent again, and the event `Resent` tells it with its status.
///
/// There is room for 640 events; what finds none is left out. `Lacks` names the first part that is not in hand.
pub fn resend<R: Rig>(
    rig: &mut R,
    cpus: u16,
    pin: u8,
    message: &Message,
    events: &mut Events,
) -> Result<(), Lacks>
    requires few_cpus { cpus ≤ MAX_CPUS }
    requires places { length (R.held rig.old).lapics ≡ cpus }
    requires pins { PinsFit (chips_of (R.held rig.old)) }
    requires pin { pin < 24 }
    ensures does { Adds result events.old.items events.new.items (parts_of (R.held rig.new)) (R.wishes rig.new)
        (run_on (resend cpus pin (Some message.now)) (parts_of (R.held rig.old)) (R.wishes rig.old)) }
    ensures kept { OnlyAcked (R.held rig.old) (R.held rig.new) }
    ensures pins { PinsFit (chips_of (R.held rig.new)) }
    ensures published { R.published rig.new ≡ R.published rig.old }
    ensures strays { R.astray rig.new ≡ R.astray rig.old }
    ensures noted { R.noted rig.new ≡ R.noted rig.old }
{
    match send_of_pin(rig, cpus, pin, message) {
        Ok(status) => {
            tell(Event::Resent { pin, status }, events);
            Ok(())
        }
        Err(lacks) => Err(lacks),
    }
}

// Remote IRR of a level-triggered entry is cleared, and the message is told that is to be sent again.
fn end_entry(parts: &mut Parts, pin: u8) -> Result<Option<Message>, Lacks>
    requires pin { pin < 24 }
    requires fits { PinsFit (chips_of parts.old) }
    ensures does { (ws : Wishes) →
        DoesQuietly (λ message. message) result (parts_of parts.new) ws (run_on (end_entry pin) (parts_of parts.old) ws) }
    ensures kept { OnlyPinsChange parts.old parts.new }
    ensures fits { PinsFit (chips_of parts.new) }
{
    match &mut parts.ioapic {
        None => Err(Lacks { part: Part::Ioapic }),
        Some(part) => Ok(end_entry_of(part, pin)),
    }
}

// The same of the I/O APIC in hand.
fn end_entry_of(part: &mut IoPart, pin: u8) -> Option<Message>
    requires pin { pin < 24 }
    requires fits { IoapicFits part.old.ioapic part.old.levels }
    ensures after { ioapic_of part.new ≡ entry_ended (ioapic_of part.old) pin }
    ensures message { result ≡ sent_again (ioapic_of part.old) pin }
    ensures fits { IoapicFits part.new.ioapic part.new.levels }
{
    if !part.ioapic.is_level(pin) {
        return None;
    }
    part.acked(pin);
    part.ioapic.resend(pin)
}
