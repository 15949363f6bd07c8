//! Processors access the I/O APIC (82093AA data sheet).
ghost use Rattle.std.specs.Prelude.{◌≡◌, ◌<◌, ◌*◌, ◌^◌, IfSome, IfOk, [], ◌∷◌, Some};
ghost use Rattle.irq_base.specs.declared.shape.Shape.{Shape as Sizes};
ghost use Rattle.board_model.specs.Published.{routing_of_words};
ghost use Rattle.board_model.specs.Run.{Wishes, run_on};
ghost use Rattle.board_raise.specs.Fit.{PinsFit};
ghost use Rattle.board_raise.specs.InHand.{parts_of, chips_of};
ghost use Rattle.board_raise.specs.Shown.{DoesQuietly};
ghost use Rattle.board_ack.specs.OnHand.{Adds};
ghost use Rattle.board_calls.specs.Accesses.{resend_written, ioapic_store, ioapic_load};
ghost use Rattle.board_calls.specs.Accessed.{storing, due_again};
ghost use Rattle.board_calls.specs.Done.{Replies, IsMissing, SameInHand, FitsShape};
ghost use Rattle.board_calls.specs.Told.{TellsOn};

use board_ack::resend;
use board_raise::{Lacks, Parts, Rig};
use irq_base::{Events, Message, Part, Reply, Shape};

/// A processor stores to the I/O APIC, at an offset from its first address, the value having so many bytes: `Done`. The chip
/// takes length 4, and of another length nothing. A pin whose entry was written sends its message again where that is due, with
/// the event `Resent`.
pub fn ioapic_store<R: Rig>(
    rig: &mut R,
    shape: &Shape,
    offset: u8,
    len: u8,
    value: u64,
    events: &mut Events,
) -> Result<Reply, Lacks>
    requires value { value < 2 ^ (8 * len) }
    requires fits { FitsShape shape.now (R.held rig.old) }
    ensures does { TellsOn (λ reply. reply ∷ []) result events.old.items events.new.items (parts_of (R.held rig.new)) (R.wishes rig.new)
        (run_on (ioapic_store shape.now offset len value) (parts_of (R.held rig.old)) (R.wishes rig.old)) }
    ensures missing { IsMissing result (R.held rig.old) }
    ensures held { SameInHand (R.held rig.old) (R.held rig.new) }
    ensures fits { FitsShape shape.now (R.held rig.new) }
    ensures published { R.published rig.new ≡ R.published rig.old }
    ensures strays { R.astray rig.new ≡ R.astray rig.old }
    ensures noted { R.noted rig.new ≡ R.noted rig.old }
{
    let pin = match write(rig.parts(), offset, len, value) {
        Ok(pin) => pin,
        Err(lacks) => return Err(lacks),
    };
    match resend_written(rig, shape, pin, events) {
        Ok(()) => Ok(Reply::Done),
        Err(lacks) => Err(lacks),
    }
}

/// A processor loads from the I/O APIC, at an offset from its first address: `Value`, which is 0 in another length than 4.
pub fn ioapic_load(parts: &Parts, offset: u8, len: u8) -> Result<Reply, Lacks>
    requires { PinsFit (chips_of parts.now) }
    ensures does { (ws : Wishes) → Replies (ioapic_load offset len) parts.now ws result parts.now ws }
    ensures missing { IsMissing result parts.now }
{
    match &parts.ioapic {
        None => Err(Lacks { part: Part::Ioapic }),
        Some(ioapic) => {
            let value = if len == 4 { ioapic.read(offset) } else { 0 };
            Ok(Reply::Value(value as u64))
        }
    }
}

// A pin whose entry was written, if any, is looked at again: it is sent where it is due.
fn resend_written<R: Rig>(
    rig: &mut R,
    shape: &Shape,
    pin: Option<u8>,
    events: &mut Events,
) -> Result<(), Lacks>
    requires pin { IfSome pin (λ p. p < 24) }
    requires fits { FitsShape shape.now (R.held rig.old) }
    ensures does { Adds result events.old.items events.new.items (parts_of (R.held rig.new)) (R.wishes rig.new)
        (run_on (resend_written shape.now pin) (parts_of (R.held rig.old)) (R.wishes rig.old)) }
    ensures missing { IsMissing result (R.held rig.old) }
    ensures held { SameInHand (R.held rig.old) (R.held rig.new) }
    ensures fits { FitsShape shape.now (R.held rig.new) }
    ensures published { R.published rig.new ≡ R.published rig.old }
    ensures strays { R.astray rig.new ≡ R.astray rig.old }
    ensures noted { R.noted rig.new ≡ R.noted rig.old }
{
    match pin {
        None => Ok(()),
        Some(pin) => resend_due(rig, shape, pin, events),
    }
}

// The same of a pin.
fn resend_due<R: Rig>(rig: &mut R, shape: &Shape, pin: u8, events: &mut Events) -> Result<(), Lacks>
    requires pin { pin < 24 }
    requires fits { FitsShape shape.now (R.held rig.old) }
    ensures does { Adds result events.old.items events.new.items (parts_of (R.held rig.new)) (R.wishes rig.new)
        (run_on (resend_written shape.now (Some pin)) (parts_of (R.held rig.old)) (R.wishes rig.old)) }
    ensures missing { IsMissing result (R.held rig.old) }
    ensures held { SameInHand (R.held rig.old) (R.held rig.new) }
    ensures fits { FitsShape shape.now (R.held rig.new) }
    ensures published { R.published rig.new ≡ R.published rig.old }
    ensures strays { R.astray rig.new ≡ R.astray rig.old }
    ensures noted { R.noted rig.new ≡ R.noted rig.old }
{
    match due_again(rig.parts(), pin) {
        Ok(None) => Ok(()),
        Ok(Some(message)) => resend(rig, shape.cpus, pin, &message, events),
        Err(lacks) => Err(lacks),
    }
}

// The message that a pin is to send again, if it is.
fn due_again(parts: &Parts, pin: u8) -> Result<Option<Message>, Lacks>
    requires pin { pin < 24 }
    requires pins { PinsFit (chips_of parts.now) }
    ensures does { (ws : Wishes) →
        DoesQuietly (λ message. message) result (parts_of parts.now) ws (run_on (due_again pin) (parts_of parts.now) ws) }
    ensures missing { IsMissing result parts.now }
{
    match &parts.ioapic {
        None => Err(Lacks { part: Part::Ioapic }),
        Some(ioapic) => Ok(ioapic.resend(pin)),
    }
}

// A store to the I/O APIC in hand, which takes length 4; the pin whose entry was written, if any.
#[tactic(auto, using(crate::proofs::InHand::in_hand_rules))]
fn write(parts: &mut Parts, offset: u8, len: u8, value: u64) -> Result<Option<u8>, Lacks>
    requires value { value < 2 ^ (8 * len) }
    requires pins { PinsFit (chips_of parts.old) }
    ensures does { (ws : Wishes) →
        DoesQuietly (λ pin. pin) result (parts_of parts.new) ws (run_on (storing offset len value) (parts_of parts.old) ws) }
    ensures missing { IsMissing result parts.old }
    ensures in_range { IfOk result (λ pin. IfSome pin (λ p. p < 24)) }
    ensures held { SameInHand parts.old parts.new }
    ensures fits { (shape : Sizes) → FitsShape shape parts.old → FitsShape shape parts.new }
{
    match &mut parts.ioapic {
        None => Err(Lacks { part: Part::Ioapic }),
        Some(ioapic) => {
            if len == 4 {
                Ok(ioapic.write(offset, value as u32))
            } else {
                Ok(None)
            }
        }
    }
}
