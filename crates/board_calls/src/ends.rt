//! Vectors end, and the pins of the I/O APIC that have them are acknowledged (SDM volume 3, end of interrupt).
ghost use Rattle.std.specs.Prelude.{◌≡◌, ℕ, ◌<◌, false, [], ◌∷◌, length};
ghost use Rattle.irq_base.specs.declared.shape.Shape.{Shape as Sizes};
ghost use Rattle.irq_bits.specs.Members.{greatest_vector};
ghost use Rattle.lapic.specs.Priority.{ended};
ghost use Rattle.board_model.specs.Published.{routing_of_words};
ghost use Rattle.board_model.specs.Run.{Wishes, run_on};
ghost use Rattle.board_raise.specs.InHand.{parts_of};
ghost use Rattle.board_raise.specs.Shown.{DoesQuietly};
ghost use Rattle.board_ack.specs.Acknowledge.{acknowledge_each};
ghost use Rattle.board_ack.specs.OnHand.{Adds};
ghost use Rattle.board_calls.specs.Processors.{end_vector, end_of_interrupt, ended_reply};
ghost use Rattle.board_calls.specs.Done.{IsMissing, SameInHand, FitsShape};
ghost use Rattle.board_calls.specs.Told.{TellsOn};
ghost use Rattle.board_calls.specs.Own.{changing, pins_marked, pins_seen};

use board_ack::ack_pin;
use board_raise::{Lacks, Parts, Rig};
use ioapic_82093aa::Pins;
use irq_base::{Events, Part, Pin, Reply, Shape};

/// Processor n ends its interrupt: the greatest vector in service goes out of it, and is ended. `Ended` with the vector, or
/// `Nothing` where none was in service.
pub fn end_of_interrupt<R: Rig>(
    rig: &mut R,
    shape: &Shape,
    n: u16,
    events: &mut Events,
) -> Result<Reply, Lacks>
    requires cpu { n < shape.now.cpus }
    requires fits { FitsShape shape.now (R.held rig.old) }
    ensures does { R.astray rig.new ≡ false →
        TellsOn (λ reply. reply ∷ []) result events.old.items events.new.items (parts_of (R.held rig.new)) (R.wishes rig.new)
        (run_on (end_of_interrupt (routing_of_words (R.published rig.old)) shape.now n) (parts_of (R.held rig.old))
        (R.wishes rig.old)) }
    ensures missing { IsMissing result (R.held rig.old) }
    ensures held { SameInHand (R.held rig.old) (R.held rig.new) }
    ensures fits { FitsShape shape.now (R.held rig.new) }
    ensures published { R.published rig.new ≡ R.published rig.old }
    ensures strays { R.astray rig.new ≡ false → R.astray rig.old ≡ false }
    ensures noted { R.noted rig.new ≡ R.noted rig.old }
{
    let vector = match end_service(rig.parts(), n) {
        Ok(vector) => vector,
        Err(lacks) => return Err(lacks),
    };
    match end_vector(rig, shape, vector, events) {
        Ok(()) => Ok(ended_reply(vector)),
        Err(lacks) => Err(lacks),
    }
}

// The greatest vector in service of processor n goes out of it.
fn end_service(parts: &mut Parts, n: u16) -> Result<Option<u8>, Lacks>
    requires { n < length parts.old.lapics }
    ensures does { (ws : Wishes) →
        DoesQuietly (λ vector. vector) result (parts_of parts.new) ws
        (run_on (changing n ended (λ apic. greatest_vector apic.isr)) (parts_of parts.old) ws) }
    ensures missing { IsMissing result parts.old }
    ensures held { SameInHand parts.old parts.new }
    ensures fits { (shape : Sizes) → FitsShape shape parts.old → FitsShape shape parts.new }
{
    match parts.lapics.at_mut(n) {
        None => Err(Lacks {
            part: Part::Lapic(n),
        }),
        Some(lapic) => Ok(lapic.eoi()),
    }
}

// The answer of an end of interrupt.
fn ended_reply(vector: Option<u8>) -> Reply
    ensures { result ≡ ended_reply vector }
{
    match vector {
        None => Reply::Nothing,
        Some(vector) => Reply::Ended(vector),
    }
}

/// A vector has ended, or none: each pin of the I/O APIC, of 0 to 23 in order, whose entry has the vector as it ends is
/// acknowledged, masked or not, edge-triggered or level-triggered (after KVM).
pub fn end_vector<R: Rig>(
    rig: &mut R,
    shape: &Shape,
    vector: Option<u8>,
    events: &mut Events,
) -> Result<(), Lacks>
    requires { FitsShape shape.now (R.held rig.old) }
    ensures does { R.astray rig.new ≡ false →
        TellsOn (λ _. []) result events.old.items events.new.items (parts_of (R.held rig.new)) (R.wishes rig.new)
        (run_on (end_vector (routing_of_words (R.published rig.old)) shape.now vector) (parts_of (R.held rig.old))
        (R.wishes rig.old)) }
    ensures missing { IsMissing result (R.held rig.old) }
    ensures held { SameInHand (R.held rig.old) (R.held rig.new) }
    ensures fits { FitsShape shape.now (R.held rig.new) }
    ensures published { R.published rig.new ≡ R.published rig.old }
    ensures strays { R.astray rig.new ≡ false → R.astray rig.old ≡ false }
    ensures noted { R.noted rig.new ≡ R.noted rig.old }
{
    let Some(vector) = vector else {
        return Ok(());
    };
    match pins_in_hand(rig.parts(), vector) {
        Ok(marks) => acknowledge_marked(rig, shape, marks, events),
        Err(lacks) => Err(lacks),
    }
}

// The pins of the I/O APIC in hand whose entry has the vector.
fn pins_in_hand(parts: &Parts, vector: u8) -> Result<Pins, Lacks>
    ensures does { (ws : Wishes) →
        DoesQuietly (λ marks. pins_marked marks) result (parts_of parts.now) ws (run_on (pins_seen vector) (parts_of parts.now) ws) }
    ensures missing { IsMissing result parts.now }
{
    match &parts.ioapic {
        None => Err(Lacks { part: Part::Ioapic }),
        Some(part) => Ok(part.ioapic.pins_with(vector)),
    }
}

// Each pin of the I/O APIC that is marked is acknowledged, in order.
fn acknowledge_marked<R: Rig>(
    rig: &mut R,
    shape: &Shape,
    marks: Pins,
    events: &mut Events,
) -> Result<(), Lacks>
    requires { FitsShape shape.now (R.held rig.old) }
    ensures does { R.astray rig.new ≡ false →
        Adds result events.old.items events.new.items (parts_of (R.held rig.new)) (R.wishes rig.new)
        (run_on (acknowledge_each (routing_of_words (R.published rig.old)) shape.now (pins_marked marks))
        (parts_of (R.held rig.old)) (R.wishes rig.old)) }
    ensures missing { IsMissing result (R.held rig.old) }
    ensures held { SameInHand (R.held rig.old) (R.held rig.new) }
    ensures fits { FitsShape shape.now (R.held rig.new) }
    ensures published { R.published rig.new ≡ R.published rig.old }
    ensures strays { R.astray rig.new ≡ false → R.astray rig.old ≡ false }
    ensures noted { R.noted rig.new ≡ R.noted rig.old }
{
    if marks.is_empty() {
        return Ok(());
    }
    for pin in 0..24 {
        if marks.has_number(pin) {
            match ack_pin(rig, shape, Pin::Ioapic(pin), events) {
                Ok(()) => {}
                Err(lacks) => return Err(lacks),
            }
        }
    }
    Ok(())
}
