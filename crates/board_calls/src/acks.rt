//! Pins of the 8259A pair are acknowledged, and its acknowledge cycle is made (8259A data sheet, interrupt sequence).
ghost use Rattle.std.specs.Prelude.{◌≡◌, ℕ, ◌<◌, IfSome, IfOk, [], ◌∷◌, false};
ghost use Rattle.irq_base.specs.declared.reply.Reply.{Reply};
ghost use Rattle.irq_base.specs.declared.shape.Shape.{Shape as Sizes};
ghost use Rattle.pic_8259a.specs.Pair.{InRange};
ghost use Rattle.board_model.specs.Published.{routing_of_words};
ghost use Rattle.board_model.specs.Run.{Wishes, run_on};
ghost use Rattle.board_raise.specs.Fit.{PinsFit};
ghost use Rattle.board_raise.specs.InHand.{parts_of, chips_of};
ghost use Rattle.board_raise.specs.Shown.{DoesQuietly};
ghost use Rattle.board_ack.specs.Acknowledge.{acknowledge_each};
ghost use Rattle.board_ack.specs.OnHand.{Adds};
ghost use Rattle.board_calls.specs.Processors.{pic_pin, cycle_pins};
ghost use Rattle.board_calls.specs.Accessed.{cycling, cycle_answered};
ghost use Rattle.board_calls.specs.Done.{IsMissing, SameInHand, FitsShape};
ghost use Rattle.board_calls.specs.Told.{TellsOn};

use board_ack::ack_pin;
use board_raise::{Lacks, Parts, Rig};
use irq_base::{Events, Part, Pin, Shape};
use pic_8259a::AckedPins;

/// A pin of the pair, of 0 to 15, is acknowledged, if there is one.
pub fn ack_pic<R: Rig>(
    rig: &mut R,
    shape: &Shape,
    pin: Option<u8>,
    events: &mut Events,
) -> Result<(), Lacks>
    requires pin { IfSome pin (λ p. p < 16) }
    requires fits { FitsShape shape.now (R.held rig.old) }
    ensures does { R.astray rig.new ≡ false →
        Adds result events.old.items events.new.items (parts_of (R.held rig.new)) (R.wishes rig.new)
        (run_on (acknowledge_each (routing_of_words (R.published rig.old)) shape.now (pic_pin pin)) (parts_of (R.held rig.old))
        (R.wishes rig.old)) }
    ensures missing { IsMissing result (R.held rig.old) }
    ensures held { SameInHand (R.held rig.old) (R.held rig.new) }
    ensures fits { FitsShape shape.now (R.held rig.new) }
    ensures published { R.published rig.new ≡ R.published rig.old }
    ensures strays { R.astray rig.new ≡ false → R.astray rig.old ≡ false }
    ensures noted { R.noted rig.new ≡ R.noted rig.old }
{
    match pin {
        None => Ok(()),
        Some(pin) => ack_pin(rig, shape, Pin::Pic(pin), events),
    }
}

// The pins of a cycle are acknowledged, that of the master before that of the slave.
fn ack_pins<R: Rig>(
    rig: &mut R,
    shape: &Shape,
    pins: AckedPins,
    events: &mut Events,
) -> Result<(), Lacks>
    requires pins { InRange pins }
    requires fits { FitsShape shape.now (R.held rig.old) }
    ensures does { R.astray rig.new ≡ false →
        Adds result events.old.items events.new.items (parts_of (R.held rig.new)) (R.wishes rig.new)
        (run_on (acknowledge_each (routing_of_words (R.published rig.old)) shape.now (cycle_pins pins))
        (parts_of (R.held rig.old)) (R.wishes rig.old)) }
    ensures missing { IsMissing result (R.held rig.old) }
    ensures held { SameInHand (R.held rig.old) (R.held rig.new) }
    ensures fits { FitsShape shape.now (R.held rig.new) }
    ensures published { R.published rig.new ≡ R.published rig.old }
    ensures strays { R.astray rig.new ≡ false → R.astray rig.old ≡ false }
    ensures noted { R.noted rig.new ≡ R.noted rig.old }
{
    match ack_pic(rig, shape, pins.master, events) {
        Ok(()) => ack_pic(rig, shape, pins.slave, events),
        Err(lacks) => Err(lacks),
    }
}

/// The processor makes an acknowledge cycle (INTA) of the pair, and gets its vector. The pins that count as acknowledged under
/// automatic EOI are: that of the master before that of the slave.
///
/// It does what the plan of a cycle does that answers the vector, whatever the reply is in which it does.
pub fn make_cycle<R: Rig>(rig: &mut R, shape: &Shape, events: &mut Events) -> Result<u8, Lacks>
    requires fits { FitsShape shape.now (R.held rig.old) }
    ensures does { (answer : ℕ → Reply) → R.astray rig.new ≡ false →
        TellsOn (λ vector. answer vector ∷ []) result events.old.items events.new.items (parts_of (R.held rig.new))
        (R.wishes rig.new)
        (run_on (cycle_answered (routing_of_words (R.published rig.old)) shape.now answer) (parts_of (R.held rig.old))
        (R.wishes rig.old)) }
    ensures missing { IsMissing result (R.held rig.old) }
    ensures held { SameInHand (R.held rig.old) (R.held rig.new) }
    ensures fits { FitsShape shape.now (R.held rig.new) }
    ensures published { R.published rig.new ≡ R.published rig.old }
    ensures strays { R.astray rig.new ≡ false → R.astray rig.old ≡ false }
    ensures noted { R.noted rig.new ≡ R.noted rig.old }
{
    let (vector, pins) = match cycle(rig.parts()) {
        Ok(gave) => gave,
        Err(lacks) => return Err(lacks),
    };
    match ack_pins(rig, shape, pins, events) {
        Ok(()) => Ok(vector),
        Err(lacks) => Err(lacks),
    }
}

// The cycle of the pair in hand: its vector, and the pins that it acknowledged.
#[tactic(auto, using(crate::proofs::InHand::in_hand_rules))]
fn cycle(parts: &mut Parts) -> Result<(u8, AckedPins), Lacks>
    requires pins { PinsFit (chips_of parts.old) }
    ensures does { (ws : Wishes) → DoesQuietly (λ gave. gave) result (parts_of parts.new) ws (run_on cycling (parts_of parts.old) ws) }
    ensures missing { IsMissing result parts.old }
    ensures in_range { IfOk result (λ gave. InRange gave.1) }
    ensures held { SameInHand parts.old parts.new }
    ensures fits { (shape : Sizes) → FitsShape shape parts.old → FitsShape shape parts.new }
{
    match &mut parts.pic {
        None => Err(Lacks { part: Part::Pic }),
        Some(pic) => Ok(pic.inta()),
    }
}
