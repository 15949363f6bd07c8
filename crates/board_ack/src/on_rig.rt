//! An acknowledge of a pin, on the parts that a rig lends.
ghost use Rattle.std.specs.Prelude.{◌≡◌, ◌<◌, length, IfOk, IfErr, IfSome, IsTrue, false, is_some};
ghost use Rattle.route_table.specs.Pins.{IsPin};
ghost use Rattle.board_model.specs.Hand.{part_in};
ghost use Rattle.board_model.specs.Published.{routing_of_words};
ghost use Rattle.board_model.specs.Run.{run_on};
ghost use Rattle.board_raise.specs.Fit.{PinsFit, Fits};
ghost use Rattle.board_raise.specs.InHand.{parts_of, chips_of};
ghost use Rattle.board_raise.specs.Shown.{IsNeeded, HoldsNeeded};
ghost use Rattle.board_ack.specs.Acknowledge.{tell_concerned, acknowledge};
ghost use Rattle.board_ack.specs.ReachLaws.{of_acknowledge};
ghost use Rattle.board_ack.specs.OnHand.{Adds, AddsAll, AreRegistered, OnlyAcked};

use crate::concerned::concern;
use crate::entry::end_level;
use crate::ticks::end_tick;
use board_raise::{Lacks, Rig};
use irq_base::{Event, Events, Pin, Shape, tell};

/// A pin is acknowledged, in five steps: the event `Acked` tells the pin and its GSI; the resamplers of the GSI are told, and
/// then its acknowledge notifiers; a level-triggered entry of the I/O APIC may be requested again; and the next tick may come.
/// The pin is one of 0 to 15 of the 8259A pair, or one of 0 to 23 of the I/O APIC.
///
/// All parts but the local APICs are needed where the GSI is marked, the I/O APIC where the pin is there, the tick state where
/// the GSI is the tick's, and what each message that is sent looks at. `Lacks` names a part that is not in hand; where the rig
/// is not astray afterwards, it names the first of these.
///
/// There is room for 640 events; what finds none is left out.
pub fn ack_pin<R: Rig>(
    rig: &mut R,
    shape: &Shape,
    pin: Pin,
    events: &mut Events,
) -> Result<(), Lacks>
    requires fits { Fits shape.now (parts_of (R.held rig.old)) (chips_of (R.held rig.old)) }
    requires pin { IsPin pin }
    ensures does { R.astray rig.new ≡ false →
        Adds result events.old.items events.new.items (parts_of (R.held rig.new)) (R.wishes rig.new)
        (run_on (acknowledge (routing_of_words (R.published rig.old)) shape.now pin) (parts_of (R.held rig.old)) (R.wishes rig.old)) }
    ensures all { R.astray rig.new ≡ false →
        AddsAll result events.old.items events.new.items
        (run_on (acknowledge (routing_of_words (R.published rig.old)) shape.now pin) (parts_of (R.held rig.old)) (R.wishes rig.old)) }
    ensures lacks { R.astray rig.new ≡ false →
        IfErr result
        (λ l. IsNeeded l.part (parts_of (R.held rig.old))
        (λ b. of_acknowledge (routing_of_words (R.published rig.old)) shape.now b pin)) }
    ensures reached { R.astray rig.new ≡ false →
        IfOk result
        (λ _. HoldsNeeded (parts_of (R.held rig.old))
        (λ b. of_acknowledge (routing_of_words (R.published rig.old)) shape.now b pin)) }
    ensures missing { IfErr result (λ l. is_some (part_in (parts_of (R.held rig.old)) l.part) ≡ false) }
    ensures kept { OnlyAcked (R.held rig.old) (R.held rig.new) }
    ensures fits { Fits shape.now (parts_of (R.held rig.new)) (chips_of (R.held rig.new)) }
    ensures published { R.published rig.new ≡ R.published rig.old }
    ensures strays { R.astray rig.new ≡ false → R.astray rig.old ≡ false }
    ensures noted { R.noted rig.new ≡ R.noted rig.old }
{
    let gsi = rig.gsi_of(pin);
    tell(Event::Acked { pin, gsi }, events);
    match tell_concerned(rig, gsi, events) {
        Ok(()) => {}
        Err(lacks) => return Err(lacks),
    }
    match end_level(rig, shape.cpus, pin, events) {
        Ok(()) => end_tick(rig, shape, gsi, events),
        Err(lacks) => Err(lacks),
    }
}

// Steps 2 and 3: those whom the GSI concerns are told, where it is marked.
#[tactic(auto, using(crate::proofs::Adding::told_rules))]
fn tell_concerned<R: Rig>(rig: &mut R, gsi: Option<u16>, events: &mut Events) -> Result<(), Lacks>
    requires pins { PinsFit (chips_of (R.held rig.old)) }
    requires registered { AreRegistered (parts_of (R.held rig.old)) }
    requires gsi { IfSome gsi (λ g. g < 4096) }
    ensures does { R.astray rig.new ≡ false →
        Adds result events.old.items events.new.items (parts_of (R.held rig.new)) (R.wishes rig.new)
        (run_on (tell_concerned (routing_of_words (R.published rig.old)) gsi) (parts_of (R.held rig.old)) (R.wishes rig.old)) }
    ensures missing { IfErr result (λ l. is_some (part_in (parts_of (R.held rig.old)) l.part) ≡ false) }
    ensures kept { OnlyAcked (R.held rig.old) (R.held rig.new) }
    ensures pins { PinsFit (chips_of (R.held rig.new)) }
    ensures published { R.published rig.new ≡ R.published rig.old }
    ensures strays { R.astray rig.new ≡ false → R.astray rig.old ≡ false }
    ensures noted { R.noted rig.new ≡ R.noted rig.old }
{
    let Some(gsi) = gsi else {
        return Ok(());
    };
    if !rig.marked(gsi) {
        return Ok(());
    }
    let targets = rig.targets(gsi);
    let parts = rig.parts();
    concern(parts, &targets, gsi, events)
}
