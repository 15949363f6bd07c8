//! A processor writes to an address of no chip, which may ring an ioeventfd (KVM_IOEVENTFD).
ghost use Rattle.std.specs.Prelude.{◌≡◌, ◌<◌, length, IfSome, IfOk, [], ◌∷◌, Some, false};
ghost use Rattle.irq_base.specs.declared.shape.Shape.{Shape as Sizes};
ghost use Rattle.irq_base.specs.declared.shape.Part.TheVariants.{Counters};
ghost use Rattle.irq_base.specs.Counts.{signalled};
ghost use Rattle.board_model.specs.Plan.{change};
ghost use Rattle.board_model.specs.Published.{routing_of_words};
ghost use Rattle.board_model.specs.Run.{Wishes, run_on};
ghost use Rattle.board_raise.specs.InHand.{parts_of};
ghost use Rattle.board_raise.specs.Shown.{DoesQuietly, Leaves};
ghost use Rattle.board_ack.specs.OnHand.{Adds};
ghost use Rattle.board_calls.specs.Accesses.{ring, rung, ring_counter};
ghost use Rattle.board_calls.specs.Accessed.{ringing};
ghost use Rattle.board_calls.specs.Done.{IsMissing, SameInHand, FitsShape};
ghost use Rattle.board_calls.specs.Told.{TellsOn};

use crate::signals::inject_told;
use board_raise::{Lacks, Parts, Rig};
use irq_base::{Event, Events, Part, Reply, Shape, Space, tell};

/// A processor writes to an address of no chip. The ioeventfd that the write fits is rung: `Done`, with the event `Rang`; its
/// counter gains one, or where that is the trigger of an irqfd, it injects, with the event `Injected`. Without one the write is
/// the monitor's: `Exit`.
pub fn ring<R: Rig>(
    rig: &mut R,
    shape: &Shape,
    space: Space,
    address: u64,
    len: u8,
    value: u64,
    events: &mut Events,
) -> Result<Reply, Lacks>
    requires fits { FitsShape shape.now (R.held rig.old) }
    ensures does { R.astray rig.new ≡ false →
        TellsOn (λ reply. reply ∷ []) result events.old.items events.new.items (parts_of (R.held rig.new)) (R.wishes rig.new)
        (run_on (ring (routing_of_words (R.published rig.old)) shape.now space address len value) (parts_of (R.held rig.old))
        (R.wishes rig.old)) }
    ensures missing { IsMissing result (R.held rig.old) }
    ensures held { SameInHand (R.held rig.old) (R.held rig.new) }
    ensures fits { FitsShape shape.now (R.held rig.new) }
    ensures published { R.published rig.new ≡ R.published rig.old }
    ensures strays { R.astray rig.new ≡ false → R.astray rig.old ≡ false }
    ensures noted { R.noted rig.new ≡ R.noted rig.old }
{
    match rung_by(rig.parts(), space, address, len, value) {
        Ok(None) => Ok(Reply::Exit),
        Ok(Some(counter)) => ring_ioevent(rig, shape, counter, events),
        Err(lacks) => Err(lacks),
    }
}

// The ioeventfd with this counter is rung.
fn ring_ioevent<R: Rig>(
    rig: &mut R,
    shape: &Shape,
    counter: u16,
    events: &mut Events,
) -> Result<Reply, Lacks>
    requires counter { counter < shape.now.counters }
    requires fits { FitsShape shape.now (R.held rig.old) }
    ensures does { R.astray rig.new ≡ false →
        TellsOn (λ reply. reply ∷ []) result events.old.items events.new.items (parts_of (R.held rig.new)) (R.wishes rig.new)
        (run_on (rung (routing_of_words (R.published rig.old)) shape.now (Some counter)) (parts_of (R.held rig.old))
        (R.wishes rig.old)) }
    ensures missing { IsMissing result (R.held rig.old) }
    ensures held { SameInHand (R.held rig.old) (R.held rig.new) }
    ensures fits { FitsShape shape.now (R.held rig.new) }
    ensures published { R.published rig.new ≡ R.published rig.old }
    ensures strays { R.astray rig.new ≡ false → R.astray rig.old ≡ false }
    ensures noted { R.noted rig.new ≡ R.noted rig.old }
{
    tell(Event::Rang(counter), events);
    match ring_counter(rig, shape, counter, events) {
        Ok(()) => Ok(Reply::Done),
        Err(lacks) => Err(lacks),
    }
}

// The counter of the ioeventfd that a write fits, if there is one.
fn rung_by(
    parts: &Parts,
    space: Space,
    address: u64,
    len: u8,
    value: u64,
) -> Result<Option<u16>, Lacks>
    ensures does { (ws : Wishes) →
        DoesQuietly (λ rung. rung) result (parts_of parts.now) ws (run_on (ringing space address len value) (parts_of parts.now) ws) }
    ensures missing { IsMissing result parts.now }
    ensures counter { (shape : Sizes) → FitsShape shape parts.now → IfOk result (λ rung. IfSome rung (λ c. c < shape.counters)) }
{
    match &parts.registry {
        None => Err(Lacks {
            part: Part::Registry,
        }),
        Some(registry) => Ok(registry.ioevents.find(space, address, len, value)),
    }
}

// A counter is rung: the trigger of an irqfd injects, another counter gains one.
fn ring_counter<R: Rig>(
    rig: &mut R,
    shape: &Shape,
    counter: u16,
    events: &mut Events,
) -> Result<(), Lacks>
    requires counter { counter < shape.now.counters }
    requires fits { FitsShape shape.now (R.held rig.old) }
    ensures does { let routing = routing_of_words (R.published rig.old) in R.astray rig.new ≡ false →
        Adds result events.old.items events.new.items (parts_of (R.held rig.new)) (R.wishes rig.new)
        (run_on (ring_counter routing shape.now counter (routing.trigger counter)) (parts_of (R.held rig.old)) (R.wishes rig.old)) }
    ensures missing { IsMissing result (R.held rig.old) }
    ensures held { SameInHand (R.held rig.old) (R.held rig.new) }
    ensures fits { FitsShape shape.now (R.held rig.new) }
    ensures published { R.published rig.new ≡ R.published rig.old }
    ensures strays { R.astray rig.new ≡ false → R.astray rig.old ≡ false }
    ensures noted { R.noted rig.new ≡ R.noted rig.old }
{
    match rig.trigger(counter) {
        None => signal(rig.parts(), counter),
        Some(trigger) => inject_told(rig, shape, trigger, events),
    }
}

// A counter that is no trigger gains one, a full one staying full.
#[tactic(auto, using(crate::proofs::InHand::in_hand_rules))]
fn signal(parts: &mut Parts, counter: u16) -> Result<(), Lacks>
    requires { IfSome parts.old.counters (λ counts. counter < length counts) }
    ensures does { (ws : Wishes) →
        Leaves result (parts_of parts.new) ws
        (run_on (change Counters (λ counts. signalled counts counter)) (parts_of parts.old) ws) }
    ensures missing { IsMissing result parts.old }
    ensures held { SameInHand parts.old parts.new }
    ensures fits { (shape : Sizes) → FitsShape shape parts.old → FitsShape shape parts.new }
{
    match &mut parts.counters {
        None => Err(Lacks {
            part: Part::Counters,
        }),
        Some(counters) => {
            counters.signal(counter);
            Ok(())
        }
    }
}
