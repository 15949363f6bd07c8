//! Step 5 of an acknowledge, and the injection of a tick (tick reinjection, KVM_REINJECT_CONTROL).
ghost use Rattle.std.specs.Prelude.{◌≡◌, ◌<◌, ◌≤◌, length, IfErr, false, is_some};
ghost use Rattle.board_model.specs.Hand.{part_in};
ghost use Rattle.board_model.specs.Published.{routing_of_words};
ghost use Rattle.board_model.specs.Run.{Wishes, run_on};
ghost use Rattle.board_model.specs.Plan.{change};
ghost use Rattle.irq_base.specs.declared.shape.Part.TheVariants.{Tick as TickPart};
ghost use Rattle.tick_reinject.specs.Ticks.{tick_injected};
ghost use Rattle.board_raise.specs.Fit.{PinsFit};
ghost use Rattle.board_raise.specs.InHand.{parts_of, chips_of};
ghost use Rattle.board_raise.specs.Shown.{DoesQuietly, Leaves, Place, about_at};
ghost use Rattle.board_ack.specs.Acknowledge.{end_tick};
ghost use Rattle.board_ack.specs.Ticks.{inject_tick, free_tick};
ghost use Rattle.board_ack.specs.OnHand.{Adds, ShowsTick, OnlyAcked};
ghost use Rattle.irq_bits.specs.declared.limits.TheConstants.{MAX_CPUS};

use board_raise::{Lacks, Parts, Rig, inject};
use irq_base::{Event, Events, Part, Shape, Source, Status, tell};

/// A tick is injected on the tick's GSI, and the tick state is told its status. `Ok` carries the status.
///
/// The parts that a raise of that GSI needs are needed, and then the tick state.
pub fn inject_tick<R: Rig>(rig: &mut R, shape: &Shape) -> Result<Status, Lacks>
    requires few_cpus { shape.now.cpus ≤ MAX_CPUS }
    requires tick { shape.now.tick < 4096 }
    requires places { length (R.held rig.old).lapics ≡ shape.now.cpus }
    requires pins { PinsFit (chips_of (R.held rig.old)) }
    ensures does { R.astray rig.new ≡ false → (place : Place) →
        ShowsTick place result (parts_of (R.held rig.new)) (R.wishes rig.new)
        (run_on (inject_tick (routing_of_words (R.published rig.old)) shape.now (about_at place)) (parts_of (R.held rig.old))
        (R.wishes rig.old)) }
    ensures missing { IfErr result (λ l. is_some (part_in (parts_of (R.held rig.old)) l.part) ≡ false) }
    ensures kept { OnlyAcked (R.held rig.old) (R.held rig.new) }
    ensures pins { PinsFit (chips_of (R.held rig.new)) }
    ensures published { R.published rig.new ≡ R.published rig.old }
    ensures strays { R.astray rig.new ≡ false → R.astray rig.old ≡ false }
    ensures noted { R.noted rig.new ≡ R.noted rig.old }
{
    let targets = rig.targets(shape.tick);
    let status = match inject(rig, shape.cpus, &targets, Source::Tick) {
        Ok(status) => status,
        Err(lacks) => return Err(lacks),
    };
    let parts = rig.parts();
    match tick_injected(parts, &status) {
        Ok(()) => Ok(status),
        Err(lacks) => Err(lacks),
    }
}

/// Where the GSI is the tick's, a tick less is pending, and the next is injected where one is left.
#[tactic(auto, using(crate::proofs::Adding::told_rules))]
pub fn end_tick<R: Rig>(
    rig: &mut R,
    shape: &Shape,
    gsi: Option<u16>,
    events: &mut Events,
) -> Result<(), Lacks>
    requires few_cpus { shape.now.cpus ≤ MAX_CPUS }
    requires tick { shape.now.tick < 4096 }
    requires places { length (R.held rig.old).lapics ≡ shape.now.cpus }
    requires pins { PinsFit (chips_of (R.held rig.old)) }
    ensures does { R.astray rig.new ≡ false →
        Adds result events.old.items events.new.items (parts_of (R.held rig.new)) (R.wishes rig.new)
        (run_on (end_tick (routing_of_words (R.published rig.old)) shape.now gsi) (parts_of (R.held rig.old)) (R.wishes rig.old)) }
    ensures missing { IfErr result (λ l. is_some (part_in (parts_of (R.held rig.old)) l.part) ≡ false) }
    ensures kept { OnlyAcked (R.held rig.old) (R.held rig.new) }
    ensures pins { PinsFit (chips_of (R.held rig.new)) }
    ensures published { R.published rig.new ≡ R.published rig.old }
    ensures strays { R.astray rig.new ≡ false → R.astray rig.old ≡ false }
    ensures noted { R.noted rig.new ≡ R.noted rig.old }
{
    let Some(gsi) = gsi else {
        return Ok(());
    };
    if gsi != shape.tick {
        return Ok(());
    }
    let parts = rig.parts();
    let injects = match free_tick(parts) {
        Ok(injects) => injects,
        Err(lacks) => return Err(lacks),
    };
    if !injects {
        return Ok(());
    }
    match inject_tick(rig, shape) {
        Ok(status) => {
            tell(
                Event::Injected {
                    gsi: shape.tick,
                    status,
                },
                events,
            );
            Ok(())
        }
        Err(lacks) => Err(lacks),
    }
}

// A tick less is pending; tells whether the next is to be injected.
fn free_tick(parts: &mut Parts) -> Result<bool, Lacks>
    ensures does { (ws : Wishes) →
        DoesQuietly (λ injects. injects) result (parts_of parts.new) ws (run_on free_tick (parts_of parts.old) ws) }
    ensures missing { IfErr result (λ l. is_some (part_in (parts_of parts.old) l.part) ≡ false) }
    ensures kept { OnlyAcked parts.old parts.new }
    ensures pins { chips_of parts.new ≡ chips_of parts.old }
{
    match &mut parts.tick {
        None => Err(Lacks { part: Part::Tick }),
        Some(tick) => Ok(tick.acked()),
    }
}

// A tick was injected with this status.
fn tick_injected(parts: &mut Parts, status: &Status) -> Result<(), Lacks>
    ensures does { (ws : Wishes) →
        Leaves result (parts_of parts.new) ws
        (run_on (change TickPart (λ tick. tick_injected tick status.now)) (parts_of parts.old) ws) }
    ensures missing { IfErr result (λ l. is_some (part_in (parts_of parts.old) l.part) ≡ false) }
    ensures kept { OnlyAcked parts.old parts.new }
    ensures pins { chips_of parts.new ≡ chips_of parts.old }
{
    match &mut parts.tick {
        None => Err(Lacks { part: Part::Tick }),
        Some(tick) => {
            tick.injected(status);
            Ok(())
        }
    }
}
