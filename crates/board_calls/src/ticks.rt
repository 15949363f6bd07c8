//! Ticks fall, and their reinjection is turned on or off (KVM_REINJECT_CONTROL).
ghost use Rattle.std.specs.Prelude.{◌≡◌, ◌≤◌, ◌^◌, IfSome, false};
ghost use Rattle.irq_base.specs.declared.shape.Shape.{Shape as Sizes};
ghost use Rattle.irq_base.specs.declared.shape.Part.TheVariants.{Tick};
ghost use Rattle.tick_reinject.specs.Ticks.{tick_injected};
ghost use Rattle.board_model.specs.Plan.{change, the_reply};
ghost use Rattle.board_ack.specs.Ticks.{inject_tick};
ghost use Rattle.board_model.specs.Published.{routing_of_words};
ghost use Rattle.board_model.specs.Run.{Wishes, run_on};
ghost use Rattle.board_raise.specs.InHand.{parts_of};
ghost use Rattle.board_raise.specs.Shown.{DoesQuietly, Leaves};
ghost use Rattle.board_calls.specs.Ticks.{tick, tick_mode};
ghost use Rattle.board_calls.specs.Done.{Replies, IsMissing, SameInHand, FitsShape, FitsButTick};
ghost use Rattle.board_calls.specs.Pieces.{falling};

use board_raise::{Lacks, Parts, Rig, inject};
use irq_base::{Part, Reply, Shape, Source, Status};

/// Turns reinjection on or off; nothing is pending then, and the next tick may be injected.
#[tactic(auto, using(crate::proofs::InHand::in_hand_rules))]
pub fn set_mode(parts: &mut Parts, reinject: bool) -> Result<Reply, Lacks>
    ensures does { (ws : Wishes) → Replies (tick_mode reinject) parts.old ws result parts.new ws }
    ensures missing { IsMissing result parts.old }
    ensures held { SameInHand parts.old parts.new }
    ensures fits { (shape : Sizes) → FitsShape shape parts.old → FitsShape shape parts.new }
{
    let Some(tick) = &mut parts.tick else {
        return Err(Lacks { part: Part::Tick });
    };
    tick.set_mode(reinject);
    Ok(Reply::Done)
}

/// A tick falls: `Signal` with the status where it is injected at once, else `Held` with how many are pending.
///
/// One more may be pending than before, and so one more than parts that fit a shape have.
pub fn tick<R: Rig>(rig: &mut R, shape: &Shape) -> Result<Reply, Lacks>
    requires fits { FitsShape shape.now (R.held rig.old) }
    ensures does { R.astray rig.new ≡ false →
        Replies (tick (routing_of_words (R.published rig.old)) shape.now) (R.held rig.old) (R.wishes rig.old) result
        (R.held rig.new) (R.wishes rig.new) }
    ensures missing { IsMissing result (R.held rig.old) }
    ensures held { SameInHand (R.held rig.old) (R.held rig.new) }
    ensures fits { FitsButTick shape.now (R.held rig.new) }
    ensures published { R.published rig.new ≡ R.published rig.old }
    ensures strays { R.astray rig.new ≡ false → R.astray rig.old ≡ false }
    ensures noted { R.noted rig.new ≡ R.noted rig.old }
{
    match fall(rig.parts()) {
        Err(lacks) => Err(lacks),
        Ok(Some(pending)) => Ok(Reply::Held(pending)),
        Ok(None) => inject_tick(rig, shape),
    }
}

// A tick falls; how many are pending where it is held back, and none where it is to be injected.
#[tactic(auto, using(crate::proofs::InHand::in_hand_rules))]
fn fall(parts: &mut Parts) -> Result<Option<u64>, Lacks>
    requires { IfSome parts.old.tick (λ tick. tick.pending ≤ 2 ^ 40) }
    ensures does { (ws : Wishes) → DoesQuietly (λ held. held) result (parts_of parts.new) ws (run_on falling (parts_of parts.old) ws) }
    ensures missing { IsMissing result parts.old }
    ensures held { SameInHand parts.old parts.new }
    ensures fits { (shape : Sizes) → FitsShape shape parts.old → FitsButTick shape parts.new }
{
    let Some(tick) = &mut parts.tick else {
        return Err(Lacks { part: Part::Tick });
    };
    if tick.tick() {
        Ok(None)
    } else {
        Ok(Some(tick.pending()))
    }
}

// A tick is injected on the tick's GSI, and its status tells whether the next may be injected.
fn inject_tick<R: Rig>(rig: &mut R, shape: &Shape) -> Result<Reply, Lacks>
    requires fits { FitsButTick shape.now (R.held rig.old) }
    ensures does { R.astray rig.new ≡ false →
        Replies (inject_tick (routing_of_words (R.published rig.old)) shape.now (λ pic. the_reply pic)) (R.held rig.old)
        (R.wishes rig.old) result (R.held rig.new) (R.wishes rig.new) }
    ensures missing { IsMissing result (R.held rig.old) }
    ensures held { SameInHand (R.held rig.old) (R.held rig.new) }
    ensures fits { FitsButTick shape.now (R.held rig.new) }
    ensures published { R.published rig.new ≡ R.published rig.old }
    ensures strays { R.astray rig.new ≡ false → R.astray rig.old ≡ false }
    ensures noted { R.noted rig.new ≡ R.noted rig.old }
{
    let targets = rig.targets(shape.tick);
    let status = match inject(rig, shape.cpus, &targets, Source::Tick) {
        Ok(status) => status,
        Err(lacks) => return Err(lacks),
    };
    match note_injection(rig.parts(), &status) {
        Ok(()) => Ok(Reply::Signal(status)),
        Err(lacks) => Err(lacks),
    }
}

// The tick state learns the status of an injection.
#[tactic(auto, using(crate::proofs::InHand::in_hand_rules))]
fn note_injection(parts: &mut Parts, status: &Status) -> Result<(), Lacks>
    ensures does { (ws : Wishes) →
        Leaves result (parts_of parts.new) ws (run_on (change Tick (λ tick. tick_injected tick status.now)) (parts_of parts.old) ws) }
    ensures missing { IsMissing result parts.old }
    ensures held { SameInHand parts.old parts.new }
    ensures fits { (shape : Sizes) → FitsButTick shape parts.old → FitsButTick shape parts.new }
{
    match &mut parts.tick {
        None => Err(Lacks { part: Part::Tick }),
        Some(tick) => {
            tick.injected(status);
            Ok(())
        }
    }
}
