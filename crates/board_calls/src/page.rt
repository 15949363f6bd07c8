//! A processor reads and writes the page of its own local APIC (SDM volume 3, local APIC register address map).
ghost use Rattle.std.specs.Prelude.{◌≡◌, ◌<◌, false, [], ◌∷◌, length, IsTrue, Some};
ghost use Rattle.irq_base.specs.declared.shape.Shape.{Shape as Sizes};
ghost use Rattle.board_model.specs.Published.{routing_of_words};
ghost use Rattle.board_model.specs.Run.{Wishes, run_on};
ghost use Rattle.board_raise.specs.InHand.{parts_of};
ghost use Rattle.board_raise.specs.Shown.{DoesQuietly};
ghost use Rattle.board_calls.specs.Accesses.{lapic_load, lapic_store, store_effects};
ghost use Rattle.board_calls.specs.Refusals.{does_fit};
ghost use Rattle.lapic.specs.declared.outcome.Effect.TheVariants.{Send};
ghost use Rattle.board_calls.specs.Done.{Replies, IsMissing, SameInHand, FitsShape};
ghost use Rattle.board_calls.specs.Told.{TellsOn};
ghost use Rattle.board_calls.specs.Own.{storing};

use crate::ends::end_vector;
use board_raise::{Lacks, Parts, Rig, send};
use irq_base::{Event, Events, Part, Reply, Shape, tell};
use lapic::{Effect, Ipi};

/// Processor n writes to its local APIC, at an offset in its page: `Done`. It takes length 4, in bytes, and of another length
/// nothing.
///
/// A write to the EOI register ends a vector, whose pins are acknowledged. One to the low half of ICR sends a message, whose
/// status is told by the event `Ipi`. An event that finds no room is left out.
pub fn lapic_store<R: Rig>(
    rig: &mut R,
    shape: &Shape,
    n: u16,
    offset: u16,
    len: u8,
    value: u64,
    events: &mut Events,
) -> Result<Reply, Lacks>
    requires cpu { n < shape.now.cpus }
    requires value { IsTrue (does_fit value len) }
    requires fits { FitsShape shape.now (R.held rig.old) }
    ensures does { R.astray rig.new ≡ false →
        TellsOn (λ reply. reply ∷ []) result events.old.items events.new.items (parts_of (R.held rig.new)) (R.wishes rig.new)
        (run_on (lapic_store (routing_of_words (R.published rig.old)) shape.now n offset len value) (parts_of (R.held rig.old))
        (R.wishes rig.old)) }
    ensures missing { IsMissing result (R.held rig.old) }
    ensures held { SameInHand (R.held rig.old) (R.held rig.new) }
    ensures fits { FitsShape shape.now (R.held rig.new) }
    ensures published { R.published rig.new ≡ R.published rig.old }
    ensures strays { R.astray rig.new ≡ false → R.astray rig.old ≡ false }
    ensures noted { R.noted rig.new ≡ R.noted rig.old }
{
    let effect = match store(rig.parts(), n, offset, len, value) {
        Ok(effect) => effect,
        Err(lacks) => return Err(lacks),
    };
    match bring_about(rig, shape, n, &effect, events) {
        Ok(()) => Ok(Reply::Done),
        Err(lacks) => Err(lacks),
    }
}

// The local APIC of processor n is written, and tells what comes of it; in another length than 4 nothing is written.
fn store(parts: &mut Parts, n: u16, offset: u16, len: u8, value: u64) -> Result<Effect, Lacks>
    requires place { n < length parts.old.lapics }
    requires value { IsTrue (does_fit value len) }
    ensures does { (ws : Wishes) →
        DoesQuietly (λ effect. effect) result (parts_of parts.new) ws (run_on (storing n offset len value) (parts_of parts.old) ws) }
    ensures missing { IsMissing result parts.old }
    ensures held { SameInHand parts.old parts.new }
    ensures fits { (shape : Sizes) → FitsShape shape parts.old → FitsShape shape parts.new }
{
    let Some(lapic) = parts.lapics.at_mut(n) else {
        return Err(Lacks {
            part: Part::Lapic(n),
        });
    };
    if len != 4 {
        return Ok(Effect::Plain);
    }
    Ok(lapic.store(offset, value as u32))
}

// What a store brings about besides: the end of a vector, or a message to other processors.
fn bring_about<R: Rig>(
    rig: &mut R,
    shape: &Shape,
    n: u16,
    effect: &Effect,
    events: &mut Events,
) -> Result<(), Lacks>
    requires { FitsShape shape.now (R.held rig.old) }
    ensures does { R.astray rig.new ≡ false →
        TellsOn (λ _. []) result events.old.items events.new.items (parts_of (R.held rig.new)) (R.wishes rig.new)
        (run_on (store_effects (routing_of_words (R.published rig.old)) shape.now n effect.now) (parts_of (R.held rig.old))
        (R.wishes rig.old)) }
    ensures missing { IsMissing result (R.held rig.old) }
    ensures held { SameInHand (R.held rig.old) (R.held rig.new) }
    ensures fits { FitsShape shape.now (R.held rig.new) }
    ensures published { R.published rig.new ≡ R.published rig.old }
    ensures strays { R.astray rig.new ≡ false → R.astray rig.old ≡ false }
    ensures noted { R.noted rig.new ≡ R.noted rig.old }
{
    match effect {
        Effect::Plain => Ok(()),
        Effect::Ended(vector) => end_vector(rig, shape, *vector, events),
        Effect::Send(ipi) => send_ipi(rig, shape, n, ipi, events),
    }
}

// Processor n sends a message by its interrupt command register, and the event `Ipi` tells its status.
fn send_ipi<R: Rig>(
    rig: &mut R,
    shape: &Shape,
    n: u16,
    ipi: &Ipi,
    events: &mut Events,
) -> Result<(), Lacks>
    requires { FitsShape shape.now (R.held rig.old) }
    ensures does { TellsOn (λ _. []) result events.old.items events.new.items (parts_of (R.held rig.new)) (R.wishes rig.new)
        (run_on (store_effects (routing_of_words (R.published rig.old)) shape.now n (Send ipi.now)) (parts_of (R.held rig.old))
        (R.wishes rig.old)) }
    ensures missing { IsMissing result (R.held rig.old) }
    ensures held { SameInHand (R.held rig.old) (R.held rig.new) }
    ensures fits { FitsShape shape.now (R.held rig.new) }
    ensures published { R.published rig.new ≡ R.published rig.old }
    ensures strays { R.astray rig.new ≡ R.astray rig.old }
    ensures noted { R.noted rig.new ≡ R.noted rig.old }
{
    match send(rig, shape.cpus, &ipi.message, Some((n, ipi.to))) {
        Ok(status) => {
            tell(Event::Ipi(status), events);
            Ok(())
        }
        Err(lacks) => Err(lacks),
    }
}

/// Processor n reads its local APIC, at an offset in its page: `Value`, which is 0 in another length than 4, in bytes.
pub fn lapic_load<R: Rig>(rig: &mut R, n: u16, offset: u16, len: u8) -> Result<Reply, Lacks>
    requires { n < length (R.held rig.old).lapics }
    ensures does { Replies (lapic_load n offset len) (R.held rig.old) (R.wishes rig.old) result (R.held rig.new) (R.wishes rig.new) }
    ensures missing { IsMissing result (R.held rig.old) }
    ensures held { SameInHand (R.held rig.old) (R.held rig.new) }
    ensures fits { (shape : Sizes) → FitsShape shape (R.held rig.old) → FitsShape shape (R.held rig.new) }
    ensures published { R.published rig.new ≡ R.published rig.old }
    ensures strays { R.astray rig.new ≡ R.astray rig.old }
    ensures noted { R.noted rig.new ≡ R.noted rig.old }
{
    load(rig.parts(), n, offset, len)
}

// What the local APIC of processor n reads, which is 0 in another length than 4.
fn load(parts: &Parts, n: u16, offset: u16, len: u8) -> Result<Reply, Lacks>
    requires { n < length parts.now.lapics }
    ensures does { (ws : Wishes) → Replies (lapic_load n offset len) parts.now ws result parts.now ws }
    ensures missing { IsMissing result parts.now }
{
    match parts.lapics.at(n) {
        None => Err(Lacks {
            part: Part::Lapic(n),
        }),
        Some(lapic) if len == 4 => Ok(Reply::Value(lapic.load(offset) as u64)),
        Some(_) => Ok(Reply::Value(0)),
    }
}
