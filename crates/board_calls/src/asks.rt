//! A processor asks for its next interrupt (SDM volume 3, interrupt acceptance; virtual wire mode through LINT0).
ghost use Rattle.std.specs.Prelude.{◌≡◌, ◌<◌, false, [], ◌∷◌, length, option_map};
ghost use Rattle.irq_base.specs.declared.shape.Shape.{Shape as Sizes};
ghost use Rattle.board_model.specs.Published.{routing_of_words};
ghost use Rattle.board_model.specs.Run.{Wishes, run_on};
ghost use Rattle.board_raise.specs.declared.parts.PicPart.{PicPart};
ghost use Rattle.board_raise.specs.Fit.{PinsFit};
ghost use Rattle.board_raise.specs.InHand.{parts_of, chips_of};
ghost use Rattle.board_raise.specs.Shown.{DoesQuietly};
ghost use Rattle.board_calls.specs.Processors.{next_interrupt, given_reply, hears_pair, lets_through};
ghost use Rattle.board_calls.specs.Done.{IsMissing, SameInHand, FitsShape};
ghost use Rattle.board_calls.specs.Told.{TellsOn};
ghost use Rattle.board_calls.specs.Own.{answering, pair_heard};

use crate::acks::make_cycle;
use board_raise::{Lacks, Parts, PicPart, Rig};
use irq_base::{Events, Part, Reply, Shape};
use lapic::Lapic;

/// Processor n asks for its next interrupt: `Nmi` where an NMI is pending, which is taken; else `Extint` with the vector that
/// the 8259A pair gives, where the pair reaches the processor through LINT0 and its output is active; else `Vector` with the
/// one that the local APIC gives, or `Nothing`.
pub fn next_interrupt<R: Rig>(
    rig: &mut R,
    shape: &Shape,
    n: u16,
    events: &mut Events,
) -> Result<Reply, Lacks>
    requires cpu { n < shape.now.cpus }
    requires fits { FitsShape shape.now (R.held rig.old) }
    ensures does { R.astray rig.new ≡ false →
        TellsOn (λ reply. reply ∷ []) result events.old.items events.new.items (parts_of (R.held rig.new)) (R.wishes rig.new)
        (run_on (next_interrupt (routing_of_words (R.published rig.old)) shape.now n) (parts_of (R.held rig.old))
        (R.wishes rig.old)) }
    ensures missing { IsMissing result (R.held rig.old) }
    ensures held { SameInHand (R.held rig.old) (R.held rig.new) }
    ensures fits { FitsShape shape.now (R.held rig.new) }
    ensures published { R.published rig.new ≡ R.published rig.old }
    ensures strays { R.astray rig.new ≡ false → R.astray rig.old ≡ false }
    ensures noted { R.noted rig.new ≡ R.noted rig.old }
{
    match answer_own(rig.parts(), n) {
        Err(lacks) => Err(lacks),
        Ok(Some(reply)) => Ok(reply),
        Ok(None) => match make_cycle(rig, shape, events) {
            Ok(vector) => Ok(Reply::Extint(vector)),
            Err(lacks) => Err(lacks),
        },
    }
}

// What the processor is answered where the pair does not give, and none where it does.
fn answer_own(parts: &mut Parts, n: u16) -> Result<Option<Reply>, Lacks>
    requires place { n < length parts.old.lapics }
    requires pins { PinsFit (chips_of parts.old) }
    ensures does { (ws : Wishes) →
        DoesQuietly (λ answer. answer) result (parts_of parts.new) ws (run_on (answering n) (parts_of parts.old) ws) }
    ensures missing { IsMissing result parts.old }
    ensures held { SameInHand parts.old parts.new }
    ensures fits { (shape : Sizes) → FitsShape shape parts.old → FitsShape shape parts.new }
{
    let Some(lapic) = parts.lapics.at_mut(n) else {
        return Err(Lacks {
            part: Part::Lapic(n),
        });
    };
    if lapic.take_nmi() {
        return Ok(Some(Reply::Nmi));
    }
    match pair_gives(lapic, &parts.pic, n) {
        Err(lacks) => Err(lacks),
        Ok(true) => Ok(None),
        Ok(false) => Ok(Some(given_reply(lapic.give()))),
    }
}

// Whether LINT0 lets the pair through: it is not masked, and its mode is ExtINT.
fn lets_through(lapic: &Lapic) -> bool
    ensures { result ≡ lets_through lapic.now }
{
    let lint0 = lapic.lint0();
    lint0 >> 16 & 1 == 0 && lint0 >> 8 & 7 == 7
}

/// Whether the 8259A pair reaches processor n, whose local APIC this is: it reaches processor 0 alone, where LINT0 is not
/// masked (bit 16) and its mode is ExtINT (bits 10 to 8 are 111).
pub fn hears_pair(lapic: &Lapic, n: u16) -> bool
    ensures { result ≡ hears_pair n lapic.now }
{
    n == 0 && lets_through(lapic)
}

// Whether the pair gives: it reaches the processor through LINT0, and its output is active.
fn pair_gives(lapic: &Lapic, pic: &Option<PicPart>, n: u16) -> Result<bool, Lacks>
    ensures { result ≡ pair_heard (hears_pair n lapic.now) (option_map (λ (part : PicPart). part.pair) pic.now) }
{
    if !hears_pair(lapic, n) {
        return Ok(false);
    }
    match pic {
        None => Err(Lacks { part: Part::Pic }),
        Some(part) => Ok(part.pair.output()),
    }
}

// The answer of what the local APIC gives.
fn given_reply(vector: Option<u8>) -> Reply
    ensures { result ≡ given_reply vector }
{
    match vector {
        None => Reply::Nothing,
        Some(vector) => Reply::Vector(vector),
    }
}
