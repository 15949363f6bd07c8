//! Processors access the ports of the 8259A pair, and make its acknowledge cycle (8259A data sheet).
ghost use Rattle.std.specs.Prelude.{◌≡◌, ◌<◌, ◌*◌, ◌^◌, IsTrue, IfSome, IfOk, [], ◌∷◌, false};
ghost use Rattle.irq_base.specs.declared.shape.Shape.{Shape as Sizes};
ghost use Rattle.pic_8259a.specs.Pair.{is_port};
ghost use Rattle.board_model.specs.Published.{routing_of_words};
ghost use Rattle.board_model.specs.Run.{Wishes, run_on};
ghost use Rattle.board_raise.specs.Fit.{PinsFit};
ghost use Rattle.board_raise.specs.InHand.{parts_of, chips_of};
ghost use Rattle.board_raise.specs.Shown.{DoesQuietly};
ghost use Rattle.board_calls.specs.Accesses.{pair_write, pair_read, port_out, port_in};
ghost use Rattle.board_calls.specs.Processors.{inta};
ghost use Rattle.board_calls.specs.Accessed.{writing, reading};
ghost use Rattle.board_calls.specs.Done.{IsMissing, SameInHand, FitsShape};
ghost use Rattle.board_calls.specs.Told.{TellsOn};

use crate::acks::{ack_pic, make_cycle};
use crate::range::is_port;
use crate::ring::ring;
use board_raise::{Lacks, Parts, Rig};
use irq_base::{Events, Part, Reply, Shape, Space};

/// A processor writes to a port, the value having so many bytes: `Done`, or `Exit` where the port is none of the pair's and no
/// ioeventfd is rung. The pair takes length 1, and of another length nothing. A pin that an end of interrupt ended is
/// acknowledged, with its events.
pub fn port_out<R: Rig>(
    rig: &mut R,
    shape: &Shape,
    port: u16,
    len: u8,
    value: u32,
    events: &mut Events,
) -> Result<Reply, Lacks>
    requires value { value < 2 ^ (8 * len) }
    requires fits { FitsShape shape.now (R.held rig.old) }
    ensures does { R.astray rig.new ≡ false →
        TellsOn (λ reply. reply ∷ []) result events.old.items events.new.items (parts_of (R.held rig.new)) (R.wishes rig.new)
        (run_on (port_out (routing_of_words (R.published rig.old)) shape.now port len value) (parts_of (R.held rig.old))
        (R.wishes rig.old)) }
    ensures missing { IsMissing result (R.held rig.old) }
    ensures held { SameInHand (R.held rig.old) (R.held rig.new) }
    ensures fits { FitsShape shape.now (R.held rig.new) }
    ensures published { R.published rig.new ≡ R.published rig.old }
    ensures strays { R.astray rig.new ≡ false → R.astray rig.old ≡ false }
    ensures noted { R.noted rig.new ≡ R.noted rig.old }
{
    if is_port(port as u64) {
        write_pair(rig, shape, port, len, value, events)
    } else {
        ring(
            rig,
            shape,
            Space::Port,
            port as u64,
            len,
            value as u64,
            events,
        )
    }
}

/// A processor reads a port: `Value`, or `Exit` where the port is none of the pair's. The pair gives 0 in another length than 1.
/// A pin that a poll ended under automatic EOI is acknowledged, with its events.
pub fn port_in<R: Rig>(
    rig: &mut R,
    shape: &Shape,
    port: u16,
    len: u8,
    events: &mut Events,
) -> Result<Reply, Lacks>
    requires fits { FitsShape shape.now (R.held rig.old) }
    ensures does { R.astray rig.new ≡ false →
        TellsOn (λ reply. reply ∷ []) result events.old.items events.new.items (parts_of (R.held rig.new)) (R.wishes rig.new)
        (run_on (port_in (routing_of_words (R.published rig.old)) shape.now port len) (parts_of (R.held rig.old))
        (R.wishes rig.old)) }
    ensures missing { IsMissing result (R.held rig.old) }
    ensures held { SameInHand (R.held rig.old) (R.held rig.new) }
    ensures fits { FitsShape shape.now (R.held rig.new) }
    ensures published { R.published rig.new ≡ R.published rig.old }
    ensures strays { R.astray rig.new ≡ false → R.astray rig.old ≡ false }
    ensures noted { R.noted rig.new ≡ R.noted rig.old }
{
    if is_port(port as u64) {
        read_pair(rig, shape, port, len, events)
    } else {
        Ok(Reply::Exit)
    }
}

/// Processor 0 makes an acknowledge cycle (INTA) of the pair: `Vector` with its vector. The pins that count as acknowledged under
/// automatic EOI are, with their events.
pub fn inta<R: Rig>(rig: &mut R, shape: &Shape, events: &mut Events) -> Result<Reply, Lacks>
    requires fits { FitsShape shape.now (R.held rig.old) }
    ensures does { R.astray rig.new ≡ false →
        TellsOn (λ reply. reply ∷ []) result events.old.items events.new.items (parts_of (R.held rig.new)) (R.wishes rig.new)
        (run_on (inta (routing_of_words (R.published rig.old)) shape.now) (parts_of (R.held rig.old)) (R.wishes rig.old)) }
    ensures missing { IsMissing result (R.held rig.old) }
    ensures held { SameInHand (R.held rig.old) (R.held rig.new) }
    ensures fits { FitsShape shape.now (R.held rig.new) }
    ensures published { R.published rig.new ≡ R.published rig.old }
    ensures strays { R.astray rig.new ≡ false → R.astray rig.old ≡ false }
    ensures noted { R.noted rig.new ≡ R.noted rig.old }
{
    match make_cycle(rig, shape, events) {
        Ok(vector) => Ok(Reply::Vector(vector)),
        Err(lacks) => Err(lacks),
    }
}

// A write to a port of the pair; the pin that it ended is acknowledged, if there is one.
fn write_pair<R: Rig>(
    rig: &mut R,
    shape: &Shape,
    port: u16,
    len: u8,
    value: u32,
    events: &mut Events,
) -> Result<Reply, Lacks>
    requires port { IsTrue (is_port port) }
    requires value { value < 2 ^ (8 * len) }
    requires fits { FitsShape shape.now (R.held rig.old) }
    ensures does { R.astray rig.new ≡ false →
        TellsOn (λ reply. reply ∷ []) result events.old.items events.new.items (parts_of (R.held rig.new)) (R.wishes rig.new)
        (run_on (pair_write (routing_of_words (R.published rig.old)) shape.now port len value) (parts_of (R.held rig.old))
        (R.wishes rig.old)) }
    ensures missing { IsMissing result (R.held rig.old) }
    ensures held { SameInHand (R.held rig.old) (R.held rig.new) }
    ensures fits { FitsShape shape.now (R.held rig.new) }
    ensures published { R.published rig.new ≡ R.published rig.old }
    ensures strays { R.astray rig.new ≡ false → R.astray rig.old ≡ false }
    ensures noted { R.noted rig.new ≡ R.noted rig.old }
{
    let pin = match write(rig.parts(), port, len, value) {
        Ok(pin) => pin,
        Err(lacks) => return Err(lacks),
    };
    match ack_pic(rig, shape, pin, events) {
        Ok(()) => Ok(Reply::Done),
        Err(lacks) => Err(lacks),
    }
}

// A read of a port of the pair; the pin of a poll is acknowledged, if there is one.
fn read_pair<R: Rig>(
    rig: &mut R,
    shape: &Shape,
    port: u16,
    len: u8,
    events: &mut Events,
) -> Result<Reply, Lacks>
    requires port { IsTrue (is_port port) }
    requires fits { FitsShape shape.now (R.held rig.old) }
    ensures does { R.astray rig.new ≡ false →
        TellsOn (λ reply. reply ∷ []) result events.old.items events.new.items (parts_of (R.held rig.new)) (R.wishes rig.new)
        (run_on (pair_read (routing_of_words (R.published rig.old)) shape.now port len) (parts_of (R.held rig.old))
        (R.wishes rig.old)) }
    ensures missing { IsMissing result (R.held rig.old) }
    ensures held { SameInHand (R.held rig.old) (R.held rig.new) }
    ensures fits { FitsShape shape.now (R.held rig.new) }
    ensures published { R.published rig.new ≡ R.published rig.old }
    ensures strays { R.astray rig.new ≡ false → R.astray rig.old ≡ false }
    ensures noted { R.noted rig.new ≡ R.noted rig.old }
{
    let (value, pin) = match read(rig.parts(), port, len) {
        Ok(gave) => gave,
        Err(lacks) => return Err(lacks),
    };
    match ack_pic(rig, shape, pin, events) {
        Ok(()) => Ok(Reply::Value(value as u64)),
        Err(lacks) => Err(lacks),
    }
}

// A write to a port of the pair in hand, which takes length 1; the pin that it acknowledged, if any.
#[tactic(auto, using(crate::proofs::InHand::in_hand_rules))]
fn write(parts: &mut Parts, port: u16, len: u8, value: u32) -> Result<Option<u8>, Lacks>
    requires port { IsTrue (is_port port) }
    requires value { value < 2 ^ (8 * len) }
    requires pins { PinsFit (chips_of parts.old) }
    ensures does { (ws : Wishes) →
        DoesQuietly (λ pin. pin) result (parts_of parts.new) ws (run_on (writing port len value) (parts_of parts.old) ws) }
    ensures missing { IsMissing result parts.old }
    ensures in_range { IfOk result (λ pin. IfSome pin (λ p. p < 16)) }
    ensures held { SameInHand parts.old parts.new }
    ensures fits { (shape : Sizes) → FitsShape shape parts.old → FitsShape shape parts.new }
{
    match &mut parts.pic {
        None => Err(Lacks { part: Part::Pic }),
        Some(pic) => {
            if len == 1 {
                Ok(pic.write(port, value as u8))
            } else {
                Ok(None)
            }
        }
    }
}

// A read of a port of the pair in hand, which gives 0 in another length than 1; and the pin that it acknowledged, if any.
#[tactic(auto, using(crate::proofs::InHand::in_hand_rules))]
fn read(parts: &mut Parts, port: u16, len: u8) -> Result<(u8, Option<u8>), Lacks>
    requires port { IsTrue (is_port port) }
    requires pins { PinsFit (chips_of parts.old) }
    ensures does { (ws : Wishes) →
        DoesQuietly (λ gave. gave) result (parts_of parts.new) ws (run_on (reading port len) (parts_of parts.old) ws) }
    ensures missing { IsMissing result parts.old }
    ensures in_range { IfOk result (λ gave. IfSome gave.1 (λ p. p < 16)) }
    ensures held { SameInHand parts.old parts.new }
    ensures fits { (shape : Sizes) → FitsShape shape parts.old → FitsShape shape parts.new }
{
    match &mut parts.pic {
        None => Err(Lacks { part: Part::Pic }),
        Some(pic) => {
            if len == 1 {
                Ok(pic.read(port))
            } else {
                Ok((0, None))
            }
        }
    }
}
