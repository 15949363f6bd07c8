//! Lines, messages and triggers signal.
ghost use Rattle.std.specs.Prelude.{◌≡◌, ◌<◌, ◌-◌, ◌/◌, ◌^◌, ℕ, Some, true, false};
ghost use Rattle.irq_base.specs.declared.message.Source.TheVariants.{Line};
ghost use Rattle.irq_base.specs.declared.shape.Shape.{Shape as Sizes};
ghost use Rattle.msi_decode.specs.Messages.{message_in};
ghost use Rattle.source_levels.specs.Holds.{IsSource};
ghost use Rattle.board_model.specs.Published.{routing_of_words};
ghost use Rattle.board_model.specs.Run.{run_on};
ghost use Rattle.board_raise.specs.Fit.{PinsFit};
ghost use Rattle.board_raise.specs.InHand.{parts_of, chips_of};
ghost use Rattle.board_raise.specs.Signal.{lower};
ghost use Rattle.board_ack.specs.OnHand.{Adds};
ghost use Rattle.board_calls.specs.Accesses.{ring_counter};
ghost use Rattle.board_calls.specs.Registrations.{line_set, message_sent, source_of, trigger_written, write};
ghost use Rattle.board_calls.specs.Done.{Replies, IsMissing, SameInHand, FitsShape};

use crate::counters::add;
use board_raise::{Lacks, Rig, TriggerWord, inject, lower_gsi, raise_gsi, send};
use irq_base::{Event, Events, Message, Reply, Shape, Source, tell};
use msi_decode::decode;

/// A line source of a GSI goes high (KVM_IRQ_LINE): `Signal` with the status.
pub fn raise_line<R: Rig>(rig: &mut R, shape: &Shape, gsi: u16, line: u8) -> Result<Reply, Lacks>
    requires gsi { gsi < 4096 }
    requires line { line < 8 }
    requires fits { FitsShape shape.now (R.held rig.old) }
    ensures does { R.astray rig.new ≡ false →
        Replies (line_set (routing_of_words (R.published rig.old)) shape.now gsi line true) (R.held rig.old) (R.wishes rig.old)
        result (R.held rig.new) (R.wishes rig.new) }
    ensures missing { IsMissing result (R.held rig.old) }
    ensures held { SameInHand (R.held rig.old) (R.held rig.new) }
    ensures fits { FitsShape shape.now (R.held rig.new) }
    ensures published { R.published rig.new ≡ R.published rig.old }
    ensures strays { R.astray rig.new ≡ false → R.astray rig.old ≡ false }
    ensures noted { R.noted rig.new ≡ R.noted rig.old }
{
    let targets = rig.targets(gsi);
    match raise_gsi(rig, shape.cpus, &targets, Source::Line(line)) {
        Ok(status) => Ok(Reply::Signal(status)),
        Err(lacks) => Err(lacks),
    }
}

/// A line source of a GSI goes low (KVM_IRQ_LINE): `Signal` with the status.
pub fn lower_line<R: Rig>(rig: &mut R, gsi: u16, line: u8) -> Result<Reply, Lacks>
    requires gsi { gsi < 4096 }
    requires line { line < 8 }
    requires pins { PinsFit (chips_of (R.held rig.old)) }
    ensures does { R.astray rig.new ≡ false →
        Replies (lower ((routing_of_words (R.published rig.old)).targets gsi) (Line line)) (R.held rig.old) (R.wishes rig.old)
        result (R.held rig.new) (R.wishes rig.new) }
    ensures missing { IsMissing result (R.held rig.old) }
    ensures held { SameInHand (R.held rig.old) (R.held rig.new) }
    ensures fits { (shape : Sizes) → FitsShape shape (R.held rig.old) → FitsShape shape (R.held rig.new) }
    ensures published { R.published rig.new ≡ R.published rig.old }
    ensures strays { R.astray rig.new ≡ false → R.astray rig.old ≡ false }
    ensures noted { R.noted rig.new ≡ R.noted rig.old }
{
    let targets = rig.targets(gsi);
    match lower_gsi(rig, &targets, Source::Line(line)) {
        Ok(status) => Ok(Reply::Signal(status)),
        Err(lacks) => Err(lacks),
    }
}

/// A message is sent (KVM_SIGNAL_MSI), whose address is one of messages: `Signal` with the status.
pub fn send_message<R: Rig>(
    rig: &mut R,
    shape: &Shape,
    address: u64,
    payload: u32,
) -> Result<Reply, Lacks>
    requires good { address / 2 ^ 20 ≡ 0xfee }
    requires fits { FitsShape shape.now (R.held rig.old) }
    ensures does { Replies (message_sent shape.now address payload) (R.held rig.old) (R.wishes rig.old) result (R.held rig.new)
        (R.wishes rig.new) }
    ensures missing { IsMissing result (R.held rig.old) }
    ensures held { SameInHand (R.held rig.old) (R.held rig.new) }
    ensures fits { FitsShape shape.now (R.held rig.new) }
    ensures published { R.published rig.new ≡ R.published rig.old }
    ensures strays { R.astray rig.new ≡ R.astray rig.old }
    ensures noted { R.noted rig.new ≡ R.noted rig.old }
{
    match send(rig, shape.cpus, &message_of(address, payload), None) {
        Ok(status) => Ok(Reply::Signal(status)),
        Err(lacks) => Err(lacks),
    }
}

// The message of a good address.
fn message_of(address: u64, payload: u32) -> Message
    requires { address / 2 ^ 20 ≡ 0xfee }
    ensures { result ≡ message_in address payload }
{
    match decode(address, payload) {
        Ok(message) => message,
        Err(_) => unreachable!(),
    }
}

/// A count is added to a counter (eventfd(2), write). The trigger of an irqfd keeps the count 0 and injects once: `Signal` with
/// the status, and `Done` for the count 0. For another counter it is `Done`, or `Over` where the count would pass 2^64 - 2.
pub fn write<R: Rig>(rig: &mut R, shape: &Shape, counter: u16, n: u64) -> Result<Reply, Lacks>
    requires counter { counter < shape.now.counters }
    requires count { n < 2 ^ 64 - 1 }
    requires fits { FitsShape shape.now (R.held rig.old) }
    ensures does { let routing = routing_of_words (R.published rig.old) in R.astray rig.new ≡ false →
        Replies (write routing shape.now (routing.trigger counter) counter n) (R.held rig.old) (R.wishes rig.old) result
        (R.held rig.new) (R.wishes rig.new) }
    ensures missing { IsMissing result (R.held rig.old) }
    ensures held { SameInHand (R.held rig.old) (R.held rig.new) }
    ensures fits { FitsShape shape.now (R.held rig.new) }
    ensures published { R.published rig.new ≡ R.published rig.old }
    ensures strays { R.astray rig.new ≡ false → R.astray rig.old ≡ false }
    ensures noted { R.noted rig.new ≡ R.noted rig.old }
{
    match rig.trigger(counter) {
        None => add(rig.parts(), counter, n),
        Some(_) if n == 0 => Ok(Reply::Done),
        Some(trigger) => write_trigger(rig, shape, trigger),
    }
}

/// The irqfd of a trigger injects (KVM_IRQFD): `Signal` with the status.
pub fn write_trigger<R: Rig>(
    rig: &mut R,
    shape: &Shape,
    trigger: TriggerWord,
) -> Result<Reply, Lacks>
    requires gsi { trigger.gsi < 4096 }
    requires fits { FitsShape shape.now (R.held rig.old) }
    ensures does { R.astray rig.new ≡ false →
        Replies (trigger_written (routing_of_words (R.published rig.old)) shape.now trigger) (R.held rig.old) (R.wishes rig.old)
        result (R.held rig.new) (R.wishes rig.new) }
    ensures missing { IsMissing result (R.held rig.old) }
    ensures held { SameInHand (R.held rig.old) (R.held rig.new) }
    ensures fits { FitsShape shape.now (R.held rig.new) }
    ensures published { R.published rig.new ≡ R.published rig.old }
    ensures strays { R.astray rig.new ≡ false → R.astray rig.old ≡ false }
    ensures noted { R.noted rig.new ≡ R.noted rig.old }
{
    let targets = rig.targets(trigger.gsi);
    match inject(rig, shape.cpus, &targets, source_of(trigger.resample)) {
        Ok(status) => Ok(Reply::Signal(status)),
        Err(lacks) => Err(lacks),
    }
}

/// The irqfd of a trigger injects, and the event `Injected` tells the status; it is left out where it finds no room. It is what
/// the ring of a trigger does, whatever its counter.
pub fn inject_told<R: Rig>(
    rig: &mut R,
    shape: &Shape,
    trigger: TriggerWord,
    events: &mut Events,
) -> Result<(), Lacks>
    requires gsi { trigger.gsi < 4096 }
    requires fits { FitsShape shape.now (R.held rig.old) }
    ensures does { (counter : ℕ) → R.astray rig.new ≡ false →
        Adds result events.old.items events.new.items (parts_of (R.held rig.new)) (R.wishes rig.new)
        (run_on (ring_counter (routing_of_words (R.published rig.old)) shape.now counter (Some trigger))
        (parts_of (R.held rig.old)) (R.wishes rig.old)) }
    ensures missing { IsMissing result (R.held rig.old) }
    ensures held { SameInHand (R.held rig.old) (R.held rig.new) }
    ensures fits { FitsShape shape.now (R.held rig.new) }
    ensures published { R.published rig.new ≡ R.published rig.old }
    ensures strays { R.astray rig.new ≡ false → R.astray rig.old ≡ false }
    ensures noted { R.noted rig.new ≡ R.noted rig.old }
{
    let gsi = trigger.gsi;
    let targets = rig.targets(gsi);
    match inject(rig, shape.cpus, &targets, source_of(trigger.resample)) {
        Ok(status) => {
            tell(Event::Injected { gsi, status }, events);
            Ok(())
        }
        Err(lacks) => Err(lacks),
    }
}

/// The source of an irqfd: one with a resample counter holds its pins until they are acknowledged, another pulses them.
pub fn source_of(resample: bool) -> Source
    ensures value { result ≡ source_of resample }
    ensures line { IsSource result }
{
    if resample {
        Source::Resample
    } else {
        Source::Pulse
    }
}
