//! What acknowledges reach, by the board as it is before them, as rows of the table of reach.
ghost use Rattle.std.specs.Prelude.{◌≡◌, ◌<◌, IfSome};
ghost use Rattle.irq_base.specs.declared.event.Pin.TheVariants as pins;
ghost use Rattle.ioapic_82093aa.specs.Pins.{pin_acked, resend_of};
ghost use Rattle.pic_8259a.specs.Pair.{cycle};
ghost use Rattle.tick_reinject.specs.Ticks.{ack_injects};
ghost use Rattle.route_table.specs.Pins.{IsPin};
ghost use Rattle.board_model.specs.Chips.{pair_of, ioapic_of as chip_of};
ghost use Rattle.board_raise.specs.Fit.{IoapicFits, PairFits};
ghost use Rattle.board_raise.specs.InHand.{pic_of, ioapic_of};
ghost use Rattle.board_ack.specs.ReachLaws.{of_marked, of_resend, of_level, of_tick};
ghost use Rattle.board_calls.specs.Processors.{pins_with, pic_pin};
ghost use Rattle.board_step.specs.Reach.{of_end, of_cycle};
ghost use Rattle.board_reach.specs.ReachNow.{pin_freed, part_freed, part_cleared, cleared, of_acknowledge_now};
ghost use Rattle.board_reach.specs.Seen.{board_seen, routing_seen, SeenFits, of_entry, of_steps, is_ended, row, acks_row, chip_seen};

use crate::seen::Seen;
use crate::signals::{copied, is_ioapic, is_tick, of_gsi, of_message};
use board_raise::{IoPart, PicPart};
use ioapic_82093aa::Ioapic;
use irq_base::{Message, Part, Pin, Source};
use pic_8259a::Pair;
use tick_reinject::TickState;

// ---- one pin

// Those whom the GSI concerns, where it is marked: all but the local APICs.
fn of_marked(seen: &Seen, gsi: Option<u16>, part: Part) -> bool
    ensures { result ≡ of_marked (routing_seen seen.now) seen.now.shape.now gsi part }
{
    match gsi {
        None => false,
        Some(gsi) => is_marked(seen, gsi) && !matches!(part, Part::Lapic(_)),
    }
}

// Whether the GSI has a resampler or an acknowledge notifier, or is that of the tick.
fn is_marked(seen: &Seen, gsi: u16) -> bool
    ensures { result ≡ (routing_seen seen.now).marked gsi }
{
    let registry = seen.registry;
    registry.irqfds.has_resampler(gsi) || registry.watches.has_watch(gsi) || gsi == seen.shape.tick
}

// Resample lets go of the pin, if there is one.
fn free_pin(part: &mut IoPart, pin: Option<u8>)
    requires pin { IfSome pin (λ n. n < 24) }
    requires fits { IoapicFits part.old.ioapic part.old.levels }
    ensures after { ioapic_of part.new ≡ pin_freed (ioapic_of part.old) pin }
    ensures fits { IoapicFits part.new.ioapic part.new.levels }
{
    if let Some(pin) = pin {
        part.let_go(pin, Source::Resample);
    }
}

// A copy of the I/O APIC once Resample has let go of the GSI's pin, where the GSI has resamplers.
fn freed(seen: &Seen, gsi: Option<u16>) -> IoPart
    requires fits { SeenFits seen.now }
    requires gsi { IfSome gsi (λ n. n < 4096) }
    ensures part { ioapic_of result ≡ part_freed (routing_seen seen.now) seen.now.shape.now (board_seen seen.now) gsi }
    ensures fits { IoapicFits result.ioapic result.levels }
{
    let mut copy = copied(seen.ioapic);
    let registry = seen.registry;
    if let Some(gsi) = gsi {
        if registry.irqfds.has_resampler(gsi) {
            free_pin(&mut copy, registry.table.targets(gsi).ioapic);
        }
    }
    copy
}

// Remote IRR of the pin is cleared, where its entry is level-triggered.
fn clear(part: &mut IoPart, pin: Pin)
    requires pin { IsPin pin }
    requires fits { IoapicFits part.old.ioapic part.old.levels }
    ensures after { ioapic_of part.new ≡ part_cleared (ioapic_of part.old) pin }
    ensures fits { IoapicFits part.new.ioapic part.new.levels }
{
    if let Pin::Ioapic(pin) = pin {
        if part.ioapic.is_level(pin) {
            part.acked(pin);
        }
    }
}

// What a message reaches that is sent again, if there is one.
pub(crate) fn of_resend(seen: &Seen, message: Option<Message>, part: Part) -> bool
    ensures { result ≡ of_resend (routing_seen seen.now) seen.now.shape.now message part }
{
    match message {
        None => false,
        Some(message) => of_message(&message, None, seen.shape.cpus, part),
    }
}

// A copy of the chip, whose pins are high where they are held.
pub(crate) fn chip(part: &IoPart) -> Ioapic
    requires { IoapicFits part.now.ioapic part.now.levels }
    ensures { result ≡ chip_of (ioapic_of part.now) }
{
    let mut copy = Ioapic::power_on();
    copy.copy_from(&part.ioapic);
    copy
}

// The message that the pin would send again once its remote IRR is clear.
fn sent_again(part: &IoPart, pin: u8) -> Option<Message>
    requires pin { pin < 24 }
    requires fits { IoapicFits part.now.ioapic part.now.levels }
    ensures { result ≡ resend_of (pin_acked (chip_of (ioapic_of part.now)) pin) pin }
{
    let mut chip = chip(part);
    chip.acked(pin);
    chip.resend(pin)
}

// The I/O APIC, where the pin is there, and what a level-triggered entry sends again once its remote IRR is clear.
fn of_level(seen: &Seen, pin: Pin, part: Part) -> bool
    requires pin { IsPin pin }
    requires fits { SeenFits seen.now }
    ensures { result ≡ of_level (routing_seen seen.now) seen.now.shape.now (board_seen seen.now) pin part }
{
    match pin {
        Pin::Pic(_) => false,
        Pin::Ioapic(pin) => is_ioapic(part) || of_entry(seen, pin, part),
    }
}

// What a level-triggered entry sends again once its remote IRR is clear.
fn of_entry(seen: &Seen, pin: u8, part: Part) -> bool
    requires pin { pin < 24 }
    requires fits { SeenFits seen.now }
    ensures { result ≡ of_entry seen.now pin part }
{
    let io = seen.ioapic;
    io.ioapic.is_level(pin) && of_resend(seen, sent_again(io, pin), part)
}

// Whether an acknowledge would inject the next tick.
fn injects(tick: &TickState) -> bool
    ensures { result ≡ ack_injects tick.now }
{
    let mut copy = tick.copy();
    copy.acked()
}

// The tick, where the GSI is its own, and what the next tick reaches where it is injected.
fn of_tick(seen: &Seen, gsi: Option<u16>, part: Part) -> bool
    requires fits { SeenFits seen.now }
    ensures { result ≡ of_tick (routing_seen seen.now) seen.now.shape.now (board_seen seen.now) gsi part }
{
    let tick = seen.shape.tick;
    match gsi {
        None => false,
        Some(gsi) => {
            gsi == tick && (is_tick(part) || (injects(seen.tick) && of_gsi(seen, tick, part)))
        }
    }
}

// What step 4 and step 5 reach, Resample having let go.
fn of_steps(seen: &Seen, pin: Pin, gsi: Option<u16>, part: Part) -> bool
    requires pin { IsPin pin }
    requires fits { SeenFits seen.now }
    ensures { result ≡ of_steps seen.now pin gsi part }
{
    of_level(seen, pin, part) || of_tick_after(seen, pin, gsi, part)
}

// What step 5 reaches, once remote IRR of the pin is cleared.
fn of_tick_after(seen: &Seen, pin: Pin, gsi: Option<u16>, part: Part) -> bool
    requires pin { IsPin pin }
    requires fits { SeenFits seen.now }
    ensures { result ≡ of_tick (routing_seen seen.now) seen.now.shape.now (cleared (board_seen seen.now) pin) gsi part }
{
    let mut ioapic = copied(seen.ioapic);
    clear(&mut ioapic, pin);
    let later = Seen {
        shape: seen.shape,
        registry: seen.registry,
        counters: seen.counters,
        tick: seen.tick,
        pic: seen.pic,
        ioapic: &ioapic,
        lapics: seen.lapics,
    };
    of_tick(&later, gsi, part)
}

// What the acknowledge of a pin reaches.
fn of_acknowledge(seen: &Seen, pin: Pin, part: Part) -> bool
    requires pin { IsPin pin }
    requires fits { SeenFits seen.now }
    ensures { result ≡ of_acknowledge_now (routing_seen seen.now) seen.now.shape.now (board_seen seen.now) pin part }
{
    let gsi = seen.registry.table.gsi_of(pin);
    let ioapic = freed(seen, gsi);
    let later = Seen {
        shape: seen.shape,
        registry: seen.registry,
        counters: seen.counters,
        tick: seen.tick,
        pic: seen.pic,
        ioapic: &ioapic,
        lapics: seen.lapics,
    };
    of_marked(seen, gsi, part) || of_steps(&later, pin, gsi, part)
}

// ---- pins one after another

// A pin of the pair, if there is one.
#[tactic(auto, using(crate::proofs::SeenNow::one_rules))]
pub(crate) fn of_pic_pin(seen: &Seen, pin: Option<u8>, part: Part) -> bool
    requires pin { IfSome pin (λ n. n < 16) }
    requires fits { SeenFits seen.now }
    ensures { result ≡ acks_row seen.now (pic_pin pin) part }
{
    match pin {
        None => false,
        Some(pin) => of_acknowledge(seen, Pin::Pic(pin), part),
    }
}

// A copy of the pair, whose pins are high where they are held.
pub(crate) fn pair(part: &PicPart) -> Pair
    requires { PairFits part.now.pair part.now.levels }
    ensures { result ≡ pair_of (pic_of part.now) }
{
    let mut copy = Pair::power_on();
    copy.copy_from(&part.pair);
    copy
}

// The pins that a cycle of the pair acknowledges, the master's before the slave's.
pub(crate) fn of_cycle(seen: &Seen, part: Part) -> bool
    requires fits { SeenFits seen.now }
    ensures { result ≡ row of_cycle seen.now part }
{
    let mut pair = pair(seen.pic);
    let (_, pins) = pair.inta();
    of_pic_pin(seen, pins.master, part) || of_pic_pin(seen, pins.slave, part)
}

// The pins of the I/O APIC whose entry has the vector.
fn of_vector(seen: &Seen, vector: u8, part: Part) -> bool
    requires fits { SeenFits seen.now }
    ensures { result ≡ acks_row seen.now (pins_with (chip_seen seen.now) vector) part }
{
    for pin in 0..24 {
        if is_ended(seen, pin, vector, part) {
            return true;
        }
    }
    false
}

// Whether the pin's entry has the vector, and its acknowledge reaches the part.
fn is_ended(seen: &Seen, pin: u8, vector: u8, part: Part) -> bool
    requires pin { pin < 24 }
    requires fits { SeenFits seen.now }
    ensures { result ≡ is_ended seen.now vector part pin }
{
    let io = seen.ioapic;
    io.ioapic.has_vector(pin, vector) && of_acknowledge(seen, Pin::Ioapic(pin), part)
}

// Where a vector ends the I/O APIC, and each of its pins that has the vector.
pub(crate) fn of_end(seen: &Seen, vector: Option<u8>, part: Part) -> bool
    requires fits { SeenFits seen.now }
    ensures { result ≡ row of_end seen.now vector part }
{
    match vector {
        None => false,
        Some(vector) => is_ioapic(part) || of_vector(seen, vector, part),
    }
}
