//! What messages and signals reach, as rows of the table of reach.
ghost use Rattle.std.specs.Prelude.{◌≡◌, ◌<◌, IsTrue};
ghost use Rattle.irq_base.specs.declared.shape.Part.TheVariants as parts;
ghost use Rattle.ioapic_82093aa.specs.Pins.{raise_of};
ghost use Rattle.lapic.specs.Messages.{is_taken};
ghost use Rattle.msi_decode.specs.Messages.{message_in};
ghost use Rattle.route_table.specs.Words.{is_good, is_route};
ghost use Rattle.board_model.specs.Board.{is_same};
ghost use Rattle.board_model.specs.Chips.{ioapic_of as chip_of};
ghost use Rattle.board_raise.specs.Fit.{IoapicFits};
ghost use Rattle.board_raise.specs.InHand.{ioapic_of};
ghost use Rattle.board_raise.specs.ReachLaws.{is_of_one, of_message, of_pin, of_answer, of_other, of_raise, of_fall};
ghost use Rattle.board_raise.specs.Send.{reached_by};
ghost use Rattle.board_ack.specs.ReachLaws.{of_gsi};
ghost use Rattle.board_reach.specs.Seen.{board_seen, routing_seen, SeenFits};

use crate::seen::Seen;
use board_raise::IoPart;
use dest_match::BROADCAST;
use ioapic_82093aa::{Ioapic, Raise};
use irq_base::{Message, Mode, MsiWord, Part, Source, Targets};
use lapic::Shorthand;
use msi_decode::decode;

// Whether it is the registry.
pub(crate) fn is_registry(part: Part) -> bool
    ensures { result ≡ is_same parts.Registry part }
{
    matches!(part, Part::Registry)
}

// Whether it is the counters.
pub(crate) fn is_counters(part: Part) -> bool
    ensures { result ≡ is_same parts.Counters part }
{
    matches!(part, Part::Counters)
}

// Whether it is the tick.
pub(crate) fn is_tick(part: Part) -> bool
    ensures { result ≡ is_same parts.Tick part }
{
    matches!(part, Part::Tick)
}

// Whether it is the 8259A pair.
pub(crate) fn is_pic(part: Part) -> bool
    ensures { result ≡ is_same parts.Pic part }
{
    matches!(part, Part::Pic)
}

// Whether it is the I/O APIC.
pub(crate) fn is_ioapic(part: Part) -> bool
    ensures { result ≡ is_same parts.Ioapic part }
{
    matches!(part, Part::Ioapic)
}

// Whether it is the local APIC of processor n.
pub(crate) fn is_lapic(n: u16, part: Part) -> bool
    ensures { result ≡ is_same (parts.Lapic n) part }
{
    match part {
        Part::Lapic(m) => n == m,
        _ => false,
    }
}

// Whether local APICs take messages of the mode.
fn is_taken(mode: Mode) -> bool
    ensures { result ≡ is_taken mode }
{
    matches!(mode, Mode::Fixed | Mode::Lowest | Mode::Nmi)
}

// Whether a message looks at the local APIC of processor n.
#[tactic(auto, using(crate::proofs::SeenNow::reached_rules))]
fn looks_at(message: &Message, from: Option<(u16, Shorthand)>, cpus: u16, n: u16) -> bool
    ensures { result ≡ is_of_one (reached_by message.now from cpus) (parts.Lapic n) }
{
    match from {
        Some((sender, Shorthand::OwnOnly)) => sender == n && n < cpus,
        Some((_, Shorthand::All | Shorthand::Others)) => n < cpus,
        _ => {
            if message.logical || message.dest == BROADCAST {
                n < cpus
            } else {
                message.dest == n as u32 && n < cpus
            }
        }
    }
}

// Whether a message looks at the part.
#[tactic(auto, using(crate::proofs::SeenNow::no_lapic_rules))]
fn is_looked_at(message: &Message, from: Option<(u16, Shorthand)>, cpus: u16, part: Part) -> bool
    ensures { result ≡ is_of_one (reached_by message.now from cpus) part }
{
    match part {
        Part::Lapic(n) => looks_at(message, from, cpus, n),
        _ => false,
    }
}

// What a message reaches: the local APICs that it looks at, where they take its mode.
pub(crate) fn of_message(
    message: &Message,
    from: Option<(u16, Shorthand)>,
    cpus: u16,
    part: Part,
) -> bool
    ensures { result ≡ of_message message.now from cpus part }
{
    is_taken(message.mode) && is_looked_at(message, from, cpus, part)
}

// What a raise of an I/O APIC pin sends, and whom that reaches.
fn of_answer(answer: &Raise, cpus: u16, part: Part) -> bool
    ensures { result ≡ of_answer answer.now cpus part }
{
    match answer {
        Raise::Send(message) => of_message(message, None, cpus, part),
        _ => false,
    }
}

// A copy of the I/O APIC with its holds.
pub(crate) fn copied(part: &IoPart) -> IoPart
    ensures { result ≡ part.now }
{
    let mut ioapic = Ioapic::power_on();
    ioapic.copy_from(&part.ioapic);
    IoPart {
        ioapic,
        levels: part.levels.copy(),
    }
}

// What a raise of the pin would answer. It is asked of a copy, since a raise changes the I/O APIC.
fn answer_of(part: &IoPart, pin: u8) -> Raise
    requires pin { pin < 24 }
    requires fits { IoapicFits part.now.ioapic part.now.levels }
    ensures { result ≡ raise_of (chip_of (ioapic_of part.now)) pin }
{
    let mut copy = copied(part);
    copy.raise(pin, Source::Tick)
}

// The message of a good word.
pub(crate) fn message_of(word: MsiWord) -> Message
    requires { IsTrue (is_good word) }
    ensures { result ≡ message_in word.address word.payload }
{
    match decode(word.address, word.payload) {
        Ok(message) => message,
        Err(_) => unreachable!(),
    }
}

// What a fall of a GSI with these targets reaches: the chips on which it has a pin.
pub(crate) fn of_fall(targets: &Targets, part: Part) -> bool
    ensures { result ≡ of_fall targets.now part }
{
    of_pic_pin(targets.pic, part) || of_ioapic_pin(targets.ioapic, part)
}

// The 8259A pair, where there is a pin.
fn of_pic_pin(pin: Option<u8>, part: Part) -> bool
    ensures { result ≡ of_pin pin parts.Pic part }
{
    match pin {
        None => false,
        Some(_) => is_pic(part),
    }
}

// The I/O APIC, where there is a pin.
fn of_ioapic_pin(pin: Option<u8>, part: Part) -> bool
    ensures { result ≡ of_pin pin parts.Ioapic part }
{
    match pin {
        None => false,
        Some(_) => is_ioapic(part),
    }
}

// What a raise reaches of the target beside the 8259A pair.
fn of_other(seen: &Seen, targets: &Targets, part: Part) -> bool
    requires fits { SeenFits seen.now }
    requires route { IsTrue (is_route targets.now) }
    ensures { result ≡ of_other (board_seen seen.now) targets.now.ioapic targets.now.msi seen.now.shape.now.cpus part }
{
    let cpus = seen.shape.cpus;
    match (targets.ioapic, targets.msi) {
        (Some(pin), _) => is_ioapic(part) || of_answer(&answer_of(seen.ioapic, pin), cpus, part),
        (None, Some(word)) => of_message(&message_of(word), None, cpus, part),
        (None, None) => false,
    }
}

// What a raise of a GSI with these targets reaches.
pub(crate) fn of_raise(seen: &Seen, targets: &Targets, part: Part) -> bool
    requires fits { SeenFits seen.now }
    requires route { IsTrue (is_route targets.now) }
    ensures { result ≡ of_raise (board_seen seen.now) targets.now seen.now.shape.now.cpus part }
{
    of_pic_pin(targets.pic, part) || of_other(seen, targets, part)
}

// What a raise of a GSI reaches.
pub(crate) fn of_gsi(seen: &Seen, gsi: u16, part: Part) -> bool
    requires fits { SeenFits seen.now }
    requires gsi { gsi < 4096 }
    ensures { result ≡ of_gsi (routing_seen seen.now) seen.now.shape.now (board_seen seen.now) gsi part }
{
    let targets = seen.registry.table.targets(gsi);
    of_raise(seen, &targets, part)
}

// What a fall of a GSI reaches.
pub(crate) fn of_fall_of(seen: &Seen, gsi: u16, part: Part) -> bool
    requires { gsi < 4096 }
    ensures { result ≡ of_fall ((routing_seen seen.now).targets gsi) part }
{
    of_fall(&seen.registry.table.targets(gsi), part)
}
