//! The pair of 8259As: worked rows, and scenarios of its data sheet.
//!
//! Each scenario is a list of steps on a pair at power-on, with the answers that the rules of the data sheet give.
ghost use Rattle.std.specs.Prelude.{IsTrue};
ghost use Rattle.pic_8259a.specs.Pair.{is_port};

use Port::*;
use Step::*;
use pic_8259a::{Pair, PinOutcome};
use std::test::Fail;

/// The six ports.
#[derive(Clone, Copy)]
enum Port {
    P20,
    P21,
    PA0,
    PA1,
    P4D0,
    P4D1,
}

/// A step on a pair, with its answer.
#[derive(Clone, Copy)]
enum Step {
    /// A write that acknowledges no pin.
    Out(Port, u8),
    /// A write that acknowledges a pin.
    Ends(Port, u8, u8),
    /// A read and its value.
    In(Port, u8),
    /// A read, its value, and the pin that it acknowledges.
    Polls(Port, u8, u8),
    /// A rise and its outcome.
    Up(u8, PinOutcome),
    /// A fall.
    Down(u8),
    /// Whether the pair has output.
    Output(bool),
    /// An acknowledge cycle, its vector, and the pins that it acknowledges.
    Inta(u8, Option<u8>, Option<u8>),
}

fn number(port: Port) -> u16
    ensures { IsTrue (is_port result) }
{
    match port {
        P20 => 0x20,
        P21 => 0x21,
        PA0 => 0xa0,
        PA1 => 0xa1,
        P4D0 => 0x4d0,
        P4D1 => 0x4d1,
    }
}

/// Whether the pair answers a step as it is told.
fn answers(pair: &mut Pair, step: Step) -> bool {
    match step {
        Out(port, value) => pair.write(number(port), value) == None,
        Ends(port, value, pin) => pair.write(number(port), value) == Some(pin),
        In(port, value) => pair.read(number(port)) == (value, None),
        Polls(port, value, pin) => pair.read(number(port)) == (value, Some(pin)),
        Up(pin, outcome) => pair.set_pin(pin % 16, true) == outcome,
        Down(pin) => pair.set_pin(pin % 16, false) == PinOutcome::Lowered,
        Output(active) => pair.output() == active,
        Inta(vector, master, slave) => {
            let (given, pins) = pair.inta();
            given == vector && pins.master == master && pins.slave == slave
        }
    }
}

/// The place of the first step that the pair does not answer as it is told.
fn first_wrong(pair: &mut Pair, steps: &[Step]) -> Option<usize> {
    for k in 0..steps.len() {
        if !answers(pair, steps[k]) {
            return Some(k);
        }
    }
    None
}

/// The initialisation of a PC: bases 20h and 28h, the slave at level 2.
fn initialised() -> Pair {
    let mut pair = Pair::power_on();
    let words = [
        Out(P20, 0x11),
        Out(P21, 0x20),
        Out(P21, 0x04),
        Out(P21, 0x01),
        Out(PA0, 0x11),
        Out(PA1, 0x28),
        Out(PA1, 0x02),
        Out(PA1, 0x01),
    ];
    let _ = first_wrong(&mut pair, &words);
    pair
}

/// Whether a pair after its initialisation and these further words answers each step as it is told.
fn follows(words: &[Step], steps: &[Step]) -> Option<usize> {
    let mut pair = initialised();
    match first_wrong(&mut pair, words) {
        Some(k) => Some(k),
        None => first_wrong(&mut pair, steps),
    }
}

// The worked rows of one chip: a pin's outcomes, a poll (80h and the level), the in-service register, a specific end of
// interrupt that finds its level once, the order after the lowest level was set to 4 (5, 6, 7, 0, ..), a poll without a
// request, and the pins 0 to 2 that stay edge-triggered.
#[test]
fn one_chip(rt: HostRuntime) -> Result<(), Fail> {
    let steps = [
        Up(3, PinOutcome::New),
        Up(3, PinOutcome::Stood),
        Down(3),
        Out(P20, 0x0c),
        In(P20, 0x83),
        Out(P20, 0x0b),
        In(P20, 0x08),
        Ends(P20, 0x63, 3),
        Out(P20, 0x63),
        Out(P20, 0xc4),
        Up(0, PinOutcome::New),
        Up(5, PinOutcome::New),
        Inta(0x25, None, None),
        Out(PA0, 0x0c),
        In(PA1, 0x00),
        Out(P4D0, 0xff),
        In(P4D0, 0xf8),
        Out(P4D1, 0xff),
        In(P4D1, 0xde),
    ];
    assert_eq!(rt; follows(&[], &steps), None);
    Ok(())
}

#[test]
fn worked_rows(rt: HostRuntime) -> Result<(), Fail> {
    // the cascade: pin 8 is level 0 of the slave, and each chip needs its own end of interrupt
    let cascade = [
        Up(8, PinOutcome::New),
        Output(true),
        Inta(0x28, None, None),
        Ends(PA0, 0x20, 8),
        Ends(P20, 0x20, 2),
        Output(false),
    ];
    assert_eq!(rt; follows(&[], &cascade), None);
    // a spurious cycle gives the vector of level 7 and sets no in-service bit
    let spurious = [Inta(0x27, None, None), Out(P20, 0x0b), In(P20, 0x00)];
    assert_eq!(rt; follows(&[], &spurious), None);
    // a masked level pin of the slave (pin 11 is its level 3) is a request while it is high; nothing is initialised
    let level = [
        Out(P4D1, 0x08),
        Up(11, PinOutcome::Masked),
        In(PA0, 0x08),
        Up(11, PinOutcome::Masked),
        In(PA0, 0x08),
        Down(11),
        In(PA0, 0x00),
    ];
    assert_eq!(rt; first_wrong(&mut Pair::power_on(), &level), None);
    // the timer: a pulse at pin 0, its cycle, and the two ends of interrupt of a handler that serves both chips; only the
    // master is initialised
    let timer = [
        Out(P20, 0x11),
        Out(P21, 0x20),
        Out(P21, 0x04),
        Out(P21, 0x01),
        Up(0, PinOutcome::New),
        Down(0),
        Inta(0x20, None, None),
        Out(PA0, 0x20),
        Ends(P20, 0x20, 0),
        Up(0, PinOutcome::New),
        Down(0),
        Inta(0x20, None, None),
        Out(PA0, 0x20),
        Ends(P20, 0x20, 0),
        Output(false),
    ];
    assert_eq!(rt; first_wrong(&mut Pair::power_on(), &timer), None);
    Ok(())
}

#[test]
fn rotation(rt: HostRuntime) -> Result<(), Fail> {
    // rotate on non-specific EOI: the level that ended becomes the lowest. After 4 ended the order is 5, 6, 7, 0, .., 4, so
    // 6 comes before 1; after 6 ended it is 7, 0, 1, ..
    let on_eoi = [
        Up(4, PinOutcome::New),
        Up(6, PinOutcome::New),
        Inta(0x24, None, None),
        Ends(P20, 0xa0, 4),
        Up(1, PinOutcome::New),
        Inta(0x26, None, None),
        Ends(P20, 0xa0, 6),
        Inta(0x21, None, None),
        // rotate on specific EOI: level 1 ended and is the lowest, then level 5, which is not in service, is the lowest
        Ends(P20, 0xe1, 1),
        Out(P20, 0xe5),
        Down(4),
        Up(4, PinOutcome::New),
        Down(6),
        Up(6, PinOutcome::New),
        Inta(0x26, None, None),
        // 101 without a level in service leaves the order: 6 before 4 again after 6 ended without rotation
        Ends(P20, 0x20, 6),
        Out(P20, 0xa0),
        Down(6),
        Up(6, PinOutcome::New),
        Inta(0x26, None, None),
    ];
    assert_eq!(rt; follows(&[], &on_eoi), None);
    // rotate in automatic EOI: the level acknowledged becomes the lowest. After 3 the order is 4, 5, .., 3, so 5 comes
    // before 3, and then 3 is the lowest. With rotation off it stays the lowest: after the cycle of 1 the order is still 4,
    // .., 0, 1, 2, 3, so that 1 comes before 3
    let automatic = [
        Out(P20, 0x11),
        Out(P21, 0x20),
        Out(P21, 0x04),
        Out(P21, 0x03),
        Out(P20, 0x80),
    ];
    let in_auto_eoi = [
        Up(3, PinOutcome::New),
        Up(5, PinOutcome::New),
        Inta(0x23, Some(3), None),
        Down(3),
        Up(3, PinOutcome::New),
        Inta(0x25, Some(5), None),
        Inta(0x23, Some(3), None),
        Out(P20, 0x00),
        Up(1, PinOutcome::New),
        Inta(0x21, Some(1), None),
        Down(3),
        Up(3, PinOutcome::New),
        Down(1),
        Up(1, PinOutcome::New),
        Inta(0x21, Some(1), None),
        Inta(0x23, Some(3), None),
    ];
    assert_eq!(rt; follows(&automatic, &in_auto_eoi), None);
    Ok(())
}

#[test]
fn special_modes(rt: HostRuntime) -> Result<(), Fail> {
    // special mask: level 4 is in service and masked. It inhibits 6 until special mask is on (68h); then the non-specific
    // EOI ends 6 and passes 4 over, until special mask is off (48h)
    let special_mask = [
        Up(4, PinOutcome::New),
        Inta(0x24, None, None),
        Up(6, PinOutcome::New),
        Output(false),
        Out(P21, 0x10),
        Output(false),
        Out(P20, 0x68),
        Output(true),
        Inta(0x26, None, None),
        Ends(P20, 0x20, 6),
        Out(P20, 0x20),
        Out(P20, 0x48),
        Ends(P20, 0x20, 4),
    ];
    assert_eq!(rt; follows(&[], &special_mask), None);
    // fully nested: while level 2 of the master is in service, a higher level of the slave has to wait for the master's EOI
    let nested = [
        Up(12, PinOutcome::New),
        Inta(0x2c, None, None),
        Up(9, PinOutcome::New),
        Output(false),
        Ends(P20, 0x20, 2),
        Output(true),
        Inta(0x29, None, None),
    ];
    assert_eq!(rt; follows(&[], &nested), None);
    // special fully nested (ICW4 11h on the master): it does not wait. The handler ends 9 on the slave, sees 10h (level 4)
    // still in service there, and gives the master its EOI only after 12 has ended. Level 3 of the master is inhibited by 2
    let special = [
        Out(P20, 0x11),
        Out(P21, 0x20),
        Out(P21, 0x04),
        Out(P21, 0x11),
    ];
    let cascade = [
        Up(12, PinOutcome::New),
        Inta(0x2c, None, None),
        Up(3, PinOutcome::New),
        Output(false),
        Up(9, PinOutcome::New),
        Output(true),
        Inta(0x29, None, None),
        Out(PA0, 0x0b),
        In(PA0, 0x12),
        Ends(PA0, 0x20, 9),
        In(PA0, 0x10),
        Output(false),
        Ends(PA0, 0x20, 12),
        In(PA0, 0x00),
        Ends(P20, 0x20, 2),
        Inta(0x23, None, None),
    ];
    assert_eq!(rt; follows(&special, &cascade), None);
    Ok(())
}

#[test]
fn polls(rt: HostRuntime) -> Result<(), Fail> {
    // automatic EOI on both chips (ICW4 03h): the poll acknowledges the pin and leaves no in-service bit; one read, of
    // either port, ends it; without a request it gives 00h
    let automatic = [
        Out(P20, 0x11),
        Out(P21, 0x20),
        Out(P21, 0x04),
        Out(P21, 0x03),
        Out(PA0, 0x11),
        Out(PA1, 0x28),
        Out(PA1, 0x02),
        Out(PA1, 0x03),
    ];
    let steps = [
        Out(P21, 0x40),
        Up(5, PinOutcome::New),
        Out(P20, 0x0c),
        Polls(P20, 0x85, 5),
        Out(P20, 0x0b),
        In(P20, 0x00),
        Out(P20, 0x0c),
        In(P21, 0x00),
        In(P21, 0x40),
        // a read of the edge/level register ends no poll; an OCW3 without its bit 2 does
        Up(10, PinOutcome::New),
        Out(PA0, 0x0c),
        In(P4D1, 0x00),
        Polls(PA1, 0x82, 10),
        Out(PA0, 0x0c),
        Out(PA0, 0x0a),
        In(PA0, 0x00),
        // a poll of the master at level 2 acknowledges the master alone: the slave's request is still there for a cycle
        Up(9, PinOutcome::New),
        Out(P20, 0x0c),
        Polls(P20, 0x82, 2),
        In(PA0, 0x02),
        Output(true),
        Inta(0x29, Some(2), Some(9)),
        Output(false),
    ];
    assert_eq!(rt; follows(&automatic, &steps), None);
    Ok(())
}

#[test]
fn edges_and_levels(rt: HostRuntime) -> Result<(), Fail> {
    // an edge that falls before its acknowledge stays latched; a second one before the acknowledge merges with it; after
    // the acknowledge a third one is a new request, held back until the first has ended
    let edge = [
        Up(3, PinOutcome::New),
        Down(3),
        Output(true),
        Up(3, PinOutcome::Stood),
        Down(3),
        Inta(0x23, None, None),
        Output(false),
        Up(3, PinOutcome::New),
        Output(false),
        Ends(P20, 0x20, 3),
        Output(true),
    ];
    assert_eq!(rt; follows(&[], &edge), None);
    // pin 5 was latched and is low. As a level pin it loses its latch, and requests while it is high, also after its end of
    // interrupt; as an edge pin again it has no latch though it is high
    let level = [
        Up(5, PinOutcome::New),
        Down(5),
        In(P20, 0x20),
        Out(P4D0, 0x20),
        In(P4D0, 0x20),
        In(P20, 0x00),
        Output(false),
        Up(5, PinOutcome::New),
        Up(5, PinOutcome::Stood),
        In(P20, 0x20),
        Inta(0x25, None, None),
        In(P20, 0x20),
        Output(false),
        Ends(P20, 0x20, 5),
        Output(true),
        Out(P4D0, 0x00),
        Output(false),
        In(P20, 0x00),
    ];
    assert_eq!(rt; follows(&[], &level), None);
    Ok(())
}

#[test]
fn initialisation(rt: HostRuntime) -> Result<(), Fail> {
    // at power-on all is masked and the bases are 0; a masked rise is latched, and a request once it is unmasked
    let power_on = [
        In(P21, 0xff),
        In(PA1, 0xff),
        Inta(0x07, None, None),
        Up(1, PinOutcome::Masked),
        In(P20, 0x02),
        Output(false),
        Out(P21, 0x00),
        Output(true),
        Inta(0x01, None, None),
    ];
    assert_eq!(rt; first_wrong(&mut Pair::power_on(), &power_on), None);
    // ICW1 while ICW2 is expected begins anew: 13h tells that no ICW3 follows, so 30h is the base, 03h is ICW4 (automatic
    // EOI), and FEh is a mask
    let again = [
        Out(P20, 0x11),
        Out(P20, 0x13),
        Out(P21, 0x30),
        Out(P21, 0x03),
        Out(P21, 0xfe),
        In(P21, 0xfe),
        Up(0, PinOutcome::New),
        Inta(0x30, Some(0), None),
        // ICW1 without bit 0: no ICW4 follows, automatic EOI goes off, and a pin that stays high does not request
        Out(P20, 0x10),
        Out(P21, 0x20),
        Out(P21, 0x04),
        Out(P21, 0xaa),
        In(P21, 0xaa),
        Output(false),
        Up(0, PinOutcome::Stood),
        Down(0),
        Up(0, PinOutcome::New),
        Inta(0x20, None, None),
    ];
    assert_eq!(rt; follows(&[], &again), None);
    // words of the even port between the initialisation words are obeyed, and the sequence goes on: level 4 is the lowest
    let between = [
        Out(P20, 0x11),
        Out(P20, 0xc4),
        Out(P21, 0x47),
        Out(P21, 0x04),
        Out(P21, 0x01),
        Up(0, PinOutcome::New),
        Up(5, PinOutcome::New),
        Inta(0x45, None, None),
    ];
    assert_eq!(rt; first_wrong(&mut Pair::power_on(), &between), None);
    // pin 2 of the master itself: the slave has nothing ready, gives the vector of its level 7 and does not change
    let no_slave = [
        Up(2, PinOutcome::New),
        Inta(0x2f, None, None),
        Out(PA0, 0x0b),
        In(PA0, 0x00),
        Ends(P20, 0x20, 2),
    ];
    assert_eq!(rt; follows(&[], &no_slave), None);
    // a copy is equal: it goes on as the other does
    let mut copy = Pair::power_on();
    copy.copy_from(&initialised());
    assert_eq!(rt; first_wrong(&mut copy, &no_slave), None);
    Ok(())
}
