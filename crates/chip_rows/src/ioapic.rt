//! The I/O APIC: worked rows, and every register by its table.
//!
//! Each scenario is a list of steps on a chip at power-on, with the answers that the rules of the data sheet give.
ghost use Rattle.std.specs.Prelude.{◌≡◌, ◌<◌};

use Step::*;
use ioapic_82093aa::{Ioapic, Raise};
use irq_base::{Message, Mode};
use std::test::Fail;

/// A step on a chip, with its answer.
#[derive(Clone, Copy)]
enum Step {
    /// A write of the register of an index.
    Set(u8, u32),
    /// What the register of an index reads.
    Reads(u8, u32),
    /// A raise and its answer.
    Up(u8, Raise),
    /// A fall.
    Down(u8),
    /// The processors took the message of a pin.
    Taken(u8),
    /// The interrupt of a pin has ended.
    Ended(u8),
    /// The message of a pin that is to be sent again.
    Due(u8, Option<Message>),
    /// Whether the entry of a pin has a vector.
    Has(u8, u8, bool),
}

/// A message to a physical destination.
fn message(mode: Mode, vector: u8, dest: u32, level: bool) -> Message {
    Message {
        mode,
        logical: false,
        dest,
        vector,
        level,
    }
}

/// Writes a register by its index.
fn set(chip: &mut Ioapic, index: u8, value: u32) -> Option<u8> {
    let _ = chip.write(0x00, index as u32);
    chip.write(0x10, value)
}

/// Reads a register by its index.
fn get(chip: &mut Ioapic, index: u8) -> u32 {
    let _ = chip.write(0x00, index as u32);
    chip.read(0x10)
}

/// The pin whose entry a write of the register writes.
fn pin_written(index: u8) -> Option<u8> {
    match index {
        0x10..=0x3f => Some((index - 0x10) / 2),
        _ => None,
    }
}

/// Whether the chip answers a step as it is told.
fn answers(chip: &mut Ioapic, step: Step) -> bool {
    match step {
        Set(index, value) => set(chip, index, value) == pin_written(index),
        Reads(index, value) => get(chip, index) == value,
        Up(pin, answer) => chip.raise(pin % 24) == answer,
        Down(pin) => {
            chip.lower(pin % 24);
            true
        }
        Taken(pin) => {
            chip.accepted(pin % 24);
            true
        }
        Ended(pin) => {
            chip.acked(pin % 24);
            true
        }
        Due(pin, answer) => chip.resend(pin % 24) == answer,
        Has(pin, vector, answer) => {
            chip.has_vector(pin % 24, vector) == answer
                && chip.pins_with(vector).has_number(pin % 24) == answer
        }
    }
}

/// The place of the first step that the chip does not answer as it is told.
fn first_wrong(chip: &mut Ioapic, steps: &[Step]) -> Option<usize> {
    for k in 0..steps.len() {
        if !answers(chip, steps[k]) {
            return Some(k);
        }
    }
    None
}

/// What a register reads at power-on: the version 00170011h, and each low half masked.
fn at_power_on(index: u8) -> u32 {
    match index {
        0x01 => 0x0017_0011,
        0x10..=0x3f if index % 2 == 0 => 0x0001_0000,
        _ => 0,
    }
}

/// What a register reads after all ones were written: the bits that can be written, and the version.
fn after_ones(index: u8) -> u32 {
    match index {
        0x00 | 0x02 => 0x0f00_0000,
        0x01 => 0x0017_0011,
        0x10..=0x3f if index % 2 == 0 => 0x0001_afff,
        0x10..=0x3f => 0xff00_0000,
        _ => 0,
    }
}

/// What a register reads after all zeros were written: the version alone is not 0.
fn after_zeros(index: u8) -> u32 {
    if index == 0x01 { 0x0017_0011 } else { 0 }
}

/// The least index whose register does not read as at power-on.
fn unlike_power_on(chip: &mut Ioapic) -> Option<u8> {
    for index in 0..=255 {
        if get(chip, index) != at_power_on(index) {
            return Some(index);
        }
    }
    None
}

/// The least index whose register does not read as after that write of all registers: all ones, or all zeros.
fn unlike_after(chip: &mut Ioapic, ones: bool) -> Option<u8> {
    for index in 0..=255 {
        let wanted = if ones {
            after_ones(index)
        } else {
            after_zeros(index)
        };
        if get(chip, index) != wanted {
            return Some(index);
        }
    }
    None
}

/// Writes the word to every register, and gives the least index whose write does not tell its pin.
fn write_all(chip: &mut Ioapic, value: u32) -> Option<u8> {
    for index in 0..=255 {
        if set(chip, index, value) != pin_written(index) {
            return Some(index);
        }
    }
    None
}

// Every index at power-on, after all ones were written to it, and after all zeros: reserved bits, the delivery status and
// remote IRR cannot be written, and the arbitration reads as the identity does.
#[test]
fn registers(rt: HostRuntime) -> Result<(), Fail> {
    let mut chip = Ioapic::power_on();
    assert_eq!(rt; unlike_power_on(&mut chip), None);
    assert_eq!(rt; write_all(&mut chip, 0xffff_ffff), None);
    assert_eq!(rt; unlike_after(&mut chip, true), None);
    assert_eq!(rt; write_all(&mut chip, 0), None);
    assert_eq!(rt; unlike_after(&mut chip, false), None);
    Ok(())
}

// What is read at three offsets, where the index and another offset were written.
fn read_at_offsets() -> [u32; 3] {
    let mut chip = Ioapic::power_on();
    let _ = chip.write(0x00, 0xabcd_ef24);
    let _ = chip.write(0x14, 0x0000_0051);
    [chip.read(0x00), chip.read(0x10), chip.read(0x02)]
}

// What such writes tell.
fn told_at_offsets() -> [Option<u8>; 2] {
    let mut chip = Ioapic::power_on();
    [chip.write(0x00, 0xabcd_ef24), chip.write(0x14, 0x0000_0051)]
}

// The index keeps eight bits; other offsets read 0 and take no write.
#[test]
fn offsets(rt: HostRuntime) -> Result<(), Fail> {
    assert_eq!(rt; read_at_offsets(), [0x24, 0x0001_0000, 0]);
    assert_eq!(rt; told_at_offsets(), [None, None]);
    Ok(())
}

// A level pin: its message is sent until the processors took it, then stands until its interrupt ended. Remote IRR (bit 14)
// stays through writes that leave the entry level, also of the high half; the low half A952h is level, active low, logical,
// lowest priority.
#[test]
fn level_pin(rt: HostRuntime) -> Result<(), Fail> {
    let first = message(Mode::Fixed, 0x51, 7, true);
    let again = Message {
        mode: Mode::Lowest,
        logical: true,
        dest: 2,
        vector: 0x52,
        level: true,
    };
    let steps = [
        Set(0x17, 0x0700_0000),
        Set(0x16, 0x0000_8051),
        Due(3, None),
        Up(3, Raise::Send(first)),
        Up(3, Raise::Send(first)),
        Due(3, Some(first)),
        Taken(3),
        Up(3, Raise::Stood),
        Reads(0x16, 0x0000_c051),
        Due(3, None),
        Set(0x16, 0x0000_a952),
        Set(0x17, 0x0200_0000),
        Reads(0x16, 0x0000_e952),
        Ended(3),
        Reads(0x16, 0x0000_a952),
        Due(3, Some(again)),
        // masked it is not due; low it is not due either
        Set(0x16, 0x0001_8051),
        Due(3, None),
        Up(3, Raise::Masked),
        Set(0x16, 0x0000_8051),
        Down(3),
        Due(3, None),
        // a write that leaves the entry edge clears remote IRR
        Taken(3),
        Reads(0x16, 0x0000_c051),
        Set(0x16, 0x0000_0051),
        Reads(0x16, 0x0000_0051),
    ];
    assert_eq!(rt; first_wrong(&mut Ioapic::power_on(), &steps), None);
    Ok(())
}

// An edge pin: one message a rise, remote IRR never set; a rise under the mask is lost, also after unmasking while the pin
// stays high. The vector is asked of masked entries too. A copy goes on as the chip does.
#[test]
fn edge_pin(rt: HostRuntime) -> Result<(), Fail> {
    let sent = message(Mode::Fixed, 0x52, 0, false);
    let before = [
        Up(16, Raise::Masked),
        Set(0x30, 0x0000_0052),
        Due(16, None),
        Up(16, Raise::Stood),
        Down(16),
    ];
    let after = [
        Up(16, Raise::Send(sent)),
        Taken(16),
        Reads(0x30, 0x0000_0052),
        Up(16, Raise::Stood),
        Has(16, 0x52, true),
        Has(16, 0x53, false),
        Set(0x30, 0x0001_0052),
        Has(16, 0x52, true),
    ];
    let mut chip = Ioapic::power_on();
    assert_eq!(rt; first_wrong(&mut chip, &before), None);
    let mut copy = Ioapic::power_on();
    copy.copy_from(&chip);
    assert_eq!(rt; first_wrong(&mut copy, &after), None);
    assert_eq!(rt; first_wrong(&mut chip, &after), None);
    Ok(())
}

// The eight delivery modes of a level pin; an NMI is no level message.
#[test]
fn modes(rt: HostRuntime) -> Result<(), Fail> {
    let steps = [
        Set(0x3e, 0x8040),
        Up(23, Raise::Send(message(Mode::Fixed, 0x40, 0, true))),
        Set(0x3e, 0x8140),
        Up(23, Raise::Send(message(Mode::Lowest, 0x40, 0, true))),
        Set(0x3e, 0x8240),
        Up(23, Raise::Send(message(Mode::Smi, 0x40, 0, true))),
        Set(0x3e, 0x8340),
        Up(23, Raise::Send(message(Mode::Reserved, 0x40, 0, true))),
        Reads(0x3e, 0x8340),
        Set(0x3e, 0x8440),
        Up(23, Raise::Send(message(Mode::Nmi, 0x40, 0, false))),
        Set(0x3e, 0x8540),
        Up(23, Raise::Send(message(Mode::Init, 0x40, 0, true))),
        Set(0x3e, 0x8640),
        Up(23, Raise::Send(message(Mode::Reserved, 0x40, 0, true))),
        Reads(0x3e, 0x8640),
        Set(0x3e, 0x8740),
        Up(23, Raise::Send(message(Mode::ExtInt, 0x40, 0, true))),
    ];
    assert_eq!(rt; first_wrong(&mut Ioapic::power_on(), &steps), None);
    Ok(())
}
