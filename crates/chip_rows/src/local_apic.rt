//! The local APIC: its registers, its requests and their priority, and the messages that it sends.
//!
//! Expected values are those of the register table and of the rules of acceptance and priority (SDM volume 3, local APIC).

use Step::*;
use irq_base::{DestView, Message, Mode};
use lapic::{Accepted, Effect, Ipi, Lapic, Shorthand};
use std::test::Fail;

/// A step on a local APIC, with its answer.
#[derive(Clone, Copy)]
enum Step {
    /// A store that brings about nothing else.
    Store(u16, u32),
    /// A load and its value.
    Load(u16, u32),
    /// A message of mode Fixed with this vector, edge triggered, and its answer.
    Edge(u8, Accepted),
    /// The same, level triggered.
    Level(u8, Accepted),
    /// A message of mode Lowest with this vector, and its answer.
    Lowest(u8, Accepted),
    /// A message of mode Nmi and its answer.
    Nmi(Accepted),
    /// Whether an NMI is pending, which is then taken.
    TakeNmi(bool),
    Give(Option<u8>),
    Eoi(Option<u8>),
    /// An end of interrupt by a store of this value to the EOI register.
    StoreEoi(u32, Option<u8>),
    Ppr(u8),
}

/// What the APIC answers to a message of these fields; one of another mode than Nmi, Lowest or Fixed is taken as Fixed.
fn accepts(lapic: &mut Lapic, mode: Mode, vector: u8, level: bool) -> Accepted {
    let mode = match mode {
        Mode::Nmi => Mode::Nmi,
        Mode::Lowest => Mode::Lowest,
        _ => Mode::Fixed,
    };
    lapic.accept(&Message {
        mode,
        logical: false,
        dest: 0,
        vector,
        level,
    })
}

/// Whether the APIC answers a step as it is told.
fn answers(lapic: &mut Lapic, step: Step) -> bool {
    match step {
        Store(offset, value) => lapic.store(offset, value) == Effect::Plain,
        Load(offset, value) => lapic.load(offset) == value,
        Edge(vector, answer) => accepts(lapic, Mode::Fixed, vector, false) == answer,
        Level(vector, answer) => accepts(lapic, Mode::Fixed, vector, true) == answer,
        Lowest(vector, answer) => accepts(lapic, Mode::Lowest, vector, false) == answer,
        Nmi(answer) => accepts(lapic, Mode::Nmi, 2, false) == answer,
        TakeNmi(pending) => lapic.take_nmi() == pending,
        Give(vector) => lapic.give() == vector,
        Eoi(vector) => lapic.eoi() == vector,
        StoreEoi(value, vector) => lapic.store(0xb0, value) == Effect::Ended(vector),
        Ppr(priority) => lapic.ppr() == priority,
    }
}

/// The place of the first step that the APIC does not answer as it is told.
fn first_wrong(lapic: &mut Lapic, steps: &[Step]) -> Option<usize> {
    for k in 0..steps.len() {
        if !answers(lapic, steps[k]) {
            return Some(k);
        }
    }
    None
}

// The place of the first step that a local APIC at power-on does not answer as it is told.
fn first_unlike(number: u8, steps: &[Step]) -> Option<usize> {
    let mut lapic = Lapic::power_on(u16::from(number));
    first_wrong(&mut lapic, steps)
}

// Whether a local APIC at power-on has that LINT0, and what a destination is compared with.
fn starts_so(number: u8, lint0: u32) -> bool {
    let lapic = Lapic::power_on(u16::from(number));
    let view = DestView {
        number: u16::from(number),
        enabled: false,
        ldr: 0,
        dfr: 0xffff_ffff,
        ppr: 0,
    };
    lapic.lint0() == lint0 && lapic.dest_view() == view
}

// Every register at power-on, of processors 0 and 5: the identity in bits 31 to 24, and LINT0 of mode ExtINT on processor 0
// alone. Offsets between registers, offset 40h, and offsets from 380h on are no registers here and read 0.
#[test]
fn power_on(rt: HostRuntime) -> Result<(), Fail> {
    let steps = [
        Load(0x00, 0),
        Load(0x24, 0),
        Load(0x30, 0x0005_0014),
        Load(0x40, 0),
        Load(0x80, 0),
        Load(0xa0, 0),
        Load(0xb0, 0),
        Load(0xd0, 0),
        Load(0xe0, 0xffff_ffff),
        Load(0xf0, 0x0000_00ff),
        Load(0x100, 0),
        Load(0x170, 0),
        Load(0x180, 0),
        Load(0x1f0, 0),
        Load(0x200, 0),
        Load(0x270, 0),
        Load(0x280, 0),
        Load(0x290, 0),
        Load(0x2f0, 0x0001_0000),
        Load(0x300, 0),
        Load(0x310, 0),
        Load(0x320, 0x0001_0000),
        Load(0x330, 0x0001_0000),
        Load(0x340, 0x0001_0000),
        Load(0x360, 0x0001_0000),
        Load(0x370, 0x0001_0000),
        Load(0x380, 0),
        Load(0xffc, 0),
        Give(None),
        Eoi(None),
        TakeNmi(false),
        Ppr(0),
        Edge(0x41, Accepted::Disabled),
    ];
    for (number, identity, lint0) in [(0, 0, 0x0000_0700), (5, 0x0500_0000, 0x0001_0000)] {
        let own = [Load(0x20, identity), Load(0x350, lint0)];
        assert_eq!(rt; first_unlike(number, &steps), None);
        assert_eq!(rt; first_unlike(number, &own), None);
        assert!(rt; starts_so(number, lint0));
    }
    Ok(())
}

// What each register keeps of ones and then of zeros.
#[test]
fn writable_bits(rt: HostRuntime) -> Result<(), Fail> {
    let registers = [
        (0x20, 0x0300_0000, 0x0300_0000),
        (0x30, 0x0005_0014, 0x0005_0014),
        (0x80, 0x0000_00ff, 0),
        (0xa0, 0, 0),
        (0xd0, 0xff00_0000, 0),
        (0xe0, 0xffff_ffff, 0x0fff_ffff),
        (0xf0, 0x0000_01ff, 0),
        (0x100, 0, 0),
        (0x170, 0, 0),
        (0x180, 0, 0),
        (0x1f0, 0, 0),
        (0x200, 0, 0),
        (0x270, 0, 0),
        (0x280, 0, 0),
        (0x2f0, 0x0001_0000, 0x0001_0000),
        (0x310, 0xff00_0000, 0),
        (0x320, 0x0001_0000, 0x0001_0000),
        (0x330, 0x0001_0000, 0x0001_0000),
        (0x340, 0x0001_0000, 0x0001_0000),
        (0x350, 0x0001_a7ff, 0),
        (0x360, 0x0001_a7ff, 0),
        (0x370, 0x0001_0000, 0x0001_0000),
        (0x390, 0, 0),
        (0x84, 0, 0),
    ];
    for (offset, ones, zeros) in registers {
        let mut lapic = Lapic::power_on(3);
        let steps = [
            Store(offset, 0xffff_ffff),
            Load(offset, ones),
            Store(offset, 0),
            Load(offset, zeros),
        ];
        assert_eq!(rt; first_wrong(&mut lapic, &steps), None);
    }
    Ok(())
}

// What messages, acknowledges and ends of interrupt lead to.
#[test]
fn scenarios(rt: HostRuntime) -> Result<(), Fail> {
    // PPR for TPR and the highest vector in service: 20h and 25h, 10h and 25h, 3Fh and 25h, 0 and none. Where the classes
    // tie, PPR is TPR.
    let priority = [
        Ppr(0),
        Store(0xf0, 0x1ff),
        Edge(0x25, Accepted::New),
        Give(Some(0x25)),
        Store(0x80, 0x20),
        Ppr(0x20),
        Load(0xa0, 0x20),
        Store(0x80, 0x10),
        Ppr(0x20),
        Store(0x80, 0x3f),
        Ppr(0x3f),
        Load(0xa0, 0x3f),
        Store(0x80, 0x2c),
        Ppr(0x2c),
        StoreEoi(0x1234_5678, Some(0x25)),
        Store(0x80, 0),
        Ppr(0),
        StoreEoi(0, None),
    ];
    // Requests are given from the greatest vector down, each only where its class exceeds that of PPR, and ended from the
    // greatest in service down. Vector 41h is bit 1 of word 2, 51h bit 17, F0h bit 16 of word 7. TMR follows the last
    // message of a vector, and neither an acknowledge nor an end of interrupt changes it. A pending request is given though
    // the APIC is no longer enabled.
    let requests = [
        Store(0xf0, 0x1ff),
        Level(0x41, Accepted::New),
        Level(0x41, Accepted::Stood),
        Lowest(0x45, Accepted::New),
        Edge(0x3f, Accepted::New),
        Load(0x210, 0x8000_0000),
        Load(0x220, 0x0000_0022),
        Load(0x1a0, 0x0000_0002),
        Give(Some(0x45)),
        Load(0x220, 0x0000_0002),
        Load(0x120, 0x0000_0020),
        Load(0xa0, 0x40),
        Give(None),
        Edge(0x51, Accepted::New),
        Give(Some(0x51)),
        Load(0x120, 0x0002_0020),
        Eoi(Some(0x51)),
        Eoi(Some(0x45)),
        Give(Some(0x41)),
        Load(0x1a0, 0x0000_0002),
        Edge(0x41, Accepted::New),
        Load(0x1a0, 0),
        Level(0x41, Accepted::Stood),
        Load(0x1a0, 0x0000_0002),
        Eoi(Some(0x41)),
        Load(0x1a0, 0x0000_0002),
        Give(Some(0x41)),
        Eoi(Some(0x41)),
        Store(0x80, 0x30),
        Give(None),
        Store(0x80, 0x2f),
        Give(Some(0x3f)),
        Edge(0xf0, Accepted::New),
        Load(0x270, 0x0001_0000),
        Store(0xf0, 0x0ff),
        Edge(0xf1, Accepted::Disabled),
        Load(0x270, 0x0001_0000),
        Give(Some(0xf0)),
        Load(0x170, 0x0001_0000),
        Eoi(Some(0xf0)),
        Eoi(Some(0x3f)),
        Eoi(None),
    ];
    // A vector below 16 is recorded as bit 6, which ESR shows after the next write to it and no longer after the one that
    // follows. Disabled comes before it, and records nothing. An NMI is taken whether enabled or not.
    let errors_and_nmi = [
        Edge(0x0f, Accepted::Disabled),
        Store(0x280, 0),
        Load(0x280, 0),
        Nmi(Accepted::New),
        Nmi(Accepted::Stood),
        TakeNmi(true),
        TakeNmi(false),
        Nmi(Accepted::New),
        Store(0xf0, 0x1ff),
        TakeNmi(true),
        Edge(0x0f, Accepted::BadVector),
        Lowest(0x00, Accepted::BadVector),
        Load(0x280, 0),
        Store(0x280, 0),
        Load(0x280, 0x40),
        Edge(0x10, Accepted::New),
        Give(Some(0x10)),
        Load(0x280, 0x40),
        Store(0x280, 0xffff_ffff),
        Load(0x280, 0),
        Eoi(Some(0x10)),
    ];
    assert_eq!(rt; first_wrong(&mut Lapic::power_on(0), &priority), None);
    assert_eq!(rt; first_wrong(&mut Lapic::power_on(0), &requests), None);
    assert_eq!(rt; first_wrong(&mut Lapic::power_on(0), &errors_and_nmi), None);
    Ok(())
}

/// Whether a store of the low half of ICR, after one of the high half, sends the message, and what it then reads.
fn sends(lapic: &mut Lapic, high: u32, low: u32, ipi: Ipi) -> Option<u32> {
    if answers(lapic, Store(0x310, high)) && lapic.store(0x300, low) == Effect::Send(ipi) {
        Some(lapic.load(0x300))
    } else {
        None
    }
}

// What a store to the low half of ICR sends, with the high half before it: vector 7 to 0, mode 10 to 8, logical 11,
// shorthand 19 and 18, destination 31 to 24. A message of ICR is never level triggered. The low half keeps 000CCFFFh.
#[test]
fn interrupt_command(rt: HostRuntime) -> Result<(), Fail> {
    let words = [
        (
            0x0500_0000,
            0x0000_0041,
            0x0000_0041,
            Mode::Fixed,
            false,
            5,
            0x41,
            Shorthand::Field,
        ),
        (
            0x00ff_ffff,
            0x0004_0941,
            0x0004_0941,
            Mode::Lowest,
            true,
            0,
            0x41,
            Shorthand::OwnOnly,
        ),
        (
            0xff00_0000,
            0x0008_1402,
            0x0008_0402,
            Mode::Nmi,
            false,
            0xff,
            2,
            Shorthand::All,
        ),
        (
            0x8000_0000,
            0xffff_feff,
            0x000c_ceff,
            Mode::Startup,
            true,
            0x80,
            0xff,
            Shorthand::Others,
        ),
        (
            0,
            0x0000_c200,
            0x0000_c200,
            Mode::Smi,
            false,
            0,
            0,
            Shorthand::Field,
        ),
        (
            0,
            0x0000_0300,
            0x0000_0300,
            Mode::Reserved,
            false,
            0,
            0,
            Shorthand::Field,
        ),
        (
            0,
            0x0000_0500,
            0x0000_0500,
            Mode::Init,
            false,
            0,
            0,
            Shorthand::Field,
        ),
        (
            0,
            0x0000_0720,
            0x0000_0720,
            Mode::ExtInt,
            false,
            0,
            0x20,
            Shorthand::Field,
        ),
    ];
    let mut lapic = Lapic::power_on(0);
    for (high, low, kept, mode, logical, dest, vector, to) in words {
        let message = Message {
            mode,
            logical,
            dest,
            vector,
            level: false,
        };
        assert_eq!(rt;
            sends(&mut lapic, high, low, Ipi { message, to }),
            Some(kept)
        );
    }
    Ok(())
}

// A copy shows every register and answers every call as the other does.
#[test]
fn copies(rt: HostRuntime) -> Result<(), Fail> {
    let mut lapic = Lapic::power_on(7);
    let steps = [
        Store(0xf0, 0x1ff),
        Store(0xd0, 0x0200_0000),
        Store(0xe0, 0),
        Store(0x80, 0x33),
        Store(0x310, 0x0900_0000),
        Store(0x350, 0x0001_0700),
        Store(0x360, 0x0000_0400),
        Level(0x61, Accepted::New),
        Edge(0x71, Accepted::New),
        Give(Some(0x71)),
        Edge(0x0f, Accepted::BadVector),
        Nmi(Accepted::New),
    ];
    assert_eq!(rt; first_wrong(&mut lapic, &steps), None);
    let view = DestView {
        number: 7,
        enabled: true,
        ldr: 0x0200_0000,
        dfr: 0x0fff_ffff,
        ppr: 0x70,
    };
    assert!(rt; lapic.dest_view() == view);
    assert!(rt; lapic.lint0() == 0x0001_0700);
    let mut copy = Lapic::power_on(1);
    copy.copy_from(&lapic);
    for k in 0..64 {
        assert!(rt; copy.load(16 * k) == lapic.load(16 * k));
    }
    let steps = [
        Store(0x280, 0),
        Load(0x280, 0x40),
        TakeNmi(true),
        Eoi(Some(0x71)),
        Load(0x1b0, 0x0000_0002),
        Give(Some(0x61)),
        Load(0x20, 0x0700_0000),
    ];
    assert_eq!(rt; first_wrong(&mut copy, &steps), None);
    Ok(())
}
