//! What the guest and the monitor have agreed on: GSIs, vectors, counters, addresses and tables of routes.

use irq_base::{Call, MsiWord, NoMemory, Row, Rows, Space, Targets};
use std::alloc::Global;

/// How often each device raises its interrupt, and the routing is replaced.
pub const ROUNDS: u32 = 100;

/// The GSIs: the timer's, on which ticks fall, the disk's level line, and the network's message.
pub const TIMER_GSI: u16 = 0;

pub const DISK_GSI: u16 = 16;

pub const NETWORK_GSI: u16 = 24;

/// The vectors that processors take.
pub const DISK_VECTOR: u8 = 0x41;

pub const NETWORK_VECTOR: u8 = 0x51;

pub const TIMER_VECTOR: u8 = 0x61;

/// The counters: the trigger of the disk's irqfd and its resample counter, the network's doorbell and the trigger of its irqfd, and
/// the counter of the timer's acknowledge notifier.
pub const DISK_TRIGGER: u16 = 0;

pub const DISK_RESAMPLE: u16 = 1;

pub const DOORBELL: u16 = 2;

pub const NETWORK_TRIGGER: u16 = 3;

pub const TIMER_WATCH: u16 = 4;
/// How many counters there are.
pub const COUNTERS: u16 = 5;

/// Where the guest rings the network's doorbell.
const DOORBELL_ADDRESS: u64 = 0xd000_0000;

// The local APIC's spurious-interrupt vector register, and the two words of the I/O APIC.
const SVR: u64 = 0xfee0_00f0;

const IOREGSEL: u64 = 0xfec0_0000;

const IOWIN: u64 = 0xfec0_0010;

// A store of four bytes.
fn store(address: u64, value: u64) -> Call {
    Call::Store {
        address,
        len: 4,
        value,
    }
}

/// A processor enables its local APIC.
pub fn enable() -> Call {
    store(SVR, 0x1ff)
}

/// Processor 0 unmasks two pins of the I/O APIC: the disk's, level-triggered, and the timer's.
pub fn unmask() -> [Call; 4] {
    [
        store(IOREGSEL, 0x10 + 2 * 16),
        store(IOWIN, 0x8041),
        store(IOREGSEL, 0x10),
        store(IOWIN, 0x61),
    ]
}

/// The guest rings the doorbell.
pub fn ring_doorbell() -> Call {
    store(DOORBELL_ADDRESS, 1)
}

/// The disk's irqfd, which holds its line until it is acknowledged, and then signals the resample counter.
pub fn disk_irqfd() -> Call {
    Call::Assign {
        trigger: DISK_TRIGGER,
        gsi: DISK_GSI,
        resample: Some(DISK_RESAMPLE),
    }
}

/// The network's irqfd.
pub fn network_irqfd() -> Call {
    Call::Assign {
        trigger: NETWORK_TRIGGER,
        gsi: NETWORK_GSI,
        resample: None,
    }
}

/// The network's doorbell: writes of four bytes at its address.
pub fn doorbell() -> Call {
    Call::Attach {
        space: Space::Memory,
        address: DOORBELL_ADDRESS,
        len: 4,
        counter: DOORBELL,
        want: None,
    }
}

/// The timer's acknowledge notifier.
pub fn timer_watch() -> Call {
    Call::Watch {
        counter: TIMER_WATCH,
        gsi: TIMER_GSI,
    }
}

// The address of messages to a processor.
fn address_of(cpu: u16) -> u64 {
    0xfee0_0000 + 0x1000 * u64::from(cpu)
}

/// Where the network's GSI goes when its messages are sent to that processor.
pub fn network_route(cpu: u16) -> Targets {
    Targets {
        pic: None,
        ioapic: None,
        msi: Some(MsiWord {
            address: address_of(cpu),
            payload: u32::from(NETWORK_VECTOR),
        }),
    }
}

/// The routing table that sends the network's messages to that processor.
pub fn table(alloc: Global, cpu: u16) -> Result<Call, NoMemory> {
    let mut rows = Rows::empty(alloc);
    rows.push(Row::Ioapic {
        gsi: TIMER_GSI,
        pin: 0,
    })?;
    rows.push(Row::Ioapic {
        gsi: DISK_GSI,
        pin: 16,
    })?;
    rows.push(Row::Msi {
        gsi: NETWORK_GSI,
        address: address_of(cpu),
        payload: u32::from(NETWORK_VECTOR),
    })?;
    Ok(Call::Reroute { rows })
}
