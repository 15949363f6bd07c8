//! The calls that the benches ask.
use board_step::OpenError;
use irq_base::{Call, Reply, Row, Rows};
use std::alloc::Global;

/// A message of vector 41h to a processor, whose number is also its local APIC's.
pub fn message_to(cpu: u16) -> Call {
    Call::Msi {
        address: 0xfee0_0000 | u64::from(cpu) << 12,
        payload: 0x41,
    }
}

/// Line 0 of a GSI goes high or low.
pub fn line(gsi: u16, high: bool) -> Call {
    Call::Line { gsi, line: 0, high }
}

/// A trigger is written.
pub fn trigger(counter: u16) -> Call {
    Call::Write { counter, n: 1 }
}

/// A byte to a port.
pub fn out(port: u16, value: u32) -> Call {
    Call::PortOut {
        port,
        len: 1,
        value,
    }
}

// 32 bits to memory.
fn store(address: u64, value: u64) -> Call {
    Call::Store {
        address,
        len: 4,
        value,
    }
}

/// A processor enables its local APIC.
pub fn enable() -> Call {
    store(0xfee0_00f0, 0x1ff)
}

/// An irqfd is made.
pub fn assign(trigger: u16, gsi: u16, resample: Option<u16>) -> Call {
    Call::Assign {
        trigger,
        gsi,
        resample,
    }
}

/// An irqfd ends.
pub fn deassign(trigger: u16, gsi: u16) -> Call {
    Call::Deassign { trigger, gsi }
}

/// Whether the reply gives a vector, of the local APIC or of the pair.
pub fn is_vector(reply: Reply) -> bool {
    matches!(reply, Reply::Vector(_) | Reply::Extint(_))
}

// The routing table is replaced by these rows.
fn rerouted(alloc: Global, list: &[Row]) -> Result<Call, OpenError> {
    let mut rows = Rows::empty(alloc);
    for row in list {
        if rows.push(*row).is_err() {
            return Err(OpenError::NoMemory);
        }
    }
    Ok(Call::Reroute { rows })
}

// The routing table of the rounds: GSI 1, 5 and 12 on the pair alone, GSI 10 and 11 on the I/O APIC alone, GSI 24 a message.
fn table(alloc: Global) -> Result<Call, OpenError> {
    rerouted(
        alloc,
        &[
            Row::Pic { gsi: 1, pin: 1 },
            Row::Pic { gsi: 5, pin: 5 },
            Row::Pic { gsi: 12, pin: 12 },
            Row::Ioapic { gsi: 10, pin: 10 },
            Row::Ioapic { gsi: 11, pin: 11 },
            Row::Msi {
                gsi: 24,
                address: 0xfee0_0000,
                payload: 0x42,
            },
        ],
    )
}

/// The routing table is replaced by that of power-on: GSI n on pin n of the pair, for n below 16, and of the I/O APIC, for n below 24.
pub fn default_table(alloc: Global) -> Result<Call, OpenError> {
    let mut rows = Rows::empty(alloc);
    for pin in 0..16u8 {
        let gsi = u16::from(pin);
        if rows.push(Row::Pic { gsi, pin }).is_err() {
            return Err(OpenError::NoMemory);
        }
    }
    for pin in 0..24u8 {
        let gsi = u16::from(pin);
        if rows.push(Row::Ioapic { gsi, pin }).is_err() {
            return Err(OpenError::NoMemory);
        }
    }
    Ok(Call::Reroute { rows })
}

/// What is asked once: the local APIC is enabled; the pair is initialised, and its pin 5 is level; pins 10 and 11 of the I/O APIC are
/// level; and there are irqfds on a message and on pin 11.
pub fn set_up(alloc: Global) -> Result<[Call; 17], OpenError> {
    Ok([
        table(alloc)?,
        enable(),
        out(0x20, 0x11),
        out(0x21, 0x20),
        out(0x21, 0x04),
        out(0x21, 0x01),
        out(0xa0, 0x11),
        out(0xa1, 0x28),
        out(0xa1, 0x02),
        out(0xa1, 0x01),
        out(0x4d0, 0x20),
        store(0xfec0_0000, 0x24),
        store(0xfec0_0010, 0x8051),
        store(0xfec0_0000, 0x26),
        store(0xfec0_0010, 0x8052),
        assign(0, 24, None),
        assign(2, 11, Some(3)),
    ])
}
