//! The size of a board and the names of its parts.

/// What a board is made with. The limits are this board's own rule.
#[derive(Clone, Copy, Debug, PartialEq, Eq)]
pub struct Shape {
    /// Processors, each with a local APIC: 1 to [`MAX_CPUS`](irq_bits::MAX_CPUS).
    pub cpus: u16,
    /// Counters in the manner of eventfd: 0 to 256.
    pub counters: u16,
    /// The GSI on which ticks are injected: 0 to 4,095.
    pub tick: u16,
    /// How many calls the board answers: 1 to 2^40.
    pub calls: u64,
    /// How many of them may change the published words: 0 to 2^20.
    pub publications: u32,
}

/// A part of a board, which a call may reach.
#[derive(Clone, Copy, Debug, PartialEq, Eq)]
pub enum Part {
    /// The routing table and the registrations.
    Registry,
    Counters,
    Tick,
    /// Both chips of the 8259A pair, with the sources that hold their pins.
    Pic,
    /// The I/O APIC, with the sources that hold its pins.
    Ioapic,
    /// The local APIC of the processor with this number.
    Lapic(u16),
}
