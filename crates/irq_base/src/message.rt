//! Interrupt messages, and where a GSI goes.
ghost use Rattle.std.specs.Prelude.{◌≡◌, ◌/◌, ◌^◌, ◌↔◌, IsTrue};

/// The delivery mode of a message (SDM volume 3, local vector table and interrupt command register).
#[derive(Clone, Copy, Debug, PartialEq, Eq)]
pub enum Mode {
    Fixed,
    Lowest,
    Smi,
    Nmi,
    Init,
    Startup,
    ExtInt,
    Reserved,
}

/// A message to local APICs.
#[derive(Clone, Copy, Debug, PartialEq, Eq)]
pub struct Message {
    pub mode: Mode,
    /// Whether the destination is logical, by LDR and DFR, and not the number of a processor.
    pub logical: bool,
    pub dest: u32,
    pub vector: u8,
    /// Whether the request is level triggered, as TMR keeps it.
    pub level: bool,
}

/// What a destination is compared with (SDM volume 3, local APIC ID, LDR and DFR), and the priority by which the lowest
/// is chosen.
#[derive(Clone, Copy, Debug, PartialEq, Eq)]
pub struct DestView {
    pub number: u16,
    /// Whether SVR bit 8 is set.
    pub enabled: bool,
    pub ldr: u32,
    pub dfr: u32,
    pub ppr: u8,
}

/// The address and the payload of a message as a device writes it (SDM volume 3, message signalled interrupts).
#[derive(Clone, Copy, Debug, PartialEq, Eq)]
pub struct MsiWord {
    pub address: u64,
    pub payload: u32,
}

impl MsiWord {
    /// Whether the address is one of messages: bits 63 to 20 are FEEh.
    pub fn good(&self) -> bool
        ensures { IsTrue result ↔ (self.now.address / 2 ^ 20 ≡ 0xfee) }
    {
        self.address >> 20 == 0xfee
    }
}

/// Where a GSI goes: at most one pin of each chip, or one message alone.
#[derive(Clone, Copy, Debug, PartialEq, Eq)]
pub struct Targets {
    pub pic: Option<u8>,
    pub ioapic: Option<u8>,
    pub msi: Option<MsiWord>,
}

/// What holds a pin high: one of eight lines, an injection of an irqfd, an irqfd until it is resampled, or a tick.
#[derive(Clone, Copy, Debug, PartialEq, Eq)]
pub enum Source {
    Line(u8),
    Pulse,
    Resample,
    Tick,
}
