//! The parts of a board in hand.
ghost use Rattle.std.specs.Prelude.{◌≡◌};

use crate::row::LapicRow;
use ack_notifiers::Watches;
use event_counter::Counters;
use ioapic_82093aa::Ioapic;
use ioevent_set::IoEvents;
use irqfd_set::Irqfds;
use pic_8259a::Pair;
use route_table::Table;
use source_levels::Levels;
use tick_reinject::TickState;

/// The 8259A pair, and the sources that hold its pins 0 to 15.
#[derive(Drop)]
pub struct PicPart {
    pub pair: Pair,
    pub levels: Levels<16>,
}

/// The I/O APIC, and the sources that hold its pins 0 to 23.
#[derive(Drop)]
pub struct IoPart {
    pub ioapic: Ioapic,
    pub levels: Levels<24>,
}

/// The routing table (KVM_SET_GSI_ROUTING), the irqfds (KVM_IRQFD), the acknowledge notifiers and the ioeventfds
/// (KVM_IOEVENTFD).
#[derive(Drop)]
pub struct RegistryPart {
    pub table: Table,
    pub irqfds: Irqfds,
    pub watches: Watches,
    pub ioevents: IoEvents,
}

impl RegistryPart {
    /// Makes the registry equal to the other. It takes no memory.
    pub fn copy_from(&mut self, other: &RegistryPart)
        ensures { self.new ≡ other.now }
    {
        self.table.copy_from(&other.table);
        self.irqfds.copy_from(&other.irqfds);
        self.watches.copy_from(&other.watches);
        self.ioevents.copy_from(&other.ioevents);
    }
}

/// Parts of a board, each in hand or not.
#[derive(Drop)]
pub struct Parts {
    pub registry: Option<RegistryPart>,
    pub counters: Option<Counters>,
    pub tick: Option<TickState>,
    pub pic: Option<PicPart>,
    pub ioapic: Option<IoPart>,
    pub lapics: LapicRow,
}
