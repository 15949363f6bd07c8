//! A part of a board, as its turn guards it.

use board_raise::{IoPart, PicPart, RegistryPart};
use event_counter::Counters;
use irq_base::Shape;
use lapic::Lapic;
use tick_reinject::TickState;

/// The registry, and beside it what else tells a board at power-on: its shape.
#[derive(Drop)]
pub struct Home {
    pub registry: RegistryPart,
    pub shape: Shape,
}

/// A part of a board, as its turn guards it. The turns stand in this order, with a local APIC for each processor.
#[derive(Drop)]
pub enum Slot {
    Registry(Home),
    Counters(Counters),
    Tick(TickState),
    Pic(PicPart),
    Ioapic(IoPart),
    Lapic(Lapic),
}
