//! One slot copied, or written.
ghost use Rattle.std.specs.Prelude.{◌≡◌, true, is_some, Some};
ghost use Rattle.part_copies.specs.Copied.{with_copy, written_by, IsLong, RoomFor, FitsOver};

use crate::row::{copy_apic, write_apic};
use board_raise::{IoPart, Parts, PicPart, RegistryPart};
use event_counter::Counters;
use ioapic_82093aa::Ioapic;
use part_slots::{FIXED_PARTS, Slot};
use source_levels::Levels;
use tick_reinject::TickState;

// A copy of the 8259A pair.
fn copy_of_pic(kept: &PicPart) -> PicPart
    ensures { result ≡ kept.now }
{
    let mut levels = Levels::none();
    levels.copy_from(&kept.levels);
    PicPart {
        pair: kept.pair,
        levels,
    }
}

// A copy of the I/O APIC.
fn copy_of_ioapic(kept: &IoPart) -> IoPart
    ensures { result ≡ kept.now }
{
    let mut ioapic = Ioapic::power_on();
    ioapic.copy_from(&kept.ioapic);
    let mut levels = Levels::none();
    levels.copy_from(&kept.levels);
    IoPart { ioapic, levels }
}

// A copy of the tick.
fn copy_of_tick(kept: &TickState) -> TickState
    ensures { result ≡ kept.now }
{
    let mut copy = TickState::power_on();
    copy.copy_from(kept);
    copy
}

// Makes the registry in hand equal to the one kept.
fn copy_registry(registry: &mut Option<RegistryPart>, kept: &RegistryPart)
    requires { is_some registry.old ≡ true }
    ensures { registry.new ≡ Some kept.now }
{
    if let Some(copy) = registry {
        copy.copy_from(kept);
    }
}

// Makes the counters in hand equal to those kept.
fn copy_counters(counters: &mut Option<Counters>, kept: &Counters)
    requires { IsLong kept.now counters.old }
    ensures { counters.new ≡ Some kept.now }
{
    if let Some(copy) = counters {
        copy.copy_from(kept);
    }
}

/// Takes a copy of what a slot keeps into the parts in hand; a local APIC comes to its place in the row. `part` is the number of
/// the slot's turn.
///
/// The registry and the counters are copied over those that are there, so that no memory is taken.
pub fn copy_slot(parts: &mut Parts, part: u32, slot: &Slot)
    requires { RoomFor part slot.now parts.old }
    ensures { parts.new ≡ with_copy part slot.now parts.old }
{
    match slot {
        Slot::Registry(home) => copy_registry(&mut parts.registry, &home.registry),
        Slot::Counters(kept) => copy_counters(&mut parts.counters, kept),
        Slot::Tick(kept) => parts.tick = Some(copy_of_tick(kept)),
        Slot::Pic(kept) => parts.pic = Some(copy_of_pic(kept)),
        Slot::Ioapic(kept) => parts.ioapic = Some(copy_of_ioapic(kept)),
        Slot::Lapic(kept) => copy_apic(&mut parts.lapics, part.saturating_sub(FIXED_PARTS), kept),
    }
}

/// Writes the copy in hand of a slot's part into the slot; without one the slot stays. `part` is the number of the slot's turn.
pub fn write_slot(parts: &Parts, part: u32, slot: &mut Slot)
    requires { FitsOver part parts.now slot.old }
    ensures { slot.new ≡ written_by part parts.now slot.old }
{
    match slot {
        Slot::Registry(home) => {
            if let Some(copy) = &parts.registry {
                home.registry.copy_from(copy);
            }
        }
        Slot::Counters(kept) => {
            if let Some(copy) = &parts.counters {
                kept.copy_from(copy);
            }
        }
        Slot::Tick(kept) => {
            if let Some(copy) = &parts.tick {
                kept.copy_from(copy);
            }
        }
        Slot::Pic(kept) => {
            if let Some(copy) = &parts.pic {
                kept.pair = copy.pair;
                kept.levels.copy_from(&copy.levels);
            }
        }
        Slot::Ioapic(kept) => {
            if let Some(copy) = &parts.ioapic {
                kept.ioapic.copy_from(&copy.ioapic);
                kept.levels.copy_from(&copy.levels);
            }
        }
        Slot::Lapic(kept) => write_apic(&parts.lapics, part.saturating_sub(FIXED_PARTS), kept),
    }
}
