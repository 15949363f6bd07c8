//! The slots of a board as parts again.
ghost use Rattle.std.specs.Prelude.{◌≡◌, ◌+◌, ◌≤◌, ◌<◌, length};
ghost use Rattle.part_copies.specs.Gathering.{with_slot, place_after, apics_in, gathered, none_but};
ghost use Rattle.irq_bits.specs.declared.limits.TheConstants.{MAX_CPUS};

use board_raise::{LapicRow, Parts};
use part_slots::Slot;

// Puts the part of a slot where it belongs, a local APIC at place n, and answers the place of the next local APIC.
fn put_slot(parts: &mut Parts, n: u16, slot: Slot) -> u16
    requires room { place_after slot n ≤ length parts.old.lapics }
    requires few { length parts.old.lapics ≤ MAX_CPUS }
    ensures parts { parts.new ≡ with_slot slot n parts.old }
    ensures next { result ≡ place_after slot n }
{
    match slot {
        Slot::Registry(home) => parts.registry = Some(home.registry),
        Slot::Counters(counters) => parts.counters = Some(counters),
        Slot::Tick(tick) => parts.tick = Some(tick),
        Slot::Pic(pic) => parts.pic = Some(pic),
        Slot::Ioapic(ioapic) => parts.ioapic = Some(ioapic),
        Slot::Lapic(lapic) => {
            let _ = parts.lapics.put(n, Some(lapic));
            return n + 1;
        }
    }
    n
}

/// The parts of the slots. There is a place in the row for each local APIC.
pub(crate) fn gather(row: LapicRow, slots: Vec<Slot>) -> Parts
    requires room { apics_in slots.items ≤ length row }
    requires few { length row ≤ MAX_CPUS }
    ensures { result ≡ gathered slots.items 0 (none_but row) }
{
    let mut parts = Parts {
        registry: None,
        counters: None,
        tick: None,
        pic: None,
        ioapic: None,
        lapics: row,
    };
    let mut rest = slots.into_iter();
    let mut n = 0;
    while let Some(slot) = rest.next() {
        n = put_slot(&mut parts, n, slot);
    }
    parts
}
