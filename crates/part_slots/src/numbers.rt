//! The numbers of callers and the places of parts, for a book.
ghost use Rattle.std.specs.Prelude.{◌≡◌, ◌<◌};
ghost use Rattle.part_slots.specs.Callers.{caller_number as number_of_caller};
ghost use Rattle.part_slots.specs.Slots.{place as place_of_part, part_at as part_of_place};

use irq_base::{Caller, Part};

/// The parts of a board before its local APICs: the registry, the counters, the tick, and the two chips.
pub const FIXED_PARTS: u32 = 5;

/// The number of a caller: twice that of a device, and twice that of a processor and 1.
pub fn caller_number(caller: Caller) -> u32
    ensures { result ≡ number_of_caller caller }
{
    match caller {
        Caller::Device(d) => u32::from(d) * 2,
        Caller::Cpu(n) => u32::from(n) * 2 + 1,
    }
}

/// The place of a part: the number of its turn.
pub fn place(part: Part) -> u32
    ensures { result ≡ place_of_part part }
{
    match part {
        Part::Registry => 0,
        Part::Counters => 1,
        Part::Tick => 2,
        Part::Pic => 3,
        Part::Ioapic => 4,
        Part::Lapic(n) => u32::from(n) + FIXED_PARTS,
    }
}

/// The part of a place.
pub fn part_at(place: u32) -> Part
    requires { place < 65541 }
    ensures { result ≡ part_of_place place }
{
    match place {
        0 => Part::Registry,
        1 => Part::Counters,
        2 => Part::Tick,
        3 => Part::Pic,
        4 => Part::Ioapic,
        n => Part::Lapic((n - FIXED_PARTS) as u16),
    }
}
