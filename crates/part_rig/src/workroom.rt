//! Room for the working copies of a call, with a rig over those in hand.
ghost use Rattle.std.specs.Prelude.{◌≡◌, ◌+◌, ◌≤◌, List, length, IfOk};
ghost use Rattle.turn_book.specs.Many.{AllBelow};
ghost use Rattle.turn_book.specs.declared.view.Note.{Note};
ghost use Rattle.part_rig.specs.Readings.{AreNoted};
ghost use Rattle.irq_base.specs.declared.shape.Shape.{Shape as ShapeOf};
ghost use Rattle.part_rig.specs.Rooms.{IsRoomFor, AreAt, IsBare, IsPlaceIn, nothing, fetched, cleared, cleared_each};
ghost use Rattle.irq_bits.specs.declared.limits.TheConstants.{MAX_CPUS};
ghost use Rattle.part_slots.specs.declared.numbers.TheConstants.{FIXED_PARTS};

use crate::in_hand::InHand;
use crate::known::Known;
use ack_notifiers::Watches;
use board_raise::{LapicRow, Parts, RegistryPart};
use event_counter::Counters;
use ioevent_set::IoEvents;
use irq_base::{NoMemory, Part, Shape};
use irqfd_set::Irqfds;
use part_copies::{copy_slot, write_slot};
use part_machine::RunningBoard;
use part_slots::{Slot, part_at};
use route_table::Table;
use std::alloc::Global;
use turn_book::Pen;
use turn_copies::Copies;

/// Room for the working copies of a call, with a rig over those in hand.
///
/// A registry and the counters are in hand or spare, so that no copy takes or gives back memory.
#[derive(Drop)]
pub struct Workroom {
    pub rig: InHand,
    // where they are not in hand
    pub(crate) registry: Option<RegistryPart>,
    pub(crate) counters: Option<Counters>,
}

// A registry, in which nothing that stands means anything.
fn spare_registry(alloc: Global) -> Result<RegistryPart, NoMemory> {
    let table = Table::power_on(alloc)?;
    let irqfds = Irqfds::power_on(alloc)?;
    let watches = Watches::power_on(alloc)?;
    let ioevents = IoEvents::power_on(alloc)?;
    Ok(RegistryPart {
        table,
        irqfds,
        watches,
        ioevents,
    })
}

// No part in hand, and a place for each processor's local APIC.
fn no_parts(alloc: Global, cpus: u16) -> Result<Parts, NoMemory>
    ensures { IfOk result (λ parts. parts ≡ nothing cpus) }
{
    let lapics = LapicRow::empty(alloc, cpus)?;
    Ok(Parts {
        registry: None,
        counters: None,
        tick: None,
        pic: None,
        ioapic: None,
        lapics,
    })
}

impl Workroom {
    /// Room for the copies of a board of that shape. Nothing is in hand, and no word was read.
    pub fn of(alloc: Global, shape: &Shape, pen: &Pen<RunningBoard>) -> Result<Workroom, NoMemory>
        ensures room { IfOk result (λ room. IsRoomFor shape.now room) }
        ensures parts { IfOk result (λ room. room.rig.parts ≡ nothing shape.now.cpus) }
        ensures noted { IfOk result (λ room. (notes : List Note) → AreNoted notes room.rig.known.places.items) }
    {
        let registry = spare_registry(alloc)?;
        let counters = Counters::power_on(alloc, shape.counters)?;
        let parts = no_parts(alloc, shape.cpus)?;
        let known = Known::of(alloc, pen)?;
        Ok(Workroom {
            rig: InHand { parts, known },
            registry: Some(registry),
            counters: Some(counters),
        })
    }

    // The part is in hand no more; a registry and counters that were in hand are spare then.
    fn clear(&mut self, part: Part)
        requires { IsPlaceIn self.old.rig.parts.lapics part }
        ensures { self.new ≡ cleared part self.old }
    {
        let parts = &mut self.rig.parts;
        match part {
            Part::Registry => {
                if let Some(registry) = parts.registry.take() {
                    self.registry = Some(registry);
                }
            }
            Part::Counters => {
                if let Some(counters) = parts.counters.take() {
                    self.counters = Some(counters);
                }
            }
            Part::Tick => parts.tick = None,
            Part::Pic => parts.pic = None,
            Part::Ioapic => parts.ioapic = None,
            Part::Lapic(n) => {
                let _ = parts.lapics.put(n, None);
            }
        }
    }

    // Nor is that of any of these places.
    fn clear_each(&mut self, places: &[u32])
        requires few { length self.old.rig.parts.lapics ≤ MAX_CPUS }
        requires places { AllBelow (FIXED_PARTS + length self.old.rig.parts.lapics) places.now }
        ensures { self.new ≡ cleared_each places.now self.old }
    {
        if let Some((place, rest)) = places.split_first() {
            self.clear(part_at(*place));
            self.clear_each(rest);
        }
    }

    /// Nothing is in hand from now on. What is in hand stands at these places.
    ///
    /// It takes no memory and gives none back, and goes through these places alone.
    pub fn begin(&mut self, places: &[u32])
        requires few { length self.old.rig.parts.lapics ≤ MAX_CPUS }
        requires places { AllBelow (FIXED_PARTS + length self.old.rig.parts.lapics) places.now }
        requires in_hand { AreAt places.now self.old.rig.parts }
        ensures bare { IsBare self.new.rig.parts }
        ensures parts { self.new.rig.parts ≡ nothing (length self.old.rig.parts.lapics) }
        ensures known { self.new.rig.known ≡ self.old.rig.known }
        ensures room { (shape : ShapeOf) → IsRoomFor shape self.old → IsRoomFor shape self.new }
    {
        self.clear_each(places);
    }

    // The spare registry or counters come to hand, if a copy of what the slot keeps wants them and they are not in hand.
    fn fetch(&mut self, kept: &Slot)
        ensures { self.new ≡ fetched kept.now self.old }
    {
        match kept {
            Slot::Registry(_) => {
                if self.rig.parts.registry.is_none() {
                    self.rig.parts.registry = self.registry.take();
                }
            }
            Slot::Counters(_) => {
                if self.rig.parts.counters.is_none() {
                    self.rig.parts.counters = self.counters.take();
                }
            }
            _ => {}
        }
    }
}

impl Copies<Slot> for Workroom {
    ghost use Rattle.part_rig.specs.Rooms.{copied_in, written_from, HasRoomFor, FitsFrom};
    ghost use Rattle.part_rig.specs.RoomStays.{room_stays};

    ghost copied = { copied_in };

    ghost written = { written_from };

    ghost has_room = { HasRoomFor };

    ghost fits = { FitsFrom };

    ghost room_stays = { room_stays };

    fn copy_in(&mut self, part: u32, kept: &Slot) {
        self.fetch(kept);
        copy_slot(&mut self.rig.parts, part, kept);
    }

    fn write_back(&self, part: u32, kept: &mut Slot) {
        write_slot(&self.rig.parts, part, kept);
    }
}
