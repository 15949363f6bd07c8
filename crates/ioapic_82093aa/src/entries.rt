//! The entries of all pins.
ghost use Rattle.std.specs.Prelude.{◌≡◌, ℕ, ◌<◌, ◌||◌, false, replicate, slice_set};
ghost use Rattle.std.specs.FinSet as set;
ghost use Rattle.ioapic_82093aa.specs.Entries.{entry_at_power_on, entry_in, low_written, high_written, vector_is};

use crate::entry::Entry;
use crate::pins::{PINS, Pin, Pins};
use irq_bits::Set256;
use std::marker::Model;

/// The redirection table: an entry for each pin.
#[derive(Clone, Copy)]
struct Table {
    entries: [Entry; PINS],
}

/// The redirection entries of the pins; contracts see their list.
#[derive(Drop)]
pub struct Entries {
    table: Table,
    /// The vector of each entry is in it, so that a vector which is not in it is that of no pin. A vector that an entry once had
    /// stays in it.
    vectors: Set256,
}

impl Model for Entries {
    ghost use Rattle.std.specs.Prelude.{List};
    ghost use Rattle.std.specs.Coded.{codes};
    ghost use Rattle.ioapic_82093aa.specs.Entries.{AreIn};
    ghost use Rattle.ioapic_82093aa.specs.declared.entry.Entry.{Entry};

    ghost Value = { List Entry };

    ghost coded = { Prim.hlevel codes };

    ghost view = { λ a. a.table.entries };

    ghost invariant = { λ a. AreIn a.table.entries a.vectors };
}

impl Entries {
    /// Each entry as it is at power-on.
    pub fn power_on() -> Entries
        ensures { result ≡ replicate 24 entry_at_power_on }
    {
        let mut vectors = Set256::empty();
        vectors.insert(0);
        Entries {
            table: Table {
                entries: [Entry::power_on(); PINS],
            },
            vectors,
        }
    }

    /// The entry of a pin.
    pub fn at(&self, pin: Pin) -> Entry
        ensures { result ≡ entry_in self.now pin }
    {
        self.table.entries[pin.place()]
    }

    /// Writes the low half of a pin's entry.
    pub fn write_low(&mut self, pin: Pin, value: u32)
        ensures { self.new ≡ slice_set self.old pin (low_written (entry_in self.old pin) value) }
    {
        let mut entry = self.table.entries[pin.place()];
        entry.write_low(value);
        self.vectors.insert(entry.vector);
        self.table.entries[pin.place()] = entry;
    }

    /// Writes the high half of a pin's entry.
    pub fn write_high(&mut self, pin: Pin, value: u32)
        ensures { self.new ≡ slice_set self.old pin (high_written (entry_in self.old pin) value) }
    {
        self.table.entries[pin.place()].write_high(value);
    }

    /// Sets or clears remote IRR of a pin's entry.
    pub fn set_remote_irr(&mut self, pin: Pin, on: bool)
        ensures { self.new ≡ slice_set self.old pin (record (entry_in self.old pin) { remote_irr = on }) }
    {
        self.table.entries[pin.place()].remote_irr = on;
    }

    /// The pins whose entry has that vector.
    pub fn with(&self, vector: u8) -> Pins
        ensures { (pin : ℕ) → pin < 24 → set.contains result pin ≡ vector_is self.now vector pin }
    {
        if !self.vectors.has(vector) {
            return Pins::none();
        }
        let mut pins = Pins::none();
        for number in 0..24 {
            let pin = Pin::of(number);
            if self.at(pin).vector == vector {
                pins.insert(pin);
            }
        }
        pins
    }

    /// Makes the entries equal to the others.
    pub fn copy_from(&mut self, other: &Entries)
        ensures { self.new ≡ other.now }
    {
        self.table = other.table;
        self.vectors.copy_from(&other.vectors);
    }
}
