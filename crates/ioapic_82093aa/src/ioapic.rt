//! The chip.
ghost use Rattle.std.specs.Prelude.{◌≡◌, ℕ, ◌<◌, IsTrue, IfSome};
ghost use Rattle.std.specs.FinSet as set;
ghost use Rattle.ioapic_82093aa.specs.Entries.{WordsTellTheEntry};
ghost use Rattle.reg_table.specs.Rows.{ResetsAreReadable};
ghost use Rattle.ioapic_82093aa.specs.Registers.{register_of, register_rows};
ghost use Rattle.ioapic_82093aa.specs.Pins.{entry_at, ioapic_at_power_on, read_from, write_to, word_of_register, register_written, raised, raise_of, lowered, pin_accepted, pin_acked, has_vector, resend_of, RegistersStartAsTold};

use crate::entries::Entries;
use crate::pins::{Pin, Pins};
use crate::registers::{Register, Selected, register_at};
use irq_base::Message;

/// The I/O APIC.
#[derive(Drop)]
pub struct Ioapic {
    entries: Entries,
    high: Pins,
    /// The index that IOREGSEL keeps.
    selected: u8,
    identity: u8,
}

/// What came of a raise.
#[derive(Clone, Copy, Debug, PartialEq, Eq)]
pub enum Raise {
    /// The entry is masked.
    Masked,
    /// A request stands already: an edge whose pin was high, or a level with remote IRR.
    Stood,
    /// The message to send.
    Send(Message),
}

impl Ioapic {
    /// The chip at power-on: each entry masked, no pin high, all else 0.
    pub fn power_on() -> Ioapic
        ensures { result ≡ ioapic_at_power_on }
    {
        Ioapic {
            entries: Entries::power_on(),
            high: Pins::none(),
            selected: 0,
            identity: 0,
        }
    }

    /// What a register reads.
    fn word(&self, register: Register) -> u32
        ensures { result ≡ word_of_register self.now register }
    {
        match register {
            Register::Identity | Register::Arbitration => (self.identity as u32) << 24,
            Register::Version => 0x0017_0011,
            Register::LowHalf(pin) => self.entries.at(pin).low_word(),
            Register::HighHalf(pin) => self.entries.at(pin).high_word(),
            Register::Reserved => 0,
        }
    }

    /// Reads at an offset: 00h is IOREGSEL, 10h is IOWIN, the register that IOREGSEL selects; any other offset reads 0.
    pub fn read(&self, offset: u8) -> u32
        ensures { result ≡ read_from self.now offset }
    {
        match offset {
            0x00 => self.selected as u32,
            0x10 => self.word(register_at(self.selected).register),
            _ => 0,
        }
    }

    /// Writes the register that IOREGSEL selects, and gives the pin whose entry was written.
    #[tactic(auto, using(crate::proofs::Masks::mask_rules))]
    fn write_selected(&mut self, value: u32) -> Option<u8>
        ensures after { self.new ≡ (register_written self.old (register_of self.old.selected) value).after }
        ensures pin { result ≡ (register_written self.old (register_of self.old.selected) value).pin }
        ensures in_range { IfSome result (λ p. p < 24) }
        ensures high { self.new.high ≡ self.old.high }
    {
        let Selected { register, writable } = register_at(self.selected);
        let value = value & writable;
        match register {
            Register::Identity => {
                self.identity = (value >> 24) as u8;
                None
            }
            Register::LowHalf(pin) => {
                self.entries.write_low(pin, value);
                Some(pin.number())
            }
            Register::HighHalf(pin) => {
                self.entries.write_high(pin, value);
                Some(pin.number())
            }
            _ => None,
        }
    }

    /// Writes at an offset: 00h is IOREGSEL, 10h is IOWIN; any other offset takes no write. Gives the pin, of 0 to 23,
    /// whose entry was written.
    pub fn write(&mut self, offset: u8, value: u32) -> Option<u8>
        ensures after { self.new ≡ (write_to self.old offset value).after }
        ensures pin { result ≡ (write_to self.old offset value).pin }
        ensures in_range { IfSome result (λ p. p < 24) }
        ensures high { self.new.high ≡ self.old.high }
    {
        match offset {
            0x00 => {
                self.selected = (value % 0x100) as u8;
                None
            }
            0x10 => self.write_selected(value),
            _ => None,
        }
    }

    /// Makes a pin, of 0 to 23, high.
    pub fn raise(&mut self, pin: u8) -> Raise
        requires { pin < 24 }
        ensures after { self.new ≡ raised self.old pin }
        ensures answer { result ≡ raise_of self.old pin }
    {
        let pin = Pin::of(pin);
        let was_high = self.high.has(pin);
        self.high.insert(pin);
        let entry = self.entries.at(pin);
        let stands = if entry.level {
            entry.remote_irr
        } else {
            was_high
        };
        if entry.masked {
            Raise::Masked
        } else if stands {
            Raise::Stood
        } else {
            Raise::Send(entry.message())
        }
    }

    /// Makes a pin, of 0 to 23, low.
    pub fn lower(&mut self, pin: u8)
        requires { pin < 24 }
        ensures { self.new ≡ lowered self.old pin }
    {
        self.high.remove(Pin::of(pin));
    }

    /// The processors took the message of a pin, of 0 to 23: a level-triggered entry sets remote IRR.
    pub fn accepted(&mut self, pin: u8)
        requires { pin < 24 }
        ensures { self.new ≡ pin_accepted self.old pin }
    {
        let pin = Pin::of(pin);
        let entry = self.entries.at(pin);
        self.entries
            .set_remote_irr(pin, entry.level || entry.remote_irr);
    }

    /// Whether the entry of a pin, of 0 to 23, is level-triggered.
    pub fn is_level(&self, pin: u8) -> bool
        requires { pin < 24 }
        ensures { result ≡ (entry_at self.now pin).level }
    {
        self.entries.at(Pin::of(pin)).level
    }

    /// Whether the entry of a pin, of 0 to 23, has that vector, masked or not.
    pub fn has_vector(&self, pin: u8, vector: u8) -> bool
        requires { pin < 24 }
        ensures { result ≡ has_vector self.now pin vector }
    {
        self.entries.at(Pin::of(pin)).vector == vector
    }

    /// The pins whose entry has that vector, masked or not.
    pub fn pins_with(&self, vector: u8) -> Pins
        ensures { (pin : ℕ) → pin < 24 → set.contains result pin ≡ has_vector self.now pin vector }
    {
        self.entries.with(vector)
    }

    /// The interrupt of a pin, of 0 to 23, has ended: remote IRR is cleared.
    pub fn acked(&mut self, pin: u8)
        requires { pin < 24 }
        ensures { self.new ≡ pin_acked self.old pin }
    {
        self.entries.set_remote_irr(Pin::of(pin), false);
    }

    /// The message of a pin, of 0 to 23, that is to be sent again: exactly where the pin is high, unmasked and
    /// level-triggered and its remote IRR is clear.
    pub fn resend(&self, pin: u8) -> Option<Message>
        requires { pin < 24 }
        ensures { result ≡ resend_of self.now pin }
    {
        let pin = Pin::of(pin);
        let entry = self.entries.at(pin);
        let is_due = self.high.has(pin) && !entry.masked && entry.level && !entry.remote_irr;
        if is_due { Some(entry.message()) } else { None }
    }

    /// Makes the chip equal to the other.
    pub fn copy_from(&mut self, other: &Ioapic)
        ensures { self.new ≡ other.now }
    {
        self.entries.copy_from(&other.entries);
        self.high = other.high;
        self.selected = other.selected;
        self.identity = other.identity;
    }
}

/// A law: how the two halves of an entry read tells the entry.
#[tactic(auto, using(crate::proofs::Halves::words_tell_the_entry))]
pub fn words_tell_the_entry()
    ensures { WordsTellTheEntry }
{}

/// A law: what each register reads at power-on is the value of its row in the table, whose bits can all be read.
#[tactic(auto, using(crate::proofs::PowerOn::registers_start_as_told))]
pub fn registers_start_as_told()
    ensures values { RegistersStartAsTold }
    ensures readable { ResetsAreReadable register_rows }
{}
