//! A redirection entry.
ghost use Rattle.std.specs.Prelude.{◌≡◌, ℕ, ◌<◌, ◌%◌, ◌^◌};
ghost use Rattle.irq_bits.specs.Members.{is_set};
ghost use Rattle.ioapic_82093aa.specs.Entries.{entry_at_power_on, bit, low_word, high_word, settled, low_written, high_written, mode_of, message_of};

use irq_base::{Message, Mode};
use std::marker::Model;

/// The three bits of a delivery mode; contracts see their number.
#[derive(Clone, Copy)]
pub struct ModeBits {
    bits: u8,
}

impl Model for ModeBits {
    ghost use Rattle.std.specs.Prelude.{ℕ, ◌<◌};
    ghost use Rattle.std.specs.Coded.{coded_ℕ};

    ghost Value = { ℕ };

    ghost coded = { coded_ℕ };

    ghost view = { λ a. a.bits };

    ghost invariant = { λ a. a.bits < 8 };

    ghost inverse = { λ n. record { bits = n } };
}

impl ModeBits {
    /// The low three bits.
    pub fn of(bits: u8) -> ModeBits
        ensures { result ≡ bits % 2 ^ 3 }
    {
        ModeBits { bits: bits % 8 }
    }

    /// The number of the bits.
    pub fn number(&self) -> u8
        ensures number { result ≡ self.now }
        ensures range { result < 8 }
    {
        self.bits
    }

    /// The delivery mode.
    pub fn mode(&self) -> Mode
        ensures { result ≡ mode_of self.now }
    {
        match self.bits {
            0 => Mode::Fixed,
            1 => Mode::Lowest,
            2 => Mode::Smi,
            4 => Mode::Nmi,
            5 => Mode::Init,
            7 => Mode::ExtInt,
            _ => Mode::Reserved,
        }
    }
}

/// The redirection entry of a pin.
#[derive(Clone, Copy)]
pub struct Entry {
    pub(crate) vector: u8,
    pub(crate) mode: ModeBits,
    /// The destination is logical, else physical.
    pub(crate) logical: bool,
    /// The polarity, which is kept and does nothing.
    pub(crate) active_low: bool,
    /// Remote IRR: the processors took the request and it has not ended.
    pub(crate) remote_irr: bool,
    /// The pin is level-triggered, else edge-triggered.
    pub(crate) level: bool,
    pub(crate) masked: bool,
    pub(crate) destination: u8,
}

/// Whether bit n of a word is set.
#[tactic(auto, using(std::proofs::lemmas::Nat::Bits::shr_and_one))]
fn has_bit(word: u32, n: u8) -> bool
    requires { n < 32 }
    ensures { result ≡ is_set word n }
{
    word >> n & 1 == 1
}

/// The word with that bit or none.
fn bit(place: u8, on: bool) -> u32
    requires { place < 32 }
    ensures { result ≡ bit place on }
{
    if on { 1 << place } else { 0 }
}

impl Entry {
    /// The entry at power-on.
    pub fn power_on() -> Entry
        ensures { result ≡ entry_at_power_on }
    {
        Entry {
            vector: 0,
            mode: ModeBits::of(0),
            logical: false,
            active_low: false,
            remote_irr: false,
            level: false,
            masked: true,
            destination: 0,
        }
    }

    /// The low half.
    pub fn low_word(&self) -> u32
        ensures { result ≡ low_word self.now }
    {
        self.vector as u32
            + 0x100 * self.mode.number() as u32
            + bit(11, self.logical)
            + bit(13, self.active_low)
            + bit(14, self.remote_irr)
            + bit(15, self.level)
            + bit(16, self.masked)
    }

    /// The high half.
    pub fn high_word(&self) -> u32
        ensures { result ≡ high_word self.now }
    {
        (self.destination as u32) << 24
    }

    /// Clears remote IRR of an entry that a write left edge-triggered.
    fn settle(&mut self)
        ensures { self.new ≡ settled self.old }
    {
        self.remote_irr = self.remote_irr && self.level;
    }

    /// Writes the low half.
    pub fn write_low(&mut self, value: u32)
        ensures { self.new ≡ low_written self.old value }
    {
        self.vector = (value % 0x100) as u8;
        self.mode = ModeBits::of((value / 0x100 % 0x100) as u8);
        self.logical = has_bit(value, 11);
        self.active_low = has_bit(value, 13);
        self.level = has_bit(value, 15);
        self.masked = has_bit(value, 16);
        self.settle();
    }

    /// Writes the high half.
    pub fn write_high(&mut self, value: u32)
        ensures { self.new ≡ high_written self.old value }
    {
        self.destination = (value >> 24) as u8;
        self.settle();
    }

    /// The message that the entry sends.
    pub fn message(&self) -> Message
        ensures { result ≡ message_of self.now }
    {
        let mode = self.mode.mode();
        Message {
            mode,
            logical: self.logical,
            dest: self.destination as u32,
            vector: self.vector,
            level: self.level && mode != Mode::Nmi,
        }
    }
}
