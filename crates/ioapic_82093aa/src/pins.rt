//! The pins of the chip, and sets of them.
ghost use Rattle.std.specs.Prelude.{◌≡◌, ℕ, ◌<◌, ◌≤◌, ◌↔◌, IsTrue, false, true};
ghost use Rattle.std.specs.FinSet as set;

use std::marker::Model;

/// The pins of an I/O APIC, and so its entries.
pub const PINS: usize = 24;

/// A pin, from 0 to 23; contracts see its number.
#[derive(Clone, Copy)]
pub struct Pin {
    number: u8,
}

impl Model for Pin {
    ghost use Rattle.std.specs.Prelude.{ℕ, ◌<◌};
    ghost use Rattle.std.specs.Coded.{coded_ℕ};

    ghost Value = { ℕ };

    ghost coded = { coded_ℕ };

    ghost view = { λ a. a.number };

    ghost invariant = { λ a. a.number < 24 };

    ghost inverse = { λ n. record { number = n } };
}

impl Pin {
    /// The pin of that number.
    pub fn of(number: u8) -> Pin
        requires { number < 24 }
        ensures { result ≡ number }
    {
        Pin { number }
    }

    /// The number of the pin.
    pub fn number(&self) -> u8
        ensures number { result ≡ self.now }
        ensures range { result < 24 }
    {
        self.number
    }

    /// The place of the pin's entry.
    pub fn place(&self) -> usize
        ensures number { result ≡ self.now }
        ensures range { result < 24 }
    {
        self.number as usize
    }
}

/// A set of pins, kept as a word whose bit n stands for pin n.
#[derive(Clone, Copy)]
pub struct Pins {
    word: u32,
}

impl Model for Pins {
    ghost use Rattle.std.specs.Prelude.{ℕ, ◌<◌, ◌^◌};
    ghost use Rattle.irq_bits.specs.Members.{Numbers, numbers_code, members_of, word_of};
    ghost use Rattle.ioapic_82093aa.specs.Rules.{pin-word};

    ghost Value = { Numbers };

    ghost coded = { numbers_code };

    ghost view = { λ a. members_of 32 a.word };

    ghost invariant = { λ a. a.word < 2 ^ 32 };

    ghost inverse = { λ s. record { word = word_of 32 s } };

    ghost inverse_ok = { λ a fits i. record { word = pin-word a.word fits i } };
}

#[tactic(auto, using(crate::specs::Rules::pin_rules))]
impl Pins {
    /// No pin.
    pub fn none() -> Pins
        ensures { result ≡ set.empty }
    {
        Pins { word: 0 }
    }

    /// Whether no pin is in the set.
    pub fn is_empty(&self) -> bool
        ensures { IsTrue result ↔ (self.now ≡ set.empty) }
    {
        self.word == 0
    }

    /// Whether the pin of that number, of 0 to 23, is in the set.
    pub fn has_number(&self, pin: u8) -> bool
        requires { pin < 24 }
        ensures { result ≡ set.contains self.now pin }
    {
        self.has(Pin::of(pin))
    }

    /// Whether the pin is in the set.
    pub fn has(&self, pin: Pin) -> bool
        ensures { result ≡ set.contains self.now pin }
    {
        self.word >> pin.number & 1 == 1
    }

    /// The first pin of the set from that number on, or 24 where there is none.
    pub fn next(&self, from: u8) -> u8
        requires { from ≤ 24 }
        ensures range { result ≤ 24 }
        ensures on { from ≤ result }
        ensures none_between { (pin : ℕ) → from ≤ pin → pin < result → set.contains self.now pin ≡ false }
        ensures there { result < 24 → set.contains self.now result ≡ true }
    {
        let rest = self.word >> from;
        if rest == 0 {
            return PINS as u8;
        }
        let pin = from + rest.trailing_zeros() as u8;
        if pin < PINS as u8 { pin } else { PINS as u8 }
    }

    /// Puts the pin into the set.
    pub fn insert(&mut self, pin: Pin)
        ensures { self.new ≡ set.insert self.old pin }
    {
        self.word |= 1 << pin.number;
    }

    /// Takes the pin out of the set.
    pub fn remove(&mut self, pin: Pin)
        ensures { self.new ≡ set.remove self.old pin }
    {
        self.word &= !(1 << pin.number);
    }
}
