//! An entry of the table.
ghost use Rattle.std.specs.Prelude.{◌≡◌};
ghost use Rattle.msix_function.specs.Entries.{entry_at_power_on, is_masked, message_of, word_at, word_in, with_word};

use irq_base::MsiWord;

/// A word of an entry, of 32 bits.
#[derive(Clone, Copy)]
pub enum Word {
    AddressLow,
    AddressHigh,
    Payload,
    /// Its bit 0 masks the entry.
    Control,
}

/// The words of an entry.
#[derive(Clone, Copy)]
pub struct Entry {
    address_low: u32,
    address_high: u32,
    payload: u32,
    control: u32,
}

impl Word {
    /// The word at an offset in the table, by its place in the 16 bytes of an entry; none off the words.
    pub fn at(offset: u16) -> Option<Word>
        ensures { result ≡ word_at offset }
    {
        match offset % 16 {
            0 => Some(Word::AddressLow),
            4 => Some(Word::AddressHigh),
            8 => Some(Word::Payload),
            12 => Some(Word::Control),
            _ => None,
        }
    }
}

impl Entry {
    /// Masked, and else 0.
    pub fn power_on() -> Entry
        ensures { result ≡ entry_at_power_on }
    {
        Entry {
            address_low: 0,
            address_high: 0,
            payload: 0,
            control: 1,
        }
    }

    /// Whether bit 0 of the control word is set.
    pub fn is_masked(&self) -> bool
        ensures { result ≡ is_masked self.now }
    {
        self.control % 2 == 1
    }

    /// The message that a request of the entry sends.
    pub fn message(&self) -> MsiWord
        ensures { result ≡ message_of self.now }
    {
        MsiWord {
            address: u64::from(self.address_high) * 0x1_0000_0000 + u64::from(self.address_low),
            payload: self.payload,
        }
    }

    /// What a word reads; off the words, 0.
    pub fn read(&self, word: Option<Word>) -> u32
        ensures { result ≡ word_in self.now word }
    {
        match word {
            Some(Word::AddressLow) => self.address_low,
            Some(Word::AddressHigh) => self.address_high,
            Some(Word::Payload) => self.payload,
            Some(Word::Control) => self.control,
            None => 0,
        }
    }

    /// Writes a word; off the words, nothing.
    pub fn write(&mut self, word: Option<Word>, value: u32)
        ensures { self.new ≡ with_word self.old word value }
    {
        match word {
            Some(Word::AddressLow) => self.address_low = value,
            Some(Word::AddressHigh) => self.address_high = value,
            Some(Word::Payload) => self.payload = value,
            Some(Word::Control) => self.control = value,
            None => {}
        }
    }
}
