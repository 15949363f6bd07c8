//! What a function keeps: its words, its bits, and what is pending.
ghost use Rattle.std.specs.Prelude.{◌≡◌, ◌<◌, ◌≤◌};
ghost use Rattle.msix_function.specs.Functions.{
  IsAtPowerOn,
  is_pending_at,
  is_held,
  is_due,
  message_at,
  pended,
  cleared,
  loaded,
  stored,
  controlled,
};
ghost use Rattle.msix_function.specs.Operations.{call_of};

use crate::entry::{Entry, Word};
use crate::function::Function;
use irq_base::{Call, MsiWord};

impl<const N: usize> Function<N> {
    /// Each entry is masked and else 0, and MSI-X Enable, Function Mask and all pending bits are clear.
    pub fn power_on() -> Function<N>
        requires some { 0 < N }
        requires most { N ≤ 64 }
        ensures opening { IsAtPowerOn result }
    {
        Function {
            entries: [Entry::power_on(); N],
            is_pending: [false; N],
            enabled: false,
            masked: false,
        }
    }

    /// The word of the table at a byte offset. Where no word of an entry begins it is 0.
    pub fn load(&self, offset: u16) -> u32
        ensures value { result ≡ loaded self.now offset }
    {
        match self.entries.get(usize::from(offset / 16)) {
            Some(entry) => entry.read(Word::at(offset)),
            None => 0,
        }
    }

    /// Whether the pending bit of entry k is set; there is none from N on.
    pub fn pending(&self, k: usize) -> bool
        ensures value { result ≡ is_pending_at self.now k }
    {
        match self.is_pending.get(k) {
            Some(is_pending) => *is_pending,
            None => false,
        }
    }

    // Writes a word of the table.
    pub(crate) fn write(&mut self, offset: u16, value: u32)
        ensures { self.new ≡ stored self.old offset value }
    {
        let k = usize::from(offset / 16);
        if k < N {
            let mut entry = self.entries[k];
            entry.write(Word::at(offset), value);
            self.entries[k] = entry;
        }
    }

    // Writes MSI-X Enable and Function Mask.
    pub(crate) fn set_bits(&mut self, enable: bool, mask: bool)
        ensures { self.new ≡ controlled self.old enable mask }
    {
        self.enabled = enable;
        self.masked = mask;
    }

    // Whether the entry or the function is masked.
    pub(crate) fn is_held(&self, k: usize) -> bool
        requires { k < N }
        ensures { result ≡ is_held self.now k }
    {
        self.masked || self.entries[k].is_masked()
    }

    // Whether the entry is to be sent now.
    pub(crate) fn is_due(&self, k: usize) -> bool
        requires { k < N }
        ensures { result ≡ is_due self.now k }
    {
        self.enabled && self.pending(k) && !self.is_held(k)
    }

    // The call that sends the message of the entry.
    pub(crate) fn call(&self, k: usize) -> Call
        requires { k < N }
        ensures { result ≡ call_of (message_at self.now k) }
    {
        let MsiWord { address, payload } = self.entries[k].message();
        Call::Msi { address, payload }
    }

    // Sets the pending bit of the entry.
    pub(crate) fn pend(&mut self, k: usize)
        requires { k < N }
        ensures { self.new ≡ pended self.old k }
    {
        self.is_pending[k] = true;
    }

    // Clears the pending bit of the entry.
    pub(crate) fn clear(&mut self, k: usize)
        requires { k < N }
        ensures { self.new ≡ cleared self.old k }
    {
        self.is_pending[k] = false;
    }
}
