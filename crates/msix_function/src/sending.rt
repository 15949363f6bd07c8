//! What is asked of a function over a caller's way to a board.
ghost use Rattle.std.specs.Prelude.{◌≡◌, ℕ, ◌<◌, List, length};
ghost use Rattle.face_asks.specs.Asks.{IsAnswered};
ghost use Rattle.msix_function.specs.Balance.{Lead, IsBalanced, one_if};
ghost use Rattle.msix_function.specs.Calls.{Operates, SendsAll};
ghost use Rattle.msix_function.specs.Functions.{IsAtPowerOn, message_at, due, stored, controlled};
ghost use Rattle.msix_function.specs.Operations.{Operation as Asked, fire, store, control, call_of, can_send};
ghost use Rattle.msix_function.specs.declared.function.Function.{Function as Kept};

use crate::fired::Fired;
use crate::function::Function;
use face_asks::ask_as_any;
use irq_base::{Done, Events, Face, Spent};

impl<const N: usize> Function<N> {
    /// Requests the message of entry k, below N. Where MSI-X is enabled and the entry is neither pending nor held back by a mask,
    /// the message is sent by one `Msi` call. `Spent` where a limit of the board bars it: the request is then pending, and the
    /// next `store` or `control` that leaves it free sends it. Afterwards `events` has those of the message, none where it was barred;
    /// where none was asked it stays.
    pub fn fire<F: Face>(
        &mut self,
        k: usize,
        face: &mut F,
        events: &mut Events,
    ) -> Result<Fired, Spent>
        requires entry { k < N }
        ensures fires { Operates F.Face (fire k) (one_if (can_send self.old k)) result face.old face.new self.old self.new
            events.old.items events.new.items }
    {
        if !self.enabled {
            return Ok(Fired::Off);
        }
        if self.pending(k) {
            return Ok(Fired::Merged);
        }
        if self.is_held(k) {
            self.pend(k);
            return Ok(Fired::Pended);
        }
        match self.send(k, face, events) {
            Ok(done) => Ok(Fired::Sent(done.reply)),
            Err(spent) => {
                self.pend(k);
                Err(spent)
            }
        }
    }

    /// Writes the word of the table at a byte offset; where no word of an entry begins nothing is written. Then, where MSI-X is
    /// enabled, each entry that is pending and not held back by a mask is sent, in order, and the answer is how many were.
    /// `Spent` where a limit of the board bars a message: the word is written, and the entry that was refused and all behind it
    /// stay pending. Afterwards `events` has those of the last message, none where it was barred; where none was asked it stays.
    pub fn store<F: Face>(
        &mut self,
        offset: u16,
        value: u32,
        face: &mut F,
        events: &mut Events,
    ) -> Result<u32, Spent>
        ensures stores { Operates F.Face (store offset value) (length (due (stored self.old offset value))) result
            face.old face.new self.old self.new events.old.items events.new.items }
    {
        self.write(offset, value);
        self.send_due(face, events)
    }

    /// Writes the bits MSI-X Enable and Function Mask, and then sends as `store` does.
    pub fn control<F: Face>(
        &mut self,
        enable: bool,
        mask: bool,
        face: &mut F,
        events: &mut Events,
    ) -> Result<u32, Spent>
        ensures controls { Operates F.Face (control enable mask) (length (due (controlled self.old enable mask))) result
            face.old face.new self.old self.new events.old.items events.new.items }
    {
        self.set_bits(enable, mask);
        self.send_due(face, events)
    }

    // Sends the entries that are due, in order, and tells how many were sent.
    fn send_due<F: Face>(&mut self, face: &mut F, events: &mut Events) -> Result<u32, Spent>
        ensures { SendsAll F.Face result face.old face.new self.old self.new events.old.items events.new.items }
    {
        let mut sent = 0;
        for k in 0..N {
            if !self.is_due(k) {
                continue;
            }
            self.send(k, face, events)?;
            self.clear(k);
            sent += 1;
        }
        Ok(sent)
    }

    // Sends the message of an entry.
    fn send<F: Face>(&self, k: usize, face: &mut F, events: &mut Events) -> Result<Done, Spent>
        requires { k < N }
        ensures { IsAnswered F.Face (call_of (message_at self.now k)) events.new.items result face.old face.new }
    {
        ask_as_any(face, &self.call(k), events)
    }

    /// Nothing is done. Over every list of operations since power-on, the fires of an entry that were answered other than `Off` are
    /// as many as the messages sent for it, and those that merged, and one where it is pending.
    pub fn keeps_balance(&self)
        ensures balance { (opening : Kept N) (operations : List Asked) (k : ℕ) → k < N → IsAtPowerOn opening
            → Lead opening operations self.now
            → IsBalanced k operations self.now }
    {}
}
