//! The local APICs in hand, in a row by their processors' numbers.
ghost use Rattle.std.specs.Prelude.{◌≡◌, ◌<◌, length, replicate, slice_get, slice_set, Some, None, IfOk, IsTrue, is_some};
ghost use Rattle.std.specs.Option.{option_copied, option_copied_mut};
ghost use Rattle.std.specs.Borrow.{sem};
ghost use Rattle.lapic.specs.Messages.{is_taken};
ghost use Rattle.board_raise.specs.Lending.{LendsApic};
ghost use Rattle.board_raise.specs.OnRow.{apic_in, accepted_at};
ghost use Rattle.board_raise.specs.RowSteps.{answer_at};

use irq_base::{Message, NoMemory};
use lapic::{Accepted, Lapic};
use std::alloc::Global;
use std::marker::Model;
use std::mem;

/// A place for each processor of a board, with its local APIC where that is in hand.
#[derive(Drop)]
pub struct LapicRow {
    places: Vec<Option<Lapic>>,
}

impl Model for LapicRow {
    ghost use Rattle.std.specs.Prelude.{List};
    ghost use Rattle.std.specs.Coded.{coded_list, coded_option};
    ghost use Rattle.std.specs.declared.option.Option.{Option};
    ghost use Rattle.lapic.specs.Registers.{LocalApic, apic_code};

    ghost Value = { List (Option LocalApic) };

    ghost coded = { coded_list (coded_option apic_code) };

    ghost view = { λ r. r.places.items };
}

impl LapicRow {
    /// That many places, with no local APIC in them.
    pub fn empty(alloc: Global, cpus: u16) -> Result<LapicRow, NoMemory>
        ensures { IfOk result (λ row. row ≡ replicate cpus None) }
    {
        let mut places = Vec::new(alloc);
        for _place in 0..cpus {
            if places.push(None).is_err() {
                return Err(NoMemory);
            }
        }
        Ok(LapicRow { places })
    }

    /// How many places there are.
    pub fn len(&self) -> usize
        ensures { result ≡ length self.now }
    {
        self.places.len()
    }

    /// The local APIC of the processor, if it is in hand.
    pub fn at(&self, n: u16) -> Option<&Lapic>
        requires { n < length self.now }
        ensures { slice_get self.now n ≡ Some (option_copied result) }
    {
        self.places[n as usize].as_ref()
    }

    /// Whether the local APIC of the processor is in hand.
    pub fn holds(&self, n: u16) -> bool
        requires { n < length self.now }
        ensures { result ≡ is_some (apic_in self.now n) }
    {
        self.places[n as usize].is_some()
    }

    /// The local APIC of the processor, if it is in hand, to be changed.
    pub fn at_mut(&mut self, n: u16) -> Option<&mut Lapic>
        requires { n < length self.old }
        ensures* lends { sem 𝓛 (LendsApic self.entry n result) }
        ensures value { slice_get self.old n ≡ Some (option_copied_mut result) }
    {
        let place = &mut self.places[n as usize];
        place.as_mut()
    }

    /// Puts that into the processor's place, and gives what stood there.
    pub fn put(&mut self, n: u16, lapic: Option<Lapic>) -> Option<Lapic>
        requires { n < length self.old }
        ensures before { slice_get self.old n ≡ Some result }
        ensures after { self.new ≡ slice_set self.old n lapic }
    {
        mem::replace(&mut self.places[n as usize], lapic)
    }
    /// The local APIC of the processor, if it is in hand, accepts the message and answers.
    pub(crate) fn accept_at(&mut self, n: u16, message: &Message) -> Option<Accepted>
        requires place { n < length self.old }
        requires taken { IsTrue (is_taken message.now.mode) }
        ensures answer { result ≡ answer_at (apic_in self.old n) message.now }
        ensures after { self.new ≡ accepted_at n (apic_in self.old n) message.now self.old }
    {
        match self.at_mut(n) {
            None => None,
            Some(lapic) => Some(lapic.accept(message)),
        }
    }
}
