//! The entries of an actor.
ghost use Rattle.std.specs.Prelude.{◌≡◌, [], false, IfOk, Ok};
ghost use Rattle.irq_base.specs.Faces.{own_after};
ghost use Rattle.actors.specs.Kept.{placed_in};

use entry_copies::copied_entry;
use irq_base::{Call, Caller, Done, Entry, Event, NoMemory};
use std::alloc::Global;

/// An entry, and its place in the history of its board.
#[derive(Drop)]
pub struct Placed {
    pub entry: Entry,
    pub at: u64,
}

/// The entries of an actor, in the order of its calls. Where one found no memory, it is lost, and so are those behind it.
#[derive(Drop)]
pub struct Kept {
    pub entries: Vec<Placed>,
    pub lost: bool,
}

impl Kept {
    /// Nothing was asked.
    pub fn none(alloc: Global) -> Kept
        ensures entries { result.entries.items ≡ [] }
        ensures lost { result.lost ≡ false }
    {
        Kept {
            entries: Vec::new(alloc),
            lost: false,
        }
    }

    // Puts the entry of a call behind the others.
    fn push(
        &mut self,
        alloc: Global,
        caller: Caller,
        call: &Call,
        done: &Done,
        events: &[Event],
    ) -> Result<(), NoMemory>
        ensures entry { IfOk result (λ _.
            placed_in self.new.entries.items ≡ own_after caller call.now events.now (Ok done.now) (placed_in self.old.entries.items)) }
        ensures lost { self.new.lost ≡ self.old.lost }
    {
        let entry = copied_entry(alloc, caller, call, done.reply, events)?;
        match self.entries.push(Placed { entry, at: done.at }) {
            Ok(()) => Ok(()),
            Err(_) => Err(NoMemory),
        }
    }

    /// Keeps the entry of a call that was answered, where memory is there for it and was for those before.
    pub fn keep(
        &mut self,
        alloc: Global,
        caller: Caller,
        call: &Call,
        done: &Done,
        events: &[Event],
    )
        ensures before { self.new.lost ≡ false → self.old.lost ≡ false }
        ensures entry { self.new.lost ≡ false →
            placed_in self.new.entries.items ≡ own_after caller call.now events.now (Ok done.now) (placed_in self.old.entries.items) }
    {
        if self.lost {
            return;
        }
        if self.push(alloc, caller, call, done, events).is_err() {
            self.lost = true;
        }
    }
}
