//! The rows of watches.
ghost use Rattle.std.specs.Prelude.{◌≡◌, [], ◌+◌, ◌<◌, ◌≤◌, ◌++◌, length, All, IfOk, OnOk, OnErr, vec_capacity};
ghost use Rattle.arrayvec.specs.ArrayVec.{array_vec_len};
ghost use Rattle.irq_base.specs.Counts.{signalled_all};
ghost use Rattle.irq_base.specs.Room.{with_told};
ghost use Rattle.ack_notifiers.specs.Rows.{watch_answer, unwatch_answer, with_row, without_row, has_row, has_watch, has_counter, watched, watch_events};

use irq_base::{Event, Events, NoMemory, Refusal, Tally, tell};
use std::alloc::Global;
use std::marker::Model;

/// How many watches there can be.
const ROOM: usize = 256;

/// A watch: the counter is signalled when the GSI is acknowledged.
#[derive(Clone, Copy, Debug, PartialEq, Eq)]
pub struct Watch {
    pub counter: u16,
    pub gsi: u16,
}

/// Up to 256 watches.
#[derive(Drop)]
pub struct Watches {
    rows: Vec<Watch>,
}

impl Model for Watches {
    ghost use Rattle.std.specs.Prelude.{List, ◌≤◌, length, vec_capacity};
    ghost use Rattle.ack_notifiers.specs.declared.watches.Watch.{Watch};

    ghost Value = { List Watch };

    ghost view = { λ w. w.rows.items };

    ghost invariant = { λ w. (length w.rows.items ≤ 256) × (256 ≤ vec_capacity w.rows) };
}

// Whether a row has that counter and that GSI.
fn has_row(rows: &[Watch], counter: u16, gsi: u16) -> bool
    ensures { result ≡ has_row rows.now counter gsi }
{
    rows.iter()
        .any(|row| row.counter == counter && row.gsi == gsi)
}

// Takes the row with that counter and GSI out; the others keep their order.
fn take_out(rows: &mut Vec<Watch>, counter: u16, gsi: u16)
    ensures items { rows.new.items ≡ without_row rows.old.items counter gsi }
    ensures fewer { length rows.new.items ≤ length rows.old.items }
    ensures room { vec_capacity rows.new ≡ vec_capacity rows.old }
{
    rows.retain(|row| !(row.counter == counter && row.gsi == gsi));
}

impl Watches {
    /// No watch, with room for 256.
    pub fn power_on(alloc: Global) -> Result<Watches, NoMemory>
        ensures { IfOk result (λ watches. watches ≡ []) }
    {
        match Vec::with_capacity(alloc, ROOM) {
            Ok(rows) => Ok(Watches { rows }),
            Err(_) => Err(NoMemory),
        }
    }

    /// Adds a watch at the end. It is refused with `Exists` where it is there, and then with `Full` where 256 are.
    pub fn watch(&mut self, counter: u16, gsi: u16) -> Result<(), Refusal>
        ensures answer { result ≡ watch_answer self.old counter gsi }
        ensures ok { OnOk result (self.new ≡ with_row self.old counter gsi) }
        ensures err { OnErr result (self.new ≡ self.old) }
    {
        if has_row(self.rows.as_slice(), counter, gsi) {
            return Err(Refusal::Exists);
        }
        if self.rows.len() >= ROOM {
            return Err(Refusal::Full);
        }
        match self.rows.push(Watch { counter, gsi }) {
            Ok(()) => Ok(()),
            Err(_) => unreachable!(),
        }
    }

    /// Takes a watch out. It is refused with `NotThere` where it is not there.
    pub fn unwatch(&mut self, counter: u16, gsi: u16) -> Result<(), Refusal>
        ensures answer { result ≡ unwatch_answer self.old counter gsi }
        ensures ok { OnOk result (self.new ≡ without_row self.old counter gsi) }
        ensures err { OnErr result (self.new ≡ self.old) }
    {
        if !has_row(self.rows.as_slice(), counter, gsi) {
            return Err(Refusal::NotThere);
        }
        take_out(&mut self.rows, counter, gsi);
        Ok(())
    }

    /// Whether some watch is of that GSI.
    pub fn has_watch(&self, gsi: u16) -> bool
        ensures { result ≡ has_watch self.now gsi }
    {
        self.rows.iter().any(|row| row.gsi == gsi)
    }

    /// Whether some watch has that counter.
    pub fn has_counter(&self, counter: u16) -> bool
        ensures { result ≡ has_counter self.now counter }
    {
        self.rows.iter().any(|row| row.counter == counter)
    }

    /// The rows, in order of registration.
    pub fn rows(&self) -> &[Watch]
        ensures { result.now ≡ self.now }
    {
        self.rows.as_slice()
    }

    /// Signals the counter of each watch of that GSI, in order of registration, with its event. The counters are there; an
    /// event that finds no room is left out.
    pub fn on_ack<C: Tally>(&self, gsi: u16, counters: &mut C, events: &mut Events)
        requires each { All (λ counter. counter < length (C.counts counters.old)) (watched self.now gsi) }
        ensures counts { C.counts counters.new ≡ signalled_all (C.counts counters.old) (watched self.now gsi) }
        ensures events { events.new.items ≡ with_told events.old.items (watch_events self.now gsi) }
        ensures all { array_vec_len events.old + length (watched self.now gsi) ≤ 640 → events.new.items ≡ events.old.items
            ++ watch_events self.now gsi }
    {
        signal_rows(self.rows.as_slice(), gsi, counters, events);
    }

    /// Makes the watches equal to the other's.
    pub fn copy_from(&mut self, other: &Watches)
        ensures { self.new ≡ other.now }
    {
        self.rows.clear();
        match self.rows.extend_from_slice(other.rows.as_slice()) {
            Ok(()) => {}
            Err(_) => unreachable!(),
        }
    }
}

// Signals the counter of each row of that GSI, in order, with its event.
fn signal_rows<C: Tally>(rows: &[Watch], gsi: u16, counters: &mut C, events: &mut Events)
    requires each { All (λ counter. counter < length (C.counts counters.old)) (watched rows.now gsi) }
    ensures counts { C.counts counters.new ≡ signalled_all (C.counts counters.old) (watched rows.now gsi) }
    ensures events { events.new.items ≡ with_told events.old.items (watch_events rows.now gsi) }
{
    for row in rows {
        if row.gsi == gsi {
            counters.signal(row.counter);
            tell(Event::Watched(row.counter), events);
        }
    }
}
