//! The rows of irqfds and their index.
ghost use Rattle.std.specs.Prelude.{◌≡◌, [], ◌<◌, ◌≤◌, length, get_or, filter, not, None, IfOk, IsSome, vec_capacity};
ghost use Rattle.irqfd_set.specs.Rows.{of_trigger, is_named, named_row, with_row, without_row, has_resampler};

use irq_base::NoMemory;
use std::alloc::Global;
use std::marker::Model;

/// How many triggers there can be, and so how many rows.
const TRIGGERS: usize = 256;

/// An irqfd: a signal of the trigger injects on the GSI, and the resample counter, where there is one, is signalled when
/// the GSI is acknowledged.
#[derive(Clone, Copy, Debug, PartialEq, Eq)]
pub struct Irqfd {
    pub trigger: u16,
    pub gsi: u16,
    pub resample: Option<u16>,
}

/// Irqfds, at most one for each of 256 triggers.
#[derive(Drop)]
pub struct Irqfds {
    rows: Vec<Irqfd>,
    // The row of each trigger.
    by_trigger: Vec<Option<Irqfd>>,
}

impl Model for Irqfds {
    ghost use Rattle.std.specs.Prelude.{List, ◌≤◌, vec_capacity};
    ghost use Rattle.irqfd_set.specs.declared.irqfds.Irqfd.{Irqfd};
    ghost use Rattle.irqfd_set.specs.Index.{IsIndexed};

    ghost Value = { List Irqfd };

    ghost view = { λ r. r.rows.items };

    ghost invariant = { λ r. IsIndexed r.rows.items r.by_trigger.items × (256 ≤ vec_capacity r.rows) };
}

// The row at the place of a trigger.
fn row_at(by_trigger: &[Option<Irqfd>], trigger: u16) -> Option<Irqfd>
    ensures value { result ≡ get_or by_trigger.now trigger None }
    ensures within { IsSome result → trigger < length by_trigger.now }
{
    if (trigger as usize) < by_trigger.len() {
        by_trigger[trigger as usize]
    } else {
        None
    }
}

// Takes the row with that trigger and GSI out; the others keep their order.
fn take_out(rows: &mut Vec<Irqfd>, trigger: u16, gsi: u16)
    ensures items { rows.new.items ≡ without_row rows.old.items trigger gsi }
    ensures room { vec_capacity rows.new ≡ vec_capacity rows.old }
{
    rows.retain(|row| !(row.trigger == trigger && row.gsi == gsi));
}

// Makes the rows equal to those, for which there is room.
fn copy_rows(rows: &mut Vec<Irqfd>, from: &[Irqfd])
    requires { length from.now ≤ vec_capacity rows.old }
    ensures items { rows.new.items ≡ from.now }
    ensures room { vec_capacity rows.old ≤ vec_capacity rows.new }
{
    rows.clear();
    match rows.extend_from_slice(from) {
        Ok(()) => {}
        Err(_) => unreachable!(),
    }
}

impl Irqfds {
    /// No irqfd, with room for 256.
    pub fn power_on(alloc: Global) -> Result<Irqfds, NoMemory>
        ensures { IfOk result (λ irqfds. irqfds ≡ []) }
    {
        let Ok(rows) = Vec::with_capacity(alloc, TRIGGERS) else {
            return Err(NoMemory);
        };
        match vec![in alloc; None; TRIGGERS] {
            Ok(by_trigger) => Ok(Irqfds { rows, by_trigger }),
            Err(_) => Err(NoMemory),
        }
    }

    /// Adds an irqfd at the end. The trigger is below 256 and no other row's.
    pub fn assign(&mut self, trigger: u16, gsi: u16, resample: Option<u16>)
        requires range { trigger < 256 }
        requires free { of_trigger self.old trigger ≡ None }
        ensures { self.new ≡ with_row self.old trigger gsi resample }
    {
        let row = Irqfd {
            trigger,
            gsi,
            resample,
        };
        match self.rows.push(row) {
            Ok(()) => self.by_trigger[trigger as usize] = Some(row),
            Err(_) => unreachable!(),
        }
    }

    /// Takes out the irqfd with that trigger and GSI, and answers it; none where there is none.
    pub fn deassign(&mut self, trigger: u16, gsi: u16) -> Option<Irqfd>
        ensures value { result ≡ named_row self.old trigger gsi }
        ensures after { self.new ≡ without_row self.old trigger gsi }
    {
        let row = row_at(self.by_trigger.as_slice(), trigger)?;
        if row.gsi != gsi {
            return None;
        }
        take_out(&mut self.rows, trigger, gsi);
        self.by_trigger[trigger as usize] = None;
        Some(row)
    }

    /// The irqfd with that trigger, found in one step.
    pub fn of_trigger(&self, trigger: u16) -> Option<Irqfd>
        ensures { result ≡ of_trigger self.now trigger }
    {
        row_at(self.by_trigger.as_slice(), trigger)
    }

    /// Whether an irqfd of that GSI has a resample counter.
    pub fn has_resampler(&self, gsi: u16) -> bool
        ensures { result ≡ has_resampler self.now gsi }
    {
        self.rows
            .iter()
            .any(|row| row.gsi == gsi && row.resample.is_some())
    }

    /// The rows, in order of registration.
    pub fn rows(&self) -> &[Irqfd]
        ensures { result.now ≡ self.now }
    {
        self.rows.as_slice()
    }

    /// Makes the irqfds equal to the other's.
    pub fn copy_from(&mut self, other: &Irqfds)
        ensures { self.new ≡ other.now }
    {
        copy_rows(&mut self.rows, other.rows.as_slice());
        self.by_trigger
            .as_mut_slice()
            .copy_from_slice(other.by_trigger.as_slice());
    }
}
