//! The rows of ioeventfds and their index.
ghost use Rattle.std.specs.Prelude.{◌≡◌, [], ◌<◌, ◌≤◌, ◌++◌, ◌∷◌, length, find, IfOk, OnOk, OnErr, All, vec_capacity};
ghost use Rattle.std.specs.List.{list_any, AllWithin};
ghost use Rattle.std.specs.List.Sorted.{IsNonDecreasingBy};
ghost use Rattle.ioevent_set.specs.Rows.{is_same, do_collide, does_fit, counter_of, without_row, attach_answer, detach_answer, rung_by, AtMostOneFits};
ghost use Rattle.ioevent_set.specs.Index.{address_of};

use crate::row::IoRow;
use irq_base::{NoMemory, Refusal, Space};
use std::alloc::Global;
use std::marker::Model;

/// How many rows there can be.
const ROOM: usize = 256;

/// Up to 256 ioeventfds, of which no write fits two.
#[derive(Drop)]
pub struct IoEvents {
    rows: Vec<IoRow>,
    // The same rows in order of their addresses.
    by_address: Vec<IoRow>,
}

impl Model for IoEvents {
    ghost use Rattle.std.specs.Prelude.{List, ◌≤◌, vec_capacity};
    ghost use Rattle.ioevent_set.specs.declared.row.IoRow.{IoRow};
    ghost use Rattle.ioevent_set.specs.Index.{IsIndexed};

    ghost Value = { List IoRow };

    ghost view = { λ e. e.rows.items };

    ghost invariant = { λ e. IsIndexed e.rows.items e.by_address.items × (256 ≤ vec_capacity e.rows) × (256 ≤ vec_capacity e.by_address) };
}

// The place of the first row at that address or a greater one.
fn place_of(rows: &[IoRow], address: u64) -> usize
    requires { IsNonDecreasingBy address_of rows.now }
    ensures within { result ≤ length rows.now }
    ensures before { AllWithin (λ row. address_of row < address) rows.now 0 result }
    ensures from { AllWithin (λ row. address ≤ address_of row) rows.now result (length rows.now) }
{
    rows.partition_point(|row| row.address < address)
}

// The place of the first row at a greater address.
fn place_after(rows: &[IoRow], address: u64) -> usize
    requires { IsNonDecreasingBy address_of rows.now }
    ensures within { result ≤ length rows.now }
    ensures before { AllWithin (λ row. address_of row ≤ address) rows.now 0 result }
    ensures from { AllWithin (λ row. address < address_of row) rows.now result (length rows.now) }
{
    rows.partition_point(|row| row.address <= address)
}

// The counter of the first row that the write fits; the rows are in order of addresses, none of them below the write's.
fn first_fit(rows: &[IoRow], space: Space, address: u64, len: u8, value: u64) -> Option<u16>
    requires ordered { IsNonDecreasingBy address_of rows.now }
    requires from { All (λ row. address ≤ address_of row) rows.now }
    ensures { result ≡ counter_of (find (does_fit space address len value) rows.now) }
{
    for row in rows {
        if row.address != address {
            return None;
        }
        if row.fits(space, address, len, value) {
            return Some(row.counter);
        }
    }
    None
}

// Whether the row collides with one of these.
fn collides(rows: &[IoRow], row: &IoRow) -> bool
    ensures { result ≡ list_any (λ other. do_collide other row.now) rows.now }
{
    rows.iter().any(|other| other.collides(row))
}

// Whether the row is one of these.
fn has_row(rows: &[IoRow], row: &IoRow) -> bool
    ensures { result ≡ list_any (is_same row.now) rows.now }
{
    rows.iter().any(|other| row.is_same(other))
}

// Takes the row out; the others keep their order.
fn take_out(rows: &mut Vec<IoRow>, row: &IoRow)
    ensures items { rows.new.items ≡ without_row rows.old.items row.now }
    ensures room { vec_capacity rows.new ≡ vec_capacity rows.old }
{
    rows.retain(|other| !row.is_same(other));
}

// Makes the rows equal to those, for which there is room.
fn copy_rows(rows: &mut Vec<IoRow>, from: &[IoRow])
    requires { length from.now ≤ vec_capacity rows.old }
    ensures items { rows.new.items ≡ from.now }
    ensures room { vec_capacity rows.old ≤ vec_capacity rows.new }
{
    rows.clear();
    match rows.extend_from_slice(from) {
        Ok(()) => {}
        Err(_) => unreachable!(),
    }
}

impl IoEvents {
    /// No ioeventfd, with room for 256.
    pub fn power_on(alloc: Global) -> Result<IoEvents, NoMemory>
        ensures { IfOk result (λ events. events ≡ []) }
    {
        let Ok(rows) = Vec::with_capacity(alloc, ROOM) else {
            return Err(NoMemory);
        };
        match Vec::with_capacity(alloc, ROOM) {
            Ok(by_address) => Ok(IoEvents { rows, by_address }),
            Err(_) => Err(NoMemory),
        }
    }

    /// Adds a row at the end. It is refused with `Exists` where it collides with one, and then with `Full` where 256 are
    /// there.
    pub fn attach(&mut self, row: IoRow) -> Result<(), Refusal>
        ensures answer { result ≡ attach_answer self.old row }
        ensures ok { OnOk result (self.new ≡ self.old ++ row ∷ []) }
        ensures err { OnErr result (self.new ≡ self.old) }
    {
        if collides(self.rows.as_slice(), &row) {
            return Err(Refusal::Exists);
        }
        if self.rows.len() >= ROOM {
            return Err(Refusal::Full);
        }
        let place = place_after(self.by_address.as_slice(), row.address);
        match self.by_address.insert(place, row) {
            Ok(()) => {}
            Err(_) => unreachable!(),
        }
        match self.rows.push(row) {
            Ok(()) => Ok(()),
            Err(_) => unreachable!(),
        }
    }

    /// Takes a row out. It is refused with `NotThere` where it is not there.
    pub fn detach(&mut self, row: &IoRow) -> Result<(), Refusal>
        ensures answer { result ≡ detach_answer self.old row.now }
        ensures ok { OnOk result (self.new ≡ without_row self.old row.now) }
        ensures err { OnErr result (self.new ≡ self.old) }
    {
        if !has_row(self.rows.as_slice(), row) {
            return Err(Refusal::NotThere);
        }
        take_out(&mut self.rows, row);
        take_out(&mut self.by_address, row);
        Ok(())
    }

    /// The counter of the one row that a write fits, if there is one.
    pub fn find(&self, space: Space, address: u64, len: u8, value: u64) -> Option<u16>
        ensures value { result ≡ rung_by self.now space address len value }
        ensures one { AtMostOneFits self.now space address len value }
    {
        let place = place_of(self.by_address.as_slice(), address);
        let (_, rest) = self.by_address.as_slice().split_at(place);
        first_fit(rest, space, address, len, value)
    }

    /// Makes the rows equal to the other's.
    pub fn copy_from(&mut self, other: &IoEvents)
        ensures { self.new ≡ other.now }
    {
        copy_rows(&mut self.rows, other.rows.as_slice());
        copy_rows(&mut self.by_address, other.by_address.as_slice());
    }
}
