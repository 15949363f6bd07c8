//! A script while it is read.
ghost use Rattle.std.specs.Prelude.{◌≡◌, ℕ, ◌+◌, ◌<◌, ◌^◌, ◌∷◌, ◌++◌, [], length, map, drop, slice_get, All, if◌then◌else◌, Some, OnOk, IfSome, MatchOption};
ghost use Rattle.script_text.specs.Asks.{tasks_of};
ghost use Rattle.script_text.specs.Words.{is_empty};
ghost use Rattle.script_text.specs.Index.{IsCounted, seat_of, places_in, with_place};
ghost use Rattle.script_text.specs.Draft.{script_in, IsIndexedDraft, added};
ghost use Rattle.script_text.specs.Scripts.{blank_script};

use crate::task::{ActorLine, Task};
use irq_base::{Caller, Items, NoMemory, Shape};
use std::alloc::Global;

/// The lines of a script in the order of the file, its actors in the order of their first lines, and for each seat the places
/// of its lines.
#[derive(Drop)]
pub struct Draft {
    pub shape: Shape,
    pub lines: Vec<ActorLine>,
    pub actors: Vec<Caller>,
    pub seats: Vec<Items<usize>>,
}

// The seat of a caller.
pub fn seat_of(caller: Caller) -> usize
    ensures { result ≡ seat_of caller }
{
    match caller {
        Caller::Device(d) => 2 * d as usize,
        Caller::Cpu(n) => 2 * n as usize + 1,
    }
}

// The script of which nothing is read.
pub fn blank(alloc: Global) -> Draft
    ensures script { script_in result ≡ blank_script }
    ensures index { IsIndexedDraft result }
{
    Draft {
        shape: Shape {
            cpus: 1,
            counters: 16,
            tick: 0,
            calls: 1_000_000,
            publications: 1_048_576,
        },
        lines: Vec::new(alloc),
        actors: Vec::new(alloc),
        seats: Vec::new(alloc),
    }
}

// Makes empty seats up to this one.
fn make_seats(alloc: Global, seats: &mut Vec<Items<usize>>, seat: usize) -> Result<(), NoMemory>
    ensures there { OnOk result (seat < length seats.new.items) }
    ensures same { (n : ℕ) → places_in seats.new.items n ≡ places_in seats.old.items n }
{
    'seats: while seats.len() <= seat {
        if seats.push(Items::empty(alloc)).is_err() {
            return Err(NoMemory);
        }
    }
    Ok(())
}

// Puts a place behind those of a seat.
fn note(
    alloc: Global,
    seats: &mut Vec<Items<usize>>,
    seat: usize,
    place: usize,
) -> Result<(), NoMemory>
    ensures { OnOk result ((n : ℕ) → places_in seats.new.items n ≡ with_place seat place n (places_in seats.old.items n)) }
{
    make_seats(alloc, seats, seat)?;
    seats[seat].push(place)
}

// Whether a seat has no place.
fn is_free(seats: &[Items<usize>], seat: usize) -> bool
    ensures { result ≡ is_empty (places_in seats.now seat) }
{
    match seats.get(seat) {
        Some(places) => places.len() == 0,
        None => true,
    }
}

// Puts an actor behind the others where it is new.
fn enlist(actors: &mut Vec<Caller>, is_new: bool, caller: Caller) -> Result<(), NoMemory>
    ensures { OnOk result (actors.new.items ≡ (if is_new then actors.old.items ++ caller ∷ [] else actors.old.items)) }
{
    if is_new {
        match actors.push(caller) {
            Ok(()) => Ok(()),
            Err(_) => Err(NoMemory),
        }
    } else {
        Ok(())
    }
}

// The k-th place of a seat.
fn place_in(seats: &[Items<usize>], seat: usize, k: usize) -> Option<usize>
    ensures value { result ≡ slice_get (places_in seats.now seat) k }
    ensures below { IfSome result (λ _. k + 1 < 2 ^ 64) }
{
    match seats.get(seat) {
        Some(places) => {
            if k < places.len() {
                Some(*places.at(k))
            } else {
                None
            }
        }
        None => None,
    }
}

// What the line at a place asks.
fn task_in(lines: &[ActorLine], place: usize) -> &Task
    requires { place < length lines.now }
    ensures at { slice_get (map (λ line. line.task) lines.now) place ≡ Some result.now }
    ensures counted { All (λ line. IsCounted line.task) lines.now → IsCounted result.now }
{
    &lines[place].task
}

// Puts a line behind the others.
fn append(lines: &mut Vec<ActorLine>, line: ActorLine) -> Result<(), NoMemory>
    ensures { OnOk result (lines.new.items ≡ lines.old.items ++ line ∷ []) }
{
    match lines.push(line) {
        Ok(()) => Ok(()),
        Err(_) => Err(NoMemory),
    }
}

impl Draft {
    // Puts a line behind the others. Without memory the draft is of no use any more.
    pub fn push(&mut self, alloc: Global, line: ActorLine) -> Result<(), NoMemory>
        ensures script { OnOk result (script_in self.new ≡ added (script_in self.old) line) }
        ensures index { OnOk result (IsCounted line.task → IsIndexedDraft self.old → IsIndexedDraft self.new) }
    {
        let caller = line.caller;
        let seat = seat_of(caller);
        let place = self.lines.as_slice().len();
        let is_new = is_free(self.seats.as_slice(), seat);
        if let Err(fault) = enlist(&mut self.actors, is_new, caller) {
            return Err(fault);
        }
        if let Err(fault) = note(alloc, &mut self.seats, seat, place) {
            return Err(fault);
        }
        append(&mut self.lines, line)
    }

    // What the k-th line of a caller asks, from 0.
    pub fn task(&self, caller: Caller, k: usize) -> Option<&Task>
        requires { IsIndexedDraft self.now }
        ensures at { let tasks = tasks_of caller self.now.lines.items in
            MatchOption result (drop k tasks ≡ []) (λ t. drop k tasks ≡ t.now ∷ drop (k + 1) tasks) }
        ensures counted { IfSome result (λ t. IsCounted t.now) }
        ensures below { IfSome result (λ _. k + 1 < 2 ^ 64) }
    {
        match place_in(self.seats.as_slice(), seat_of(caller), k) {
            None => None,
            Some(place) => Some(task_in(self.lines.as_slice(), place)),
        }
    }
}
