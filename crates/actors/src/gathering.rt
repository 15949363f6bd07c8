//! What actors leave is gathered.
ghost use Rattle.std.specs.Prelude.{◌≡◌, length, IfOk, OnOk};
ghost use Rattle.actors.specs.Results.{first_of, IsGathered};
ghost use Rattle.actors.specs.Kept.{placed_in};
ghost use Rattle.actors.specs.Runs.{AreOrdered};
ghost use Rattle.actors.specs.Turns.{entries_in};

use crate::kept::Placed;
use crate::playing::Played;
use irq_base::{History, NoMemory, Spent};
use std::alloc::Global;

/// The entries and the faces of actors, one actor after another, and the limit of the first that one stopped.
#[derive(Drop)]
pub struct Results<F> {
    pub placed: Vec<Placed>,
    pub faces: Vec<F>,
    pub spent: Option<Spent>,
}

// The first of the two that is there.
fn first_of(first: Option<Spent>, next: Option<Spent>) -> Option<Spent>
    ensures { result ≡ first_of first next }
{
    match first {
        None => next,
        Some(spent) => Some(spent),
    }
}

/// What the actors leave, one after another. Where an entry was lost, memory ran out.
pub fn gathered<F: Drop>(alloc: Global, played: Vec<Played<F>>) -> Result<Results<F>, NoMemory>
    ensures { IfOk result (IsGathered played.items) }
{
    let mut placed = Vec::new(alloc);
    let mut faces = Vec::new(alloc);
    let mut spent = None;
    let mut rest = played.into_iter();
    while let Some(one) = rest.next() {
        let Played {
            face,
            mut kept,
            spent: stop,
        } = one;
        if kept.lost {
            return Err(NoMemory);
        }
        let Ok(()) = placed.append(&mut kept.entries) else {
            return Err(NoMemory);
        };
        let Ok(()) = faces.push(face) else {
            return Err(NoMemory);
        };
        spent = first_of(spent, stop);
    }
    Ok(Results {
        placed,
        faces,
        spent,
    })
}

/// Puts the entries in the order of their places; those at one place keep the order that they had.
pub fn order(alloc: Global, placed: &mut [Placed]) -> Result<(), NoMemory>
    ensures ordered { OnOk result (AreOrdered (placed_in placed.old) (placed_in placed.new)) }
    ensures many { length placed.new ≡ length placed.old }
{
    match placed.sort_by_key(alloc, |p| p.at) {
        Ok(()) => Ok(()),
        Err(_) => Err(NoMemory),
    }
}

/// The entries without their places.
pub fn history_of(alloc: Global, placed: Vec<Placed>) -> Result<History, NoMemory>
    ensures { IfOk result (λ history. history ≡ entries_in (placed_in placed.items)) }
{
    let mut history = History::empty(alloc);
    let mut rest = placed.into_iter();
    while let Some(one) = rest.next() {
        let Placed { entry, .. } = one;
        history.push(entry)?;
    }
    Ok(history)
}
