//! Actors that are to run.
ghost use Rattle.std.specs.Prelude.{◌≡◌, IfOk};
ghost use Rattle.actors.specs.Seats.{seats_from};

use irq_base::NoMemory;
use std::alloc::Global;

/// An actor that is to run: its number in the script, and its face.
#[derive(Drop)]
pub struct Seat<F> {
    pub actor: usize,
    pub face: F,
}

/// The actors of these faces, which are numbered in their order.
pub fn seated<F: Drop>(alloc: Global, faces: Vec<F>) -> Result<Vec<Seat<F>>, NoMemory>
    ensures { IfOk result (λ seats. seats.items ≡ seats_from 0 faces.items) }
{
    let mut seats = Vec::new(alloc);
    let mut rest = faces.into_iter();
    while let Some(face) = rest.next() {
        let actor = seats.len();
        if seats.push(Seat { actor, face }).is_err() {
            return Err(NoMemory);
        }
    }
    Ok(seats)
}
