//! Passes learn of each other.
ghost use Rattle.std.specs.Prelude.{◌≡◌, All, IfOk, IfSome};
ghost use Rattle.turn_book.specs.Histories.{IsPrefix};
ghost use Rattle.part_board.specs.Seen.{pass_seen, note_seen, desk_view, IsPassOf, IsNoteOf, IsDeskOf, Learnt};
ghost use Rattle.live_runs.specs.Telling.{told_by, GoesAlong, AllKnow};

use irq_base::NoMemory;
use part_board::{Desk, LiveBoard, Note, Pass};
use std::alloc::Global;

/// A note that is on its way, and the passes that have learnt it.
#[derive(Drop)]
struct Told {
    passes: Vec<Pass>,
    note: Option<Note>,
}

// The pass learns a note, if there is one, and gives a note of its own.
fn next_note(board: &LiveBoard, note: Option<Note>, pass: &mut Pass) -> Note
    requires note { IfSome note (IsNoteOf board.now) }
    requires pass { IsPassOf board.now pass.old }
    ensures note { IsNoteOf board.now result }
    ensures pass { IsPassOf board.now pass.new }
    ensures caller { pass.new.caller ≡ pass.old.caller }
    ensures learnt { Learnt board.now.shape pass.old.caller (pass_seen pass.old) (pass_seen pass.new) }
    ensures told { IsPrefix (told_by note) (pass_seen pass.new) }
    ensures copy { note_seen result ≡ pass_seen pass.new }
{
    match note {
        None => board.note(pass),
        Some(note) => {
            board.learn(pass, note);
            board.note(pass)
        }
    }
}

// A note goes from pass to pass: each learns it, and gives a note of its own to the next. There may be none at first.
fn tell(
    alloc: Global,
    board: &LiveBoard,
    note: Option<Note>,
    passes: Vec<Pass>,
) -> Result<Told, NoMemory>
    requires note { IfSome note (IsNoteOf board.now) }
    requires passes { All (IsPassOf board.now) passes.items }
    ensures note { IfOk result (λ told. IfSome told.note (IsNoteOf board.now)) }
    ensures passes { IfOk result (λ told. All (IsPassOf board.now) told.passes.items) }
    ensures along { IfOk result (λ told.
        GoesAlong board.now.shape (told_by note) passes.items told.passes.items (told_by told.note)) }
{
    let mut told = Vec::new(alloc);
    let mut note = note;
    let mut rest = passes.into_iter();
    while let Some(mut pass) = rest.next() {
        note = Some(next_note(board, note, &mut pass));
        let Ok(()) = told.push(pass) else {
            return Err(NoMemory);
        };
    }
    Ok(Told { passes: told, note })
}

/// The passes learn of each other. A note goes from the first to the last, so that the last has seen all that any has seen; and goes
/// round once more, from the first pass on, to the desk.
pub fn all_told(
    alloc: Global,
    board: &LiveBoard,
    desk: &mut Desk,
    passes: Vec<Pass>,
) -> Result<Vec<Pass>, NoMemory>
    requires desk { IsDeskOf board.now desk.old }
    requires passes { All (IsPassOf board.now) passes.items }
    ensures desk { IsDeskOf board.now desk.new }
    ensures made { (desk_view desk.new).made ≡ (desk_view desk.old).made }
    ensures passes { IfOk result (λ now. All (IsPassOf board.now) now.items) }
    ensures know { IfOk result (λ now. AllKnow board.now.shape desk.new passes.items now.items) }
{
    let Told { passes, note } = tell(alloc, board, None, passes)?;
    let Told { passes, note } = tell(alloc, board, note, passes)?;
    if let Some(note) = note {
        desk.learn(board, note);
    }
    Ok(passes)
}
