// Running boards with passes, and their closing.
ghost use Rattle.std.specs.Prelude.{◌≡◌, ◌≤◌, ◌++◌, ◌∷◌, [], All, IfOk, OnOk, true};
ghost use Rattle.irq_base.specs.Callers.{is_there};
ghost use Rattle.part_board.specs.Seen.{IsDeskOf, IsPassOf};

use irq_base::{Caller, NoMemory, Shape};
use part_board::{Desk, LiveBoard, Pass};
use std::alloc::Global;

/// A shape of so many processors, with room for many calls and publications.
pub(crate) fn shape_of(cpus: u16) -> Shape
    ensures cpus { result.cpus ≡ cpus }
{
    Shape {
        cpus,
        counters: 4,
        tick: 0,
        calls: 100_000,
        publications: 2_000,
    }
}

/// A running board of so many processors with its desk.
pub(crate) fn opened(alloc: Global, cpus: u16) -> Result<(LiveBoard, Desk), NoMemory>
    ensures desk { IfOk result (λ made. IsDeskOf made.0 made.1) }
    ensures cpus { IfOk result (λ made. made.0.shape.cpus ≡ cpus) }
{
    match LiveBoard::power_on(alloc, &shape_of(cpus)) {
        Ok(made) => Ok(made),
        Err(_) => Err(NoMemory),
    }
}

/// The pass of a caller.
pub(crate) fn pass_of(
    alloc: Global,
    board: &LiveBoard,
    desk: &mut Desk,
    caller: Caller,
) -> Result<Pass, NoMemory>
    requires desk { IsDeskOf board.now desk.old }
    requires there { is_there caller board.now.shape ≡ true }
    ensures desk { IsDeskOf board.now desk.new }
    ensures pass { IfOk result (IsPassOf board.now) }
{
    match desk.pass(alloc, board, caller) {
        Ok(pass) => Ok(pass),
        Err(_) => Err(NoMemory),
    }
}

/// Puts the pass behind the others.
pub(crate) fn push(passes: &mut Vec<Pass>, pass: Pass) -> Result<(), NoMemory>
    ensures { OnOk result (passes.new.items ≡ passes.old.items ++ pass ∷ []) }
{
    match passes.push(pass) {
        Ok(()) => Ok(()),
        Err(_) => Err(NoMemory),
    }
}

// The pass of a caller, behind others.
fn add_pass(
    alloc: Global,
    board: &LiveBoard,
    desk: &mut Desk,
    passes: &mut Vec<Pass>,
    caller: Caller,
) -> Result<(), NoMemory>
    requires desk { IsDeskOf board.now desk.old }
    requires there { is_there caller board.now.shape ≡ true }
    requires passes { All (IsPassOf board.now) passes.old.items }
    ensures desk { IsDeskOf board.now desk.new }
    ensures passes { OnOk result (All (IsPassOf board.now) passes.new.items) }
{
    let pass = pass_of(alloc, board, desk, caller)?;
    push(passes, pass)?;
    Ok(())
}

/// The passes of the first so many processors.
pub(crate) fn passes_of(
    alloc: Global,
    board: &LiveBoard,
    desk: &mut Desk,
    cpus: u16,
) -> Result<Vec<Pass>, NoMemory>
    requires desk { IsDeskOf board.now desk.old }
    requires cpus { cpus ≤ board.now.shape.cpus }
    ensures desk { IsDeskOf board.now desk.new }
    ensures passes { IfOk result (λ made. All (IsPassOf board.now) made.items) }
{
    let mut passes = Vec::new(alloc);
    for cpu in 0..cpus {
        add_pass(alloc, board, desk, &mut passes, Caller::Cpu(cpu))?;
    }
    Ok(passes)
}

/// How many entries there are when the board is closed with these passes; none where a pass is missing.
pub(crate) fn length_of(board: LiveBoard, desk: Desk, passes: Vec<Pass>) -> Option<u64>
    requires desk { IsDeskOf board desk }
    requires passes { All (IsPassOf board) passes.items }
{
    match board.close(desk, passes) {
        Err(_) => None,
        Ok(closed) => Some(closed.length),
    }
}
