//! Running boards, and passes of their processors.
ghost use Rattle.std.specs.Prelude.{◌≡◌, ◌<◌, ◌≤◌, ◌++◌, ◌∷◌, [], All, IfOk, OnOk};
ghost use Rattle.part_board.specs.Seen.{IsDeskOf, IsPassOf};

use board_step::OpenError;
use irq_base::{Caller, Shape};
use part_board::{Desk, LiveBoard, Pass};
use std::alloc::Global;

// So many processors, sixteen counters, and the tick on GSI 0.
fn shape_of(cpus: u16) -> Shape
    ensures cpus { result.cpus ≡ cpus }
{
    Shape {
        cpus,
        counters: 16,
        tick: 0,
        calls: 1 << 40,
        publications: 1 << 20,
    }
}

/// A running board of so many processors, and its desk.
pub fn opened(alloc: Global, cpus: u16) -> Result<(LiveBoard, Desk), OpenError>
    ensures desk { IfOk result (λ made. IsDeskOf made.0 made.1) }
    ensures cpus { IfOk result (λ made. made.0.shape.cpus ≡ cpus) }
{
    LiveBoard::power_on(alloc, &shape_of(cpus))
}

/// The pass of a processor.
pub fn pass_of(
    alloc: Global,
    board: &LiveBoard,
    desk: &mut Desk,
    cpu: u16,
) -> Result<Pass, OpenError>
    requires desk { IsDeskOf board.now desk.old }
    requires cpu { cpu < board.now.shape.cpus }
    ensures desk { IsDeskOf board.now desk.new }
    ensures pass { IfOk result (IsPassOf board.now) }
{
    match desk.pass(alloc, board, Caller::Cpu(cpu)) {
        Ok(pass) => Ok(pass),
        Err(_) => Err(OpenError::NoMemory),
    }
}

// Puts the pass behind the others.
fn push(passes: &mut Vec<Pass>, pass: Pass) -> Result<(), OpenError>
    ensures { OnOk result (passes.new.items ≡ passes.old.items ++ pass ∷ []) }
{
    match passes.push(pass) {
        Ok(()) => Ok(()),
        Err(_) => Err(OpenError::NoMemory),
    }
}

// The pass of a processor, behind others.
fn add_pass(
    alloc: Global,
    board: &LiveBoard,
    desk: &mut Desk,
    passes: &mut Vec<Pass>,
    cpu: u16,
) -> Result<(), OpenError>
    requires desk { IsDeskOf board.now desk.old }
    requires cpu { cpu < board.now.shape.cpus }
    requires passes { All (IsPassOf board.now) passes.old.items }
    ensures desk { IsDeskOf board.now desk.new }
    ensures passes { OnOk result (All (IsPassOf board.now) passes.new.items) }
{
    let pass = pass_of(alloc, board, desk, cpu)?;
    push(passes, pass)?;
    Ok(())
}

/// The passes of the first so many processors.
pub fn passes_of(
    alloc: Global,
    board: &LiveBoard,
    desk: &mut Desk,
    count: u16,
) -> Result<Vec<Pass>, OpenError>
    requires desk { IsDeskOf board.now desk.old }
    requires count { count ≤ board.now.shape.cpus }
    ensures desk { IsDeskOf board.now desk.new }
    ensures passes { IfOk result (λ made. All (IsPassOf board.now) made.items) }
{
    let mut passes = Vec::new(alloc);
    for cpu in 0..count {
        add_pass(alloc, board, desk, &mut passes, cpu)?;
    }
    Ok(passes)
}

/// Makes a running board of 64 processors with so many passes, again and again; how often it was made. The board is dropped before the
/// next is made.
pub fn open_again(alloc: Global, passes: u16, rounds: u32) -> Result<u64, OpenError> {
    let mut made = 0u64;
    for _ in 0..rounds {
        let (board, mut desk) = opened(alloc, 64)?;
        let _passes = passes_of(alloc, &board, &mut desk, passes.min(64))?;
        made = made.wrapping_add(1);
    }
    Ok(made)
}
