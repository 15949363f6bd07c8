//! A script run on a running board.
ghost use Rattle.std.specs.Prelude.{◌≡◌, All, IfOk, false};
ghost use Rattle.irq_base.specs.declared.call.Caller.{Caller as AnyCaller};
ghost use Rattle.script_text.specs.Fitting.{IsScript};
ghost use Rattle.part_board.specs.Seen.{IsDeskOf, has_made};
ghost use Rattle.live_runs.specs.Made.{AreOfActors, HasLearnt, HasMadeJust, seen_by_first};
ghost use Rattle.live_runs.specs.Running.{IsRun};

use crate::facing::ran;
use crate::making::passes_of;
use crate::telling::all_told;
use actors::RunStop;
use board_laws::legal_histories_keep_the_laws;
use io_edge::Gate;
use irq_base::{History, NoMemory, Spent};
use part_board::{Desk, LiveBoard, Pass};
use script_text::Script;
use std::alloc::Global;
use std::sync::Wait;
use std::thread::Threads;

/// What a run on a running board leaves: its history, the limit that stopped the first actor that was stopped, if one was, and the
/// passes in the order of the actors.
#[derive(Drop)]
pub struct RunOut {
    pub history: History,
    pub spent: Option<Spent>,
    pub passes: Vec<Pass>,
}

// Makes the passes, lets the actors run by them, and lets the passes learn of each other.
fn run_by<R: Threads + Wait + Sync, G: Gate>(
    rt: &R,
    alloc: Global,
    board: &LiveBoard,
    desk: &mut Desk,
    script: &Script,
    gate: &G,
) -> Result<RunOut, NoMemory>
    requires script { IsScript script.now }
    requires shape { board.now.shape ≡ script.now.shape }
    requires desk { IsDeskOf board.now desk.old }
    requires none { (c : AnyCaller) → has_made desk.old c ≡ false }
    ensures desk { IsDeskOf board.now desk.new }
    ensures run { IfOk result (λ out. IsRun script.now out.history out.spent) }
    ensures seen { IfOk result (λ out. out.history ≡ seen_by_first out.passes.items) }
    ensures passes { IfOk result (λ out. AreOfActors board.now script.now out.passes.items) }
    ensures learnt { IfOk result (λ out. All (HasLearnt out.history) out.passes.items) }
    ensures made { IfOk result (λ out. HasMadeJust desk.new out.passes.items) }
{
    legal_histories_keep_the_laws();
    let passes = passes_of(alloc, board, desk, script)?;
    let RunOut {
        history,
        spent,
        passes,
    } = ran(rt, alloc, board, passes, script, gate)?;
    let passes = all_told(alloc, board, desk, passes)?;
    Ok(RunOut {
        history,
        spent,
        passes,
    })
}

/// Runs each actor of a script on a thread of its own, each by a pass of its own that the desk makes, until it has asked all its calls
/// or a limit of the board barred one. The board has the script's shape, and the desk is its own and has made no pass. The gate is told
/// before each call of an actor, and once more after its last was answered.
///
/// The history has each call that was answered once, and is what the first pass has seen on that board. It is legal, it fits the script
/// with `spent` as its ending, and it keeps all laws. There is a pass for each actor, in their order, each of which has seen the whole
/// history, and the desk has made no other. After want of memory the passes are gone, and the board can no longer be closed. That it
/// returns is not promised.
pub fn run_on<R: Threads + Wait + Sync, G: Gate>(
    rt: &R,
    alloc: Global,
    board: &LiveBoard,
    desk: &mut Desk,
    script: &Script,
    gate: &G,
) -> Result<RunOut, RunStop>
    requires script { IsScript script.now }
    requires shape { board.now.shape ≡ script.now.shape }
    requires desk { IsDeskOf board.now desk.old }
    requires none { (c : AnyCaller) → has_made desk.old c ≡ false }
    ensures desk { IsDeskOf board.now desk.new }
    ensures run { IfOk result (λ out. IsRun script.now out.history out.spent) }
    ensures seen { IfOk result (λ out. out.history ≡ seen_by_first out.passes.items) }
    ensures passes { IfOk result (λ out. AreOfActors board.now script.now out.passes.items) }
    ensures learnt { IfOk result (λ out. All (HasLearnt out.history) out.passes.items) }
    ensures made { IfOk result (λ out. HasMadeJust desk.new out.passes.items) }
{
    match run_by(rt, alloc, board, desk, script, gate) {
        Ok(out) => Ok(out),
        Err(NoMemory) => Err(RunStop::NoMemory),
    }
}
