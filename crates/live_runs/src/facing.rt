//! The actors run, each by its pass.
ghost use Rattle.std.specs.Prelude.{◌≡◌, All, map, IfOk, None};
ghost use Rattle.script_text.specs.Asks.{actors_of};
ghost use Rattle.script_text.specs.Fitting.{IsScript};
ghost use Rattle.part_board.specs.Seen.{IsPassOf};
ghost use Rattle.live_runs.specs.Made.{IsFresh, callers_of};
ghost use Rattle.live_runs.specs.Ran.{HaveRunBy};

use crate::running::RunOut;
use actors::{RunLog, RunStop, run_faces};
use io_edge::Gate;
use irq_base::NoMemory;
use part_board::{LiveBoard, OnLive, Pass};
use script_text::Script;
use std::alloc::Global;
use std::sync::Wait;
use std::thread::Threads;

// A face for each pass, in their order.
fn faces_of<'a, R: Wait>(
    rt: &'a R,
    alloc: Global,
    board: &'a LiveBoard,
    passes: Vec<Pass>,
) -> Result<Vec<OnLive<'a, R>>, NoMemory>
    requires passes { All (IsFresh board.now) passes.items }
    ensures passes { IfOk result (λ faces. map (λ f. f.pass) faces.items ≡ passes.items) }
    ensures stops { IfOk result (λ faces. All (λ f. f.stops.count ≡ 0) faces.items) }
{
    let mut faces = Vec::new(alloc);
    let mut rest = passes.into_iter();
    while let Some(pass) = rest.next() {
        let Ok(()) = faces.push(OnLive::of(board, rt, pass)) else {
            return Err(NoMemory);
        };
    }
    Ok(faces)
}

// The passes of the faces, in their order.
fn passes_again<R: Wait>(alloc: Global, faces: Vec<OnLive<'_, R>>) -> Result<Vec<Pass>, NoMemory>
    ensures { IfOk result (λ passes. passes.items ≡ map (λ f. f.pass) faces.entry.items) }
{
    let mut passes = Vec::new(alloc);
    let mut rest = faces.into_iter();
    while let Some(face) = rest.next() {
        let Ok(()) = passes.push(face.into_pass()) else {
            return Err(NoMemory);
        };
    }
    Ok(passes)
}

/// Runs the actors of a script at the same time, each by its pass, and gives the passes back. The passes have asked nothing before.
pub fn ran<R: Threads + Wait + Sync, G: Gate>(
    rt: &R,
    alloc: Global,
    board: &LiveBoard,
    passes: Vec<Pass>,
    script: &Script,
    gate: &G,
) -> Result<RunOut, NoMemory>
    requires script { IsScript script.now }
    requires callers { callers_of passes.items ≡ actors_of script.now.lines }
    requires passes { All (IsFresh board.now) passes.items }
    ensures passes { IfOk result (λ out. All (IsPassOf board.now) out.passes.items) }
    ensures callers { IfOk result (λ out. callers_of out.passes.items ≡ actors_of script.now.lines) }
    ensures ran { IfOk result (λ out. HaveRunBy script.now out.history out.spent out.passes.items) }
{
    let faces = faces_of(rt, alloc, board, passes)?;
    let RunLog {
        history,
        spent,
        faces,
    } = match run_faces(rt, alloc, faces, script, gate) {
        Ok(log) => log,
        Err(RunStop::NoMemory) => return Err(NoMemory),
    };
    let passes = passes_again(alloc, faces)?;
    Ok(RunOut {
        history,
        spent,
        passes,
    })
}
