//! A pass for each actor.
ghost use Rattle.std.specs.Prelude.{◌≡◌, [], All, IfOk, false};
ghost use Rattle.irq_base.specs.declared.call.Caller.{Caller as AnyCaller};
ghost use Rattle.script_text.specs.Asks.{actors_of};
ghost use Rattle.script_text.specs.Fitting.{IsScript};
ghost use Rattle.part_board.specs.Seen.{IsDeskOf, has_made};
ghost use Rattle.live_runs.specs.Made.{IsFresh, callers_of, HasMadeJust};

use irq_base::NoMemory;
use part_board::{Desk, LiveBoard, Pass, PassError};
use script_text::Script;
use std::alloc::Global;

/// A pass for each actor of the script, in their order, by a desk that has made none.
pub fn passes_of(
    alloc: Global,
    board: &LiveBoard,
    desk: &mut Desk,
    script: &Script,
) -> Result<Vec<Pass>, NoMemory>
    requires script { IsScript script.now }
    requires shape { board.now.shape ≡ script.now.shape }
    requires desk { IsDeskOf board.now desk.old }
    requires none { (c : AnyCaller) → has_made desk.old c ≡ false }
    ensures desk { IsDeskOf board.now desk.new }
    ensures fresh { IfOk result (λ passes. All (IsFresh board.now) passes.items) }
    ensures callers { IfOk result (λ passes. callers_of passes.items ≡ actors_of script.now.lines) }
    ensures made { IfOk result (λ passes. HasMadeJust desk.new passes.items) }
{
    let mut passes = Vec::new(alloc);
    for actor in 0..script.actors() {
        match desk.pass(alloc, board, script.caller_of(actor)) {
            Ok(pass) => {
                let Ok(()) = passes.push(pass) else {
                    return Err(NoMemory);
                };
            }
            Err(PassError::NoMemory) => return Err(NoMemory),
            Err(PassError::Taken) => unreachable!(),
        }
    }
    Ok(passes)
}
