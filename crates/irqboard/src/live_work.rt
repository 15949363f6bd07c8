//! The work of `run` on an input that was read: its script on a running board of its own.
ghost use Rattle.std.specs.Prelude.{◌≡◌, ◌≤◌, length, All, IfOk, IfErr};
ghost use Rattle.script_text.specs.Fitting.{IsScript};
ghost use Rattle.live_runs.specs.Made.{AreOfActors, HasLearnt, HasMadeJust, seen_by_first};
ghost use Rattle.live_runs.specs.Running.{IsRun};
ghost use Rattle.irqboard.specs.Benches.{WorksLive};
ghost use Rattle.irqboard.specs.Done.{HasFault};
ghost use Rattle.irqboard.specs.Works.{Works};
ghost use Rattle.irqboard.specs.declared.command.Command.{Command};

use crate::live::Live;
use crate::outcome::Outcome;
use crate::reading::LIMIT;
use crate::work::answer_of_replay;
use board_step::OpenError;
use io_edge::Gate;
use irq_base::{Bytes, History, NoMemory, Spent};
use live_runs::{RunOut, run_on};
use part_board::LiveBoard;
use script_text::{Script, ScriptFault, parse};
use std::alloc::Global;
use std::sync::Wait;
use std::thread::Threads;
use transcript::{Transcript, print};

/// A run that was done: what is answered once its whole text is written, that text, and the board on which it ran.
#[derive(Drop)]
pub struct LiveWork {
    pub outcome: Outcome,
    pub text: Bytes,
    pub live: Live,
}

// What the actors of a script left: their history, the limit that stopped the first actor that was stopped, and their board.
#[derive(Drop)]
struct LiveRun {
    history: History,
    spent: Option<Spent>,
    live: Live,
}

// The actors of a script on a running board that is powered on for them.
fn run_actors<R: Threads + Wait + Sync, G: Gate>(
    rt: &R,
    alloc: Global,
    script: &Script,
    gate: &G,
) -> Result<LiveRun, NoMemory>
    requires { IsScript script.now }
    ensures run { IfOk result (λ left. IsRun script.now left.history left.spent) }
    ensures shape { IfOk result (λ left. left.live.board.shape ≡ script.now.shape) }
    ensures passes { IfOk result (λ left. AreOfActors left.live.board script.now left.live.passes.items) }
    ensures made { IfOk result (λ left. HasMadeJust left.live.desk left.live.passes.items) }
    ensures seen { IfOk result (λ left. left.history ≡ seen_by_first left.live.passes.items) }
    ensures told { IfOk result (λ left. All (HasLearnt left.history) left.live.passes.items) }
{
    let (board, mut desk) = match LiveBoard::power_on(alloc, &script.shape()) {
        Ok(made) => made,
        Err(OpenError::NoMemory) => return Err(NoMemory),
        Err(OpenError::BadShape) => unreachable!(),
    };
    let Ok(
        RunOut {
            history,
            spent,
            passes,
        },
    ) = run_on(rt, alloc, &board, &mut desk, script, gate)
    else {
        return Err(NoMemory);
    };
    Ok(LiveRun {
        history,
        spent,
        live: Live::of(board, desk, passes),
    })
}

/// The work of `run` on an input: its answer, its text and the board on which it ran, or the first bad line of the input.
pub fn live_work_of<R: Threads + Wait + Sync, G: Gate>(
    rt: &R,
    alloc: Global,
    input: &[u8],
    gate: &G,
) -> Result<LiveWork, ScriptFault>
    requires { length input.now ≤ LIMIT }
    ensures done { IfOk result (λ work. Works Command.Run input.now work.outcome work.text) }
    ensures live { IfOk result (λ work. WorksLive work.live input.now work.outcome work.text) }
    ensures fault { IfErr result (HasFault Command.Run input.now) }
{
    let script = match parse(alloc, input) {
        Ok(script) => script,
        Err(fault) => return Err(fault),
    };
    let Ok(
        LiveRun {
            history,
            spent,
            live,
        },
    ) = run_actors(rt, alloc, &script, gate)
    else {
        return Err(ScriptFault::NoMemory);
    };
    let run = Transcript {
        history,
        spent: spent.is_some(),
    };
    match print(alloc, &run) {
        Ok(text) => Ok(LiveWork {
            outcome: answer_of_replay(spent),
            text,
            live,
        }),
        Err(_) => Err(ScriptFault::NoMemory),
    }
}
