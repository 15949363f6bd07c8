//! A script's lines, asked in the order of the file.
ghost use Rattle.std.specs.Prelude.{◌≡◌, IfOk};
ghost use Rattle.script_text.specs.Fitting.{IsScript};
ghost use Rattle.replaying.specs.FileOrder.{first_stop};
ghost use Rattle.replaying.specs.Replays.{Replays};

use crate::player::Player;
use crate::stops::{Stop, stop_of};
use irq_base::{History, NoMemory, Spent};
use script_text::Script;
use std::alloc::Global;

/// What a replay leaves: the entries in their order, and the limit that stopped the first actor that was stopped, if one was.
#[derive(Drop)]
pub struct Run {
    pub history: History,
    pub spent: Option<Spent>,
}

// The limit that stopped the first actor of those that were stopped.
#[tactic(auto, using(crate::proofs::Firsts::first_rules))]
fn first_stop(script: &Script, stops: &[Stop]) -> Option<Spent>
    ensures { result ≡ first_stop script.now.lines stops.now }
{
    'actors: for k in 0..script.lines() {
        if let Some(spent) = stop_of(script.line(k).caller, stops) {
            return Some(spent);
        }
    }
    None
}

/// Asks the lines of a script of a board at power-on, in the order of the file: each line whole before the next, those of an actor
/// being passed over after its first call that a limit of the board bars.
pub fn replay(alloc: Global, script: &Script) -> Result<Run, NoMemory>
    requires { IsScript script.now }
    ensures { IfOk result (λ run. Replays script.now run.history run.spent) }
{
    let mut player = Player::power_on(alloc, &script.shape())?;
    let mut stops = Vec::new(alloc);
    'lines: for k in 0..script.lines() {
        let line = script.line(k);
        let caller = line.caller;
        if let None = stop_of(caller, stops.as_slice()) {
            if let Some(spent) = player.line(alloc, line)? {
                if stops.insert(0, Stop { caller, spent }).is_err() {
                    return Err(NoMemory);
                }
            }
        }
    }
    let spent = first_stop(script, stops.as_slice());
    Ok(Run {
        history: player.history,
        spent,
    })
}
