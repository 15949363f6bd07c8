//! One actor asks its calls.
ghost use Rattle.std.specs.Prelude.{◌≡◌, ◌<◌, ◌≤◌, length};
ghost use Rattle.irq_base.specs.declared.call.Caller.{Caller as Asker};
ghost use Rattle.script_text.specs.Asks.{actors_of, caller_at, unrolled, tasks_of};
ghost use Rattle.script_text.specs.Fitting.{IsScript};
ghost use Rattle.actors.specs.Bounds.{AsksAtMost};
ghost use Rattle.actors.specs.Kept.{HasPlayed};

use crate::kept::Kept;
use crate::seats::Seat;
use io_edge::Gate;
use irq_base::{Events, Face, Spent};
use script_text::{Progress, Script};
use std::alloc::Global;

// The most calls that a line can ask: a million rounds, of an acknowledge and two ends each.
const LINE_CALLS: u128 = 3_000_000;

/// An actor that ran: its face, its entries, and the limit that barred its last call, if one did.
#[derive(Drop)]
pub struct Played<F> {
    pub face: F,
    pub kept: Kept,
    pub spent: Option<Spent>,
}

// As many calls as an actor can ask at most.
fn most_calls(script: &Script) -> u128
    requires { IsScript script.now }
    ensures { (who : Asker) → AsksAtMost result (unrolled (tasks_of who script.now.lines)) }
{
    script.lines() as u128 * LINE_CALLS
}

// The number of an actor, as gates are told it.
fn gate_number(actor: usize) -> u32 {
    u32::try_from(actor).unwrap_or(u32::MAX)
}

/// Runs an actor until it has asked all its calls, or a limit barred one. The gate is told before each call, and once more after
/// the last was answered.
pub fn play<F: Face, G: Gate>(alloc: Global, script: &Script, gate: &G, seat: Seat<F>) -> Played<F>
    requires script { IsScript script.now }
    requires actor { seat.actor < length (actors_of script.now.lines) }
    requires caller { F.who seat.face ≡ caller_at script.now.lines seat.actor }
    requires stops { F.stops seat.face ≡ 0 }
    ensures { HasPlayed F.Face script.now seat.face result.face result.kept result.spent }
{
    let Seat { actor, mut face } = seat;
    let number = gate_number(actor);
    let caller = face.caller();
    let mut kept = Kept::none(alloc);
    let mut events = Events::new();
    let mut progress = Progress::start();
    let mut left = most_calls(script);
    let mut turn = 0u64;
    gate.at(number, turn);
    while let Some(call) = script.next(actor, &progress) {
        match face.ask(call, &mut events) {
            Err(spent) => {
                return Played {
                    face,
                    kept,
                    spent: Some(spent),
                };
            }
            Ok(done) => {
                kept.keep(alloc, caller, call, &done, events.as_slice());
                progress.after(script, actor, &done.reply);
            }
        }
        left -= 1;
        turn = turn.saturating_add(1);
        gate.at(number, turn);
    }
    Played {
        face,
        kept,
        spent: None,
    }
}
