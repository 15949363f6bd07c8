//! All actors of a script run at the same time.
ghost use Rattle.std.specs.Prelude.{◌≡◌, [], All, map, IfOk, None};
ghost use Rattle.script_merging.specs.Merging.{Merges, IsWhole};
ghost use Rattle.script_text.specs.Asks.{actors_of};
ghost use Rattle.script_text.specs.Fitting.{IsScript};
ghost use Rattle.actors.specs.Results.{HavePlayed};
ghost use Rattle.actors.specs.Kept.{HasPlayed};
ghost use Rattle.actors.specs.Logged.{IsLogged};
ghost use Rattle.actors.specs.Runs.{AreGathered, AreBack, first_stop};
ghost use Rattle.actors.specs.Seats.{CanPlay};

use crate::gathering::{Results, gathered, history_of, order};
use crate::playing::{Played, play};
use crate::seats::{Seat, seated};
use io_edge::Gate;
use irq_base::{Face, History, NoMemory, Spent};
use script_text::Script;
use std::alloc::Global;
use std::thread;
use std::thread::Threads;
use thiserror::Error;

/// What a run leaves: the entries in the order of their places, the limit that stopped the first actor that was stopped, if one
/// was, and the faces in the order of the actors.
#[derive(Drop)]
pub struct RunLog<F> {
    pub history: History,
    pub spent: Option<Spent>,
    pub faces: Vec<F>,
}

/// Why a run leaves nothing.
#[derive(Debug, Drop, Error, PartialEq, Eq)]
pub enum RunStop {
    /// There is not enough memory.
    #[error("out of memory")]
    NoMemory,
}

// Runs the actors, each on a thread of its own.
fn all_played<R: Threads + Sync, F: Face + Send + Drop, G: Gate>(
    rt: &R,
    alloc: Global,
    faces: Vec<F>,
    script: &Script,
    gate: &G,
) -> Result<Vec<Played<F>>, NoMemory>
    requires script { IsScript script.now }
    requires callers { map F.who faces.items ≡ actors_of script.now.lines }
    requires stops { All (λ f. F.stops f ≡ 0) faces.items }
    ensures { IfOk result (λ played. HavePlayed F.Face script.now faces.items played.items) }
{
    let seats = seated(alloc, faces)?;
    let act = |seat: Seat<F>| -> Played<F>
        requires { CanPlay F.Face script.now seat }
        ensures { HasPlayed F.Face script.entry.now seat.face result.face result.kept result.spent }
    { play(alloc, script, gate, seat) };
    match thread::map_vec(rt, seats, &act) {
        Ok(played) => Ok(played),
        Err(_) => Err(NoMemory),
    }
}

// What the actors left, in one log.
fn logged<F: Drop>(alloc: Global, played: Vec<Played<F>>) -> Result<RunLog<F>, NoMemory>
    ensures { IfOk result (IsLogged played.items) }
{
    let Results {
        mut placed,
        faces,
        spent,
    } = gathered(alloc, played)?;
    order(alloc, placed.as_mut_slice())?;
    Ok(RunLog {
        history: history_of(alloc, placed)?,
        spent,
        faces,
    })
}

/// Runs each actor of the script on a thread of its own, through its face, until it has asked all its calls or a limit barred one.
/// There is a face for each actor, in their order, with that actor's caller, at which no limit has barred a call. The gate is told
/// before each call of an actor, and once more after its last was answered.
///
/// The history has each call that was answered once, in the order of their places; calls at one place, which faces of different
/// boards can answer, stand in the order of their actors.
pub fn run_faces<R: Threads + Sync, F: Face + Send + Drop, G: Gate>(
    rt: &R,
    alloc: Global,
    faces: Vec<F>,
    script: &Script,
    gate: &G,
) -> Result<RunLog<F>, RunStop>
    requires script { IsScript script.now }
    requires callers { map F.who faces.items ≡ actors_of script.now.lines }
    requires stops { All (λ f. F.stops f ≡ 0) faces.items }
    ensures gathered { IfOk result (λ log. AreGathered F.Face script.now faces.items log.faces.items log.history) }
    ensures merge { IfOk result (λ log. Merges script.now [] log.history) }
    ensures back { IfOk result (λ log. AreBack F.Face script.now log.history faces.items log.faces.items) }
    ensures spent { IfOk result (λ log. log.spent ≡ first_stop F.Face log.faces.items) }
    ensures whole { IfOk result (λ log. log.spent ≡ None → IsWhole script.now log.history) }
{
    let Ok(played) = all_played(rt, alloc, faces, script, gate) else {
        return Err(RunStop::NoMemory);
    };
    match logged(alloc, played) {
        Ok(log) => Ok(log),
        Err(NoMemory) => Err(RunStop::NoMemory),
    }
}
