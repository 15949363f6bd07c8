//! A transcript beside its script, on a board.
ghost use Rattle.std.specs.Prelude.{◌≡◌, ◌↔◌, ◌∷◌, List, length, true, IsTrue, IfOk, IfSome, IfNone};
ghost use Rattle.irq_base.specs.Callers.{is_allowed};
ghost use Rattle.irq_base.specs.declared.lists.Entry.{Entry as AnyEntry};
ghost use Rattle.board_step.specs.Applied.{LeadsOn};
ghost use Rattle.board_step.specs.Step.{Step};
ghost use Rattle.legal_check.specs.declared.verdict.Verdict.TheVariants as verdicts;
ghost use Rattle.legal_check.specs.Standing.{actors_in, HaveFollowed, GoesOn};
ghost use Rattle.legal_check.specs.Verdicts.{HasFlaw, IsVerdict, KeepsIfLegal};

use crate::actors::{asked, follow, started};
use crate::ending::ends_well;
use crate::verdict::{Flaw, Verdict};
use board_laws::legal_histories_keep_the_laws;
use board_step::{Board, OpenError, steps_keep_the_frame};
use irq_base::{Entry, NoMemory};
use script_text::{Progress, Script};
use std::alloc::Global;
use transcript::Transcript;

// Whether an entry is a step from the board; then the board is the one behind it.
fn follows(board: &mut Board, entry: &Entry) -> bool
    requires { is_allowed entry.now.caller entry.now.call board.old.shape ≡ true }
    ensures exactly { IsTrue result ↔ LeadsOn board.old entry.now }
    ensures leads { IsTrue result → Step board.old entry.now board.new }
{
    board.follow(entry.caller, &entry.call, &entry.reply, &entry.events)
}

// The flaw of an entry. Without one the board is the one behind it, and its actor has followed its reply.
fn flaw_of(script: &Script, all: &mut [Progress], board: &mut Board, entry: &Entry) -> Option<Flaw>
    requires as_many { length all.old ≡ actors_in script.now }
    requires shape { board.old.shape ≡ script.now.shape }
    ensures flaw { (before : List AnyEntry) → HaveFollowed script.now before all.old
        → IfSome result (HasFlaw script.now before board.old entry.now) }
    ensures goes { (before : List AnyEntry) → HaveFollowed script.now before all.old
        → IfNone result (GoesOn script.now before board.old entry.now board.new all.new) }
{
    match asked(script, all, entry) {
        None => Some(Flaw::Asked),
        Some(actor) => {
            if follows(board, entry) {
                follow(script, all, actor, &entry.reply);
                None
            } else {
                Some(Flaw::Reply)
            }
        }
    }
}

// The verdict that a place has a flaw.
fn not_at(place: usize, cause: Flaw) -> Verdict
    ensures { result ≡ verdicts.NotAt place cause }
{
    Verdict::NotAt {
        at: place as u64,
        cause,
    }
}

// The verdict on a transcript: its entries are tried in their order, on a board of the script's shape, and then its ending.
fn judge(alloc: Global, script: &Script, run: &Transcript) -> Result<Verdict, NoMemory>
    ensures { IfOk result (IsVerdict script.now run.now) }
{
    steps_keep_the_frame();
    let shape = script.shape();
    let mut board = match Board::power_on(alloc, &shape) {
        Ok(board) => board,
        Err(OpenError::NoMemory) => return Err(NoMemory),
        Err(OpenError::BadShape) => unreachable!(),
    };
    let mut all = match started(alloc, script) {
        Ok(all) => all,
        Err(NoMemory) => return Err(NoMemory),
    };
    for place in 0..run.history.len() {
        match flaw_of(
            script,
            all.as_mut_slice(),
            &mut board,
            run.history.at(place),
        ) {
            None => {}
            Some(cause) => {
                return Ok(not_at(place, cause));
            }
        }
    }
    if ends_well(script, all.as_slice(), &mut board, run.spent) {
        Ok(Verdict::Legal)
    } else {
        Ok(not_at(run.history.len(), Flaw::Ending))
    }
}

/// The verdict on a transcript: its entries are tried in their order, on a board of the script's shape, and then its ending. A history that
/// is said to be legal keeps all laws.
#[tactic(auto, using(crate::proofs::Lawful::kept_rules))]
pub fn check(alloc: Global, script: &Script, run: &Transcript) -> Result<Verdict, NoMemory>
    ensures verdict { IfOk result (IsVerdict script.now run.now) }
    ensures laws { IfOk result (λ verdict. KeepsIfLegal verdict script.now.shape run.now.history) }
{
    legal_histories_keep_the_laws();
    judge(alloc, script, run)
}
