//! Whether the ending of a transcript is right.
ghost use Rattle.std.specs.Prelude.{◌≡◌, ◌↔◌, List, true, is_some, length, IsTrue};
ghost use Rattle.irq_base.specs.Callers.{is_allowed};
ghost use Rattle.irq_base.specs.declared.lists.Entry.{Entry as AnyEntry};
ghost use Rattle.board_step.specs.Step.{spent_of};
ghost use Rattle.script_merging.specs.Merging.{IsWhole};
ghost use Rattle.script_histories.specs.Merging.{AreBarred, EndsWell};
ghost use Rattle.legal_check.specs.Standing.{actors_in, HaveFollowed};

use crate::actors::next_of;
use board_step::Board;
use irq_base::{Call, Caller, Events};
use script_text::{Progress, Script};

// Whether no actor asks anything more.
fn is_whole(script: &Script, all: &[Progress]) -> bool
    requires { length all.now ≡ actors_in script.now }
    ensures { (entries : List AnyEntry) → HaveFollowed script.now entries all.now → (IsTrue result ↔ IsWhole script.now entries) }
{
    for actor in 0..script.actors() {
        match next_of(script, all, actor) {
            None => {}
            Some(_) => return false,
        }
    }
    true
}

// Whether a limit bars the call. Then the board stays.
fn is_barred(board: &mut Board, caller: Caller, call: &Call) -> bool
    requires { is_allowed caller call.now board.old.shape ≡ true }
    ensures barred { IsTrue result ↔ (is_some (spent_of board.old call.now) ≡ true) }
    ensures stays { IsTrue result → board.new ≡ board.old }
{
    let mut events = Events::new();
    match board.apply(caller, call, &mut events) {
        Ok(_) => false,
        Err(_) => true,
    }
}

// Whether a limit bars each actor that asks more, and there is one.
fn are_barred(script: &Script, all: &[Progress], board: &mut Board) -> bool
    requires as_many { length all.now ≡ actors_in script.now }
    requires shape { board.old.shape ≡ script.now.shape }
    ensures { (entries : List AnyEntry) → HaveFollowed script.now entries all.now
        → (IsTrue result ↔ AreBarred script.now entries board.old) }
{
    let mut some = false;
    for actor in 0..script.actors() {
        match next_of(script, all, actor) {
            None => {}
            Some(call) => {
                if !is_barred(board, script.caller_of(actor), call) {
                    return false;
                }
                some = true;
            }
        }
    }
    some
}

/// Whether the ending is right behind the entries that the actors followed.
pub fn ends_well(script: &Script, all: &[Progress], board: &mut Board, spent: bool) -> bool
    requires as_many { length all.now ≡ actors_in script.now }
    requires shape { board.old.shape ≡ script.now.shape }
    ensures { (entries : List AnyEntry) → HaveFollowed script.now entries all.now
        → (IsTrue result ↔ EndsWell script.now entries board.old spent) }
{
    if spent {
        are_barred(script, all, board)
    } else {
        is_whole(script, all)
    }
}
