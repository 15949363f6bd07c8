//! One caller's way to a running board.
ghost use Rattle.std.specs.Prelude.{◌≡◌, true, None};
ghost use Rattle.irq_base.specs.Callers.{is_allowed};
ghost use Rattle.board_step.specs.Applied.{is_reached};
ghost use Rattle.part_board.specs.Seen.{IsPassOf};
ghost use Rattle.part_board.specs.Facing.{home_of, home_of_pass, board_seen, IsCalledOn};

use crate::live::LiveBoard;
use crate::pass::Pass;
use irq_base::{Call, Caller, Done, Events, Face, Spent, Stops};
use std::sync::Wait;

/// One caller's way to a running board: its pass, and the board that the pass is of. Its calls may wait, as those of the board do.
///
/// It keeps how often a limit of the board barred a call, and the limit of the last such call, which is reached where the pass
/// now stands.
#[derive(Drop)]
pub struct OnLive<'a, R: Wait> {
    pub board: &'a LiveBoard,
    pub rt: &'a R,
    pub pass: Pass,
    pub stops: Stops,
    pub ghost book: { home_of_pass pass ≡ home_of board.now },
    pub ghost shape: { pass.shape ≡ board.now.shape },
    pub ghost reached: { is_reached (board_seen pass) stops.last ≡ true },
}

impl<'a, R: Wait> OnLive<'a, R> {
    /// The way of this pass, of whose calls a limit has barred none.
    pub fn of(board: &'a LiveBoard, rt: &'a R, pass: Pass) -> OnLive<'a, R>
        requires pass { IsPassOf board.now pass }
        ensures board { result.board.now ≡ board.now }
        ensures pass { result.pass ≡ pass }
        ensures count { result.stops.count ≡ 0 }
        ensures last { result.stops.last ≡ None }
    {
        OnLive {
            board,
            rt,
            pass,
            stops: Stops::none(),
        }
    }

    /// The pass again, which is of the board.
    pub fn into_pass(self) -> Pass
        ensures pass { result ≡ self.entry.pass }
        ensures board { IsPassOf self.entry.board.now result }
    {
        let OnLive { pass, .. } = self;
        pass
    }
}

// The call by the pass, with all that the board promises of it.
fn called<R: Wait>(
    board: &LiveBoard,
    rt: &R,
    pass: &mut Pass,
    call: &Call,
    events: &mut Events,
) -> Result<Done, Spent>
    requires pass { IsPassOf board.now pass.old }
    requires allowed { is_allowed pass.old.caller call.now board.now.shape ≡ true }
    ensures { IsCalledOn board.now pass.old call.now events.new.items result pass.new }
{
    board.call(rt, pass, call, events)
}

impl<'a, R: Wait> Face for OnLive<'a, R> {
    ghost use Rattle.std.specs.Prelude.{◌≡◌, length, Some, None};
    ghost use Rattle.board_step.specs.Step.{spent_of};
    ghost use Rattle.part_board.specs.Seen.{pass_seen};
    ghost use Rattle.part_board.specs.Facing.{home_of, own_in, board_seen, IsCalledOn};

    ghost shape = { λ f. f.board.now.shape };

    ghost who = { λ f. f.pass.caller };

    ghost floor = { λ f. length (pass_seen f.pass) };

    ghost stops = { λ f. f.stops.count };

    ghost last = { λ f. f.stops.last };

    ghost own = { λ f. Some (own_in f.pass.caller (pass_seen f.pass)) };

    ghost home = { λ f. Some (home_of f.board.now) };

    ghost left = { λ _. None };

    ghost barred = { λ f call spent. spent_of (board_seen f.pass) call ≡ Some spent };

    // It is the same board, and the call is as `LiveBoard::call` promises.
    ghost keeps = { λ f call events answer g. (g.board.now ≡ f.board.now) × IsCalledOn f.board.now f.pass call events answer g.pass };

    fn caller(&self) -> Caller {
        self.pass.caller()
    }

    fn ask(&mut self, call: &Call, events: &mut Events) -> Result<Done, Spent> {
        match called(self.board, self.rt, &mut self.pass, call, events) {
            Ok(done) => Ok(done),
            Err(spent) => {
                self.stops.stop(spent);
                Err(spent)
            }
        }
    }
}
