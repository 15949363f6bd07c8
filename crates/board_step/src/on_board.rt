//! One caller's way to a board on one thread.
ghost use Rattle.std.specs.Prelude.{◌≡◌, true};
ghost use Rattle.irq_base.specs.Callers.{is_allowed, is_there};
ghost use Rattle.board_step.specs.Applied.{is_reached, IsAskedOf};

use crate::board::Board;
use irq_base::{Call, Caller, Done, Events, Face, Spent, Stops};

/// One caller's way to a board on one thread, which it borrows: a device below `MAX_DEVICES` or a processor of the board.
///
/// It keeps how often a limit of the board barred a call, and the limit of the last such call, which is reached.
#[derive(Drop)]
pub struct OnBoard<'a> {
    pub board: &'a mut Board,
    pub caller: Caller,
    pub stops: Stops,
    pub ghost there: { is_there caller board.now.shape ≡ true },
    pub ghost reached: { is_reached board.now stops.last ≡ true },
}

// The call on the board, with all that the board promises of it.
fn asked(board: &mut Board, caller: Caller, call: &Call, events: &mut Events) -> Result<Done, Spent>
    requires { is_allowed caller call.now board.old.shape ≡ true }
    ensures { IsAskedOf board.old caller call.now events.new.items result board.new }
{
    board.apply(caller, call, events)
}

impl<'a> Face for OnBoard<'a> {
    ghost use Rattle.std.specs.Prelude.{◌≡◌, ◌-◌, Some, None};
    ghost use Rattle.board_step.specs.Applied.{IsAskedOf};
    ghost use Rattle.board_step.specs.Step.{spent_of};

    ghost shape = { λ f. f.board.now.shape };

    ghost who = { λ f. f.caller };

    ghost floor = { λ f. f.board.now.length };

    ghost stops = { λ f. f.stops.count };

    ghost last = { λ f. f.stops.last };

    ghost own = { λ _. None };

    ghost home = { λ _. None };

    ghost left = { λ f. Some (f.board.now.shape.calls - f.board.now.length) };

    ghost barred = { λ f call spent. spent_of f.board.now call ≡ Some spent };

    // The call is one step of the board, with its reply and the events handed out; a limit leaves the board.
    ghost keeps = { λ f call events answer g. IsAskedOf f.board.now f.caller call events answer g.board.now };

    fn caller(&self) -> Caller {
        self.caller
    }

    fn ask(&mut self, call: &Call, events: &mut Events) -> Result<Done, Spent> {
        self.board.keeps_sound();
        match asked(self.board, self.caller, call, events) {
            Ok(done) => Ok(done),
            Err(spent) => {
                self.stops.stop(spent);
                Err(spent)
            }
        }
    }
}
