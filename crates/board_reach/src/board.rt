//! What a call reaches, asked of a board.
ghost use Rattle.std.specs.Prelude.{◌≡◌, Bool, true};
ghost use Rattle.irq_base.specs.Callers.{is_allowed};
ghost use Rattle.irq_base.specs.declared.call.Call.{Call as Asked};
ghost use Rattle.irq_base.specs.declared.call.Caller.{Caller as Asker};
ghost use Rattle.irq_base.specs.declared.shape.Part.{Part as AnyPart};
ghost use Rattle.irq_base.specs.declared.shape.Shape.{Shape as Size};
ghost use Rattle.board_step.specs.Reach.{reach};
ghost use Rattle.board_reach.specs.ReachNow.{ReachIsNow};

use crate::calls::reach_in_hand;
use board_step::Board;
use irq_base::{Call, Caller, Part};

/// What a call would reach, asked of a board: `board.reach(caller, &call, part)`.
pub trait Reach {
    // the shape of the board
    ghost shape: { Self → Size };

    // whether a call by that caller reaches the part
    ghost reached: { Self → Asker → Asked → AnyPart → Bool };

    /// Whether a call by that caller would reach the part: look at it, or change it. It tells what the board is now, and it runs
    /// nothing: whom a message is given to makes no difference. To read where GSIs, pins and triggers go reaches no part.
    fn reach(&self, caller: Caller, call: &Call, part: Part) -> bool
        requires { is_allowed caller call.now (shape self.now) ≡ true }
        ensures { result ≡ reached self.now caller call.now part };
}

impl Reach for Board {
    ghost shape = { λ board. board.shape };

    ghost reached = { reach };

    fn reach(&self, caller: Caller, call: &Call, part: Part) -> bool {
        self.keeps_sound();
        reach_in_hand(self.parts(), &self.shape(), caller, call, part)
    }
}

/// A law: on each sound board what a call reaches is told by the board as it is before the call. Of pins that are acknowledged
/// the table runs no step: each reaches what the board before the first of them tells.
#[tactic(auto, using(crate::proofs::Tables::reach_is_now))]
pub fn reach_is_now()
    ensures { ReachIsNow }
{}
