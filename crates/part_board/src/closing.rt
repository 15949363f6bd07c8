//! A running board is closed.
ghost use Rattle.std.specs.Prelude.{◌≡◌, All, false, IfOk, IfErr, MatchOption};
ghost use Rattle.irq_base.specs.declared.call.Caller.{Caller as AnyCaller};
ghost use Rattle.turn_book.specs.Ending.{AllEnded};
ghost use Rattle.part_board.specs.Callers.{IsFirst};
ghost use Rattle.part_board.specs.Seen.{desk_view, IsDeskOf, IsPassOf};
ghost use Rattle.part_board.specs.Closing.{is_missing, IsClosed};
ghost use Rattle.part_board.specs.Joining.{JoinsAll, IsEnded};

use crate::callers::Callers;
use crate::closed::{Closed, Missing};
use crate::desk::Desk;
use crate::gathering::gather;
use crate::live::LiveBoard;
use crate::pass::Pass;
use irq_base::Caller;
use part_copies::restored;

// The first caller whose pass was made and is none of the list.
fn first_missing(desk: &Desk, passes: &[Pass]) -> Option<Caller>
    ensures { MatchOption result ((c : AnyCaller) → is_missing desk.now passes.now c ≡ false) (IsFirst (is_missing desk.now passes.now)) }
{
    let mut left = Callers {
        cpus: desk.made.cpus,
        devices: desk.made.devices,
    };
    for pass in passes {
        left.remove(pass.caller);
    }
    left.first()
}

impl LiveBoard {
    // The desk takes in each pass.
    fn join_all(&self, desk: &mut Desk, passes: Vec<Pass>)
        requires desk { IsDeskOf self.now desk.old }
        requires passes { All (IsPassOf self.now) passes.items }
        ensures desk { IsDeskOf self.now desk.new }
        ensures joined { JoinsAll (desk_view desk.old) passes.items (desk_view desk.new) }
    {
        let mut rest = passes.into_iter();
        while let Some(pass) = rest.next() {
            let Pass { pen, .. } = pass;
            self.book.join(&mut desk.pen, pen);
        }
    }

    // The board that the history leaves, where each pass that was made was taken in.
    fn end(self, desk: Desk) -> Closed
        requires desk { IsDeskOf self desk }
        requires all { AllEnded (desk_view desk) }
        ensures { IsEnded self.shape (desk_view desk) result }
    {
        let LiveBoard {
            book,
            shape,
            row,
            words,
        } = self;
        let Desk { pen, .. } = desk;
        let (slots, front) = book.close(pen);
        let parts = gather(row, slots);
        let board = restored(&shape, parts, words, front);
        Closed {
            board,
            length: front.length,
        }
    }

    /// The board that is left, and the length of its history: one legal history, which begins with what the desk and each pass
    /// have seen, and has of the caller of each pass just the entries that the pass has seen, and of no other caller any.
    ///
    /// `Missing` comes exactly where a pass that was made is none of the list. It names the first such caller and hands all back
    /// untouched. Notes that are still out do not hinder it. It takes no memory.
    pub fn close(self, desk: Desk, passes: Vec<Pass>) -> Result<Closed, Missing>
        requires desk { IsDeskOf self desk }
        requires passes { All (IsPassOf self) passes.items }
        ensures closed { IfOk result (IsClosed self.shape desk passes.items) }
        ensures none { IfOk result (λ _. (c : AnyCaller) → is_missing desk passes.items c ≡ false) }
        ensures missing { IfErr result (λ missing. IsFirst (is_missing desk passes.items) missing.caller) }
        ensures back { IfErr result (λ missing. (missing.board ≡ self) × (missing.desk ≡ desk) × (missing.passes ≡ passes)) }
    {
        if let Some(caller) = first_missing(&desk, passes.as_slice()) {
            return Err(Missing {
                caller,
                board: self,
                desk,
                passes,
            });
        }
        let mut desk = desk;
        self.join_all(&mut desk, passes);
        Ok(self.end(desk))
    }
}
