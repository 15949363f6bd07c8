//! A board of all parts.
ghost use Rattle.std.specs.Prelude.{◌≡◌};
ghost use Rattle.board_raise.specs.Fit.{Fits};
ghost use Rattle.board_raise.specs.InHand.{parts_of, chips_of};
ghost use Rattle.board_step.specs.Sound.{IsSound};
ghost use Rattle.board_step.specs.Whole.{IsWhole, board_of};

use board_raise::{BoardRig, Parts, Words};
use board_step::Board;
use irq_base::Shape;
use turn_book::Front;

/// The board of all parts, after so many calls and so many publications as the front tells. What stands in `words` means nothing.
/// It takes no memory.
pub fn restored(shape: &Shape, parts: Parts, words: Words, front: Front) -> Board
    requires whole { IsWhole shape.now (parts_of parts) }
    requires fits { Fits shape.now (parts_of parts) (chips_of parts) }
    requires sound { IsSound (board_of shape.now (parts_of parts) front.length front.generation) }
    ensures { result ≡ board_of shape.now (parts_of parts) front.length front.generation }
{
    let mut rig = BoardRig::new(parts, words);
    rig.publish(shape.tick);
    let (parts, words) = rig.into_parts();
    Board::of_parts(shape, parts, words, front.length, front.generation)
}
