//! A board that many threads call.
ghost use Rattle.std.specs.Prelude.{◌≡◌, ◌+◌, length};
ghost use Rattle.board_raise.specs.Fit.{InLimits};
ghost use Rattle.board_model.specs.declared.width.TheConstants.{WORDS};
ghost use Rattle.part_slots.specs.declared.numbers.TheConstants.{FIXED_PARTS};

use board_raise::{LapicRow, Words};
use irq_base::Shape;
use part_machine::RunningBoard;
use turn_book::TurnBook;

/// A board that many threads call, each by a pass of its own. It shares one book of turns and nothing else; the room beside it is
/// for closing, and no call touches it.
#[derive(Drop)]
pub struct LiveBoard {
    pub(crate) book: TurnBook<RunningBoard>,
    pub(crate) shape: Shape,
    // room for the board that is left when it is closed
    pub(crate) row: LapicRow,
    pub(crate) words: Words,
    pub ghost limits: { InLimits shape },
    pub ghost turns: { book.table.shared.table_id.slots ≡ shape.cpus + FIXED_PARTS },
    pub ghost width: { book.width ≡ WORDS },
    pub ghost room: { length row ≡ shape.cpus },
}

impl LiveBoard {
    /// What it was made with.
    pub fn shape(&self) -> Shape
        ensures shape { result ≡ self.now.shape }
        ensures limits { InLimits result }
    {
        self.shape
    }
}
