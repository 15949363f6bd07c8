//! Where a run leaves its running board.
ghost use Rattle.std.specs.Prelude.{◌≡◌, All, None};
ghost use Rattle.part_board.specs.Seen.{IsDeskOf, IsPassOf};

use crate::live::Live;
use part_board::{Desk, LiveBoard, Pass};

/// Where a run leaves the running board on which its script ran.
#[derive(Drop)]
pub struct Bench {
    pub live: Option<Live>,
}

impl Bench {
    /// A bench on which nothing stands.
    pub fn empty() -> Bench
        ensures { result.live ≡ None }
    {
        Bench { live: None }
    }
}

impl Live {
    /// The board with its desk and passes of it.
    pub fn of(board: LiveBoard, desk: Desk, passes: Vec<Pass>) -> Live
        requires desk { IsDeskOf board desk }
        requires passes { All (IsPassOf board) passes.items }
        ensures board { result.board ≡ board }
        ensures desk { result.desk ≡ desk }
        ensures passes { result.passes ≡ passes }
    {
        Live {
            board,
            desk,
            passes,
        }
    }

    /// The board, its desk, and its passes, which can be handed to `LiveBoard::close`.
    pub fn into_parts(self) -> (LiveBoard, Desk, Vec<Pass>)
        ensures board { result.0 ≡ self.board }
        ensures desk { result.1 ≡ self.desk }
        ensures passes { result.2 ≡ self.passes }
        ensures of_board { IsDeskOf result.0 result.1 }
        ensures of_one { All (IsPassOf result.0) result.2.items }
    {
        let Live {
            board,
            desk,
            passes,
        } = self;
        (board, desk, passes)
    }
}
