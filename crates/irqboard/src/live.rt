//! A running board with its desk and its passes.
ghost use Rattle.std.specs.Prelude.{◌≡◌, All};
ghost use Rattle.part_board.specs.Facing.{numbers_of, home_of, home_of_pass};

use part_board::{Desk, LiveBoard, Pass};

/// A running board, its desk, and passes that the desk has made: desk and passes are of that board.
#[derive(Drop)]
pub struct Live {
    pub board: LiveBoard,
    pub desk: Desk,
    pub passes: Vec<Pass>,
    pub ghost desk_book: { numbers_of desk.pen.seat.table_id ≡ home_of board },
    pub ghost desk_shape: { desk.shape ≡ board.shape },
    pub ghost pass_books: { All (λ pass. home_of_pass pass ≡ home_of board) passes.items },
    pub ghost pass_shapes: { All (λ pass. pass.shape ≡ board.shape) passes.items },
}
