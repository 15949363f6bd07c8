//! Where passes are made.
ghost use Rattle.std.specs.Prelude.{◌≡◌, ◌≤◌, [], Some, true};
ghost use Rattle.board_step.specs.History.{opening};
ghost use Rattle.part_board.specs.Made.{MadeAre, AreThere};
ghost use Rattle.irq_bits.specs.declared.limits.TheConstants.{MAX_CPUS};

use crate::callers::Callers;
use irq_base::Shape;
use part_machine::RunningBoard;
use turn_book::Pen;

/// Where the passes of a running board are made. It knows whose passes it has made; nobody else makes any.
#[derive(Drop)]
pub struct Desk {
    pub(crate) pen: Pen<RunningBoard>,
    pub(crate) shape: Shape,
    pub(crate) made: Callers,
    pub ghost begins: { (pen.seat.me.0).begin ≡ Some (opening shape) },
    pub ghost bare: { (pen.seat.me.0).held ≡ [] },
    pub ghost desk: { (pen.seat.me.0).is_desk ≡ true },
    pub ghost limit: { shape.cpus ≤ MAX_CPUS },
    pub ghost tells: { MadeAre made (pen.seat.me.0).made },
    pub ghost there: { AreThere shape (pen.seat.me.0).made },
}
