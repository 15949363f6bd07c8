//! What a pass has seen, to be learnt by another or by the desk.
ghost use Rattle.std.specs.Prelude.{◌≡◌, [], Some, None, false};
ghost use Rattle.board_step.specs.History.{opening};

use irq_base::Shape;
use part_machine::RunningBoard;
use turn_book::Pen;

/// What a pass has seen. It belongs to nobody, and holds nothing.
#[derive(Drop)]
pub struct Note {
    pub(crate) pen: Pen<RunningBoard>,
    pub(crate) shape: Shape,
    pub ghost begins: { (pen.seat.me.0).begin ≡ Some (opening shape) },
    pub ghost bare: { (pen.seat.me.0).held ≡ [] },
    pub ghost nobody: { (pen.seat.me.0).caller ≡ None },
    pub ghost plain: { (pen.seat.me.0).is_desk ≡ false },
}
