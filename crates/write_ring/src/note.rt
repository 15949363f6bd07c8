//! What a pass has seen, to be learnt by another.
ghost use Rattle.std.specs.Prelude.{◌≡◌, [], Some, None, false};
ghost use Rattle.write_ring.specs.Ring.{empty_ring};

use crate::machine::Ring;
use turn_book::Pen;

/// What a pass has seen. It belongs to nobody, and holds nothing.
#[derive(Drop)]
pub struct RingNote {
    pub(crate) pen: Pen<Ring>,
    pub ghost begins: { (pen.seat.me.0).begin ≡ Some empty_ring },
    pub ghost bare: { (pen.seat.me.0).held ≡ [] },
    pub ghost nobody: { (pen.seat.me.0).caller ≡ None },
    pub ghost plain: { (pen.seat.me.0).is_desk ≡ false },
}
