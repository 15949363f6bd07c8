//! One caller's way to a ring.
ghost use Rattle.std.specs.Prelude.{◌≡◌, [], Some, false};
ghost use Rattle.write_ring.specs.Ring.{empty_ring};

use crate::machine::Ring;
use turn_book::Pen;

/// One caller's way to a ring. Between two calls it holds nothing.
#[derive(Drop)]
pub struct RingPass {
    pub(crate) pen: Pen<Ring>,
    pub(crate) number: u32,
    pub ghost begins: { (pen.seat.me.0).begin ≡ Some empty_ring },
    pub ghost bare: { (pen.seat.me.0).held ≡ [] },
    pub ghost named: { (pen.seat.me.0).caller ≡ Some number },
    pub ghost plain: { (pen.seat.me.0).is_desk ≡ false },
}

impl RingPass {
    /// How many passes were made before it.
    pub fn number(&self) -> u32
        ensures { result ≡ self.now.number }
    {
        self.number
    }
}
