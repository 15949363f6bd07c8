//! Where the passes of a ring are made.
ghost use Rattle.std.specs.Prelude.{◌≡◌, [], Some, None, true};
ghost use Rattle.write_ring.specs.Made.{numbers_of};
ghost use Rattle.write_ring.specs.Ring.{empty_ring};

use crate::machine::Ring;
use turn_book::Pen;

/// Where the passes of a ring are made. Nobody else makes any.
#[derive(Drop)]
pub struct RingDesk {
    pub(crate) pen: Pen<Ring>,
    // how many passes it has made
    pub(crate) passes: u32,
    pub ghost begins: { (pen.seat.me.0).begin ≡ Some empty_ring },
    pub ghost bare: { (pen.seat.me.0).held ≡ [] },
    pub ghost desk: { (pen.seat.me.0).is_desk ≡ true },
    pub ghost made: { (pen.seat.me.0).made ≡ numbers_of passes },
}

impl RingDesk {
    /// How many passes it has made.
    pub fn passes(&self) -> u32
        ensures { result ≡ self.now.passes }
    {
        self.passes
    }
}
