//! A ring at power-on.
ghost use Rattle.std.specs.Prelude.{◌≡◌, [], IfOk};
ghost use Rattle.turn_book.specs.Views.{view_of};
ghost use Rattle.write_ring.specs.Seen.{IsDeskOf, desk_seen};

use crate::desk::RingDesk;
use crate::machine::Ring;
use crate::queue::RingQueue;
use crate::ring::WriteRing;
use std::alloc::Global;
use turn_book::{NoMemory, TurnBook};

impl WriteRing {
    /// A ring in which nothing stands, and its desk, which has made no pass, to which none was joined, and which has seen nothing. It takes all memory that the ring
    /// will ever need.
    pub fn power_on(alloc: Global) -> Result<(WriteRing, RingDesk), NoMemory>
        ensures desk { IfOk result (λ made. IsDeskOf made.0 made.1) }
        ensures passes { IfOk result (λ made. made.1.passes ≡ 0) }
        ensures seen { IfOk result (λ made. desk_seen made.1 ≡ []) }
        ensures ended { IfOk result (λ made. (view_of made.1.pen.seat).ended ≡ []) }
    {
        let Ok(parts) = Vec::from_array(alloc, [RingQueue::empty()]) else {
            return Err(NoMemory);
        };
        let (book, pen) = TurnBook::<Ring>::make(alloc, parts, Vec::new(alloc))?;
        Ok((WriteRing { book }, RingDesk { pen, passes: 0 }))
    }
}
