//! A call on a ring, with its answer.

use crate::write::{RingPut, RingWrite, RingWrites};

/// A call on a ring by the pass with that number, with its answer: its entry.
#[derive(Clone, Copy)]
pub(crate) enum Asked<'a> {
    /// A put of the write.
    Put(u32, &'a RingWrite, RingPut),
    /// A take of the writes.
    Take(u32, &'a RingWrites),
}
