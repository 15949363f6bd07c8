//! Why an attempt of a call gave way.

use irq_base::Part;

/// Why an attempt of a call gave way. It made no entry, and no part changed.
#[derive(Clone, Copy, Debug, PartialEq, Eq)]
pub enum NotNow {
    /// The attempt found the turn of that part taken.
    Busy { part: Part },
    /// The history had so many publications when the attempt looked, and so many at its exchange, which differ.
    Moved { from: u32, to: u32 },
    /// The history had so many entries when the attempt looked, and so many at its exchange, which differ, and as many publications.
    Front { had: u64, now: u64 },
}
