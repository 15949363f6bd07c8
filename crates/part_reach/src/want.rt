//! What a call wants before it can be answered.

use irq_base::Part;

/// What a call wants on the parts in hand before it can be answered.
#[derive(Clone, Copy, Debug, PartialEq, Eq)]
pub enum Want {
    /// The published word of that index.
    Word(u16),
    /// The turn of that part.
    Turn(Part),
}
