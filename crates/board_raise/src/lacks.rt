//! What a call lacks.

use irq_base::Part;

/// A part of the board that a call needs, and that is not in hand.
#[derive(Clone, Copy, Debug, PartialEq, Eq)]
pub struct Lacks {
    pub part: Part,
}
