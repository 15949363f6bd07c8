//! What a run leaves.
use irq_base::History;

/// A run: its entries in their order, and whether some actor's next call was barred by a limit of the board.
#[derive(Drop)]
pub struct Transcript {
    pub history: History,
    pub spent: bool,
}
