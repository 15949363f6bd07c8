//! What closing a running board gives.

use crate::desk::Desk;
use crate::live::LiveBoard;
use crate::pass::Pass;
use board_step::Board;
use irq_base::Caller;

/// The board that is left, and the length of its history.
#[derive(Drop)]
pub struct Closed {
    pub board: Board,
    pub length: u64,
}

/// A pass that was made was not handed back. All is as it was.
#[derive(Drop)]
pub struct Missing {
    /// The first whose pass is missing: processors before devices, and by number.
    pub caller: Caller,
    pub board: LiveBoard,
    pub desk: Desk,
    pub passes: Vec<Pass>,
}
