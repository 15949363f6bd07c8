//! What the lines of a script's actors ask.
use irq_base::{Call, Caller};

/// What a line asks.
#[derive(Drop)]
pub enum Task {
    /// This call.
    Once(Call),
    /// The call so many times, 1 to 1,000,000.
    Repeat(u32, Call),
    /// So many rounds, 1 to 1,000,000: an acknowledge, and the end of the interrupt that it gives.
    Serve(u32),
}

/// A line of an actor.
#[derive(Drop)]
pub struct ActorLine {
    pub caller: Caller,
    pub task: Task,
}
