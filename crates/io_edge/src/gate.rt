//! Where the turns of actors may be held.

/// What is told of each turn of each actor, and may hold it. It has no meaning: no clause speaks of what a gate does.
pub trait Gate: Sync {
    /// The actor is about to make the call of that number, from 0; or its last call was answered, the number being one above.
    fn at(&self, actor: u32, turn: u64);
}

/// A gate that holds nothing.
#[derive(Clone, Copy, Debug)]
pub struct OpenGate;

impl Gate for OpenGate {
    fn at(&self, _actor: u32, _turn: u64) {}
}
