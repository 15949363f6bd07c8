//! What a call answers.
use crate::refusal::Refusal;
use crate::status::Status;

/// What a call answers.
#[derive(Clone, Copy, Debug, PartialEq, Eq)]
pub enum Reply {
    /// A signal's status.
    Signal(Status),
    /// It was done, and there is nothing to say of it.
    Done,
    /// The count that was taken.
    Count(u64),
    /// The counter stood at 0.
    Empty,
    /// How many rows were removed, 0 or 1.
    Removed(u8),
    /// What a read gave, in the length of the access.
    Value(u64),
    /// The access belongs to nobody on the board and goes to the monitor.
    Exit,
    /// The vector that the local APIC gives.
    Vector(u8),
    /// The vector that the 8259A pair gives through LINT0.
    Extint(u8),
    /// A pending NMI.
    Nmi,
    /// The vector whose service ended.
    Ended(u8),
    /// There was none to give, or to end.
    Nothing,
    /// The tick was held back; so many are pending.
    Held(u64),
    Refused(Refusal),
}

/// The limit of a board that bars a call.
#[derive(Clone, Copy, Debug, PartialEq, Eq)]
pub enum Spent {
    Calls { at: u64 },
    Publications { at: u32 },
}

/// An answer, and the number of entries that stood before its own.
#[derive(Clone, Copy, Debug, PartialEq, Eq)]
pub struct Done {
    pub reply: Reply,
    pub at: u64,
}
