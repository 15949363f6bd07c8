//! Why a call on a ring was not answered.

/// The ring's history has 2^40 entries, and takes no more.
#[derive(Clone, Copy, Debug, PartialEq, Eq)]
pub struct RingSpent {
    /// How many entries the history has.
    pub at: u64,
}

/// Why an attempt of a call on a ring was not answered.
#[derive(Clone, Copy, Debug, PartialEq, Eq)]
pub enum RingStop {
    /// Another call was under way.
    Busy,
    /// The ring's history takes no more entries.
    Spent(RingSpent),
}
