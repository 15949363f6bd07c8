//! What a checker says of a transcript.

/// Why an entry, or the ending, is not legal; `Asked` is tried before `Reply`.
#[derive(Clone, Copy, Debug, PartialEq, Eq)]
pub enum Flaw {
    /// The entry is not the next call of an actor of the script with its caller.
    Asked,
    /// The call would be Spent there, or the board cannot answer it with this reply and these events.
    Reply,
    /// The ending is not right: an actor has not asked all its calls, or is not barred, or no actor is left.
    Ending,
}

/// What is said of a transcript beside its script.
#[derive(Clone, Copy, Debug, PartialEq, Eq)]
pub enum Verdict {
    Legal,
    /// The first place with a flaw: that of an entry, or for the ending the number of entries.
    NotAt { at: u64, cause: Flaw },
}
