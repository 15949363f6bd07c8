//! What holds of all replays.
ghost use Rattle.replaying.specs.Laws.{ReplaysAreOne};

/// A law: a script has one replay at most. Its history, and the limit that is told, are functions of the script.
pub fn replays_are_one()
    ensures { ReplaysAreOne }
{}
