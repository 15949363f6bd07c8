//! The law of the writes of a ring: a function with no body, the contract of which is what holds.
ghost use Rattle.write_ring.specs.Losses.{LosesNone};

/// A law: no write is lost, none is doubled, and all keep their order. Along every history of a ring, the writes that were placed are
/// those that were taken, and behind them those that stand.
pub fn no_write_is_lost()
    ensures { LosesNone }
{}
