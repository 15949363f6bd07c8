//! What counts signals.
ghost use Rattle.std.specs.Prelude.{◌≡◌, ℕ, List, ◌<◌, length};
ghost use Rattle.irq_base.specs.Counts.{signalled};

/// Counters in the manner of eventfd, seen as a list of counts.
pub trait Tally {
    // The count of each counter.
    ghost counts: { Self → List ℕ };

    /// Adds one to the counter. At 2^64 - 2, the greatest count of eventfd(2), it stays: where a write to an eventfd would
    /// wait, a board cannot (this board's own rule).
    fn signal(&mut self, c: u16)
        requires { c < length (counts self.old) }
        ensures { counts self.new ≡ signalled (counts self.old) c };
}
