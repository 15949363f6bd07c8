//! What the threads count.

/// How often a device raised its interrupt, how often a processor took it, and how often the device was told that it was.
#[derive(Clone, Copy, PartialEq, Eq)]
pub struct Served {
    pub raised: u64,
    pub taken: u64,
    pub told: u64,
}

/// What a thread counts.
#[derive(Clone, Copy, PartialEq, Eq)]
pub struct Tally {
    /// Its calls that were answered: the entries of its pass.
    pub calls: u64,
    /// Those of them that changed the published words.
    pub published: u64,
    /// How often it read a route as it was published.
    pub routed: u64,
    pub disk: Served,
    pub network: Served,
    pub timer: Served,
}

impl Served {
    /// Nothing.
    pub fn none() -> Served {
        Served {
            raised: 0,
            taken: 0,
            told: 0,
        }
    }

    /// Both together.
    pub fn and(self, other: Served) -> Served {
        Served {
            raised: self.raised.saturating_add(other.raised),
            taken: self.taken.saturating_add(other.taken),
            told: self.told.saturating_add(other.told),
        }
    }

    /// Whether each count is this one.
    pub fn is_all(&self, count: u64) -> bool {
        self.raised == count && self.taken == count && self.told == count
    }
}

impl Tally {
    /// Nothing.
    pub fn none() -> Tally {
        Tally {
            calls: 0,
            published: 0,
            routed: 0,
            disk: Served::none(),
            network: Served::none(),
            timer: Served::none(),
        }
    }

    /// Both together.
    pub fn and(self, other: Tally) -> Tally {
        Tally {
            calls: self.calls.saturating_add(other.calls),
            published: self.published.saturating_add(other.published),
            routed: self.routed.saturating_add(other.routed),
            disk: self.disk.and(other.disk),
            network: self.network.and(other.network),
            timer: self.timer.and(other.timer),
        }
    }
}
