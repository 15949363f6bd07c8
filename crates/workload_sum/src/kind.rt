//! The kinds of replies that a summary counts.
ghost use Rattle.std.specs.Prelude.{◌≡◌};
ghost use Rattle.workload_sum.specs.Counts.{is_of};

use irq_base::{Reply, Status};

/// What a summary counts beside the calls.
#[derive(Clone, Copy)]
pub enum Kind {
    /// Signals that some processor or the 8259A pair newly took.
    Delivered,
    /// Signals whose request stood already.
    Coalesced,
    /// Signals without effect.
    Ignored,
    /// Vectors that a processor was given.
    Vectors,
    /// Interrupts that a processor ended.
    Ended,
    /// Counts that were taken from a counter.
    Taken,
    /// Calls that the board refused.
    Refused,
}

impl Kind {
    /// Whether a reply is of this kind.
    pub fn is_of(self, reply: Reply) -> bool
        ensures { result ≡ is_of self reply }
    {
        match self {
            Kind::Delivered => matches!(reply, Reply::Signal(Status::Delivered { .. })),
            Kind::Coalesced => matches!(reply, Reply::Signal(Status::Coalesced { .. })),
            Kind::Ignored => matches!(reply, Reply::Signal(Status::Ignored(_))),
            Kind::Vectors => matches!(reply, Reply::Vector(_)),
            Kind::Ended => matches!(reply, Reply::Ended(_)),
            Kind::Taken => matches!(reply, Reply::Count(_)),
            Kind::Refused => matches!(reply, Reply::Refused(_)),
        }
    }
}
