// A reader that takes until it has so many writes, and looks at the order of each writer.
ghost use Rattle.std.specs.Prelude.{◌≡◌};
ghost use Rattle.write_ring.specs.Seen.{IsPassOf};

use crate::ring_writing::numbered;
use std::sync::Wait;
use write_ring::{RingPass, RingWrite, RingWrites, WriteRing};

/// What a reader found: the next number of each of four writers, and how many writes were none that was next.
#[derive(Clone, Copy, PartialEq, Eq)]
pub(crate) struct Tally {
    pub(crate) next: [u64; 4],
    pub(crate) wrong: u64,
}

impl Tally {
    // One write more.
    fn count(&mut self, write: &RingWrite) {
        match self.next.get_mut(usize::from(write.cpu)) {
            Some(next) if *write == numbered(write.cpu, *next) => {
                *next = next.wrapping_add(1);
            }
            _ => self.wrong = self.wrong.saturating_add(1),
        }
    }

    // All writes of one take.
    fn count_each(&mut self, writes: &RingWrites) {
        for write in writes.as_slice() {
            self.count(write);
        }
    }
}

/// Takes until `total` writes were taken.
pub(crate) fn take_all<R: Wait>(rt: &R, ring: &WriteRing, mut pass: RingPass, total: u64) -> Tally
    requires pass { IsPassOf ring.now pass }
{
    let mut tally = Tally {
        next: [0; 4],
        wrong: 0,
    };
    let mut out = RingWrites::new();
    let mut taken: u64 = 0;
    for _ in rt.forever() {
        if taken >= total {
            return tally;
        }
        let Ok(count) = ring.take(rt, &mut pass, &mut out) else {
            return tally;
        };
        tally.count_each(&out);
        taken = taken.saturating_add(count as u64);
    }
    unreachable!()
}
