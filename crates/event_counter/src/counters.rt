//! The counters of a board.
ghost use Rattle.std.specs.Prelude.{◌≡◌, ◌+◌, ◌-◌, ◌^◌, ◌<◌, ◌≤◌, ◌↔◌, length, replicate, slice_index, IfOk, IsErr, OnOk, OnErr};
ghost use Rattle.irq_base.specs.Counts.{signalled};
ghost use Rattle.event_counter.specs.Counters.{written, taken, what_is_read};

use irq_base::{NoMemory, Tally};
use std::alloc::Global;
use std::marker::Model;

/// The greatest count, 2^64 - 2 (eventfd(2)).
const GREATEST: u64 = u64::MAX - 1;

/// Counters, numbered from 0.
#[derive(Drop)]
pub struct Counters {
    counts: Vec<u64>,
}

/// A write would pass the greatest count, 2^64 - 2.
#[derive(Clone, Copy, Debug, PartialEq, Eq)]
pub struct Over;

impl Model for Counters {
    ghost use Rattle.std.specs.Prelude.{ℕ, List, All, ◌≤◌, ◌-◌, ◌^◌};

    ghost Value = { List ℕ };

    ghost view = { λ c. c.counts.items };

    ghost invariant = { λ c. All (λ n. n ≤ 2 ^ 64 - 2) c.counts.items };
}

impl Counters {
    /// So many counters, each at 0.
    pub fn power_on(alloc: Global, n: u16) -> Result<Counters, NoMemory>
        ensures { IfOk result (λ counters. counters ≡ replicate n 0) }
    {
        match vec![in alloc; 0; n as usize] {
            Ok(counts) => Ok(Counters { counts }),
            Err(_) => Err(NoMemory),
        }
    }

    /// Adds n to a counter. Where the sum would pass 2^64 - 2, the answer is `Over` and nothing changes.
    pub fn write(&mut self, c: u16, n: u64) -> Result<(), Over>
        requires counter { c < length self.old }
        requires count { n < 2 ^ 64 - 1 }
        ensures over { IsErr result ↔ (2 ^ 64 - 2 < slice_index self.old c + n) }
        ensures ok { OnOk result (self.new ≡ written self.old c n) }
        ensures err { OnErr result (self.new ≡ self.old) }
    {
        match self.counts[c as usize].checked_add(n) {
            Some(sum) if sum <= GREATEST => {
                self.counts[c as usize] = sum;
                Ok(())
            }
            _ => Err(Over),
        }
    }

    /// Adds one to a counter, which stops at 2^64 - 2.
    pub fn signal(&mut self, c: u16)
        requires { c < length self.old }
        ensures { self.new ≡ signalled self.old c }
    {
        let count = self.counts[c as usize];
        self.counts[c as usize] = GREATEST.min(count + 1);
    }

    /// Takes the count of a counter, which is 0 from then on; none where it is 0.
    pub fn take(&mut self, c: u16) -> Option<u64>
        requires { c < length self.old }
        ensures value { result ≡ what_is_read (slice_index self.old c) }
        ensures after { self.new ≡ taken self.old c }
    {
        let count = self.counts[c as usize];
        self.counts[c as usize] = 0;
        if count == 0 { None } else { Some(count) }
    }

    /// The count of a counter.
    pub fn count(&self, c: u16) -> u64
        requires { c < length self.now }
        ensures value { result ≡ slice_index self.now c }
        ensures limit { result ≤ 2 ^ 64 - 2 }
    {
        self.counts[c as usize]
    }

    /// Makes the counts equal to the other's, which are as many.
    pub fn copy_from(&mut self, other: &Counters)
        requires { length self.old ≡ length other.now }
        ensures { self.new ≡ other.now }
    {
        self.counts
            .as_mut_slice()
            .copy_from_slice(other.counts.as_slice());
    }
}

impl Tally for Counters {
    ghost counts = { λ c. c };

    fn signal(&mut self, c: u16) {
        Counters::signal(self, c);
    }
}
