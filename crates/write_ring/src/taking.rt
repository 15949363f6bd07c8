//! All writes are taken out of a ring.
ghost use Rattle.std.specs.Prelude.{◌≡◌, [], length, IfOk, IfErr, OnErr};
ghost use Rattle.turn_book.specs.Histories.{IsPrefix};
ghost use Rattle.write_ring.specs.declared.machine.RingEntry.TheVariants as entries;
ghost use Rattle.write_ring.specs.Ring.{IsRingHistory};
ghost use Rattle.write_ring.specs.Seen.{pass_view, pass_seen, IsPassOf, entries_by, IsEntered, IsSpent, IsStopped};

use crate::attempting::take_held;
use crate::pass::RingPass;
use crate::ring::WriteRing;
use crate::stop::{RingSpent, RingStop};
use crate::write::RingWrites;
use std::sync::Wait;
use turn_book::Took;

impl WriteRing {
    /// One attempt to take all writes, which waits for nobody.
    ///
    /// `Ok(n)`: the n writes that stood are in `out`, in their order, in place of what was there, and none stands in the ring; it
    /// has an entry in the ring's history. `Err(Busy)`: the turn of the queue was found taken, or the exchange of the front was
    /// lost. `Err(Spent(_))`: the history has 2^40 entries. Neither has an entry; the ring's writes stay, and `out` is empty.
    ///
    /// The pass is of this ring.
    pub fn try_take(&self, pass: &mut RingPass, out: &mut RingWrites) -> Result<usize, RingStop>
        requires pass { IsPassOf self.now pass.old }
        ensures pass { IsPassOf self.now pass.new }
        ensures number { pass.new.number ≡ pass.old.number }
        ensures seen { IsPrefix (pass_seen pass.old) (pass_seen pass.new) }
        ensures legal { IsRingHistory (pass_seen pass.new) }
        ensures entered { IfOk result (λ _.
            IsEntered (entries.Take pass.old.number out.new.items) (pass_seen pass.old) (pass_seen pass.new)) }
        ensures count { IfOk result (λ n. n ≡ length out.new.items) }
        ensures nothing { OnErr result (out.new.items ≡ []) }
        ensures stopped { IfErr result (λ stop. IsStopped stop (pass_view pass.old) (pass_view pass.new)) }
        ensures own { OnErr result (entries_by pass.old.number (pass_seen pass.new) ≡ entries_by pass.old.number (pass_seen pass.old)) }
    {
        match self.book.take(&mut pass.pen, 0) {
            Took::Found => {
                let _ = self.book.front(&mut pass.pen);
                out.clear();
                Err(RingStop::Busy)
            }
            Took::Got => {
                let answer = take_held(&self.book, &mut pass.pen, pass.number, out);
                self.book.give(&mut pass.pen, 0);
                answer
            }
        }
    }

    /// Takes all writes: it is attempted, as `try_take` does, until the attempt is answered.
    ///
    /// `Ok(n)`: the n writes that stood are in `out`, in their order, in place of what was there, and none stands in the ring; n is
    /// 0 exactly where none stood. It has an entry in the ring's history. `Err(_)`: the history has 2^40 entries, and takes no
    /// more; `out` is empty. It takes no memory. That it returns is not promised.
    ///
    /// The pass is of this ring.
    pub fn take<R: Wait>(
        &self,
        rt: &R,
        pass: &mut RingPass,
        out: &mut RingWrites,
    ) -> Result<usize, RingSpent>
        requires pass { IsPassOf self.now pass.old }
        ensures pass { IsPassOf self.now pass.new }
        ensures number { pass.new.number ≡ pass.old.number }
        ensures seen { IsPrefix (pass_seen pass.old) (pass_seen pass.new) }
        ensures legal { IsRingHistory (pass_seen pass.new) }
        ensures entered { IfOk result (λ _.
            IsEntered (entries.Take pass.old.number out.new.items) (pass_seen pass.old) (pass_seen pass.new)) }
        ensures count { IfOk result (λ n. n ≡ length out.new.items) }
        ensures nothing { OnErr result (out.new.items ≡ []) }
        ensures spent { IfErr result (λ spent. IsSpent spent (pass_seen pass.new)) }
        ensures own { OnErr result (entries_by pass.old.number (pass_seen pass.new) ≡ entries_by pass.old.number (pass_seen pass.old)) }
    {
        for _ in rt.forever() {
            match self.try_take(pass, out) {
                Ok(count) => return Ok(count),
                Err(RingStop::Spent(spent)) => return Err(spent),
                Err(RingStop::Busy) => {}
            }
        }
        unreachable!()
    }
}
