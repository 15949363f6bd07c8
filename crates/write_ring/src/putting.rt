//! A write is put into a ring.
ghost use Rattle.std.specs.Prelude.{◌≡◌, IfOk, IfErr, OnErr};
ghost use Rattle.turn_book.specs.Histories.{IsPrefix};
ghost use Rattle.write_ring.specs.declared.machine.RingEntry.TheVariants as entries;
ghost use Rattle.write_ring.specs.Ring.{IsRingHistory};
ghost use Rattle.write_ring.specs.Seen.{pass_view, pass_seen, IsPassOf, entries_by, IsEntered, IsSpent, IsStopped};

use crate::attempting::put_held;
use crate::pass::RingPass;
use crate::ring::WriteRing;
use crate::stop::{RingSpent, RingStop};
use crate::write::{RingPut, RingWrite};
use std::sync::Wait;
use turn_book::Took;

impl WriteRing {
    /// One attempt to put a write, which waits for nobody.
    ///
    /// `Ok(Placed { at })`: the write stands last, and `at` were placed before it. `Ok(Full)`: 128 writes stood, and it was not
    /// placed. Both have an entry in the ring's history. `Err(Busy)`: the turn of the queue was found taken, or the exchange of
    /// the front was lost. `Err(Spent(_))`: the history has 2^40 entries. Neither has an entry, and nothing was placed.
    ///
    /// The pass is of this ring.
    pub fn try_put(&self, pass: &mut RingPass, write: &RingWrite) -> Result<RingPut, RingStop>
        requires pass { IsPassOf self.now pass.old }
        ensures pass { IsPassOf self.now pass.new }
        ensures number { pass.new.number ≡ pass.old.number }
        ensures seen { IsPrefix (pass_seen pass.old) (pass_seen pass.new) }
        ensures legal { IsRingHistory (pass_seen pass.new) }
        ensures entered { IfOk result (λ reply.
            IsEntered (entries.Put pass.old.number write.now reply) (pass_seen pass.old) (pass_seen pass.new)) }
        ensures stopped { IfErr result (λ stop. IsStopped stop (pass_view pass.old) (pass_view pass.new)) }
        ensures own { OnErr result (entries_by pass.old.number (pass_seen pass.new) ≡ entries_by pass.old.number (pass_seen pass.old)) }
    {
        match self.book.take(&mut pass.pen, 0) {
            Took::Found => {
                let _ = self.book.front(&mut pass.pen);
                Err(RingStop::Busy)
            }
            Took::Got => {
                let answer = put_held(&self.book, &mut pass.pen, pass.number, write);
                self.book.give(&mut pass.pen, 0);
                answer
            }
        }
    }

    /// Puts a write: it is attempted, as `try_put` does, until the attempt is answered.
    ///
    /// `Ok(Placed { at })`: the write stands last, and `at` were placed before it. `Ok(Full)`: 128 writes stood, and it was not
    /// placed. Both have an entry in the ring's history. `Err(_)`: the history has 2^40 entries, and takes no more. It takes no
    /// memory. That it returns is not promised.
    ///
    /// The pass is of this ring.
    pub fn put<R: Wait>(
        &self,
        rt: &R,
        pass: &mut RingPass,
        write: &RingWrite,
    ) -> Result<RingPut, RingSpent>
        requires pass { IsPassOf self.now pass.old }
        ensures pass { IsPassOf self.now pass.new }
        ensures number { pass.new.number ≡ pass.old.number }
        ensures seen { IsPrefix (pass_seen pass.old) (pass_seen pass.new) }
        ensures legal { IsRingHistory (pass_seen pass.new) }
        ensures entered { IfOk result (λ reply.
            IsEntered (entries.Put pass.old.number write.now reply) (pass_seen pass.old) (pass_seen pass.new)) }
        ensures spent { IfErr result (λ spent. IsSpent spent (pass_seen pass.new)) }
        ensures own { OnErr result (entries_by pass.old.number (pass_seen pass.new) ≡ entries_by pass.old.number (pass_seen pass.old)) }
    {
        for _ in rt.forever() {
            match self.try_put(pass, write) {
                Ok(reply) => return Ok(reply),
                Err(RingStop::Spent(spent)) => return Err(spent),
                Err(RingStop::Busy) => {}
            }
        }
        unreachable!()
    }
}
