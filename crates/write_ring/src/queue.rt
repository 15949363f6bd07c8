//! The queue of a ring.
ghost use Rattle.std.specs.Prelude.{◌≡◌, ◌<◌, ◌^◌, [], length};
ghost use Rattle.write_ring.specs.Queue.{empty_queue, reply_of, queue_put, queue_taken};

use crate::write::{RingPut, RingWrite, RingWrites};

/// The writes that stand in a ring, at most 128, and how many were ever placed.
#[derive(Drop)]
pub struct RingQueue {
    pub writes: RingWrites,
    pub placed: u64,
}

impl RingQueue {
    /// The queue with nothing in it, into which nothing was ever placed.
    pub fn empty() -> RingQueue
        ensures { result ≡ empty_queue }
    {
        RingQueue {
            writes: RingWrites::new(),
            placed: 0,
        }
    }

    /// What a put is answered now.
    pub fn reply(&self) -> RingPut
        ensures { result ≡ reply_of self.now }
    {
        if self.writes.is_full() {
            RingPut::Full
        } else {
            RingPut::Placed { at: self.placed }
        }
    }

    /// Puts the write behind the others, where there is room.
    pub fn put(&mut self, write: &RingWrite)
        requires count { self.old.placed < 2 ^ 40 }
        ensures { self.new ≡ queue_put write.now self.old }
    {
        if !self.writes.is_full() {
            self.writes.push(*write);
            self.placed += 1;
        }
    }

    /// Copies all writes, in their order, over those of `out`.
    pub fn copy_into(&self, out: &mut RingWrites)
        ensures { out.new.items ≡ self.now.writes.items }
    {
        out.clear();
        // there is room for all
        let _ = out.try_extend_from_slice(self.writes.as_slice());
    }

    /// Leaves no write in the queue.
    pub fn clear(&mut self)
        ensures { self.new ≡ queue_taken self.old }
    {
        self.writes.clear();
    }
}
