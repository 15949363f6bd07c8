//! The machine of a ring.

use crate::queue::RingQueue;
use crate::write::{RingPut, RingWrite};
use std::collections::LinkedList;
use turn_book::Machine;

/// An entry of a ring's history. It stands in contracts alone: no value of it is made.
pub enum RingEntry {
    /// That pass put a write, with this answer.
    Put(u32, RingWrite, RingPut),
    /// That pass took these writes.
    Take(u32, LinkedList<RingWrite>),
}

/// The queue of a ring, and how many entries its history has. It stands in contracts alone: no value of it is made.
pub struct RingState {
    pub queue: RingQueue,
    pub entries: u64,
}

/// The machine of a ring: one part, the queue, and no published word.
pub struct Ring;

impl Machine for Ring {
    type Part = RingQueue;

    type Entry = RingEntry;

    type State = RingState;

    ghost use Rattle.std.specs.Prelude.{[], ◌∷◌, false};
    ghost use Rattle.write_ring.specs.Ring.{IsEmptyRing, empty_ring, IsRingStep, pass_of, is_queue, has_room};
    ghost use Rattle.write_ring.specs.Laws.{one_step, count_stays, unreached_stays, depends_on_reach, words_stay, width_stays, bounded};

    ghost opens = { IsEmptyRing };

    ghost opening = { λ parts. empty_ring };

    ghost steps = { IsRingStep };

    ghost parts = { λ s. s.queue ∷ [] };

    ghost published = { λ s. [] };

    ghost caller = { pass_of };

    ghost is_publication = { λ e. false };

    ghost reach = { λ s e. is_queue };

    ghost has_room = { has_room };

    ghost one_step = { one_step };

    ghost count_stays = { count_stays };

    ghost unreached_stays = { unreached_stays };

    ghost depends_on_reach = { depends_on_reach };

    ghost words_stay = { words_stay };

    ghost width_stays = { width_stays };

    ghost bounded = { bounded };
}
