use std::collections::LinkedList;
use turn_book::Machine;

/// One change of a row of counters.
#[derive(Clone, Copy)]
pub enum Change {
    /// A caller adds a number to a counter.
    Add(u32, u32, u64),
    /// A caller moves a number from the first counter to the second.
    Move(u32, u32, u32, u64),
}

/// The counters, and how many changes were made. No value of it is made.
pub struct Counts {
    pub counters: LinkedList<u64>,
    pub changes: u64,
}

/// The machine of a row of counters, with a turn for each.
pub struct Counting;

impl Machine for Counting {
    type Part = u64;

    type Entry = Change;

    type State = Counts;

    ghost use Rattle.std.specs.Prelude.{◌≡◌, [], false};
    ghost use Rattle.book_rows.specs.Counting.{Counted, caller_of, reach_of, has_room, one_step, count_stays, unreached_stays, depends_on_reach, words_stay, width_stays, bounded};

    ghost opens = { λ s. s.changes ≡ 0 };

    ghost opening = { λ parts. record { counters = parts; changes = 0 } };

    ghost steps = { Counted };

    ghost parts = { λ s. s.counters };

    ghost published = { λ s. [] };

    ghost caller = { caller_of };

    ghost is_publication = { λ e. false };

    ghost reach = { λ s e. reach_of e };

    ghost has_room = { has_room };

    ghost one_step = { one_step };

    ghost count_stays = { count_stays };

    ghost unreached_stays = { unreached_stays };

    ghost depends_on_reach = { depends_on_reach };

    ghost words_stay = { words_stay };

    ghost width_stays = { width_stays };

    ghost bounded = { bounded };
}
