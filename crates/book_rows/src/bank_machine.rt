use ack_notifiers::Watches;
use irqfd_set::Irqfds;
use route_table::Table;
use turn_book::Machine;

/// The GSI of ticks.
pub const TICK: u16 = 2;

/// A routing table with its irqfds and watches.
#[derive(Drop)]
pub struct Registry {
    pub table: Table,
    pub irqfds: Irqfds,
    pub watches: Watches,
}

/// One entry of the machine.
#[derive(Drop)]
pub enum Change {
    /// A caller puts a registry in the place of the one that is there: a publication.
    Put(u32, Registry),
    /// A caller makes an entry that changes nothing.
    Pass(u32),
}

/// The registry, how many entries were made, and how many publications. No value of it is made.
pub struct Board {
    pub registry: Registry,
    pub changes: u64,
    pub puts: u64,
}

/// The machine of one registry, whose words are published.
pub struct Routing;

impl Machine for Routing {
    type Part = Registry;

    type Entry = Change;

    type State = Board;

    ghost use Rattle.book_rows.specs.Putting.{IsNew, Changed, board_with, registries_of, words_of, caller_of, is_put, put_reach, has_room, one_change, one_registry, as_many_words, unput_stays, puts_depend, unput_words, puts_bounded};

    ghost opens = { IsNew };

    ghost opening = { board_with };

    ghost steps = { Changed };

    ghost parts = { registries_of };

    ghost published = { words_of };

    ghost caller = { caller_of };

    ghost is_publication = { is_put };

    ghost reach = { λ s e. put_reach e };

    ghost has_room = { has_room };

    ghost one_step = { one_change };

    ghost count_stays = { one_registry };

    ghost unreached_stays = { unput_stays };

    ghost depends_on_reach = { puts_depend };

    ghost words_stay = { unput_words };

    ghost width_stays = { as_many_words };

    ghost bounded = { puts_bounded };
}
