//! The machine of a running board.

use irq_base::Entry;
use part_slots::{Slot, State};
use turn_book::Machine;

/// A board whose parts stand behind turns, and whose routing is published.
pub struct RunningBoard;

impl Machine for RunningBoard {
    type Part = Slot;

    type Entry = Entry;

    type State = State;

    ghost use Rattle.board_step.specs.Publications.{words};
    ghost use Rattle.board_step.specs.Step.{is_publication};
    ghost use Rattle.part_slots.specs.Slots.{slots_of};
    ghost use Rattle.part_slots.specs.Running.{Opens, opening_of, IsStep, caller_of, reach_at, HasRoom};
    ghost use Rattle.part_slots.proofs.Running.{one_step, count_stays, unreached_stays, depends_on_reach, words_stay, width_stays, bounded};

    ghost opens = { Opens };

    ghost opening = { opening_of };

    ghost steps = { IsStep };

    ghost parts = { slots_of };

    ghost published = { words };

    ghost caller = { caller_of };

    ghost is_publication = { is_publication };

    ghost reach = { reach_at };

    ghost has_room = { HasRoom };

    ghost one_step = { one_step };

    ghost count_stays = { count_stays };

    ghost unreached_stays = { unreached_stays };

    ghost depends_on_reach = { depends_on_reach };

    ghost words_stay = { words_stay };

    ghost width_stays = { width_stays };

    ghost bounded = { bounded };
}
