ghost use Rattle.std.specs.Prelude.{◌≡◌, ◌∷◌, true, is_some, Some};
ghost use Rattle.std.specs.Borrow.{Lends, sem};
ghost use Rattle.atomic_table.specs.Table.{rest};
ghost use Rattle.atomic_table.specs.contracts.shared.Seat.{the_row};
ghost use Rattle.turn_book.specs.Hands.{brought, held_at, slot_at};
ghost use Rattle.turn_book.specs.Lent.{lent_with};
ghost use Rattle.turn_book.specs.contracts.view.View.{the_row as view_row};

use crate::book::TurnBook;
use crate::machine::Machine;
use crate::pen::Hand;
use atomic_table::Seat;

/// The slot comes to the front of those that the seat has in hand, where it is one of them.
#[inline]
pub(crate) fn bring<S, V>(seat: &mut Seat<S, V>, slot: usize)
    ensures { (seat.new.table_id ≡ seat.old.table_id) × (seat.new.id ≡ seat.old.id)
        × (seat.new.me ≡ (seat.old.me.0, brought slot seat.old.me.1)) }
{}

/// The part in hand, lent by the seat.
#[inline]
pub(crate) fn part_brought<'a, M: Machine>(
    hand: &'a mut Hand<M>,
    book: &'a TurnBook<M>,
    part: u32,
) -> &'a mut M::Part
    requires book { hand.old.table_id ≡ book.now.table.shared.table_id }
    requires first { (x : M.Part) × (brought part hand.old.me.1 ≡ (part, x) ∷ rest (brought part hand.old.me.1)) }
    ensures* writes_back { sem 𝓛 (Lends (the_row M.Part.row (view_row M.State.row M.Entry.row M.Part.row))
        M.Part.row hand.entry result (lent_with hand.old part)) }
    ensures value { brought part hand.old.me.1 ≡ (part, result.now) ∷ rest (brought part hand.old.me.1) }
{
    bring(hand, part as usize);
    hand.slot_mut(&book.table.shared, part as usize)
}
