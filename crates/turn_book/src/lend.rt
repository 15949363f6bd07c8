ghost use Rattle.std.specs.Prelude.{◌≡◌, ◌∷◌, true, is_some, Some};
ghost use Rattle.std.specs.Borrow.{Lends, sem};
ghost use Rattle.turn_book.specs.Hands.{brought, held_at, slot_at};
ghost use Rattle.turn_book.specs.Views.{view_of, slots_of};
ghost use Rattle.turn_book.specs.Lent.{lent_with, lent-distinct, lent-paired};
ghost use Rattle.turn_book.specs.contracts.pen.Pen.{the_row as pen_row};

use crate::book::TurnBook;
use crate::machine::Machine;
use crate::pen::Pen;
use crate::slots::part_brought;

/// The part in hand, lent. What is written through it is what the pen then has in hand, and no other slot changes.
#[inline]
pub fn part_of<'a, M: Machine>(
    pen: &'a mut Pen<M>,
    book: &'a TurnBook<M>,
    part: u32,
) -> &'a mut M::Part
    requires book { pen.old.seat.table_id ≡ book.now.table.shared.table_id }
    requires held { is_some (held_at part (view_of pen.old.seat).held) ≡ true }
    ensures* writes_back { sem 𝓛 (Lends (pen_row M.row M.Part.row M.Entry.row M.State.row M.Machine) M.Part.row pen.entry result (λ w.
        record pen.old {
          seat = lent_with pen.old.seat part w;
          distinct = lent-distinct part w (slots_of pen.old.seat) pen.old.distinct;
          paired =
              lent-paired part w (view_of pen.old.seat).held (slots_of pen.old.seat) pen.old.distinct pen.old.paired;
        })) }
    ensures value { slot_at part (slots_of pen.old.seat) ≡ Some result.now }
{
    part_brought(&mut pen.seat, book, part)
}

impl<M: Machine> TurnBook<M> {
    /// The part in hand, lent: the same as `part_of`, with the book first.
    ///
    /// A caller follows what is written through it where the pen stands first, as in `part_of`.
    #[inline]
    pub fn lend<'a>(&'a self, pen: &'a mut Pen<M>, part: u32) -> &'a mut M::Part
        requires book { pen.old.seat.table_id ≡ self.now.table.shared.table_id }
        requires held { is_some (held_at part (view_of pen.old.seat).held) ≡ true }
        ensures* writes_back { sem 𝓛 (Lends (pen_row M.row M.Part.row M.Entry.row M.State.row M.Machine) M.Part.row pen.entry result (λ w.
            record pen.old {
              seat = lent_with pen.old.seat part w;
              distinct = lent-distinct part w (slots_of pen.old.seat) pen.old.distinct;
              paired =
                  lent-paired part w (view_of pen.old.seat).held (slots_of pen.old.seat) pen.old.distinct pen.old.paired;
            })) }
        ensures value { slot_at part (slots_of pen.old.seat) ≡ Some result.now }
    {
        part_of(pen, self, part)
    }
}
