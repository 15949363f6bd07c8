//! One word of the spare bank.
ghost use Rattle.std.specs.Prelude.{◌≡◌, ℕ, ◌<◌, true, false, is_some, nat_eq, Some};
ghost use Rattle.turn_book.specs.Banks.{draft_at, IsSpareBank};
ghost use Rattle.turn_book.specs.Views.{view_of, slots_of};
ghost use Rattle.route_bank.specs.Drafting.{ChangesDrafts};

use turn_book::{Machine, Pen, SpareBank, TurnBook};

/// Writes one word to the spare bank.
#[inline]
pub fn draft<M: Machine>(
    book: &TurnBook<M>,
    pen: &mut Pen<M>,
    bank: SpareBank,
    index: u32,
    value: u64,
)
    requires book { pen.old.seat.table_id ≡ book.now.table.shared.table_id }
    requires knows { is_some (view_of pen.old.seat).knows ≡ true }
    requires bank { IsSpareBank book.now.table.shared.table_id.slots book.now.width (view_of pen.old.seat) bank.begin }
    requires index { index < book.now.width }
    ensures book { pen.new.seat.table_id ≡ pen.old.seat.table_id }
    ensures knows { is_some (view_of pen.new.seat).knows ≡ true }
    ensures bank { IsSpareBank book.now.table.shared.table_id.slots book.now.width (view_of pen.new.seat) bank.begin }
    ensures drafted { draft_at index (view_of pen.new.seat).drafts ≡ Some value }
    ensures others { (i : ℕ) → nat_eq index i ≡ false → draft_at i (view_of pen.new.seat).drafts
        ≡ draft_at i (view_of pen.old.seat).drafts }
    ensures rest { ChangesDrafts (view_of pen.old.seat) (view_of pen.new.seat) }
    ensures slots { slots_of pen.new.seat ≡ slots_of pen.old.seat }
{
    book.spare_in(pen, bank, index, value);
}
