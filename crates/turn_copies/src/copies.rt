//! Working copies of parts that a pen holds.
ghost use Rattle.std.specs.Prelude.{◌≡◌, ℕ, List, true, false, nat_eq, is_some, Some};
ghost use Rattle.turn_book.specs.Hands.{held_at, slot_at, AreHome};
ghost use Rattle.turn_book.specs.Histories.{is_in};
ghost use Rattle.turn_book.specs.Many.{AreApart, HoldsAll};
ghost use Rattle.turn_book.specs.Views.{view_of, slots_of};
ghost use Rattle.turn_copies.specs.Copies.{copied_at, copied_each, written_at, HasRoom, AllFit};

use turn_book::{Machine, Pen, TurnBook, part_of};

/// Working copies of parts, which are written back or dropped.
pub trait Copies<P> {
    // the copies, with one of this value of the part
    ghost copied: { ℕ → P → Self → Self };

    // the part's value once its copy is written back
    ghost written: { ℕ → Self → P → P };

    // there is room for a copy of this value of the part
    ghost has_room: { ℕ → P → Self → Type 0 };

    // the copy of the part can be written over this value
    ghost fits: { ℕ → Self → P → Type 0 };

    /// Takes in a copy of the part.
    fn copy_in(&mut self, part: u32, kept: &P)
        requires { has_room part kept.now self.old }
        ensures { self.new ≡ copied part kept.now self.old };

    /// Writes the copy of the part over it.
    fn write_back(&self, part: u32, kept: &mut P)
        requires { fits part self.now kept.old }
        ensures { kept.new ≡ written part self.now kept.old };

    // a copy leaves the room for others
    ghost room_stays: { (p q : ℕ) (x y : P) (c : Self) → has_room p x c → has_room q y c → has_room q y (copied p x c) };
}

// A copy of one part that the pen holds. The pen and its slots stay as they are.
fn copy_one<M: Machine, C: Copies<M::Part>>(
    book: &TurnBook<M>,
    pen: &mut Pen<M>,
    part: u32,
    copies: &mut C,
)
    requires book { pen.old.seat.table_id ≡ book.now.table.shared.table_id }
    requires held { is_some (held_at part (view_of pen.old.seat).held) ≡ true }
    requires home { AreHome (view_of pen.old.seat).held (slots_of pen.old.seat) }
    requires room { (x : M.Part) → held_at part (view_of pen.old.seat).held ≡ Some x → C.has_room part x copies.old }
    ensures book { pen.new.seat.table_id ≡ pen.old.seat.table_id }
    ensures home { AreHome (view_of pen.new.seat).held (slots_of pen.new.seat) }
    ensures view { view_of pen.new.seat ≡ view_of pen.old.seat }
    ensures copied { copies.new ≡ copied_at C.copied part (held_at part (view_of pen.old.seat).held) copies.old }
    ensures room { (ps : List ℕ) → HasRoom C.has_room ps (view_of pen.old.seat).held copies.old
        → HasRoom C.has_room ps (view_of pen.new.seat).held copies.new }
{
    let slot = part_of(pen, book, part);
    copies.copy_in(part, slot);
}

/// A copy of each of the parts, which the pen holds and has in hand as the history has them. The pen and its slots stay as
/// they are.
pub fn copy_each<M: Machine, C: Copies<M::Part>>(
    book: &TurnBook<M>,
    pen: &mut Pen<M>,
    parts: &[u32],
    copies: &mut C,
)
    requires book { pen.old.seat.table_id ≡ book.now.table.shared.table_id }
    requires held { HoldsAll parts.now (view_of pen.old.seat).held }
    requires home { AreHome (view_of pen.old.seat).held (slots_of pen.old.seat) }
    requires room { HasRoom C.has_room parts.now (view_of pen.old.seat).held copies.old }
    ensures book { pen.new.seat.table_id ≡ pen.old.seat.table_id }
    ensures home { AreHome (view_of pen.new.seat).held (slots_of pen.new.seat) }
    ensures view { view_of pen.new.seat ≡ view_of pen.old.seat }
    ensures copied { copies.new ≡ copied_each C.copied parts.now (view_of pen.old.seat).held copies.old }
{
    if let Some((part, rest)) = parts.split_first() {
        copy_one(book, pen, *part, copies);
        copy_each(book, pen, rest, copies);
    }
}

// The copy of one part that the pen holds, written into its slot. No other slot changes.
fn write_one<M: Machine, C: Copies<M::Part>>(
    book: &TurnBook<M>,
    pen: &mut Pen<M>,
    part: u32,
    copies: &C,
)
    requires book { pen.old.seat.table_id ≡ book.now.table.shared.table_id }
    requires held { is_some (held_at part (view_of pen.old.seat).held) ≡ true }
    requires fits { (x : M.Part) → slot_at part (slots_of pen.old.seat) ≡ Some x → C.fits part copies.now x }
    ensures book { pen.new.seat.table_id ≡ pen.old.seat.table_id }
    ensures view { view_of pen.new.seat ≡ view_of pen.old.seat }
    ensures slots { (q : ℕ) → slot_at q (slots_of pen.new.seat)
        ≡ written_at C.written copies.now (nat_eq part q) q (slot_at q (slots_of pen.old.seat)) }
    ensures fits { (ps : List ℕ) → is_in part ps ≡ false → AllFit C.fits ps copies.now (slots_of pen.old.seat)
        → AllFit C.fits ps copies.now (slots_of pen.new.seat) }
{
    let slot = part_of(pen, book, part);
    copies.write_back(part, slot);
}

/// The copy of each of the parts, which the pen holds, written into its slot. No other slot changes.
pub fn write_each<M: Machine, C: Copies<M::Part>>(
    book: &TurnBook<M>,
    pen: &mut Pen<M>,
    parts: &[u32],
    copies: &C,
)
    requires book { pen.old.seat.table_id ≡ book.now.table.shared.table_id }
    requires apart { AreApart parts.now }
    requires held { HoldsAll parts.now (view_of pen.old.seat).held }
    requires fits { AllFit C.fits parts.now copies.now (slots_of pen.old.seat) }
    ensures book { pen.new.seat.table_id ≡ pen.old.seat.table_id }
    ensures view { view_of pen.new.seat ≡ view_of pen.old.seat }
    ensures slots { (q : ℕ) → slot_at q (slots_of pen.new.seat)
        ≡ written_at C.written copies.now (is_in q parts.now) q (slot_at q (slots_of pen.old.seat)) }
{
    if let Some((part, rest)) = parts.split_first() {
        write_one(book, pen, *part, copies);
        write_each(book, pen, rest, copies);
    }
}
