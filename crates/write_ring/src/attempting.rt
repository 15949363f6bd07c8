//! A put or a take while the queue is in hand.
ghost use Rattle.std.specs.Prelude.{◌≡◌, ℕ, [], true, is_some, IfOk, IfErr, OnErr, length, Some};
ghost use Rattle.turn_book.specs.Hands.{held_at, slot_at};
ghost use Rattle.turn_book.specs.Histories.{IsPrefix};
ghost use Rattle.turn_book.specs.Views.{view_of, slots_of, SamePlace};
ghost use Rattle.write_ring.specs.declared.machine.RingEntry.TheVariants as entries;
ghost use Rattle.write_ring.specs.Seen.{entries_by, IsEntered, IsStopped};
ghost use Rattle.write_ring.specs.Standing.{IsRight};

use crate::asked::Asked;
use crate::entering::enter;
use crate::handling::{clear_in_hand, copy_from_hand, put_in_hand, reply_in_hand};
use crate::machine::Ring;
use crate::stop::{RingSpent, RingStop};
use crate::write::{RingPut, RingWrite, RingWrites};
use std::marker::Brand;
use turn_book::{Pen, TurnBook};

// The most entries that a history has.
const MOST: u64 = 1 << 40;

/// One put, by the pass with that number.
pub(crate) fn put_held(
    book: &TurnBook<Ring>,
    pen: &mut Pen<Ring>,
    number: u32,
    write: &RingWrite,
) -> Result<RingPut, RingStop>
    requires book { pen.old.seat.table_id ≡ book.now.table.shared.table_id }
    requires caller { (view_of pen.old.seat).caller ≡ Some number }
    requires held { is_some (held_at 0 (view_of pen.old.seat).held) ≡ true }
    requires home { slot_at 0 (slots_of pen.old.seat) ≡ held_at 0 (view_of pen.old.seat).held }
    ensures book { pen.new.seat.table_id ≡ pen.old.seat.table_id }
    ensures held { (q : ℕ) → is_some (held_at q (view_of pen.new.seat).held) ≡ is_some (held_at q (view_of pen.old.seat).held) }
    ensures home { slot_at 0 (slots_of pen.new.seat) ≡ held_at 0 (view_of pen.new.seat).held }
    ensures place { SamePlace (view_of pen.old.seat) (view_of pen.new.seat) }
    ensures seen { IsPrefix (view_of pen.old.seat).seen (view_of pen.new.seat).seen }
    ensures legal { IsRight (view_of pen.new.seat) }
    ensures stopped { IfErr result (λ stop. IsStopped stop (view_of pen.old.seat) (view_of pen.new.seat)) }
    ensures own { OnErr result (entries_by number (view_of pen.new.seat).seen ≡ entries_by number (view_of pen.old.seat).seen) }
    ensures entered { IfOk result (λ reply.
        IsEntered (entries.Put number write.now reply) (view_of pen.old.seat).seen (view_of pen.new.seat).seen) }
{
    let had = book.front(pen);
    if had.length >= MOST {
        return Err(RingStop::Spent(RingSpent { at: had.length }));
    }
    let reply = reply_in_hand(book, pen);
    let asked = Asked::Put(number, write, reply);
    match enter::<Brand>(book, pen, had, &asked) {
        Ok(_) => {
            put_in_hand(book, pen, write);
            Ok(reply)
        }
        Err(_) => Err(RingStop::Busy),
    }
}

/// One take, by the pass with that number. `out` has the writes that were taken, and none where the take was not answered.
pub(crate) fn take_held(
    book: &TurnBook<Ring>,
    pen: &mut Pen<Ring>,
    number: u32,
    out: &mut RingWrites,
) -> Result<usize, RingStop>
    requires book { pen.old.seat.table_id ≡ book.now.table.shared.table_id }
    requires caller { (view_of pen.old.seat).caller ≡ Some number }
    requires held { is_some (held_at 0 (view_of pen.old.seat).held) ≡ true }
    requires home { slot_at 0 (slots_of pen.old.seat) ≡ held_at 0 (view_of pen.old.seat).held }
    ensures book { pen.new.seat.table_id ≡ pen.old.seat.table_id }
    ensures held { (q : ℕ) → is_some (held_at q (view_of pen.new.seat).held) ≡ is_some (held_at q (view_of pen.old.seat).held) }
    ensures home { slot_at 0 (slots_of pen.new.seat) ≡ held_at 0 (view_of pen.new.seat).held }
    ensures place { SamePlace (view_of pen.old.seat) (view_of pen.new.seat) }
    ensures seen { IsPrefix (view_of pen.old.seat).seen (view_of pen.new.seat).seen }
    ensures legal { IsRight (view_of pen.new.seat) }
    ensures stopped { IfErr result (λ stop. IsStopped stop (view_of pen.old.seat) (view_of pen.new.seat)) }
    ensures own { OnErr result (entries_by number (view_of pen.new.seat).seen ≡ entries_by number (view_of pen.old.seat).seen) }
    ensures entered { IfOk result (λ _.
        IsEntered (entries.Take number out.new.items) (view_of pen.old.seat).seen (view_of pen.new.seat).seen) }
    ensures count { IfOk result (λ n. n ≡ length out.new.items) }
    ensures nothing { OnErr result (out.new.items ≡ []) }
{
    out.clear();
    let had = book.front(pen);
    if had.length >= MOST {
        return Err(RingStop::Spent(RingSpent { at: had.length }));
    }
    copy_from_hand(book, pen, out);
    let asked = Asked::Take(number, out);
    match enter::<Brand>(book, pen, had, &asked) {
        Ok(_) => {
            clear_in_hand(book, pen);
            Ok(out.len())
        }
        Err(_) => {
            out.clear();
            Err(RingStop::Busy)
        }
    }
}
