//! What is done to the queue in hand.
ghost use Rattle.std.specs.Prelude.{◌≡◌, ◌<◌, ◌^◌, true, is_some, IfSome, option_map};
ghost use Rattle.turn_book.specs.Hands.{held_at, slot_at};
ghost use Rattle.turn_book.specs.Views.{view_of, slots_of};
ghost use Rattle.write_ring.specs.Queue.{reply_of, queue_put, queue_taken};

use crate::machine::Ring;
use crate::write::{RingPut, RingWrite, RingWrites};
use turn_book::{Pen, TurnBook, part_of};

/// What a put into the queue in hand is answered.
pub(crate) fn reply_in_hand(book: &TurnBook<Ring>, pen: &mut Pen<Ring>) -> RingPut
    requires book { pen.old.seat.table_id ≡ book.now.table.shared.table_id }
    requires held { is_some (held_at 0 (view_of pen.old.seat).held) ≡ true }
    ensures book { pen.new.seat.table_id ≡ pen.old.seat.table_id }
    ensures view { view_of pen.new.seat ≡ view_of pen.old.seat }
    ensures slot { slot_at 0 (slots_of pen.new.seat) ≡ slot_at 0 (slots_of pen.old.seat) }
    ensures reply { IfSome (slot_at 0 (slots_of pen.old.seat)) (λ q. result ≡ reply_of q) }
{
    part_of(pen, book, 0).reply()
}

/// Puts the write into the queue in hand.
pub(crate) fn put_in_hand(book: &TurnBook<Ring>, pen: &mut Pen<Ring>, write: &RingWrite)
    requires book { pen.old.seat.table_id ≡ book.now.table.shared.table_id }
    requires held { is_some (held_at 0 (view_of pen.old.seat).held) ≡ true }
    requires count { IfSome (slot_at 0 (slots_of pen.old.seat)) (λ q. q.placed < 2 ^ 40) }
    ensures book { pen.new.seat.table_id ≡ pen.old.seat.table_id }
    ensures view { view_of pen.new.seat ≡ view_of pen.old.seat }
    ensures slot { slot_at 0 (slots_of pen.new.seat) ≡ option_map (queue_put write.now) (slot_at 0 (slots_of pen.old.seat)) }
{
    part_of(pen, book, 0).put(write);
}

/// Copies the writes of the queue in hand over those of `out`.
pub(crate) fn copy_from_hand(book: &TurnBook<Ring>, pen: &mut Pen<Ring>, out: &mut RingWrites)
    requires book { pen.old.seat.table_id ≡ book.now.table.shared.table_id }
    requires held { is_some (held_at 0 (view_of pen.old.seat).held) ≡ true }
    ensures book { pen.new.seat.table_id ≡ pen.old.seat.table_id }
    ensures view { view_of pen.new.seat ≡ view_of pen.old.seat }
    ensures slot { slot_at 0 (slots_of pen.new.seat) ≡ slot_at 0 (slots_of pen.old.seat) }
    ensures copied { IfSome (slot_at 0 (slots_of pen.old.seat)) (λ q. out.new.items ≡ q.writes.items) }
{
    part_of(pen, book, 0).copy_into(out);
}

/// Leaves no write in the queue in hand.
pub(crate) fn clear_in_hand(book: &TurnBook<Ring>, pen: &mut Pen<Ring>)
    requires book { pen.old.seat.table_id ≡ book.now.table.shared.table_id }
    requires held { is_some (held_at 0 (view_of pen.old.seat).held) ≡ true }
    ensures book { pen.new.seat.table_id ≡ pen.old.seat.table_id }
    ensures view { view_of pen.new.seat ≡ view_of pen.old.seat }
    ensures slot { slot_at 0 (slots_of pen.new.seat) ≡ option_map queue_taken (slot_at 0 (slots_of pen.old.seat)) }
{
    part_of(pen, book, 0).clear();
}
