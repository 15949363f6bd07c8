//! The exchange of the front by which an entry joins the history.
ghost use Rattle.std.specs.Prelude.{◌≡◌, ◌<◌, ◌^◌, ◌++◌, ◌∷◌, [], ℕ, true, is_some, IfOk, IfErr, Some};
ghost use Rattle.turn_book.specs.Hands.{held_at};
ghost use Rattle.turn_book.specs.Histories.{IsPrefix};
ghost use Rattle.turn_book.specs.Plays.{IsLastLook};
ghost use Rattle.turn_book.specs.Views.{view_of, slots_of, AddsNoneOfOwn, SamePlace};
ghost use Rattle.write_ring.specs.Asked.{entry_of};
ghost use Rattle.write_ring.specs.Ring.{pass_of};
ghost use Rattle.write_ring.specs.Standing.{IsRight, HoldsQueue, MayEnter, HasEntered};

use crate::asked::Asked;
use crate::machine::{Ring, RingEntry};
use turn_book::{Entering, Front, Pen, TurnBook};

/// One exchange of the front by the entry of this call, which N names. The queue is in hand, and gives that answer.
pub(crate) fn enter<N: Entering<RingEntry>>(
    book: &TurnBook<Ring>,
    pen: &mut Pen<Ring>,
    had: Front,
    asked: &Asked<'_>,
) -> Result<u64, Front>
    requires book { pen.old.seat.table_id ≡ book.now.table.shared.table_id }
    requires last_look { IsLastLook had (view_of pen.old.seat) }
    requires room { had.length < 2 ^ 40 }
    requires legal { IsRight (view_of pen.old.seat) }
    requires holds { HoldsQueue (view_of pen.old.seat) }
    requires held { is_some (held_at 0 (view_of pen.old.seat).held) ≡ true }
    requires named { N.entry ≡ Some (entry_of asked.now) }
    requires entry { MayEnter (entry_of asked.now) (view_of pen.old.seat) }
    ensures book { pen.new.seat.table_id ≡ pen.old.seat.table_id }
    ensures entered { IfOk result (λ _. HasEntered (entry_of asked.now) (view_of pen.old.seat) (view_of pen.new.seat)) }
    ensures missed { IfErr result (λ now. (view_of pen.new.seat).misses ≡ (view_of pen.old.seat).misses ++ record {
      had = had;
      found = now;
    } ∷ []) }
    ensures lost { IfErr result (λ _. (view_of pen.new.seat).held ≡ (view_of pen.old.seat).held) }
    ensures own { IfErr result (λ _. AddsNoneOfOwn pass_of (view_of pen.old.seat) (view_of pen.new.seat)) }
    ensures seen { IsPrefix (view_of pen.old.seat).seen (view_of pen.new.seat).seen }
    ensures legal { IsRight (view_of pen.new.seat) }
    ensures held { (q : ℕ) → is_some (held_at q (view_of pen.new.seat).held) ≡ is_some (held_at q (view_of pen.old.seat).held) }
    ensures place { SamePlace (view_of pen.old.seat) (view_of pen.new.seat) }
    ensures slots { slots_of pen.new.seat ≡ slots_of pen.old.seat }
{
    book.commit::<N>(pen, had, false)
}
