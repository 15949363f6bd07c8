// Two parts in hand at once, taken and given back in any order.
ghost use Rattle.std.specs.Prelude.{◌≡◌, ℕ, ◌++◌, ◌∷◌, [], nat_eq, true, false, is_some, IfOk, Some};
ghost use Rattle.turn_book.specs.Hands.{held_at, slot_at};
ghost use Rattle.turn_book.specs.Views.{view_of, slots_of, IsLegal, HoldsRight, SamePlace};
ghost use Rattle.turn_book.specs.Plays.{IsLastLook};
ghost use Rattle.book_rows.specs.Counting.{Counted};

use crate::asking::{MOST, Refused, change};
use crate::machine::{Change, Counting};
use crate::threads::opened;
use turn_book::{Front, NoMemory, Pen, Took, TurnBook, part_of};

/// The value of a counter in hand.
fn read(book: &TurnBook<Counting>, pen: &mut Pen<Counting>, counter: u32) -> u64
    requires book { pen.old.seat.table_id ≡ book.now.table.shared.table_id }
    requires held { is_some (held_at counter (view_of pen.old.seat).held) ≡ true }
    ensures book { pen.new.seat.table_id ≡ pen.old.seat.table_id }
    ensures value { slot_at counter (slots_of pen.old.seat) ≡ Some result }
    ensures slots { (q : ℕ) → slot_at q (slots_of pen.new.seat) ≡ slot_at q (slots_of pen.old.seat) }
    ensures view { view_of pen.new.seat ≡ view_of pen.old.seat }
{
    *part_of(pen, book, counter)
}

/// Another value for a counter in hand.
fn write(book: &TurnBook<Counting>, pen: &mut Pen<Counting>, counter: u32, value: u64)
    requires book { pen.old.seat.table_id ≡ book.now.table.shared.table_id }
    requires held { is_some (held_at counter (view_of pen.old.seat).held) ≡ true }
    ensures book { pen.new.seat.table_id ≡ pen.old.seat.table_id }
    ensures value { slot_at counter (slots_of pen.new.seat) ≡ Some value }
    ensures slots { (q : ℕ) → nat_eq counter q ≡ false → slot_at q (slots_of pen.new.seat) ≡ slot_at q (slots_of pen.old.seat) }
    ensures view { view_of pen.new.seat ≡ view_of pen.old.seat }
{
    *part_of(pen, book, counter) = value;
}

/// Moves n from one counter in hand to another, with one exchange of the front.
fn move_once(
    book: &TurnBook<Counting>,
    pen: &mut Pen<Counting>,
    had: Front,
    caller: u32,
    from: u32,
    to: u32,
    n: u64,
) -> Result<u64, Refused>
    requires book { pen.old.seat.table_id ≡ book.now.table.shared.table_id }
    requires last_look { IsLastLook had (view_of pen.old.seat) }
    requires legal { IsLegal (λ s. s.changes ≡ 0) Counted (view_of pen.old.seat) }
    requires holds { HoldsRight (λ s. s.counters) (view_of pen.old.seat) }
    requires caller { (view_of pen.old.seat).caller ≡ Some caller }
    requires apart { nat_eq from to ≡ false }
    requires held_from { is_some (held_at from (view_of pen.old.seat).held) ≡ true }
    requires held_to { is_some (held_at to (view_of pen.old.seat).held) ≡ true }
    requires home_from { slot_at from (slots_of pen.old.seat) ≡ held_at from (view_of pen.old.seat).held }
    requires home_to { slot_at to (slots_of pen.old.seat) ≡ held_at to (view_of pen.old.seat).held }
    ensures book { pen.new.seat.table_id ≡ pen.old.seat.table_id }
    ensures held { (q : ℕ) → is_some (held_at q (view_of pen.new.seat).held) ≡ is_some (held_at q (view_of pen.old.seat).held) }
    ensures home_from { slot_at from (slots_of pen.new.seat) ≡ held_at from (view_of pen.new.seat).held }
    ensures home_to { slot_at to (slots_of pen.new.seat) ≡ held_at to (view_of pen.new.seat).held }
    ensures place { SamePlace (view_of pen.old.seat) (view_of pen.new.seat) }
    ensures moved { IfOk result (λ at. (view_of pen.new.seat).seen ≡ (view_of pen.old.seat).seen ++ Change.Move caller from to n ∷ []) }
{
    if had.length >= MOST {
        return Err(Refused::Full);
    }
    let left = read(book, pen, from);
    let right = read(book, pen, to);
    let Some(less) = left.checked_sub(n) else {
        return Err(Refused::Full);
    };
    let Some(more) = right.checked_add(n) else {
        return Err(Refused::Full);
    };
    match change(book, pen, had, Change::Move(caller, from, to, n)) {
        Ok(at) => {
            write(book, pen, from, less);
            write(book, pen, to, more);
            Ok(at)
        }
        Err(now) => Err(Refused::Lost(now)),
    }
}

#[test]
fn parts_are_taken_and_given_in_any_order(rt: HostRuntime) -> Result<(), NoMemory> {
    let (book, mut desk) = opened(rt.alloc(), 9, 4)?;
    let mut pen = book.split(&mut desk, Some(1));
    let first = book.take(&mut pen, 1);
    assert!(rt; first == Took::Got);
    let second = book.take(&mut pen, 0);
    assert!(rt; second == Took::Got);
    let had = book.front(&mut pen);
    let there = move_once(&book, &mut pen, had, 1, 0, 1, 5);
    let had = book.front(&mut pen);
    let back = move_once(&book, &mut pen, had, 1, 1, 0, 2);
    assert!(rt; there == Ok(0) && back == Ok(1));
    book.give(&mut pen, 1);
    book.give(&mut pen, 0);
    let mut other = book.split(&mut desk, Some(2));
    let first = book.take(&mut other, 0);
    assert!(rt; first == Took::Got);
    let left = read(&book, &mut other, 0);
    let second = book.take(&mut other, 1);
    assert!(rt; second == Took::Got);
    let right = read(&book, &mut other, 1);
    assert!(rt; left == 6 && right == 7);
    Ok(())
}
