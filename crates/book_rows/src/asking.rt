ghost use Rattle.std.specs.Prelude.{◌≡◌, ◌≢◌, ℕ, ◌<◌, ◌^◌, ◌++◌, ◌∷◌, [], length, true, false, is_some, IfOk, IfErr, IfSome, IfNone, Some, None};
ghost use Rattle.turn_book.specs.Histories.{IsPrefix, entries_of};
ghost use Rattle.turn_book.specs.Hands.{held_at, held_without, slot_at};
ghost use Rattle.turn_book.specs.Views.{view_of, slots_of, IsLegal, HoldsRight, AddsNoneOfOwn, SamePlace};
ghost use Rattle.turn_book.specs.Plays.{IsLastLook, LeadsOn, HoldsReach};
ghost use Rattle.book_rows.specs.Counting.{Counted, caller_of, reach_of};
ghost use Rattle.book_rows.specs.declared.machine.Counts.{Counts};

use crate::machine::{Change, Counting};
use std::marker::Brand;
use std::sync::Wait;
use turn_book::{Entering, Front, Pen, Took, TurnBook, part_of};

/// One exchange of the front by the change that N names.
fn enter<N: Entering<Change>>(
    book: &TurnBook<Counting>,
    pen: &mut Pen<Counting>,
    had: Front,
    change: Change,
) -> Result<u64, Front>
    requires book { pen.old.seat.table_id ≡ book.now.table.shared.table_id }
    requires named { N.entry ≡ Some change }
    requires last_look { IsLastLook had (view_of pen.old.seat) }
    requires step { LeadsOn Counted had (view_of pen.old.seat) change }
    requires caller { (view_of pen.old.seat).caller ≡ Some (caller_of change) }
    requires reach { HoldsReach (λ s e. reach_of e) had (view_of pen.old.seat) change }
    ensures book { pen.new.seat.table_id ≡ pen.old.seat.table_id }
    ensures at { IfOk result (λ at. at ≡ length (view_of pen.old.seat).seen) }
    ensures entered { IfOk result (λ at. (view_of pen.new.seat).seen ≡ (view_of pen.old.seat).seen ++ change ∷ []) }
    ensures follows { IfOk result (λ at. (s t : Counts) → (view_of pen.old.seat).now ≡ Some s → (view_of pen.new.seat).now ≡ Some t → Counted s change t) }
    ensures lost { IfErr result (λ now. ((view_of pen.new.seat).held ≡ (view_of pen.old.seat).held) × AddsNoneOfOwn caller_of (view_of pen.old.seat) (view_of pen.new.seat)) }
    ensures holds { HoldsRight (λ s. s.counters) (view_of pen.new.seat) }
    ensures legal { IsLegal (λ s. s.changes ≡ 0) Counted (view_of pen.new.seat) }
    ensures held { (q : ℕ) → is_some (held_at q (view_of pen.new.seat).held) ≡ is_some (held_at q (view_of pen.old.seat).held) }
    ensures place { SamePlace (view_of pen.old.seat) (view_of pen.new.seat) }
    ensures slots { slots_of pen.new.seat ≡ slots_of pen.old.seat }
{
    book.commit::<N>(pen, had, false)
}

/// One exchange of the front by this change.
pub fn change(
    book: &TurnBook<Counting>,
    pen: &mut Pen<Counting>,
    had: Front,
    change: Change,
) -> Result<u64, Front>
    requires book { pen.old.seat.table_id ≡ book.now.table.shared.table_id }
    requires last_look { IsLastLook had (view_of pen.old.seat) }
    requires step { LeadsOn Counted had (view_of pen.old.seat) change }
    requires caller { (view_of pen.old.seat).caller ≡ Some (caller_of change) }
    requires reach { HoldsReach (λ s e. reach_of e) had (view_of pen.old.seat) change }
    ensures book { pen.new.seat.table_id ≡ pen.old.seat.table_id }
    ensures at { IfOk result (λ at. at ≡ length (view_of pen.old.seat).seen) }
    ensures entered { IfOk result (λ at. (view_of pen.new.seat).seen ≡ (view_of pen.old.seat).seen ++ change ∷ []) }
    ensures follows { IfOk result (λ at. (s t : Counts) → (view_of pen.old.seat).now ≡ Some s → (view_of pen.new.seat).now ≡ Some t → Counted s change t) }
    ensures lost { IfErr result (λ now. ((view_of pen.new.seat).held ≡ (view_of pen.old.seat).held) × AddsNoneOfOwn caller_of (view_of pen.old.seat) (view_of pen.new.seat)) }
    ensures holds { HoldsRight (λ s. s.counters) (view_of pen.new.seat) }
    ensures legal { IsLegal (λ s. s.changes ≡ 0) Counted (view_of pen.new.seat) }
    ensures held { (q : ℕ) → is_some (held_at q (view_of pen.new.seat).held) ≡ is_some (held_at q (view_of pen.old.seat).held) }
    ensures place { SamePlace (view_of pen.old.seat) (view_of pen.new.seat) }
    ensures slots { slots_of pen.new.seat ≡ slots_of pen.old.seat }
{
    enter::<Brand>(book, pen, had, change)
}

/// Waits for a turn.
fn win<R: Wait>(rt: &R, book: &TurnBook<Counting>, pen: &mut Pen<Counting>, part: u32)
    requires book { pen.old.seat.table_id ≡ book.now.table.shared.table_id }
    requires part { part < book.now.table.shared.table_id.slots }
    requires caller { (view_of pen.old.seat).caller ≢ None }
    requires free { is_some (held_at part (view_of pen.old.seat).held) ≡ false }
    ensures book { pen.new.seat.table_id ≡ pen.old.seat.table_id }
    ensures held { is_some (held_at part (view_of pen.new.seat).held) ≡ true }
    ensures home { slot_at part (slots_of pen.new.seat) ≡ held_at part (view_of pen.new.seat).held }
    ensures only { held_without part (view_of pen.new.seat).held ≡ held_without part (view_of pen.old.seat).held }
    ensures seen { (view_of pen.new.seat).seen ≡ (view_of pen.old.seat).seen }
    ensures place { SamePlace (view_of pen.old.seat) (view_of pen.new.seat) }
{
    for _ in rt.forever() {
        match book.take(pen, part) {
            Took::Got => return,
            Took::Found => {}
        }
    }
}

/// The most changes that a row of counters has.
pub(crate) const MOST: u64 = 1 << 40;

/// Why a change was not made.
#[derive(Clone, Copy, Debug, PartialEq, Eq)]
pub enum Refused {
    /// The counter would pass its type's end, or all changes are spent.
    Full,
    /// Another front was found.
    Lost(Front),
}

/// Adds n to a counter in hand, with one exchange of the front, and answers the change's place.
pub fn add_once(
    book: &TurnBook<Counting>,
    pen: &mut Pen<Counting>,
    had: Front,
    caller: u32,
    counter: u32,
    n: u64,
) -> Result<u64, Refused>
    requires book { pen.old.seat.table_id ≡ book.now.table.shared.table_id }
    requires last_look { IsLastLook had (view_of pen.old.seat) }
    requires legal { IsLegal (λ s. s.changes ≡ 0) Counted (view_of pen.old.seat) }
    requires holds { HoldsRight (λ s. s.counters) (view_of pen.old.seat) }
    requires caller { (view_of pen.old.seat).caller ≡ Some caller }
    requires held { is_some (held_at counter (view_of pen.old.seat).held) ≡ true }
    requires home { slot_at counter (slots_of pen.old.seat) ≡ held_at counter (view_of pen.old.seat).held }
    ensures book { pen.new.seat.table_id ≡ pen.old.seat.table_id }
    ensures held { (q : ℕ) → is_some (held_at q (view_of pen.new.seat).held) ≡ is_some (held_at q (view_of pen.old.seat).held) }
    ensures home { slot_at counter (slots_of pen.new.seat) ≡ held_at counter (view_of pen.new.seat).held }
    ensures place { SamePlace (view_of pen.old.seat) (view_of pen.new.seat) }
    ensures at { IfOk result (λ at. at ≡ length (view_of pen.old.seat).seen) }
    ensures added { IfOk result (λ at. (view_of pen.new.seat).seen ≡ (view_of pen.old.seat).seen ++ Change.Add caller counter n ∷ []) }
    ensures lost { IfErr result (λ e. AddsNoneOfOwn caller_of (view_of pen.old.seat) (view_of pen.new.seat)) }
{
    if had.length >= MOST {
        return Err(Refused::Full);
    }
    let before = *part_of(pen, book, counter);
    let Some(after) = before.checked_add(n) else {
        return Err(Refused::Full);
    };
    match change(book, pen, had, Change::Add(caller, counter, n)) {
        Ok(at) => {
            *part_of(pen, book, counter) = after;
            Ok(at)
        }
        Err(now) => Err(Refused::Lost(now)),
    }
}

/// Adds n to a counter in hand, and answers the change's place; or nothing, where the counter would pass its type's end
/// or all changes are spent.
fn add_held<R: Wait>(
    rt: &R,
    book: &TurnBook<Counting>,
    pen: &mut Pen<Counting>,
    caller: u32,
    counter: u32,
    n: u64,
) -> Option<u64>
    requires book { pen.old.seat.table_id ≡ book.now.table.shared.table_id }
    requires caller { (view_of pen.old.seat).caller ≡ Some caller }
    requires held { is_some (held_at counter (view_of pen.old.seat).held) ≡ true }
    requires home { slot_at counter (slots_of pen.old.seat) ≡ held_at counter (view_of pen.old.seat).held }
    ensures book { pen.new.seat.table_id ≡ pen.old.seat.table_id }
    ensures held { (q : ℕ) → is_some (held_at q (view_of pen.new.seat).held) ≡ is_some (held_at q (view_of pen.old.seat).held) }
    ensures home { slot_at counter (slots_of pen.new.seat) ≡ held_at counter (view_of pen.new.seat).held }
    ensures place { SamePlace (view_of pen.old.seat) (view_of pen.new.seat) }
    ensures added { IfSome result (λ at. entries_of caller_of caller (view_of pen.new.seat).seen ≡ entries_of caller_of caller (view_of pen.old.seat).seen ++ Change.Add caller counter n ∷ []) }
    ensures none { IfNone result (entries_of caller_of caller (view_of pen.new.seat).seen ≡ entries_of caller_of caller (view_of pen.old.seat).seen) }
{
    for _ in rt.forever() {
        let had = book.front(pen);
        match add_once(book, pen, had, caller, counter, n) {
            Ok(at) => return Some(at),
            Err(Refused::Full) => return None,
            Err(Refused::Lost(_)) => {}
        }
    }
    unreachable!()
}

/// Adds n to a counter, and answers the change's place; or nothing, where the counter would pass its type's end or all
/// changes are spent.
pub fn add<R: Wait>(
    rt: &R,
    book: &TurnBook<Counting>,
    pen: &mut Pen<Counting>,
    caller: u32,
    counter: u32,
    n: u64,
) -> Option<u64>
    requires book { pen.old.seat.table_id ≡ book.now.table.shared.table_id }
    requires part { counter < book.now.table.shared.table_id.slots }
    requires caller { (view_of pen.old.seat).caller ≡ Some caller }
    requires bare { (view_of pen.old.seat).held ≡ [] }
    ensures book { pen.new.seat.table_id ≡ pen.old.seat.table_id }
    ensures bare { (view_of pen.new.seat).held ≡ [] }
    ensures place { SamePlace (view_of pen.old.seat) (view_of pen.new.seat) }
    ensures added { IfSome result (λ at. entries_of caller_of caller (view_of pen.new.seat).seen ≡ entries_of caller_of caller (view_of pen.old.seat).seen ++ Change.Add caller counter n ∷ []) }
    ensures none { IfNone result (entries_of caller_of caller (view_of pen.new.seat).seen ≡ entries_of caller_of caller (view_of pen.old.seat).seen) }
{
    win(rt, book, pen, counter);
    let at = add_held(rt, book, pen, caller, counter, n);
    book.give(pen, counter);
    at
}
