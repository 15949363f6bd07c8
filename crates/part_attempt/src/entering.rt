//! The entry of a call that was answered.
ghost use Rattle.std.specs.Prelude.{◌≡◌, ◌≢◌, ℕ, ◌∷◌, ◌++◌, [], is_some, true, IfOk, IfErr, Some};
ghost use Rattle.board_model.specs.Board.{Board};
ghost use Rattle.board_step.specs.Publications.{words};
ghost use Rattle.board_step.specs.Step.{is_publication};
ghost use Rattle.turn_book.specs.Banks.{HasRegistry};
ghost use Rattle.turn_book.specs.Hands.{held_at};
ghost use Rattle.turn_book.specs.Histories.{IsPrefix};
ghost use Rattle.turn_book.specs.Plays.{IsLastLook, LeadsOn, HoldsReach, HasDrafted};
ghost use Rattle.turn_book.specs.Views.{view_of, slots_of, IsLegal, HoldsRight, AddsNoneOfOwn, SamePlace};
ghost use Rattle.part_slots.specs.Callers.{caller_number};
ghost use Rattle.part_slots.specs.Running.{Opens, IsStep, caller_of, reach_at};
ghost use Rattle.part_slots.specs.Slots.{slots_of as slots_of_board};
ghost use Rattle.part_attempt.specs.Entering.{entry_answered};

use irq_base::{Call, Caller, Entry, Events, Reply};
use part_machine::RunningBoard;
use std::marker::Brand;
use turn_book::{Entering, Front, Pen, TurnBook};

/// What a call on copies came to, and the look at the front before it.
#[derive(Clone, Copy)]
pub struct Answered {
    pub caller: Caller,
    pub reply: Reply,
    pub had: Front,
}

// One exchange of the front by the entry that N names.
fn commit_named<N: Entering<Entry>>(
    book: &TurnBook<RunningBoard>,
    pen: &mut Pen<RunningBoard>,
    answered: Answered,
    call: &Call,
    events: &Events,
    publish: bool,
) -> Result<u64, Front>
    requires book { pen.old.seat.table_id ≡ book.now.table.shared.table_id }
    requires named { N.entry ≡ Some (entry_answered answered call.now events.now.items) }
    requires last_look { IsLastLook answered.had (view_of pen.old.seat) }
    requires step { LeadsOn IsStep answered.had (view_of pen.old.seat) (entry_answered answered call.now events.now.items) }
    requires caller { (view_of pen.old.seat).caller ≡ Some (caller_number answered.caller) }
    requires reach { HoldsReach reach_at answered.had (view_of pen.old.seat) (entry_answered answered call.now events.now.items) }
    requires publish { publish ≡ is_publication (entry_answered answered call.now events.now.items) }
    requires registry { publish ≡ true → HasRegistry (view_of pen.old.seat) }
    requires drafted { publish ≡ true → HasDrafted IsStep words answered.had (view_of pen.old.seat) (entry_answered answered call.now events.now.items) }
    ensures book { pen.new.seat.table_id ≡ pen.old.seat.table_id }
    ensures entered { IfOk result (λ _. (view_of pen.new.seat).seen ≡ (view_of pen.old.seat).seen ++ entry_answered answered call.now events.now.items ∷ []) }
    ensures follows { IfOk result (λ _. (s t : Board) → (view_of pen.old.seat).now ≡ Some s → (view_of pen.new.seat).now ≡ Some t → IsStep s (entry_answered answered call.now events.now.items) t) }
    ensures kept { IfOk result (λ _. (view_of pen.new.seat).misses ≡ (view_of pen.old.seat).misses) }
    ensures other { IfErr result (λ now. now ≢ answered.had) }
    ensures missed { IfErr result (λ now. (view_of pen.new.seat).misses ≡ (view_of pen.old.seat).misses ++ record { had = answered.had; found = now } ∷ []) }
    ensures lost { IfErr result (λ _. ((view_of pen.new.seat).held ≡ (view_of pen.old.seat).held) × AddsNoneOfOwn caller_of (view_of pen.old.seat) (view_of pen.new.seat)) }
    ensures seen { IsPrefix (view_of pen.old.seat).seen (view_of pen.new.seat).seen }
    ensures legal { IsLegal Opens IsStep (view_of pen.new.seat) }
    ensures holds { HoldsRight slots_of_board (view_of pen.new.seat) }
    ensures held { (q : ℕ) → is_some (held_at q (view_of pen.new.seat).held) ≡ is_some (held_at q (view_of pen.old.seat).held) }
    ensures looks { (view_of pen.new.seat).looks ≡ (view_of pen.old.seat).looks }
    ensures turns { ((view_of pen.new.seat).took ≡ (view_of pen.old.seat).took) × ((view_of pen.new.seat).found ≡ (view_of pen.old.seat).found) }
    ensures place { SamePlace (view_of pen.old.seat) (view_of pen.new.seat) }
    ensures notes { (view_of pen.new.seat).notes ≡ (view_of pen.old.seat).notes }
    ensures slots { slots_of pen.new.seat ≡ slots_of pen.old.seat }
{
    book.commit::<N>(pen, answered.had, publish)
}

/// One exchange of the front by the entry of a call that was answered so, with these events.
pub fn commit_answered(
    book: &TurnBook<RunningBoard>,
    pen: &mut Pen<RunningBoard>,
    answered: Answered,
    call: &Call,
    events: &Events,
    publish: bool,
) -> Result<u64, Front>
    requires book { pen.old.seat.table_id ≡ book.now.table.shared.table_id }
    requires last_look { IsLastLook answered.had (view_of pen.old.seat) }
    requires step { LeadsOn IsStep answered.had (view_of pen.old.seat) (entry_answered answered call.now events.now.items) }
    requires caller { (view_of pen.old.seat).caller ≡ Some (caller_number answered.caller) }
    requires reach { HoldsReach reach_at answered.had (view_of pen.old.seat) (entry_answered answered call.now events.now.items) }
    requires publish { publish ≡ is_publication (entry_answered answered call.now events.now.items) }
    requires registry { publish ≡ true → HasRegistry (view_of pen.old.seat) }
    requires drafted { publish ≡ true → HasDrafted IsStep words answered.had (view_of pen.old.seat) (entry_answered answered call.now events.now.items) }
    ensures book { pen.new.seat.table_id ≡ pen.old.seat.table_id }
    ensures entered { IfOk result (λ _. (view_of pen.new.seat).seen ≡ (view_of pen.old.seat).seen ++ entry_answered answered call.now events.now.items ∷ []) }
    ensures follows { IfOk result (λ _. (s t : Board) → (view_of pen.old.seat).now ≡ Some s → (view_of pen.new.seat).now ≡ Some t → IsStep s (entry_answered answered call.now events.now.items) t) }
    ensures kept { IfOk result (λ _. (view_of pen.new.seat).misses ≡ (view_of pen.old.seat).misses) }
    ensures other { IfErr result (λ now. now ≢ answered.had) }
    ensures missed { IfErr result (λ now. (view_of pen.new.seat).misses ≡ (view_of pen.old.seat).misses ++ record { had = answered.had; found = now } ∷ []) }
    ensures lost { IfErr result (λ _. ((view_of pen.new.seat).held ≡ (view_of pen.old.seat).held) × AddsNoneOfOwn caller_of (view_of pen.old.seat) (view_of pen.new.seat)) }
    ensures seen { IsPrefix (view_of pen.old.seat).seen (view_of pen.new.seat).seen }
    ensures legal { IsLegal Opens IsStep (view_of pen.new.seat) }
    ensures holds { HoldsRight slots_of_board (view_of pen.new.seat) }
    ensures held { (q : ℕ) → is_some (held_at q (view_of pen.new.seat).held) ≡ is_some (held_at q (view_of pen.old.seat).held) }
    ensures looks { (view_of pen.new.seat).looks ≡ (view_of pen.old.seat).looks }
    ensures turns { ((view_of pen.new.seat).took ≡ (view_of pen.old.seat).took) × ((view_of pen.new.seat).found ≡ (view_of pen.old.seat).found) }
    ensures place { SamePlace (view_of pen.old.seat) (view_of pen.new.seat) }
    ensures notes { (view_of pen.new.seat).notes ≡ (view_of pen.old.seat).notes }
    ensures slots { slots_of pen.new.seat ≡ slots_of pen.old.seat }
{
    commit_named::<Brand>(book, pen, answered, call, events, publish)
}
