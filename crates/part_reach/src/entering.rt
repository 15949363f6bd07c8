//! The entry of a call that was made on copies of the parts in hand.
ghost use Rattle.std.specs.Prelude.{◌≡◌, ◌≢◌, ◌+◌, ◌∷◌, ◌++◌, [], length, is_some, true, IfOk, IfErr, Some};
ghost use Rattle.board_raise.specs.Fit.{InLimits};
ghost use Rattle.board_step.specs.History.{opening};
ghost use Rattle.turn_book.specs.Banks.{HasRegistry};
ghost use Rattle.turn_book.specs.Hands.{AreHome};
ghost use Rattle.turn_book.specs.Histories.{IsPrefix};
ghost use Rattle.turn_book.specs.Many.{AreApart, HoldsJust};
ghost use Rattle.turn_book.specs.Plays.{IsLastLook};
ghost use Rattle.turn_book.specs.Views.{view_of, slots_of, IsLegal, HoldsRight, AddsNoneOfOwn, SamePlace};
ghost use Rattle.part_slots.specs.Callers.{caller_number};
ghost use Rattle.part_slots.specs.Running.{Opens, IsStep, caller_of};
ghost use Rattle.part_slots.specs.Slots.{slots_of as slots_of_board};
ghost use Rattle.part_attempt.specs.Entering.{entry_answered};
ghost use Rattle.part_reach.specs.Entered.{IsMadeOn};
ghost use Rattle.board_model.specs.declared.width.TheConstants.{WORDS};

use irq_base::{Call, Events, Shape};
use part_attempt::{Answered, commit_answered, did_publish, draft};
use part_machine::RunningBoard;
use part_rig::Workroom;
use turn_book::{Front, Pen, TurnBook};
use turn_copies::write_each;

// The entry of a call that was made on copies of the parts in hand: it is committed, and the copies are written into the slots; or
// another front is found, and the slots stay. The words of a publication are written before.
pub(crate) fn enter(
    book: &TurnBook<RunningBoard>,
    pen: &mut Pen<RunningBoard>,
    shape: &Shape,
    places: &[u32],
    room: &Workroom,
    answered: Answered,
    call: &Call,
    events: &Events,
) -> Result<u64, Front>
    requires book { pen.old.seat.table_id ≡ book.now.table.shared.table_id }
    requires width { book.now.width ≡ WORDS }
    requires limits { InLimits shape.now }
    requires apart { AreApart places.now }
    requires just { HoldsJust places.now (view_of pen.old.seat).held }
    requires home { AreHome (view_of pen.old.seat).held (slots_of pen.old.seat) }
    requires begins { (view_of pen.old.seat).begin ≡ Some (opening shape.now) }
    requires legal { IsLegal Opens IsStep (view_of pen.old.seat) }
    requires holds { HoldsRight slots_of_board (view_of pen.old.seat) }
    requires last_look { IsLastLook answered.had (view_of pen.old.seat) }
    requires knows { HasRegistry (view_of pen.old.seat) → is_some (view_of pen.old.seat).knows ≡ true }
    requires caller { (view_of pen.old.seat).caller ≡ Some (caller_number answered.caller) }
    requires made { IsMadeOn (view_of pen.old.seat) (entry_answered answered call.now events.now.items) places.now room.now.rig.parts }
    ensures book { pen.new.seat.table_id ≡ pen.old.seat.table_id }
    ensures home { AreHome (view_of pen.new.seat).held (slots_of pen.new.seat) }
    ensures just { HoldsJust places.now (view_of pen.new.seat).held }
    ensures entered { IfOk result (λ _. (view_of pen.new.seat).seen ≡ (view_of pen.old.seat).seen ++ entry_answered answered call.now events.now.items ∷ []) }
    ensures kept { IfOk result (λ _. (view_of pen.new.seat).misses ≡ (view_of pen.old.seat).misses) }
    ensures other { IfErr result (λ now. now ≢ answered.had) }
    ensures missed { IfErr result (λ now. (view_of pen.new.seat).misses ≡ (view_of pen.old.seat).misses ++ record { had = answered.had; found = now } ∷ []) }
    ensures lost { IfErr result (λ _. AddsNoneOfOwn caller_of (view_of pen.old.seat) (view_of pen.new.seat)) }
    ensures seen { IsPrefix (view_of pen.old.seat).seen (view_of pen.new.seat).seen }
    ensures legal { IsLegal Opens IsStep (view_of pen.new.seat) }
    ensures looks { (view_of pen.new.seat).looks ≡ (view_of pen.old.seat).looks }
    ensures turns { ((view_of pen.new.seat).took ≡ (view_of pen.old.seat).took) × ((view_of pen.new.seat).found ≡ (view_of pen.old.seat).found) }
    ensures place { SamePlace (view_of pen.old.seat) (view_of pen.new.seat) }
    ensures notes { (view_of pen.new.seat).notes ≡ (view_of pen.old.seat).notes }
{
    let publish = did_publish(call, answered.reply);
    draft(book, pen, shape, &room.rig.parts, publish);
    match commit_answered(book, pen, answered, call, events, publish) {
        Err(now) => Err(now),
        Ok(at) => {
            write_each(book, pen, places, room);
            Ok(at)
        }
    }
}
