//! One run of a call on copies of the parts in hand.
ghost use Rattle.std.specs.Prelude.{◌≡◌, ◌+◌, ◌∷◌, ◌++◌, [], length, count_by, is_some, true, IfOk, IfErr, IfSome, Some, None, Ok};
ghost use Rattle.irq_base.specs.Callers.{is_allowed};
ghost use Rattle.board_raise.specs.Fit.{InLimits};
ghost use Rattle.board_raise.specs.InHand.{parts_of};
ghost use Rattle.board_calls.specs.Done.{SameInHand, FitsShape, FitsButTick};
ghost use Rattle.board_step.specs.Bodies.{entry_of, BodyLeads};
ghost use Rattle.board_step.specs.History.{opening};
ghost use Rattle.board_step.specs.Publications.{words};
ghost use Rattle.board_step.specs.Step.{is_publication};
ghost use Rattle.turn_book.specs.Banks.{HasRegistry};
ghost use Rattle.turn_book.specs.Hands.{AreHome};
ghost use Rattle.turn_book.specs.Histories.{IsPrefix};
ghost use Rattle.turn_book.specs.Many.{AllBelow, AreApart, HoldsJust};
ghost use Rattle.turn_book.specs.Plays.{IsLastLook};
ghost use Rattle.turn_book.specs.Views.{view_of, slots_of, IsLegal, HoldsRight, SamePlace};
ghost use Rattle.part_slots.specs.Callers.{caller_number};
ghost use Rattle.part_slots.specs.Running.{Opens, IsStep};
ghost use Rattle.part_slots.specs.Slots.{slots_of as slots_of_board};
ghost use Rattle.part_rig.specs.Knowing.{list_of, SameReadings};
ghost use Rattle.part_rig.specs.Rooms.{IsRoomFor, AreAt};
ghost use Rattle.part_attempt.specs.Attempts.{IsBarred, IsLost, IfEntered, IfBarred, IfGaveWay, OnNoEntry, OnAnswer};
ghost use Rattle.part_reach.specs.Entered.{IsMadeOn};
ghost use Rattle.part_reach.specs.Wants.{IsAskedFor, IsWanted};
ghost use Rattle.board_model.specs.declared.width.TheConstants.{WORDS};
ghost use Rattle.part_slots.specs.declared.numbers.TheConstants.{FIXED_PARTS};

use crate::copying::copy_parts;
use crate::entering::enter;
use crate::limits::barred;
use crate::want::Want;
use board_step::calls_are_typed;
use irq_base::{Call, Caller, Done, Events, Reply, Shape, Spent};
use part_attempt::{Answered, NotNow, late};
use part_machine::RunningBoard;
use part_rig::Workroom;
use turn_book::{Front, Pen, TurnBook};

// A call on the copies in hand, by the words that are known: its reply, or what it wants.
fn asked(
    room: &mut Workroom,
    shape: &Shape,
    caller: Caller,
    call: &Call,
    events: &mut Events,
) -> Result<Reply, Want>
    requires allowed { is_allowed caller call.now shape.now ≡ true }
    requires fits { FitsShape shape.now room.old.rig.parts }
    requires room { IsRoomFor shape.now room.old }
    requires settled { room.old.rig.known.settled ≡ true }
    ensures leads { IfOk result (λ reply. BodyLeads shape.now (list_of room.old.rig.known) (parts_of room.old.rig.parts) caller call.now
        (Ok reply) events.old.items events.new.items (parts_of room.new.rig.parts)) }
    ensures wants { IfErr result (IsAskedFor room.old.rig.known shape.now (list_of room.old.rig.known) (parts_of room.old.rig.parts)
        caller call.now events.old.items events.new.items (parts_of room.new.rig.parts)) }
    ensures held { SameInHand room.old.rig.parts room.new.rig.parts }
    ensures fits { FitsButTick shape.now room.new.rig.parts }
    ensures readings { SameReadings room.old.rig.known room.new.rig.known }
    ensures room { IsRoomFor shape.now room.new }
{
    let replied = room.step(shape, caller, call, events);
    if let Some(index) = room.rig.known.lacks() {
        return Err(Want::Word(index));
    }
    match replied {
        Ok(reply) => Ok(reply),
        Err(lacks) => Err(Want::Turn(lacks.part)),
    }
}

// The entry of a call that is done so, or why the attempt gives way.
fn entered(
    book: &TurnBook<RunningBoard>,
    pen: &mut Pen<RunningBoard>,
    shape: &Shape,
    places: &[u32],
    room: &Workroom,
    caller: Caller,
    done: Done,
    had: Front,
    call: &Call,
    events: &mut Events,
) -> Result<Result<Done, Spent>, NotNow>
    requires book { pen.old.seat.table_id ≡ book.now.table.shared.table_id }
    requires width { book.now.width ≡ WORDS }
    requires limits { InLimits shape.now }
    requires apart { AreApart places.now }
    requires just { HoldsJust places.now (view_of pen.old.seat).held }
    requires home { AreHome (view_of pen.old.seat).held (slots_of pen.old.seat) }
    requires begins { (view_of pen.old.seat).begin ≡ Some (opening shape.now) }
    requires legal { IsLegal Opens IsStep (view_of pen.old.seat) }
    requires holds { HoldsRight slots_of_board (view_of pen.old.seat) }
    requires last_look { IsLastLook had (view_of pen.old.seat) }
    requires at { done.at ≡ length (view_of pen.old.seat).seen }
    requires knows { HasRegistry (view_of pen.old.seat) → is_some (view_of pen.old.seat).knows ≡ true }
    requires caller { (view_of pen.old.seat).caller ≡ Some (caller_number caller) }
    requires made { IsMadeOn (view_of pen.old.seat) (entry_of caller call.now done.reply events.old.items) places.now room.now.rig.parts }
    ensures book { pen.new.seat.table_id ≡ pen.old.seat.table_id }
    ensures home { AreHome (view_of pen.new.seat).held (slots_of pen.new.seat) }
    ensures just { HoldsJust places.now (view_of pen.new.seat).held }
    ensures entered { IfEntered result (λ d. (view_of pen.new.seat).seen
        ≡ (view_of pen.old.seat).seen ++ entry_of caller call.now d.reply events.new.items ∷ []) }
    ensures at { IfEntered result (λ d. d.at ≡ length (view_of pen.old.seat).seen) }
    ensures free { IfBarred result (λ _. ⊥) }
    ensures lost { IfGaveWay result (IsLost (view_of pen.old.seat) (view_of pen.new.seat) had) }
    ensures kept { OnAnswer result ((view_of pen.new.seat).misses ≡ (view_of pen.old.seat).misses) }
    ensures quiet { OnNoEntry result (events.new.items ≡ []) }
    ensures seen { IsPrefix (view_of pen.old.seat).seen (view_of pen.new.seat).seen }
    ensures legal { IsLegal Opens IsStep (view_of pen.new.seat) }
    ensures looks { (view_of pen.new.seat).looks ≡ (view_of pen.old.seat).looks }
    ensures turns { ((view_of pen.new.seat).took ≡ (view_of pen.old.seat).took) × ((view_of pen.new.seat).found ≡ (view_of pen.old.seat).found) }
    ensures place { SamePlace (view_of pen.old.seat) (view_of pen.new.seat) }
    ensures notes { (view_of pen.new.seat).notes ≡ (view_of pen.old.seat).notes }
{
    let answered = Answered {
        caller,
        reply: done.reply,
        had,
    };
    match enter(book, pen, shape, places, room, answered, call, events) {
        Ok(_) => Ok(Ok(done)),
        Err(now) => {
            events.clear();
            Err(late(had, now))
        }
    }
}

/// One run of a call on copies of the parts of these places, which are all that the pen holds: what comes of it, or what it wants.
/// Nothing was in hand, and where it wants something nothing is afterwards.
pub(crate) fn run(
    book: &TurnBook<RunningBoard>,
    pen: &mut Pen<RunningBoard>,
    shape: &Shape,
    places: &[u32],
    room: &mut Workroom,
    caller: Caller,
    had: Front,
    call: &Call,
    events: &mut Events,
) -> Result<Result<Result<Done, Spent>, NotNow>, Want>
    requires book { pen.old.seat.table_id ≡ book.now.table.shared.table_id }
    requires width { book.now.width ≡ WORDS }
    requires limits { InLimits shape.now }
    requires below { AllBelow (FIXED_PARTS + shape.now.cpus) places.now }
    requires apart { AreApart places.now }
    requires just { HoldsJust places.now (view_of pen.old.seat).held }
    requires home { AreHome (view_of pen.old.seat).held (slots_of pen.old.seat) }
    requires begins { (view_of pen.old.seat).begin ≡ Some (opening shape.now) }
    requires legal { IsLegal Opens IsStep (view_of pen.old.seat) }
    requires holds { HoldsRight slots_of_board (view_of pen.old.seat) }
    requires last_look { IsLastLook had (view_of pen.old.seat) }
    requires length { had.length ≡ length (view_of pen.old.seat).seen }
    requires generation { had.generation ≡ count_by is_publication (view_of pen.old.seat).seen }
    requires knows { HasRegistry (view_of pen.old.seat) → is_some (view_of pen.old.seat).knows ≡ true }
    requires published { IfSome (view_of pen.old.seat).now (λ b. words b ≡ list_of room.old.rig.known) }
    requires caller { (view_of pen.old.seat).caller ≡ Some (caller_number caller) }
    requires allowed { is_allowed caller call.now shape.now ≡ true }
    requires room { IsRoomFor shape.now room.old }
    requires bare { AreAt [] room.old.rig.parts }
    requires settled { room.old.rig.known.settled ≡ true }
    ensures book { pen.new.seat.table_id ≡ pen.old.seat.table_id }
    ensures home { AreHome (view_of pen.new.seat).held (slots_of pen.new.seat) }
    ensures just { HoldsJust places.now (view_of pen.new.seat).held }
    ensures wants { IfErr result (IsWanted room.old.rig.known shape.now caller call.now (view_of pen.old.seat) places.now) }
    ensures stays { IfErr result (λ _. view_of pen.new.seat ≡ view_of pen.old.seat) }
    ensures untold { IfErr result (λ _. events.new.items ≡ []) }
    ensures entered { IfOk result (λ answer. IfEntered answer (λ done. (view_of pen.new.seat).seen
        ≡ (view_of pen.old.seat).seen ++ entry_of caller call.now done.reply events.new.items ∷ [])) }
    ensures at { IfOk result (λ answer. IfEntered answer (λ done. done.at ≡ length (view_of pen.old.seat).seen)) }
    ensures barred { IfOk result (λ answer. IfBarred answer (λ spent. IsBarred shape.now call.now spent (view_of pen.old.seat).seen)) }
    ensures unmoved { IfOk result (λ answer. IfBarred answer (λ _. view_of pen.new.seat ≡ view_of pen.old.seat)) }
    ensures lost { IfOk result (λ answer. IfGaveWay answer (IsLost (view_of pen.old.seat) (view_of pen.new.seat) had)) }
    ensures kept { IfOk result (λ answer. OnAnswer answer ((view_of pen.new.seat).misses ≡ (view_of pen.old.seat).misses)) }
    ensures quiet { IfOk result (λ answer. OnNoEntry answer (events.new.items ≡ [])) }
    ensures seen { IsPrefix (view_of pen.old.seat).seen (view_of pen.new.seat).seen }
    ensures legal { IsLegal Opens IsStep (view_of pen.new.seat) }
    ensures looks { (view_of pen.new.seat).looks ≡ (view_of pen.old.seat).looks }
    ensures turns { ((view_of pen.new.seat).took ≡ (view_of pen.old.seat).took) × ((view_of pen.new.seat).found ≡ (view_of pen.old.seat).found) }
    ensures place { SamePlace (view_of pen.old.seat) (view_of pen.new.seat) }
    ensures notes { (view_of pen.new.seat).notes ≡ (view_of pen.old.seat).notes }
    ensures room { IsRoomFor shape.now room.new }
    ensures in_hand { AreAt places.now room.new.rig.parts }
    ensures bare { IfErr result (λ _. AreAt [] room.new.rig.parts) }
    ensures readings { SameReadings room.old.rig.known room.new.rig.known }
{
    events.clear();
    copy_parts(book, pen, shape, places, room);
    match barred(&room.rig.parts, shape, had, call) {
        Some(spent) => Ok(Ok(Err(spent))),
        None => {
            calls_are_typed(call);
            match asked(room, shape, caller, call, events) {
                Err(want) => {
                    events.clear();
                    room.begin(places);
                    Err(want)
                }
                Ok(reply) => {
                    let done = Done {
                        reply,
                        at: had.length,
                    };
                    Ok(entered(
                        book, pen, shape, places, room, caller, done, had, call, events,
                    ))
                }
            }
        }
    }
}
