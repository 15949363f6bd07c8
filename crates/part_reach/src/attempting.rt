//! A call is attempted, and waits for nobody.
ghost use Rattle.std.specs.Prelude.{◌≡◌, ◌≢◌, ℕ, ◌+◌, ◌<◌, ◌≤◌, ◌∷◌, ◌++◌, [], length, true, false, Some, None, Err, IfOk, IfErr, IfSome};
ghost use Rattle.irq_base.specs.Callers.{is_allowed};
ghost use Rattle.irq_base.specs.declared.shape.Shape.{Shape as ShapeOf};
ghost use Rattle.board_raise.specs.Fit.{InLimits};
ghost use Rattle.board_step.specs.History.{opening};
ghost use Rattle.board_step.specs.Publications.{words};
ghost use Rattle.turn_book.specs.Hands.{AreHome};
ghost use Rattle.turn_book.specs.Views.{view_of, slots_of, SamePlace, SameList, SameWords};
ghost use Rattle.turn_book.specs.Histories.{is_in};
ghost use Rattle.turn_book.specs.Plays.{IsLastLook};
ghost use Rattle.part_slots.specs.Callers.{caller_number};
ghost use Rattle.part_slots.specs.Commits.{Seen};
ghost use Rattle.part_slots.specs.Slots.{place as place_of};
ghost use Rattle.part_rig.specs.Knowing.{list_of};
ghost use Rattle.part_rig.specs.Readings.{AreNoted, blanks_under};
ghost use Rattle.part_rig.specs.Rooms.{IsRoomFor, AreAt};
ghost use Rattle.part_attempt.specs.declared.not_now.NotNow.TheVariants as reasons;
ghost use Rattle.part_reach.specs.Wants.{IsWanted, IsUnread};
ghost use Rattle.part_reach.specs.UnderWay.{HasLooked, HoldsPlaces, IsUnderWay, LooksAgain, wants_left, CameTo};
ghost use Rattle.board_model.specs.declared.width.TheConstants.{WORDS};
ghost use Rattle.part_slots.specs.declared.numbers.TheConstants.{FIXED_PARTS};

use crate::beginning::set_out;
use crate::fetching::fetch;
use crate::running::run;
use irq_base::{Call, Caller, Done, Events, Shape, Spent};
use part_attempt::{NotNow, Places};
use part_machine::RunningBoard;
use part_rig::Workroom;
use turn_book::{Pen, TurnBook};

// The call is run as often as it wants a word or a turn. Each but the last of these runs leaves it one want less.
fn until_answered(
    book: &TurnBook<RunningBoard>,
    pen: &mut Pen<RunningBoard>,
    shape: &Shape,
    places: &mut Places,
    room: &mut Workroom,
    caller: Caller,
    call: &Call,
    events: &mut Events,
) -> Result<Result<Done, Spent>, NotNow>
    requires book { pen.old.seat.table_id ≡ book.now.table.shared.table_id }
    requires turns { book.now.table.shared.table_id.slots ≡ shape.now.cpus + FIXED_PARTS }
    requires width { book.now.width ≡ WORDS }
    requires limits { InLimits shape.now }
    requires allowed { is_allowed caller call.now shape.now ≡ true }
    requires bare { (view_of pen.old.seat).held ≡ [] }
    requires home { AreHome (view_of pen.old.seat).held (slots_of pen.old.seat) }
    requires begins { (view_of pen.old.seat).begin ≡ Some (opening shape.now) }
    requires caller { (view_of pen.old.seat).caller ≡ Some (caller_number caller) }
    requires none { places.old.items ≡ [] }
    requires room { IsRoomFor shape.now room.old }
    requires in_hand { AreAt [] room.old.rig.parts }
    requires noted { AreNoted (view_of pen.old.seat).notes room.old.rig.known.places.items }
    ensures book { pen.new.seat.table_id ≡ pen.old.seat.table_id }
    ensures home { AreHome (view_of pen.new.seat).held (slots_of pen.new.seat) }
    ensures holds { HoldsPlaces shape.now (view_of pen.new.seat) places.new.items }
    ensures came { CameTo shape.now caller call.now (view_of pen.old.seat) (view_of pen.new.seat) result events.new.items }
    ensures room { IsRoomFor shape.now room.new }
    ensures in_hand { AreAt places.new.items room.new.rig.parts }
    ensures noted { AreNoted (view_of pen.new.seat).notes room.new.rig.known.places.items }
{
    let mut had = match set_out(book, pen, shape, places, room, caller, call) {
        Ok(had) => had,
        Err(part) => {
            events.clear();
            return Err(NotNow::Busy { part });
        }
    };
    'runs: loop {
        let ran = run(
            book,
            pen,
            shape,
            places.as_slice(),
            room,
            caller,
            had,
            call,
            events,
        );
        match ran {
            Ok(answer) => return answer,
            Err(want) => match fetch(book, pen, shape, places, room, caller, had, call, want) {
                Ok(next) => had = next,
                Err(part) => return Err(NotNow::Busy { part }),
            },
        }
    }
}

/// One attempt of a call, which waits for nobody and takes no memory. The pen holds nothing before it, and nothing afterwards.
///
/// `Ok(Ok(done))`: the call has its entry, with the reply of `done` and the events that are handed out, at the place `done.at` of
/// the history. `Ok(Err(spent))`: that limit bars the call where the pen now stands. `Err` tells why the attempt gave way: `Busy`,
/// where it found the turn of that part taken; `Moved` and `Front`, where its one exchange found another front than its last look
/// before. Where there is no entry, no event is handed out, and no part changes.
///
/// It takes the turns of parts that the call reaches, and of no others. What stands in `places` before it means nothing; afterwards
/// the places of the turns that it took stand there.
pub fn attempt(
    book: &TurnBook<RunningBoard>,
    pen: &mut Pen<RunningBoard>,
    shape: &Shape,
    places: &mut Places,
    room: &mut Workroom,
    caller: Caller,
    call: &Call,
    events: &mut Events,
) -> Result<Result<Done, Spent>, NotNow>
    requires book { pen.old.seat.table_id ≡ book.now.table.shared.table_id }
    requires turns { book.now.table.shared.table_id.slots ≡ shape.now.cpus + FIXED_PARTS }
    requires width { book.now.width ≡ WORDS }
    requires limits { InLimits shape.now }
    requires allowed { is_allowed caller call.now shape.now ≡ true }
    requires bare { (view_of pen.old.seat).held ≡ [] }
    requires home { AreHome (view_of pen.old.seat).held (slots_of pen.old.seat) }
    requires begins { (view_of pen.old.seat).begin ≡ Some (opening shape.now) }
    requires caller { (view_of pen.old.seat).caller ≡ Some (caller_number caller) }
    requires room { IsRoomFor shape.now room.old }
    requires in_hand { AreAt [] room.old.rig.parts }
    requires noted { AreNoted (view_of pen.old.seat).notes room.old.rig.known.places.items }
    ensures book { pen.new.seat.table_id ≡ pen.old.seat.table_id }
    ensures bare { (view_of pen.new.seat).held ≡ [] }
    ensures came { CameTo shape.now caller call.now (view_of pen.old.seat) (view_of pen.new.seat) result events.new.items }
    ensures room { IsRoomFor shape.now room.new }
    ensures in_hand { AreAt [] room.new.rig.parts }
    ensures noted { AreNoted (view_of pen.new.seat).notes room.new.rig.known.places.items }
{
    places.clear();
    let answer = until_answered(book, pen, shape, places, room, caller, call, events);
    book.give_all(pen, places.as_slice());
    room.begin(places.as_slice());
    answer
}
