//! The first look of an attempt, and the turn that is tried before it.
ghost use Rattle.std.specs.Prelude.{◌≡◌, ◌+◌, [], true, Some, Err, IfOk, IfErr, IfSome};
ghost use Rattle.irq_base.specs.Callers.{is_allowed};
ghost use Rattle.board_raise.specs.Fit.{InLimits};
ghost use Rattle.board_step.specs.History.{opening};
ghost use Rattle.board_step.specs.Publications.{words};
ghost use Rattle.turn_book.specs.Hands.{AreHome};
ghost use Rattle.turn_book.specs.Views.{view_of, slots_of};
ghost use Rattle.part_slots.specs.Callers.{caller_number};
ghost use Rattle.part_rig.specs.Knowing.{list_of};
ghost use Rattle.part_rig.specs.Readings.{AreNoted};
ghost use Rattle.part_rig.specs.Rooms.{IsRoomFor, AreAt};
ghost use Rattle.part_attempt.specs.declared.not_now.NotNow.TheVariants as reasons;
ghost use Rattle.part_reach.specs.UnderWay.{HasLooked, HoldsPlaces, IsUnderWay, CameTo};
ghost use Rattle.board_model.specs.declared.width.TheConstants.{WORDS};
ghost use Rattle.part_slots.specs.declared.numbers.TheConstants.{FIXED_PARTS};

use crate::beside::reached_beside;
use crate::by_table::sure;
use crate::fetching::{fetch, look, win_turn};
use crate::want::Want;
use irq_base::{Call, Caller, Part, Shape};
use part_attempt::Places;
use part_machine::RunningBoard;
use part_rig::Workroom;
use turn_book::{Front, Pen, TurnBook};

// The first look of an attempt. Where there is a part that the call reaches on every board, its turn is tried once before; `Err` names
// that part, where its turn was found taken.
fn begin(
    book: &TurnBook<RunningBoard>,
    pen: &mut Pen<RunningBoard>,
    shape: &Shape,
    places: &mut Places,
    room: &mut Workroom,
    caller: Caller,
    call: &Call,
) -> Result<Front, Part>
    requires book { pen.old.seat.table_id ≡ book.now.table.shared.table_id }
    requires turns { book.now.table.shared.table_id.slots ≡ shape.now.cpus + FIXED_PARTS }
    requires limits { InLimits shape.now }
    requires allowed { is_allowed caller call.now shape.now ≡ true }
    requires bare { (view_of pen.old.seat).held ≡ [] }
    requires home { AreHome (view_of pen.old.seat).held (slots_of pen.old.seat) }
    requires begins { (view_of pen.old.seat).begin ≡ Some (opening shape.now) }
    requires caller { (view_of pen.old.seat).caller ≡ Some (caller_number caller) }
    requires none { places.old.items ≡ [] }
    requires room { IsRoomFor shape.now room.old }
    requires bare_room { AreAt [] room.old.rig.parts }
    requires noted { AreNoted (view_of pen.old.seat).notes room.old.rig.known.places.items }
    ensures book { pen.new.seat.table_id ≡ pen.old.seat.table_id }
    ensures home { AreHome (view_of pen.new.seat).held (slots_of pen.new.seat) }
    ensures looked { IfOk result (HasLooked shape.now caller (view_of pen.new.seat)) }
    ensures holds { HoldsPlaces shape.now (view_of pen.new.seat) places.new.items }
    ensures way { IfOk result (λ had.
        IsUnderWay shape.now caller call.now (view_of pen.old.seat) (view_of pen.new.seat) had places.new.items) }
    ensures published { IfOk result (λ _. IfSome (view_of pen.new.seat).now (λ b. words b ≡ list_of room.new.rig.known)) }
    ensures under { IfOk result (λ had. room.new.rig.known.looked ≡ had.generation) }
    ensures settled { IfOk result (λ _. room.new.rig.known.settled ≡ true) }
    ensures busy { IfErr result (λ part. CameTo shape.now caller call.now (view_of pen.old.seat) (view_of pen.new.seat)
        (Err (reasons.Busy part)) []) }
    ensures room { IsRoomFor shape.now room.new }
    ensures bare_room { AreAt [] room.new.rig.parts }
    ensures noted { AreNoted (view_of pen.new.seat).notes room.new.rig.known.places.items }
{
    match sure(shape, caller, call) {
        None => Ok(look(book, pen, room)),
        Some(part) => match win_turn(book, pen, shape, places, room, part) {
            Ok(had) => Ok(had),
            Err(part) => {
                let _ = look(book, pen, room);
                Err(part)
            }
        },
    }
}

// The looks of an attempt before its first run: behind the turn of a part that the call reaches on every board, and then behind that of
// one that it reaches as the local APIC in hand stands. `Err` names the part whose turn was found taken.
pub(crate) fn set_out(
    book: &TurnBook<RunningBoard>,
    pen: &mut Pen<RunningBoard>,
    shape: &Shape,
    places: &mut Places,
    room: &mut Workroom,
    caller: Caller,
    call: &Call,
) -> Result<Front, Part>
    requires book { pen.old.seat.table_id ≡ book.now.table.shared.table_id }
    requires turns { book.now.table.shared.table_id.slots ≡ shape.now.cpus + FIXED_PARTS }
    requires width { book.now.width ≡ WORDS }
    requires limits { InLimits shape.now }
    requires allowed { is_allowed caller call.now shape.now ≡ true }
    requires bare { (view_of pen.old.seat).held ≡ [] }
    requires home { AreHome (view_of pen.old.seat).held (slots_of pen.old.seat) }
    requires begins { (view_of pen.old.seat).begin ≡ Some (opening shape.now) }
    requires caller { (view_of pen.old.seat).caller ≡ Some (caller_number caller) }
    requires none { places.old.items ≡ [] }
    requires room { IsRoomFor shape.now room.old }
    requires bare_room { AreAt [] room.old.rig.parts }
    requires noted { AreNoted (view_of pen.old.seat).notes room.old.rig.known.places.items }
    ensures book { pen.new.seat.table_id ≡ pen.old.seat.table_id }
    ensures home { AreHome (view_of pen.new.seat).held (slots_of pen.new.seat) }
    ensures looked { IfOk result (HasLooked shape.now caller (view_of pen.new.seat)) }
    ensures holds { HoldsPlaces shape.now (view_of pen.new.seat) places.new.items }
    ensures way { IfOk result (λ had.
        IsUnderWay shape.now caller call.now (view_of pen.old.seat) (view_of pen.new.seat) had places.new.items) }
    ensures published { IfOk result (λ _. IfSome (view_of pen.new.seat).now (λ b. words b ≡ list_of room.new.rig.known)) }
    ensures under { IfOk result (λ had. room.new.rig.known.looked ≡ had.generation) }
    ensures settled { IfOk result (λ _. room.new.rig.known.settled ≡ true) }
    ensures busy { IfErr result (λ part. CameTo shape.now caller call.now (view_of pen.old.seat) (view_of pen.new.seat)
        (Err (reasons.Busy part)) []) }
    ensures room { IsRoomFor shape.now room.new }
    ensures bare_room { AreAt [] room.new.rig.parts }
    ensures noted { AreNoted (view_of pen.new.seat).notes room.new.rig.known.places.items }
{
    match begin(book, pen, shape, places, room, caller, call) {
        Err(part) => Err(part),
        Ok(had) => match reached_beside(book, pen, places.as_slice(), caller, call) {
            None => Ok(had),
            Some(part) => {
                let want = Want::Turn(part);
                fetch(book, pen, shape, places, room, caller, had, call, want)
            }
        },
    }
}
