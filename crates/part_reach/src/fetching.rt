//! What a call wants is read, or its turn is tried.
ghost use Rattle.std.specs.Prelude.{◌≡◌, ◌≢◌, ℕ, ◌+◌, ◌<◌, ◌≤◌, ◌∷◌, ◌++◌, [], length, true, false, Some, None, Err, IfOk, IfErr, IfSome};
ghost use Rattle.irq_base.specs.Callers.{is_allowed};
ghost use Rattle.irq_base.specs.declared.shape.Shape.{Shape as ShapeOf};
ghost use Rattle.board_raise.specs.Fit.{InLimits};
ghost use Rattle.board_step.specs.History.{opening};
ghost use Rattle.board_step.specs.Publications.{words};
ghost use Rattle.turn_book.specs.Hands.{AreHome};
ghost use Rattle.turn_book.specs.Views.{view_of, slots_of, SamePlace, SameList, SameWords};
ghost use Rattle.turn_book.specs.Histories.{is_in};
ghost use Rattle.turn_book.specs.Plays.{IsLastLook};
ghost use Rattle.part_slots.specs.Callers.{caller_number};
ghost use Rattle.part_slots.specs.Commits.{Seen};
ghost use Rattle.part_slots.specs.Slots.{place as place_of};
ghost use Rattle.part_rig.specs.Knowing.{list_of};
ghost use Rattle.part_rig.specs.Readings.{AreNoted, blanks_under};
ghost use Rattle.part_rig.specs.Rooms.{IsRoomFor, AreAt};
ghost use Rattle.part_attempt.specs.declared.not_now.NotNow.TheVariants as reasons;
ghost use Rattle.part_reach.specs.Wants.{IsWanted, IsUnread};
ghost use Rattle.part_reach.specs.UnderWay.{HasLooked, HoldsPlaces, IsUnderWay, LooksAgain, wants_left, CameTo};
ghost use Rattle.irq_bits.specs.declared.limits.TheConstants.{MAX_CPUS};
ghost use Rattle.board_model.specs.declared.width.TheConstants.{WORDS};
ghost use Rattle.part_slots.specs.declared.numbers.TheConstants.{FIXED_PARTS};
ghost use Rattle.part_attempt.specs.declared.places.TheConstants.{MAX_PLACES};

use crate::want::Want;
use irq_base::{Call, Caller, Part, Shape};
use part_attempt::Places;
use part_machine::RunningBoard;
use part_rig::Workroom;
use part_slots::place;
use turn_book::{Front, Pen, Took, TurnBook};

// The turn of a part is tried once; where it is won, its place is one more.
fn take_turn(
    book: &TurnBook<RunningBoard>,
    pen: &mut Pen<RunningBoard>,
    shape: &Shape,
    places: &mut Places,
    part: Part,
) -> Took
    requires book { pen.old.seat.table_id ≡ book.now.table.shared.table_id }
    requires turns { book.now.table.shared.table_id.slots ≡ shape.now.cpus + FIXED_PARTS }
    requires few { shape.now.cpus ≤ MAX_CPUS }
    requires caller { (view_of pen.old.seat).caller ≢ None }
    requires home { AreHome (view_of pen.old.seat).held (slots_of pen.old.seat) }
    requires holds { HoldsPlaces shape.now (view_of pen.old.seat) places.old.items }
    requires there { place_of part < FIXED_PARTS + shape.now.cpus }
    requires free { is_in (place_of part) places.old.items ≡ false }
    ensures book { pen.new.seat.table_id ≡ pen.old.seat.table_id }
    ensures home { AreHome (view_of pen.new.seat).held (slots_of pen.new.seat) }
    ensures holds { HoldsPlaces shape.now (view_of pen.new.seat) places.new.items }
    ensures got { result ≡ Took.Got → (places.new.items ≡ places.old.items ++ place_of part ∷ [])
        × ((view_of pen.new.seat).took ≡ (view_of pen.old.seat).took ++ place_of part ∷ [])
        × ((view_of pen.new.seat).found ≡ (view_of pen.old.seat).found) }
    ensures found { result ≡ Took.Found → (places.new.items ≡ places.old.items)
        × ((view_of pen.new.seat).took ≡ (view_of pen.old.seat).took)
        × ((view_of pen.new.seat).found ≡ (view_of pen.old.seat).found ++ place_of part ∷ []) }
    ensures list { SameList (view_of pen.old.seat) (view_of pen.new.seat) }
    ensures place { SamePlace (view_of pen.old.seat) (view_of pen.new.seat) }
    ensures words { SameWords (view_of pen.old.seat) (view_of pen.new.seat) }
{
    let turn = place(part);
    match book.take(pen, turn) {
        Took::Got => {
            places.push(turn);
            Took::Got
        }
        Took::Found => Took::Found,
    }
}

// One look at the front.
pub(crate) fn look(
    book: &TurnBook<RunningBoard>,
    pen: &mut Pen<RunningBoard>,
    room: &mut Workroom,
) -> Front
    requires book { pen.old.seat.table_id ≡ book.now.table.shared.table_id }
    requires noted { AreNoted (view_of pen.old.seat).notes room.old.rig.known.places.items }
    ensures book { pen.new.seat.table_id ≡ pen.old.seat.table_id }
    ensures again { LooksAgain (view_of pen.old.seat) (view_of pen.new.seat) [] result }
    ensures held { (view_of pen.new.seat).held ≡ (view_of pen.old.seat).held }
    ensures published { IfSome (view_of pen.new.seat).now (λ b. words b ≡ list_of room.new.rig.known) }
    ensures under { room.new.rig.known.looked ≡ result.generation }
    ensures settled { room.new.rig.known.settled ≡ true }
    ensures few { (g : ℕ) → blanks_under g room.new.rig.known.places.items ≤ WORDS }
    ensures places { room.new.rig.known.places.items ≡ room.old.rig.known.places.items }
    ensures parts { room.new.rig.parts ≡ room.old.rig.parts }
    ensures room { (any : ShapeOf) → IsRoomFor any room.old → IsRoomFor any room.new }
    ensures noted { AreNoted (view_of pen.new.seat).notes room.new.rig.known.places.items }
    ensures slots { slots_of pen.new.seat ≡ slots_of pen.old.seat }
{
    room.rig.known.look(book, pen)
}

// A word that was not read is read, and another look is had.
fn read_word(
    book: &TurnBook<RunningBoard>,
    pen: &mut Pen<RunningBoard>,
    room: &mut Workroom,
    had: Front,
    index: u16,
) -> Front
    requires book { pen.old.seat.table_id ≡ book.now.table.shared.table_id }
    requires width { book.now.width ≡ WORDS }
    requires last_look { IsLastLook had (view_of pen.old.seat) }
    requires unread { IsUnread room.old.rig.known index }
    requires under { room.old.rig.known.looked ≡ had.generation }
    requires noted { AreNoted (view_of pen.old.seat).notes room.old.rig.known.places.items }
    ensures book { pen.new.seat.table_id ≡ pen.old.seat.table_id }
    ensures again { LooksAgain (view_of pen.old.seat) (view_of pen.new.seat) [] result }
    ensures held { (view_of pen.new.seat).held ≡ (view_of pen.old.seat).held }
    ensures published { IfSome (view_of pen.new.seat).now (λ b. words b ≡ list_of room.new.rig.known) }
    ensures under { room.new.rig.known.looked ≡ result.generation }
    ensures settled { room.new.rig.known.settled ≡ true }
    ensures few { (g : ℕ) → blanks_under g room.new.rig.known.places.items ≤ WORDS }
    ensures fewer { blanks_under had.generation room.new.rig.known.places.items + 1 ≡ blanks_under had.generation room.old.rig.known.places.items }
    ensures parts { room.new.rig.parts ≡ room.old.rig.parts }
    ensures room { (any : ShapeOf) → IsRoomFor any room.old → IsRoomFor any room.new }
    ensures noted { AreNoted (view_of pen.new.seat).notes room.new.rig.known.places.items }
    ensures slots { slots_of pen.new.seat ≡ slots_of pen.old.seat }
{
    room.rig.known.load(book, pen, index);
    look(book, pen, room)
}

// The turn of a part is tried once; where it is won, another look is had. `Err` names the part whose turn was found taken.
pub(crate) fn win_turn(
    book: &TurnBook<RunningBoard>,
    pen: &mut Pen<RunningBoard>,
    shape: &Shape,
    places: &mut Places,
    room: &mut Workroom,
    part: Part,
) -> Result<Front, Part>
    requires book { pen.old.seat.table_id ≡ book.now.table.shared.table_id }
    requires turns { book.now.table.shared.table_id.slots ≡ shape.now.cpus + FIXED_PARTS }
    requires few { shape.now.cpus ≤ MAX_CPUS }
    requires caller { (view_of pen.old.seat).caller ≢ None }
    requires home { AreHome (view_of pen.old.seat).held (slots_of pen.old.seat) }
    requires holds { HoldsPlaces shape.now (view_of pen.old.seat) places.old.items }
    requires there { place_of part < FIXED_PARTS + shape.now.cpus }
    requires free { is_in (place_of part) places.old.items ≡ false }
    requires noted { AreNoted (view_of pen.old.seat).notes room.old.rig.known.places.items }
    ensures book { pen.new.seat.table_id ≡ pen.old.seat.table_id }
    ensures home { AreHome (view_of pen.new.seat).held (slots_of pen.new.seat) }
    ensures holds { HoldsPlaces shape.now (view_of pen.new.seat) places.new.items }
    ensures again { IfOk result (LooksAgain (view_of pen.old.seat) (view_of pen.new.seat) (place_of part ∷ [])) }
    ensures won { IfOk result (λ _. places.new.items ≡ places.old.items ++ place_of part ∷ []) }
    ensures few_places { length places.new.items ≤ MAX_PLACES }
    ensures published { IfOk result (λ _. IfSome (view_of pen.new.seat).now (λ b. words b ≡ list_of room.new.rig.known)) }
    ensures under { IfOk result (λ next. room.new.rig.known.looked ≡ next.generation) }
    ensures settled { IfOk result (λ _. room.new.rig.known.settled ≡ true) }
    ensures few { IfOk result (λ _. (g : ℕ) → blanks_under g room.new.rig.known.places.items ≤ WORDS) }
    ensures same { room.new.rig.known.places.items ≡ room.old.rig.known.places.items }
    ensures other { IfErr result (λ found. found ≡ part) }
    ensures stays { IfErr result (λ _. places.new.items ≡ places.old.items) }
    ensures list { IfErr result (λ _. SameList (view_of pen.old.seat) (view_of pen.new.seat)) }
    ensures place { IfErr result (λ _. SamePlace (view_of pen.old.seat) (view_of pen.new.seat)) }
    ensures turns { IfErr result (λ _. ((view_of pen.new.seat).took ≡ (view_of pen.old.seat).took)
        × ((view_of pen.new.seat).found ≡ (view_of pen.old.seat).found ++ place_of part ∷ [])) }
    ensures parts { room.new.rig.parts ≡ room.old.rig.parts }
    ensures room { (any : ShapeOf) → IsRoomFor any room.old → IsRoomFor any room.new }
    ensures noted { AreNoted (view_of pen.new.seat).notes room.new.rig.known.places.items }
{
    match take_turn(book, pen, shape, places, part) {
        Took::Found => Err(part),
        Took::Got => Ok(look(book, pen, room)),
    }
}

// What is wanted is read, or tried once, and another look is had. `Err` names the part whose turn was found taken; then there is no
// further look.
pub(crate) fn fetch(
    book: &TurnBook<RunningBoard>,
    pen: &mut Pen<RunningBoard>,
    shape: &Shape,
    places: &mut Places,
    room: &mut Workroom,
    caller: Caller,
    had: Front,
    call: &Call,
    want: Want,
) -> Result<Front, Part>
    requires book { pen.old.seat.table_id ≡ book.now.table.shared.table_id }
    requires turns { book.now.table.shared.table_id.slots ≡ shape.now.cpus + FIXED_PARTS }
    requires width { book.now.width ≡ WORDS }
    requires limits { InLimits shape.now }
    requires allowed { is_allowed caller call.now shape.now ≡ true }
    requires home { AreHome (view_of pen.old.seat).held (slots_of pen.old.seat) }
    requires looked { HasLooked shape.now caller (view_of pen.old.seat) had }
    requires holds { HoldsPlaces shape.now (view_of pen.old.seat) places.old.items }
    requires wants { IsWanted room.old.rig.known shape.now caller call.now (view_of pen.old.seat) places.old.items want }
    requires under { room.old.rig.known.looked ≡ had.generation }
    requires room { IsRoomFor shape.now room.old }
    requires bare { AreAt [] room.old.rig.parts }
    requires noted { AreNoted (view_of pen.old.seat).notes room.old.rig.known.places.items }
    ensures book { pen.new.seat.table_id ≡ pen.old.seat.table_id }
    ensures home { AreHome (view_of pen.new.seat).held (slots_of pen.new.seat) }
    ensures looked { IfOk result (HasLooked shape.now caller (view_of pen.new.seat)) }
    ensures holds { HoldsPlaces shape.now (view_of pen.new.seat) places.new.items }
    ensures way { IfOk result (λ next. (u : Seen) → IsUnderWay shape.now caller call.now u (view_of pen.old.seat) had places.old.items
        → IsUnderWay shape.now caller call.now u (view_of pen.new.seat) next places.new.items) }
    ensures fewer { IfOk result (λ next. wants_left next places.new.items room.new.rig.known < wants_left had places.old.items room.old.rig.known) }
    ensures published { IfOk result (λ _. IfSome (view_of pen.new.seat).now (λ b. words b ≡ list_of room.new.rig.known)) }
    ensures under { IfOk result (λ next. room.new.rig.known.looked ≡ next.generation) }
    ensures settled { IfOk result (λ _. room.new.rig.known.settled ≡ true) }
    ensures busy { IfErr result (λ part. (u : Seen) → IsUnderWay shape.now caller call.now u (view_of pen.old.seat) had places.old.items
        → CameTo shape.now caller call.now u (view_of pen.new.seat) (Err (reasons.Busy part)) []) }
    ensures room { IsRoomFor shape.now room.new }
    ensures bare { AreAt [] room.new.rig.parts }
    ensures noted { AreNoted (view_of pen.new.seat).notes room.new.rig.known.places.items }
{
    match want {
        Want::Word(index) => Ok(read_word(book, pen, room, had, index)),
        Want::Turn(part) => win_turn(book, pen, shape, places, room, part),
    }
}
