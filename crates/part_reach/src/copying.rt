//! Copies of the parts whose turns an attempt has won.
ghost use Rattle.std.specs.Prelude.{◌≡◌, [], Some};
ghost use Rattle.board_model.specs.Board.{Board};
ghost use Rattle.board_raise.specs.Fit.{InLimits};
ghost use Rattle.board_step.specs.History.{opening};
ghost use Rattle.turn_book.specs.Hands.{AreHome};
ghost use Rattle.turn_book.specs.Many.{HoldsJust};
ghost use Rattle.turn_book.specs.Views.{view_of, slots_of, IsLegal, HoldsRight};
ghost use Rattle.part_slots.specs.Running.{Opens, IsStep};
ghost use Rattle.part_slots.specs.Slots.{slots_of as slots_of_board};
ghost use Rattle.part_rig.specs.Rooms.{IsRoomFor, AreAt};
ghost use Rattle.part_reach.specs.Copies.{AreCopies};

use irq_base::Shape;
use part_machine::RunningBoard;
use part_rig::Workroom;
use turn_book::{Pen, TurnBook};
use turn_copies::copy_each;

// Copies of the parts of these places, which are all that the pen holds; nothing was in hand. The pen and its slots stay.
pub(crate) fn copy_parts(
    book: &TurnBook<RunningBoard>,
    pen: &mut Pen<RunningBoard>,
    shape: &Shape,
    places: &[u32],
    room: &mut Workroom,
)
    requires book { pen.old.seat.table_id ≡ book.now.table.shared.table_id }
    requires limits { InLimits shape.now }
    requires just { HoldsJust places.now (view_of pen.old.seat).held }
    requires home { AreHome (view_of pen.old.seat).held (slots_of pen.old.seat) }
    requires begins { (view_of pen.old.seat).begin ≡ Some (opening shape.now) }
    requires legal { IsLegal Opens IsStep (view_of pen.old.seat) }
    requires holds { HoldsRight slots_of_board (view_of pen.old.seat) }
    requires room { IsRoomFor shape.now room.old }
    requires bare { AreAt [] room.old.rig.parts }
    ensures book { pen.new.seat.table_id ≡ pen.old.seat.table_id }
    ensures home { AreHome (view_of pen.new.seat).held (slots_of pen.new.seat) }
    ensures view { view_of pen.new.seat ≡ view_of pen.old.seat }
    ensures copies { (b : Board) → (view_of pen.old.seat).now ≡ Some b → AreCopies b places.now room.new.rig.parts }
    ensures room { IsRoomFor shape.now room.new }
    ensures known { room.new.rig.known ≡ room.old.rig.known }
{
    copy_each(book, pen, places, room);
}
