//! One caller's way to a running board.
ghost use Rattle.std.specs.Prelude.{◌≡◌, [], length, Some, true, false};
ghost use Rattle.irq_base.specs.Callers.{is_there};
ghost use Rattle.board_step.specs.History.{opening};
ghost use Rattle.part_slots.specs.Callers.{caller_number};
ghost use Rattle.part_rig.specs.Readings.{AreNoted};
ghost use Rattle.part_rig.specs.Rooms.{AreAt};
ghost use Rattle.part_reach.specs.Kept.{has_registry_room, counters_in};

use irq_base::{Caller, Shape};
use part_machine::RunningBoard;
use part_rig::Workroom;
use turn_book::Pen;

/// One caller's way to a running board. Its history begins with the board at power-on, and between two calls it holds nothing.
#[derive(Drop)]
pub struct Pass {
    pub(crate) pen: Pen<RunningBoard>,
    pub(crate) caller: Caller,
    pub(crate) shape: Shape,
    // for the copies of a call, and what is known of the published words
    pub(crate) room: Workroom,
    pub ghost begins: { (pen.seat.me.0).begin ≡ Some (opening shape) },
    pub ghost bare: { (pen.seat.me.0).held ≡ [] },
    pub ghost named: { (pen.seat.me.0).caller ≡ Some (caller_number caller) },
    pub ghost plain: { (pen.seat.me.0).is_desk ≡ false },
    pub ghost there: { is_there caller shape ≡ true },
    pub ghost registry_room: { has_registry_room room ≡ true },
    pub ghost counters_room: { counters_in room ≡ Some shape.counters },
    pub ghost lapics_room: { length room.rig.parts.lapics ≡ shape.cpus },
    pub ghost empty_handed: { AreAt [] room.rig.parts },
    pub ghost noted: { AreNoted (pen.seat.me.0).notes room.rig.known.places.items },
}

impl Pass {
    /// Whose pass it is: a device below `MAX_DEVICES` or a processor of the board.
    pub fn caller(&self) -> Caller
        ensures who { result ≡ self.now.caller }
        ensures there { is_there result self.now.shape ≡ true }
    {
        self.caller
    }
}
