//! One call on the parts in hand.
ghost use Rattle.std.specs.Prelude.{◌≡◌, true, None};
ghost use Rattle.irq_base.specs.Callers.{is_allowed};
ghost use Rattle.board_raise.specs.InHand.{parts_of};
ghost use Rattle.board_calls.specs.Done.{IsMissing, SameInHand, FitsShape, FitsButTick};
ghost use Rattle.board_step.specs.Bodies.{BodyLeads};
ghost use Rattle.part_rig.specs.Knowing.{list_of, SameReadings};
ghost use Rattle.part_rig.specs.Rooms.{IsRoomFor};

use crate::workroom::Workroom;
use board_raise::Lacks;
use board_step::step_on;
use irq_base::{Call, Caller, Events, Reply, Shape};

impl Workroom {
    /// One call on the parts in hand, by the words that count as noted: `step_on` over the rig.
    ///
    /// It tells what `step_on` tells, where no word is missing afterwards. What was read of words stays.
    pub fn step(
        &mut self,
        shape: &Shape,
        caller: Caller,
        call: &Call,
        events: &mut Events,
    ) -> Result<Reply, Lacks>
        requires allowed { is_allowed caller call.now shape.now ≡ true }
        requires fits { FitsShape shape.now self.old.rig.parts }
        requires room { IsRoomFor shape.now self.old }
        ensures leads { self.new.rig.known.missing ≡ None →
            BodyLeads shape.now (list_of self.old.rig.known) (parts_of self.old.rig.parts) caller call.now result
            events.old.items events.new.items (parts_of self.new.rig.parts) }
        ensures missing { IsMissing result self.old.rig.parts }
        ensures held { SameInHand self.old.rig.parts self.new.rig.parts }
        ensures fits { FitsButTick shape.now self.new.rig.parts }
        ensures list { list_of self.new.rig.known ≡ list_of self.old.rig.known }
        ensures readings { SameReadings self.old.rig.known self.new.rig.known }
        ensures strays { self.new.rig.known.missing ≡ None → self.old.rig.known.missing ≡ None }
        ensures room { IsRoomFor shape.now self.new }
    {
        step_on(&mut self.rig, shape, caller, call, events)
    }
}
