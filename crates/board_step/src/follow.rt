//! A board follows entries that somebody says it had.
ghost use Rattle.std.specs.Prelude.{◌≡◌, ◌↔◌, IsTrue, true};
ghost use Rattle.irq_base.specs.Callers.{is_allowed};
ghost use Rattle.board_step.specs.Applied.{LeadsOn};
ghost use Rattle.board_step.specs.Bodies.{entry_of};
ghost use Rattle.board_step.specs.Step.{Step};

use crate::board::Board;
use crate::choices::wishes_shown;
use crate::same::{same_events, same_reply};
use irq_base::{Call, Caller, EventList, Events, Reply};

// Whether a call had this reply and these events.
fn is_as_shown(had: &Reply, told: &Events, reply: &Reply, events: &EventList) -> bool
    ensures { IsTrue result ↔ ((had.now ≡ reply.now) × (told.now.items ≡ events.now)) }
{
    same_reply(had, reply) && same_events(told.as_slice(), events)
}

impl Board {
    /// One call on the board with a reply and events that somebody says it had. The call is allowed to its caller.
    ///
    /// It is true exactly where no limit of the board bars the call, and some step from the board has this reply and these
    /// events; then the board is the one after that step. Where a message has a choice of processors, it takes that which the
    /// statuses show. After false nothing is promised of the board, but that it is one. It takes no memory.
    pub fn follow(&mut self, caller: Caller, call: &Call, reply: &Reply, events: &EventList) -> bool
        requires { is_allowed caller call.now self.old.shape ≡ true }
        ensures exactly { IsTrue result ↔ LeadsOn self.old (entry_of caller call.now reply.now events.now) }
        ensures leads { IsTrue result → Step self.old (entry_of caller call.now reply.now events.now) self.new }
    {
        self.keeps_sound();
        if events.len() > 560 {
            return false;
        }
        let wishes = wishes_shown(reply, events);
        let mut told = Events::new();
        match self.step(wishes.as_slice(), caller, call, &mut told) {
            Err(_) => false,
            Ok(done) => is_as_shown(&done.reply, &told, reply, events),
        }
    }
}
