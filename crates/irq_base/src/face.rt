//! One caller's way to a board.
ghost use Rattle.std.specs.Prelude.{◌≡◌, ℕ, ◌<◌, List, [], Option, Result, true, false, None, Some, IfErr, IfSome, IsOk, OnErr};
ghost use Rattle.irq_base.specs.Callers.{is_allowed, is_there};
ghost use Rattle.irq_base.specs.Faces.{
  Rose,
  StopsTell,
  IsPlaced,
  PlacedEntry,
  own_after,
  WhereTold,
  LeftFalls,
  may_publish,
};
ghost use Rattle.irq_base.specs.declared.call.Call.{Call as Asked};
ghost use Rattle.irq_base.specs.declared.call.Caller.{Caller as Asker};
ghost use Rattle.irq_base.specs.declared.event.Event.{Event as Happened};
ghost use Rattle.irq_base.specs.declared.reply.Done.{Done as Answer};
ghost use Rattle.irq_base.specs.declared.reply.Spent.{Spent as Limit};
ghost use Rattle.irq_base.specs.declared.shape.Shape.{Shape as Size};

use crate::call::{Call, Caller};
use crate::event::Events;
use crate::reply::{Done, Spent};

/// One caller's way to a board: a board on one thread, or a pass of a running one.
pub trait Face {
    // the shape of the board
    ghost shape: { Self → Size };

    // who asks
    ghost who: { Self → Asker };

    // a place at or above which the next answer stands
    ghost floor: { Self → ℕ };

    // how often a limit barred a call
    ghost stops: { Self → ℕ };

    // the limit that barred the last such call
    ghost last: { Self → Option Limit };

    // the caller's entries, each with its place, where the face tells them
    ghost own: { Self → Option (List PlacedEntry) };

    // the name of the running board behind it, if it is one
    ghost home: { Self → Option (List ℕ) };

    // how many calls are left to the board's limit, where the face tells it
    ghost left: { Self → Option ℕ };

    // this limit of the board bars this call
    ghost barred: { Self → Asked → Limit → Type 0 };

    // a call that was asked of the face before, the events that it handed out, its answer, and the face after are as this face
    // promises: over a board on one thread, that the call is a step of that board
    ghost keeps: { Self → Asked → List Happened → Result Answer Limit → Self → Type 0 };

    /// Who asks: a device below `MAX_DEVICES` or a processor of the board.
    fn caller(&self) -> Caller
        ensures who { result ≡ who self.now }
        ensures there { is_there result (shape self.now) ≡ true };

    /// Asks a call, and tells what happened in it: the events are cleared first. `Spent` where a limit of the board bars the
    /// call, which it names; then there is no event.
    fn ask(&mut self, call: &Call, events: &mut Events) -> Result<Done, Spent>
        requires allowed { is_allowed (who self.old) call.now (shape self.old) ≡ true }
        ensures shape { shape self.new ≡ shape self.old }
        ensures who { who self.new ≡ who self.old }
        ensures home { home self.new ≡ home self.old }
        ensures place { IsPlaced result (floor self.old) (floor self.new) }
        ensures stops { StopsTell result (stops self.old) (stops self.new) (last self.old) (last self.new) }
        ensures own { WhereTold (own self.old) (own self.new) (λ before now.
            now ≡ own_after (who self.old) call.now events.new.items result before) }
        ensures left { WhereTold (left self.old) (left self.new) (LeftFalls result) }
        ensures answers { IfSome (left self.old) (λ left. 0 < left → may_publish call.now ≡ false → IsOk result) }
        ensures barred { IfErr result (λ spent. barred self.new call.now spent) }
        ensures quiet { OnErr result (events.new.items ≡ []) }
        ensures keeps { keeps self.old call.now events.new.items result self.new };
}

/// What a face keeps of the calls that a limit barred: how many there were, as far as a `u64` counts, and the limit of the
/// last.
#[derive(Clone, Copy, Debug, PartialEq, Eq)]
pub struct Stops {
    pub count: u64,
    pub last: Option<Spent>,
}

impl Stops {
    /// No limit barred a call.
    pub fn none() -> Stops
        ensures count { result.count ≡ 0 }
        ensures last { result.last ≡ None }
    {
        Stops {
            count: 0,
            last: None,
        }
    }

    /// One more call was barred, by this limit.
    pub fn stop(&mut self, spent: Spent)
        ensures count { Rose self.old.count self.new.count }
        ensures last { self.new.last ≡ Some spent }
    {
        self.count = self.count.saturating_add(1);
        self.last = Some(spent);
    }
}
