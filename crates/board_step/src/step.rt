//! One call on the parts of a board that a rig holds.
ghost use Rattle.std.specs.Prelude.{◌≡◌, true, false, None, [], ◌∷◌};
ghost use Rattle.irq_base.specs.Callers.{is_allowed};
ghost use Rattle.irq_base.specs.Refusals.{first_of};
ghost use Rattle.board_model.specs.Published.{routing_of_words};
ghost use Rattle.board_model.specs.Run.{run_on};
ghost use Rattle.board_raise.specs.InHand.{parts_of};
ghost use Rattle.board_calls.specs.Calls.{number_of, plan_in_range};
ghost use Rattle.board_calls.specs.Done.{IsMissing, SameInHand, FitsShape, FitsButTick};
ghost use Rattle.board_calls.specs.Refusals.{range_reasons};
ghost use Rattle.board_calls.specs.Told.{TellsOn};
ghost use Rattle.board_step.specs.Bodies.{plan_by, BodyLeads};

use board_calls::{
    device_call, guest_access, processor_call, refused_by_range, registration, tick_call,
};
use board_raise::{Lacks, Rig};
use irq_base::{Call, Caller, Events, Reply, Shape};

/// The number of the caller: that of a device, or of a processor.
pub fn number_of(caller: Caller) -> u16
    ensures { result ≡ number_of caller }
{
    match caller {
        Caller::Device(d) => d,
        Caller::Cpu(n) => n,
    }
}

/// One call on the parts that a rig holds. The call is allowed to its caller, and the parts in hand fit the shape. The board's
/// limits of calls and of publications are not looked at.
///
/// Where the rig is not astray afterwards: on every board of this shape, with a sound registry, of which the parts in hand and
/// the published words are, `Ok` carries the reply of a step from that board, the events of that step stand after those that
/// stood there, but for what finds no room for 640, and the parts are those of the board after it; `Lacks` comes exactly where
/// a part of the call's reach is not in hand, and names one, and then nothing is promised of the parts' values. Where the rig
/// is astray, the reply may be another; a part that `Lacks` names is not in hand there either.
///
/// The same parts are in hand after the call as before it, and they fit the shape, but that one tick more than there may be can
/// be pending.
pub fn step_on<R: Rig>(
    rig: &mut R,
    shape: &Shape,
    caller: Caller,
    call: &Call,
    events: &mut Events,
) -> Result<Reply, Lacks>
    requires allowed { is_allowed caller call.now shape.now ≡ true }
    requires fits { FitsShape shape.now (R.held rig.old) }
    ensures leads { R.astray rig.new ≡ false →
        BodyLeads shape.now (R.published rig.old) (parts_of (R.held rig.old)) caller call.now result events.old.items
        events.new.items (parts_of (R.held rig.new)) }
    ensures does { R.astray rig.new ≡ false →
        TellsOn (λ reply. reply ∷ []) result events.old.items events.new.items (parts_of (R.held rig.new)) (R.wishes rig.new)
        (run_on (plan_by (R.published rig.old) shape.now caller call.now) (parts_of (R.held rig.old)) (R.wishes rig.old)) }
    ensures missing { IsMissing result (R.held rig.old) }
    ensures held { SameInHand (R.held rig.old) (R.held rig.new) }
    ensures fits { FitsButTick shape.now (R.held rig.new) }
    ensures published { R.published rig.new ≡ R.published rig.old }
    ensures strays { R.astray rig.new ≡ false → R.astray rig.old ≡ false }
    ensures noted { R.noted rig.new ≡ R.noted rig.old }
{
    match refused_by_range(shape, call) {
        Some(refusal) => Ok(Reply::Refused(refusal)),
        None => call_in_range(rig, shape, caller, call, events),
    }
}

// A call that is not refused for its arguments alone.
fn call_in_range<R: Rig>(
    rig: &mut R,
    shape: &Shape,
    caller: Caller,
    call: &Call,
    events: &mut Events,
) -> Result<Reply, Lacks>
    requires allowed { is_allowed caller call.now shape.now ≡ true }
    requires range { first_of (range_reasons shape.now call.now) ≡ None }
    requires fits { FitsShape shape.now (R.held rig.old) }
    ensures does { R.astray rig.new ≡ false →
        TellsOn (λ reply. reply ∷ []) result events.old.items events.new.items (parts_of (R.held rig.new)) (R.wishes rig.new)
        (run_on (plan_in_range (routing_of_words (R.published rig.old)) shape.now (number_of caller) call.now)
        (parts_of (R.held rig.old)) (R.wishes rig.old)) }
    ensures missing { IsMissing result (R.held rig.old) }
    ensures held { SameInHand (R.held rig.old) (R.held rig.new) }
    ensures fits { FitsButTick shape.now (R.held rig.new) }
    ensures published { R.published rig.new ≡ R.published rig.old }
    ensures strays { R.astray rig.new ≡ false → R.astray rig.old ≡ false }
    ensures noted { R.noted rig.new ≡ R.noted rig.old }
{
    match call {
        Call::Line { .. } | Call::Msi { .. } | Call::Write { .. } | Call::Take { .. } => {
            device_call(rig, shape, call)
        }
        Call::Tick | Call::TickMode { .. } => tick_call(rig, shape, call),
        Call::PortOut { .. } | Call::PortIn { .. } | Call::Store { .. } | Call::Load { .. } => {
            guest_access(rig, shape, number_of(caller), call, events)
        }
        Call::Ack | Call::Inta | Call::Eoi => {
            processor_call(rig, shape, number_of(caller), call, events)
        }
        _ => registration(rig, shape, call, events),
    }
}
