//! One function for each family of calls.
ghost use Rattle.std.specs.Prelude.{◌≡◌, ℕ, IsTrue, false, None, [], ◌∷◌};
ghost use Rattle.irq_base.specs.Refusals.{first_of};
ghost use Rattle.board_model.specs.Published.{routing_of_words};
ghost use Rattle.board_model.specs.Run.{run_on};
ghost use Rattle.board_raise.specs.InHand.{parts_of};
ghost use Rattle.board_calls.specs.Calls.{io_row, plan_in_range};
ghost use Rattle.board_calls.specs.Refusals.{range_reasons};
ghost use Rattle.board_calls.specs.Done.{Replies, IsMissing, SameInHand, FitsShape, FitsButTick};
ghost use Rattle.board_calls.specs.Families.{is_of_device, is_of_ticks, is_quiet_registration, is_registration};
ghost use Rattle.board_calls.specs.Told.{TellsOn};

use crate::counters::take;
use crate::irqfds::{assign, deassign};
use crate::registrations::{attach, detach, unwatch, watch};
use crate::reroute::reroute;
use crate::signals::{lower_line, raise_line, send_message, write};
use crate::ticks::{set_mode, tick};
use board_raise::{Lacks, Rig};
use ioevent_set::IoRow;
use irq_base::{Call, Events, Reply, Shape, Space};

/// What a device asks: a line of a GSI goes high or low (KVM_IRQ_LINE), a message is sent (KVM_SIGNAL_MSI), or a counter is
/// written or read (eventfd(2)). The call is one that `refused_by_range` does not refuse, and the parts in hand fit the shape.
///
/// The reply is that of the call's plan on the parts in hand, by the published words for which the rig stands, and the parts
/// and the wishes are left as that leaves them; no event is told. `Lacks` names a part that is not in hand, the one that the
/// plan lacks, and then nothing is promised of the parts' values. Where the rig is astray, the reply may be another; a part that
/// is named is not in hand there either. The same parts are in hand after the call as before it, and they fit the shape.
pub fn device_call<R: Rig>(rig: &mut R, shape: &Shape, call: &Call) -> Result<Reply, Lacks>
    requires kind { IsTrue (is_of_device call.now) }
    requires range { first_of (range_reasons shape.now call.now) ≡ None }
    requires fits { FitsShape shape.now (R.held rig.old) }
    ensures does { (n : ℕ) → R.astray rig.new ≡ false →
        Replies (plan_in_range (routing_of_words (R.published rig.old)) shape.now n call.now) (R.held rig.old) (R.wishes rig.old)
        result (R.held rig.new) (R.wishes rig.new) }
    ensures missing { IsMissing result (R.held rig.old) }
    ensures held { SameInHand (R.held rig.old) (R.held rig.new) }
    ensures fits { FitsShape shape.now (R.held rig.new) }
    ensures published { R.published rig.new ≡ R.published rig.old }
    ensures strays { R.astray rig.new ≡ false → R.astray rig.old ≡ false }
    ensures noted { R.noted rig.new ≡ R.noted rig.old }
{
    match call {
        Call::Line { gsi, line, high } => {
            if *high {
                raise_line(rig, shape, *gsi, *line)
            } else {
                lower_line(rig, *gsi, *line)
            }
        }
        Call::Msi { address, payload } => send_message(rig, shape, *address, *payload),
        Call::Write { counter, n } => write(rig, shape, *counter, *n),
        Call::Take { counter } => take(rig.parts(), *counter),
        _ => unreachable!(),
    }
}

/// A tick falls, or reinjection is turned on or off (KVM_REINJECT_CONTROL). The parts in hand fit the shape.
///
/// What it promises is what `device_call` promises, but that after a tick one more may be pending than parts which fit a shape
/// have.
pub fn tick_call<R: Rig>(rig: &mut R, shape: &Shape, call: &Call) -> Result<Reply, Lacks>
    requires kind { IsTrue (is_of_ticks call.now) }
    requires fits { FitsShape shape.now (R.held rig.old) }
    ensures does { (n : ℕ) → R.astray rig.new ≡ false →
        Replies (plan_in_range (routing_of_words (R.published rig.old)) shape.now n call.now) (R.held rig.old) (R.wishes rig.old)
        result (R.held rig.new) (R.wishes rig.new) }
    ensures missing { IsMissing result (R.held rig.old) }
    ensures held { SameInHand (R.held rig.old) (R.held rig.new) }
    ensures fits { FitsButTick shape.now (R.held rig.new) }
    ensures published { R.published rig.new ≡ R.published rig.old }
    ensures strays { R.astray rig.new ≡ false → R.astray rig.old ≡ false }
    ensures noted { R.noted rig.new ≡ R.noted rig.old }
{
    match call {
        Call::Tick => tick(rig, shape),
        Call::TickMode { reinject } => set_mode(rig.parts(), *reinject),
        _ => unreachable!(),
    }
}

/// A registration: an irqfd is made or ended (KVM_IRQFD), the routing table is replaced (KVM_SET_GSI_ROUTING), an ioeventfd is
/// made or ended (KVM_IOEVENTFD), or an acknowledge notifier is. The call is one that `refused_by_range` does not refuse, and the
/// parts in hand fit the shape.
///
/// What it promises is what `device_call` promises, but that an irqfd which finds a count at its trigger tells the event
/// `Injected` after those that stand there; it is left out where it finds no room.
pub fn registration<R: Rig>(
    rig: &mut R,
    shape: &Shape,
    call: &Call,
    events: &mut Events,
) -> Result<Reply, Lacks>
    requires kind { IsTrue (is_registration call.now) }
    requires range { first_of (range_reasons shape.now call.now) ≡ None }
    requires fits { FitsShape shape.now (R.held rig.old) }
    ensures does { (n : ℕ) → R.astray rig.new ≡ false →
        TellsOn (λ reply. reply ∷ []) result events.old.items events.new.items (parts_of (R.held rig.new)) (R.wishes rig.new)
        (run_on (plan_in_range (routing_of_words (R.published rig.old)) shape.now n call.now) (parts_of (R.held rig.old))
        (R.wishes rig.old)) }
    ensures missing { IsMissing result (R.held rig.old) }
    ensures held { SameInHand (R.held rig.old) (R.held rig.new) }
    ensures fits { FitsShape shape.now (R.held rig.new) }
    ensures published { R.published rig.new ≡ R.published rig.old }
    ensures strays { R.astray rig.new ≡ false → R.astray rig.old ≡ false }
    ensures noted { R.noted rig.new ≡ R.noted rig.old }
{
    match call {
        Call::Assign {
            trigger,
            gsi,
            resample,
        } => assign(rig, shape, *trigger, *gsi, *resample, events),
        _ => quiet_registration(rig, shape, call),
    }
}

// A registration that tells no event.
fn quiet_registration<R: Rig>(rig: &mut R, shape: &Shape, call: &Call) -> Result<Reply, Lacks>
    requires kind { IsTrue (is_quiet_registration call.now) }
    requires range { first_of (range_reasons shape.now call.now) ≡ None }
    requires fits { FitsShape shape.now (R.held rig.old) }
    ensures does { (n : ℕ) → R.astray rig.new ≡ false →
        Replies (plan_in_range (routing_of_words (R.published rig.old)) shape.now n call.now) (R.held rig.old) (R.wishes rig.old)
        result (R.held rig.new) (R.wishes rig.new) }
    ensures missing { IsMissing result (R.held rig.old) }
    ensures held { SameInHand (R.held rig.old) (R.held rig.new) }
    ensures fits { FitsShape shape.now (R.held rig.new) }
    ensures published { R.published rig.new ≡ R.published rig.old }
    ensures strays { R.astray rig.new ≡ false → R.astray rig.old ≡ false }
    ensures noted { R.noted rig.new ≡ R.noted rig.old }
{
    match call {
        Call::Deassign { trigger, gsi } => deassign(rig, *trigger, *gsi),
        Call::Reroute { rows } => reroute(rig.parts(), rows),
        Call::Attach {
            space,
            address,
            len,
            counter,
            want,
        } => attach(rig.parts(), io_row(*space, *address, *len, *counter, *want)),
        Call::Detach {
            space,
            address,
            len,
            counter,
            want,
        } => detach(
            rig.parts(),
            &io_row(*space, *address, *len, *counter, *want),
        ),
        Call::Watch { counter, gsi } => watch(rig.parts(), *counter, *gsi),
        Call::Unwatch { counter, gsi } => unwatch(rig.parts(), *counter, *gsi),
        _ => unreachable!(),
    }
}

// The row of an ioeventfd.
fn io_row(space: Space, address: u64, len: u8, counter: u16, want: Option<u64>) -> IoRow
    ensures { result ≡ io_row space address len counter want }
{
    IoRow {
        space,
        address,
        len,
        counter,
        want,
    }
}
