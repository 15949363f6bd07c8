//! Signals on the parts that a rig lends.
ghost use Rattle.std.specs.Prelude.{◌≡◌, ◌≤◌, length, IfOk, IfErr};
ghost use Rattle.irq_base.specs.declared.shape.Shape.{Shape};
ghost use Rattle.lapic.specs.Messages.{is_taken};
ghost use Rattle.board_model.specs.Plan.{About};
ghost use Rattle.board_model.specs.Run.{run_on};
ghost use Rattle.board_model.specs.Agreement.{LacksReached, HoldsReached};
ghost use Rattle.board_raise.specs.Fit.{LapicsFit};
ghost use Rattle.board_raise.specs.InHand.{parts_of, OnlyApicsChange};
ghost use Rattle.board_raise.specs.Send.{is_illegal, send};
ghost use Rattle.board_raise.specs.ReachLaws.{of_message};
ghost use Rattle.board_raise.specs.Told.{heading_of, status_told, Tells, IsOfMessage};
ghost use Rattle.irq_bits.specs.declared.limits.TheConstants.{MAX_CPUS};

use crate::lacks::Lacks;
use crate::rig::Rig;
use crate::sending::{Reached, deliver, name_processors, record_illegal};
use irq_base::{Cause, Message, Mode, Status};
use lapic::Shorthand;

// Whether a local APIC takes messages of the mode.
fn is_taken(mode: Mode) -> bool
    ensures { result ≡ is_taken mode }
{
    matches!(mode, Mode::Fixed | Mode::Lowest | Mode::Nmi)
}

// Whether the vector of the message is illegal; an NMI has none.
fn is_illegal(message: &Message) -> bool
    ensures { result ≡ is_illegal message.now }
{
    !matches!(message.mode, Mode::Nmi) && message.vector < 16
}

// The status of a message that reached these processors.
#[tactic(auto, using(crate::proofs::Telling::status_rules))]
fn status_of(reached: Reached) -> Status
    ensures { result ≡ status_told (record { new = reached.new; stood = reached.stood }) }
{
    if reached.new.is_empty() {
        Status::Coalesced {
            stood: reached.stood,
        }
    } else {
        Status::Delivered {
            new: reached.new,
            stood: reached.stood,
            pic: false,
        }
    }
}

/// Sends a message to the processors of a board (SDM volume 3, message signalled interrupts, interrupt command register).
/// `cpus` is the number of its processors, 1 to `MAX_CPUS`; the row of local APICs has as many places. `from` is the sender and the
/// shorthand of an interprocessor interrupt, and none for any other message.
///
/// `Ok` carries the status of this message alone: what a pin of the 8259A pair answers to the same signal is not in it. A
/// message of a mode that no local APIC takes, one that names no processor and one with an illegal vector are ignored. The
/// rig is asked for a wish once for each message that is sent.
///
/// A message of a mode that no local APIC takes looks at none. Any other looks at those that its shorthand tells: the
/// sender's own for `OwnOnly`, every one for `All` and `Others`. Without a shorthand, or with `Field`, it looks at those that
/// its destination tells: the one of that number for a physical destination, every one for a logical one or the broadcast.
/// `Lacks` names the first of these local APICs, by number, that is not in hand; with `Ok` all of them were.
pub fn send<R: Rig>(
    rig: &mut R,
    cpus: u16,
    message: &Message,
    from: Option<(u16, Shorthand)>,
) -> Result<Status, Lacks>
    requires few_cpus { cpus ≤ MAX_CPUS }
    requires places { length (R.held rig.old).lapics ≡ cpus }
    ensures does { (about : About) →
        Tells (heading_of message.now from) about result (parts_of (R.held rig.new)) (R.wishes rig.new)
        (run_on (send cpus message.now from about) (parts_of (R.held rig.old)) (R.wishes rig.old)) }
    ensures lacks { IfErr result (λ l. LacksReached l.part (parts_of (R.held rig.old)) (of_message message.now from cpus)) }
    ensures reached { IfOk result (λ _. HoldsReached (parts_of (R.held rig.old)) (of_message message.now from cpus)) }
    ensures status { IfOk result IsOfMessage }
    ensures kept { OnlyApicsChange (R.held rig.old) (R.held rig.new) }
    ensures fits { (shape : Shape) → LapicsFit shape (parts_of (R.held rig.old)) → LapicsFit shape (parts_of (R.held rig.new)) }
    ensures published { R.published rig.new ≡ R.published rig.old }
    ensures strays { R.astray rig.new ≡ R.astray rig.old }
    ensures noted { R.noted rig.new ≡ R.noted rig.old }
    ensures lacking_stays { IfErr result (λ _. (R.held rig.new ≡ R.held rig.old) × (R.wishes rig.new ≡ R.wishes rig.old)) }
{
    if !is_taken(message.mode) {
        return Ok(Status::Ignored(Cause::Mode));
    }
    let parts = rig.parts();
    let named = match name_processors(&parts.lapics, cpus, message, from) {
        Ok(named) => named,
        Err(lacks) => return Err(lacks),
    };
    if named.all.is_empty() {
        return Ok(Status::Ignored(Cause::NoProcessor));
    }
    if is_illegal(message) {
        record_illegal(&mut parts.lapics, cpus, message, from, &named);
        return Ok(Status::Ignored(Cause::BadVector));
    }
    let wish = rig.wish();
    let parts = rig.parts();
    let reached = deliver(&mut parts.lapics, cpus, message, from, &named, &wish);
    Ok(status_of(reached))
}
