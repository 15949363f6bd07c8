//! A GSI is raised, lowered or injected, on the parts that a rig lends.
ghost use Rattle.std.specs.Prelude.{◌≡◌, ◌<◌, ◌≤◌, length, IfOk, IfErr, IsTrue, Some, None, option_map};
ghost use Rattle.std.specs.declared.option.Option.{Option as Maybe};
ghost use Rattle.irq_base.specs.declared.message.MsiWord.{MsiWord as Word};
ghost use Rattle.irq_base.specs.declared.shape.Shape.{Shape};
ghost use Rattle.msi_decode.specs.Messages.{message_in};
ghost use Rattle.source_levels.specs.Holds.{IsSource};
ghost use Rattle.route_table.specs.Words.{is_good, is_route};
ghost use Rattle.board_model.specs.Plan.{About};
ghost use Rattle.board_model.specs.Run.{run_on};
ghost use Rattle.board_model.specs.Statuses.{TargetAnswer, sets_of, status_of};
ghost use Rattle.board_raise.specs.Fit.{LapicsFit, PinsFit};
ghost use Rattle.board_raise.specs.InHand.{parts_of, chips_of, OnlyPinsChange, OnlySignalled};
ghost use Rattle.board_raise.specs.ReachLaws.{of_raise, of_fall};
ghost use Rattle.board_raise.specs.RowSteps.{sent_of};
ghost use Rattle.board_raise.specs.Shown.{Leaves, Place, about_at, Shows, shown_beside, ShowsBeside, as_other, ShowsSent, IsNeeded, HoldsNeeded};
ghost use Rattle.board_raise.specs.Signal.{pic_answer, is_accepted, send_of_pin, raise_other, raise, lowered_status, let_go, inject};
ghost use Rattle.board_raise.specs.Told.{answer_in, IsOfMessage};
ghost use Rattle.irq_bits.specs.declared.limits.TheConstants.{MAX_CPUS};

use crate::holding::{accept_pin, let_go, let_go_after, raise_ioapic, raise_pic};
use crate::lacks::Lacks;
use crate::on_rig::send;
use crate::rig::Rig;
use crate::sending::Reached;
use ioapic_82093aa::Raise;
use irq_base::{Cause, Message, MsiWord, Source, Status, Targets};
use irq_bits::CpuSet;
use msi_decode::decode;
use pic_8259a::PinOutcome;

/// A source raises a GSI that goes to these targets (KVM API, KVM_IRQ_LINE_STATUS): it holds each of their pins as well, and a
/// message target is sent. `cpus` is the number of the board's processors, 1 to `MAX_CPUS`; the row of local APICs has as many places.
///
/// `Ok` carries the status: what the pin of the 8259A pair and the other target answer, and whom a message reached. The rig is
/// asked for a wish once where a message is sent.
///
/// The 8259A pair and the I/O APIC are needed where the GSI has a pin there, and the local APICs that the message which is sent
/// looks at. `Lacks` names the first of these, in this order, that is not in hand; with `Ok` all of them were.
pub fn raise_gsi<R: Rig>(
    rig: &mut R,
    cpus: u16,
    targets: &Targets,
    source: Source,
) -> Result<Status, Lacks>
    requires few_cpus { cpus ≤ MAX_CPUS }
    requires places { length (R.held rig.old).lapics ≡ cpus }
    requires pins { PinsFit (chips_of (R.held rig.old)) }
    requires route { IsTrue (is_route targets.now) }
    requires line { IsSource source }
    ensures does { (place : Place) →
        Shows place result (parts_of (R.held rig.new)) (R.wishes rig.new)
        (run_on (raise cpus targets.now source (about_at place)) (parts_of (R.held rig.old)) (R.wishes rig.old)) }
    ensures lacks { IfErr result (λ l. IsNeeded l.part (parts_of (R.held rig.old)) (λ b. of_raise b targets.now cpus)) }
    ensures reached { IfOk result (λ _. HoldsNeeded (parts_of (R.held rig.old)) (λ b. of_raise b targets.now cpus)) }
    ensures kept { OnlySignalled (R.held rig.old) (R.held rig.new) }
    ensures pins { PinsFit (chips_of (R.held rig.new)) }
    ensures fits { (shape : Shape) → LapicsFit shape (parts_of (R.held rig.old)) → LapicsFit shape (parts_of (R.held rig.new)) }
    ensures published { R.published rig.new ≡ R.published rig.old }
    ensures strays { R.astray rig.new ≡ R.astray rig.old }
    ensures noted { R.noted rig.new ≡ R.noted rig.old }
{
    let parts = rig.parts();
    let pic = match raise_pic(parts, targets.pic, source) {
        Ok(pic) => pic,
        Err(lacks) => return Err(lacks),
    };
    match raise_other(rig, cpus, targets, source) {
        Ok(other) => Ok(status_beside(pic, other)),
        Err(lacks) => Err(lacks),
    }
}

/// A source lowers a GSI that goes to these targets: it holds none of their pins any longer, whether it held them or not. The
/// status is `Lowered`, also for a message, and a GSI without targets is unrouted.
///
/// The 8259A pair and the I/O APIC are needed where the GSI has a pin there. `Lacks` names the first of both, in this order,
/// that is not in hand; with `Ok` all of them were.
pub fn lower_gsi<R: Rig>(rig: &mut R, targets: &Targets, source: Source) -> Result<Status, Lacks>
    requires pins { PinsFit (chips_of (R.held rig.old)) }
    requires route { IsTrue (is_route targets.now) }
    requires line { IsSource source }
    ensures does { Leaves result (parts_of (R.held rig.new)) (R.wishes rig.new)
        (run_on (let_go targets.now source) (parts_of (R.held rig.old)) (R.wishes rig.old)) }
    ensures status { IfOk result (λ status. status ≡ lowered_status targets.now.pic targets.now.ioapic targets.now.msi) }
    ensures lacks { IfErr result (λ l. IsNeeded l.part (parts_of (R.held rig.old)) (λ _. of_fall targets.now)) }
    ensures reached { IfOk result (λ _. HoldsNeeded (parts_of (R.held rig.old)) (λ _. of_fall targets.now)) }
    ensures kept { OnlyPinsChange (R.held rig.old) (R.held rig.new) }
    ensures pins { PinsFit (chips_of (R.held rig.new)) }
    ensures published { R.published rig.new ≡ R.published rig.old }
    ensures wishes { R.wishes rig.new ≡ R.wishes rig.old }
    ensures strays { R.astray rig.new ≡ R.astray rig.old }
    ensures noted { R.noted rig.new ≡ R.noted rig.old }
{
    let parts = rig.parts();
    match let_go(parts, targets, source) {
        Ok(()) => Ok(lowered_status(targets)),
        Err(lacks) => Err(lacks),
    }
}

/// A source injects on a GSI that goes to these targets (KVM API, KVM_IRQFD): it raises the GSI and lets go of it at once; the
/// source `Resample` holds its pins until they are acknowledged. The status is that of the raise, and the same parts are needed.
pub fn inject<R: Rig>(
    rig: &mut R,
    cpus: u16,
    targets: &Targets,
    source: Source,
) -> Result<Status, Lacks>
    requires few_cpus { cpus ≤ MAX_CPUS }
    requires places { length (R.held rig.old).lapics ≡ cpus }
    requires pins { PinsFit (chips_of (R.held rig.old)) }
    requires route { IsTrue (is_route targets.now) }
    requires line { IsSource source }
    ensures does { (place : Place) →
        Shows place result (parts_of (R.held rig.new)) (R.wishes rig.new)
        (run_on (inject cpus targets.now source (about_at place)) (parts_of (R.held rig.old)) (R.wishes rig.old)) }
    ensures lacks { IfErr result (λ l. IsNeeded l.part (parts_of (R.held rig.old)) (λ b. of_raise b targets.now cpus)) }
    ensures reached { IfOk result (λ _. HoldsNeeded (parts_of (R.held rig.old)) (λ b. of_raise b targets.now cpus)) }
    ensures kept { OnlySignalled (R.held rig.old) (R.held rig.new) }
    ensures pins { PinsFit (chips_of (R.held rig.new)) }
    ensures fits { (shape : Shape) → LapicsFit shape (parts_of (R.held rig.old)) → LapicsFit shape (parts_of (R.held rig.new)) }
    ensures published { R.published rig.new ≡ R.published rig.old }
    ensures strays { R.astray rig.new ≡ R.astray rig.old }
    ensures noted { R.noted rig.new ≡ R.noted rig.old }
{
    let status = match raise_gsi(rig, cpus, targets, source) {
        Ok(status) => status,
        Err(lacks) => return Err(lacks),
    };
    let parts = rig.parts();
    match let_go_after(parts, targets, source) {
        Ok(()) => Ok(status),
        Err(lacks) => Err(lacks),
    }
}

/// A pin of the I/O APIC, of 0 to 23, sends a message, and remote IRR is set where processors took a level-triggered one. The
/// status is that of the message alone.
pub fn send_of_pin<R: Rig>(
    rig: &mut R,
    cpus: u16,
    pin: u8,
    message: &Message,
) -> Result<Status, Lacks>
    requires few_cpus { cpus ≤ MAX_CPUS }
    requires places { length (R.held rig.old).lapics ≡ cpus }
    requires pins { PinsFit (chips_of (R.held rig.old)) }
    requires pin { pin < 24 }
    ensures does { (about : About) →
        ShowsSent about result (parts_of (R.held rig.new)) (R.wishes rig.new)
        (run_on (send_of_pin cpus pin message.now about) (parts_of (R.held rig.old)) (R.wishes rig.old)) }
    ensures status { IfOk result IsOfMessage }
    ensures kept { OnlySignalled (R.held rig.old) (R.held rig.new) }
    ensures pins { PinsFit (chips_of (R.held rig.new)) }
    ensures published { R.published rig.new ≡ R.published rig.old }
    ensures strays { R.astray rig.new ≡ R.astray rig.old }
    ensures noted { R.noted rig.new ≡ R.noted rig.old }
{
    let status = match send(rig, cpus, message, None) {
        Ok(status) => status,
        Err(lacks) => return Err(lacks),
    };
    let parts = rig.parts();
    match accept_pin(parts, pin, is_accepted(message, &status)) {
        Ok(()) => Ok(status),
        Err(lacks) => Err(lacks),
    }
}

// The source raises the I/O APIC pin, and the status is that of this target alone.
fn raise_pin<R: Rig>(rig: &mut R, cpus: u16, pin: u8, source: Source) -> Result<Status, Lacks>
    requires few_cpus { cpus ≤ MAX_CPUS }
    requires places { length (R.held rig.old).lapics ≡ cpus }
    requires pins { PinsFit (chips_of (R.held rig.old)) }
    requires pin { pin < 24 }
    requires line { IsSource source }
    ensures does { (msi : Maybe Word) (place : Place) (pic : Maybe TargetAnswer) →
        ShowsBeside place pic (as_other result) (parts_of (R.held rig.new)) (R.wishes rig.new)
        (run_on (raise_other cpus (Some pin) msi source (about_at place pic)) (parts_of (R.held rig.old)) (R.wishes rig.old)) }
    ensures kept { OnlySignalled (R.held rig.old) (R.held rig.new) }
    ensures pins { PinsFit (chips_of (R.held rig.new)) }
    ensures published { R.published rig.new ≡ R.published rig.old }
    ensures strays { R.astray rig.new ≡ R.astray rig.old }
    ensures noted { R.noted rig.new ≡ R.noted rig.old }
{
    let parts = rig.parts();
    let answer = match raise_ioapic(parts, pin, source) {
        Ok(answer) => answer,
        Err(lacks) => return Err(lacks),
    };
    match answer {
        Raise::Masked => Ok(Status::Ignored(Cause::Masked)),
        Raise::Stood => Ok(Status::Coalesced {
            stood: CpuSet::empty(),
        }),
        Raise::Send(message) => send_of_pin(rig, cpus, pin, &message),
    }
}

// The other target is raised: a pin of the I/O APIC, or a message, if there is one. The status is that of this target alone.
fn raise_other<R: Rig>(
    rig: &mut R,
    cpus: u16,
    targets: &Targets,
    source: Source,
) -> Result<Option<Status>, Lacks>
    requires few_cpus { cpus ≤ MAX_CPUS }
    requires places { length (R.held rig.old).lapics ≡ cpus }
    requires pins { PinsFit (chips_of (R.held rig.old)) }
    requires route { IsTrue (is_route targets.now) }
    requires line { IsSource source }
    ensures does { (place : Place) (pic : Maybe TargetAnswer) →
        ShowsBeside place pic result (parts_of (R.held rig.new)) (R.wishes rig.new)
        (run_on (raise_other cpus targets.now.ioapic targets.now.msi source (about_at place pic)) (parts_of (R.held rig.old))
        (R.wishes rig.old)) }
    ensures kept { OnlySignalled (R.held rig.old) (R.held rig.new) }
    ensures pins { PinsFit (chips_of (R.held rig.new)) }
    ensures published { R.published rig.new ≡ R.published rig.old }
    ensures strays { R.astray rig.new ≡ R.astray rig.old }
    ensures noted { R.noted rig.new ≡ R.noted rig.old }
{
    match (targets.ioapic, targets.msi) {
        (Some(pin), _) => as_other(raise_pin(rig, cpus, pin, source)),
        (None, Some(word)) => as_other(send(rig, cpus, &message_of(word), None)),
        (None, None) => Ok(None),
    }
}

// The status of a target that is there.
fn as_other(status: Result<Status, Lacks>) -> Result<Option<Status>, Lacks>
    ensures { result ≡ as_other status }
{
    match status {
        Ok(status) => Ok(Some(status)),
        Err(lacks) => Err(lacks),
    }
}

// The message of a good word.
fn message_of(word: MsiWord) -> Message
    requires { IsTrue (is_good word) }
    ensures { result ≡ message_in word.address word.payload }
{
    match decode(word.address, word.payload) {
        Ok(message) => message,
        Err(_) => unreachable!(),
    }
}

// Whether processors took a level-triggered message of this status.
fn is_accepted(message: &Message, status: &Status) -> bool
    ensures { result ≡ is_accepted message.now (answer_in status.now) }
{
    message.level && !matches!(status, Status::Ignored(_))
}

// The status of a signal, by what its 8259A pin answers and by the other target's own status.
fn status_beside(pic: Option<PinOutcome>, other: Option<Status>) -> Status
    ensures { result ≡ shown_beside (option_map pic_answer pic) other }
{
    match other {
        None => status_alone(pic),
        Some(status) => status_with(pic, &status),
    }
}

// The status of a signal with no other target.
fn status_alone(pic: Option<PinOutcome>) -> Status
    ensures { result ≡ shown_beside (option_map pic_answer pic) None }
{
    match pic {
        Some(PinOutcome::New) => Status::Delivered {
            new: CpuSet::empty(),
            stood: CpuSet::empty(),
            pic: true,
        },
        Some(PinOutcome::Stood | PinOutcome::Lowered) => Status::Coalesced {
            stood: CpuSet::empty(),
        },
        Some(PinOutcome::Masked) => Status::Ignored(Cause::Masked),
        None => Status::Ignored(Cause::Unrouted),
    }
}

// The status of a signal with another target.
fn status_with(pic: Option<PinOutcome>, other: &Status) -> Status
    ensures { result ≡ shown_beside (option_map pic_answer pic) (Some other.now) }
{
    let Reached { new, stood } = reached_in(other);
    let is_new = matches!(pic, Some(PinOutcome::New));
    if is_new || matches!(other, Status::Delivered { .. }) {
        return Status::Delivered {
            new,
            stood,
            pic: is_new,
        };
    }
    match (pic, other) {
        (Some(PinOutcome::Masked), Status::Ignored(_)) => Status::Ignored(Cause::Masked),
        (None, Status::Ignored(cause)) => Status::Ignored(*cause),
        _ => Status::Coalesced { stood },
    }
}

// The processors that a status shows.
fn reached_in(status: &Status) -> Reached
    ensures { sent_of result ≡ sets_of status.now }
{
    match status {
        Status::Delivered { new, stood, .. } => Reached {
            new: *new,
            stood: *stood,
        },
        Status::Coalesced { stood } => Reached {
            new: CpuSet::empty(),
            stood: *stood,
        },
        _ => Reached {
            new: CpuSet::empty(),
            stood: CpuSet::empty(),
        },
    }
}

// The status of a lowered signal.
fn lowered_status(targets: &Targets) -> Status
    ensures { result ≡ lowered_status targets.now.pic targets.now.ioapic targets.now.msi }
{
    if targets.pic.is_none() && targets.ioapic.is_none() && targets.msi.is_none() {
        Status::Ignored(Cause::Unrouted)
    } else {
        Status::Lowered
    }
}
