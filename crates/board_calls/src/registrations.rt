//! ioeventfds (KVM_IOEVENTFD) and acknowledge notifiers are made and ended.
ghost use Rattle.std.specs.Prelude.{◌≡◌, ◌<◌, ◌++◌, ◌∷◌, [], OnOk, OnErr, MatchResult, Some, None};
ghost use Rattle.irq_base.specs.declared.shape.Shape.{Shape};
ghost use Rattle.irq_base.specs.Refusals.{first_of};
ghost use Rattle.irqfd_set.specs.Rows.{has_trigger};
ghost use Rattle.ack_notifiers.specs.Rows as watches;
ghost use Rattle.ack_notifiers.specs.Rows.{unwatch_answer, with_row};
ghost use Rattle.ioevent_set.specs.Rows.{attach_answer, detach_answer, without_row};
ghost use Rattle.std.specs.List.{list_any};
ghost use Rattle.board_model.specs.Run.{Wishes};
ghost use Rattle.board_raise.specs.InHand.{registry_of};
ghost use Rattle.board_calls.specs.Refusals.{watch_reasons};
ghost use Rattle.board_calls.specs.Registrations.{attach, detach, watch, unwatch};
ghost use Rattle.board_calls.specs.Done.{Replies, IsMissing, SameInHand, FitsShape};

use board_raise::{Lacks, Parts, RegistryPart};
use ioevent_set::IoRow;
use irq_base::{Part, Refusal, Reply};
use irqfd_set::Irqfds;

/// Whether the counter is the trigger of a living irqfd.
#[tactic(auto, using(crate::proofs::Rows::trigger_rules))]
pub fn is_trigger(irqfds: &Irqfds, counter: u16) -> bool
    ensures { result ≡ list_any (has_trigger counter) irqfds.now }
{
    irqfds.of_trigger(counter).is_some()
}

/// Makes an ioeventfd: `Done`, or `Exists` where it collides with one, or `Full` where 256 are there.
#[tactic(auto, using(crate::proofs::InHand::in_hand_rules))]
pub fn attach(parts: &mut Parts, row: IoRow) -> Result<Reply, Lacks>
    ensures does { (ws : Wishes) → Replies (attach row) parts.old ws result parts.new ws }
    ensures missing { IsMissing result parts.old }
    ensures held { SameInHand parts.old parts.new }
    ensures fits { (shape : Shape) → row.counter < shape.counters → FitsShape shape parts.old → FitsShape shape parts.new }
{
    let Some(registry) = &mut parts.registry else {
        return Err(Lacks {
            part: Part::Registry,
        });
    };
    match attach_in(registry, row) {
        Ok(()) => Ok(Reply::Done),
        Err(refusal) => Ok(Reply::Refused(refusal)),
    }
}

/// Ends an ioeventfd: `Done`, or `NotThere` where it is not there.
#[tactic(auto, using(crate::proofs::InHand::in_hand_rules))]
pub fn detach(parts: &mut Parts, row: &IoRow) -> Result<Reply, Lacks>
    ensures does { (ws : Wishes) → Replies (detach row.now) parts.old ws result parts.new ws }
    ensures missing { IsMissing result parts.old }
    ensures held { SameInHand parts.old parts.new }
    ensures fits { (shape : Shape) → FitsShape shape parts.old → FitsShape shape parts.new }
{
    let Some(registry) = &mut parts.registry else {
        return Err(Lacks {
            part: Part::Registry,
        });
    };
    match detach_in(registry, row) {
        Ok(()) => Ok(Reply::Done),
        Err(refusal) => Ok(Reply::Refused(refusal)),
    }
}

/// Makes an acknowledge notifier: `Done`, or `RoleClash` where the counter is a trigger, or `Exists` where it is there, or
/// `Full` where 256 are.
#[tactic(auto, using(crate::proofs::InHand::in_hand_rules))]
pub fn watch(parts: &mut Parts, counter: u16, gsi: u16) -> Result<Reply, Lacks>
    requires { gsi < 4096 }
    ensures does { (ws : Wishes) → Replies (watch counter gsi) parts.old ws result parts.new ws }
    ensures missing { IsMissing result parts.old }
    ensures held { SameInHand parts.old parts.new }
    ensures fits { (shape : Shape) → counter < shape.counters → FitsShape shape parts.old → FitsShape shape parts.new }
{
    let Some(registry) = &mut parts.registry else {
        return Err(Lacks {
            part: Part::Registry,
        });
    };
    match watch_in(registry, counter, gsi) {
        Ok(()) => Ok(Reply::Done),
        Err(refusal) => Ok(Reply::Refused(refusal)),
    }
}

/// Ends an acknowledge notifier: `Done`, or `NotThere` where it is not there.
#[tactic(auto, using(crate::proofs::InHand::in_hand_rules))]
pub fn unwatch(parts: &mut Parts, counter: u16, gsi: u16) -> Result<Reply, Lacks>
    ensures does { (ws : Wishes) → Replies (unwatch counter gsi) parts.old ws result parts.new ws }
    ensures missing { IsMissing result parts.old }
    ensures held { SameInHand parts.old parts.new }
    ensures fits { (shape : Shape) → FitsShape shape parts.old → FitsShape shape parts.new }
{
    let Some(registry) = &mut parts.registry else {
        return Err(Lacks {
            part: Part::Registry,
        });
    };
    match unwatch_in(registry, counter, gsi) {
        Ok(()) => Ok(Reply::Done),
        Err(refusal) => Ok(Reply::Refused(refusal)),
    }
}

// The ioeventfd stands in the registry from now on, unless it is refused.
fn attach_in(registry: &mut RegistryPart, row: IoRow) -> Result<(), Refusal>
    ensures answer { result ≡ attach_answer registry.old.ioevents row }
    ensures ok { OnOk result (registry.new ≡ record registry.old { ioevents = registry.old.ioevents ++ row ∷ [] }) }
    ensures err { OnErr result (registry.new ≡ registry.old) }
{
    registry.ioevents.attach(row)
}

// The ioeventfd stands in the registry no longer, unless that is refused.
fn detach_in(registry: &mut RegistryPart, row: &IoRow) -> Result<(), Refusal>
    ensures answer { result ≡ detach_answer registry.old.ioevents row.now }
    ensures ok { OnOk result (registry.new ≡ record registry.old { ioevents = without_row registry.old.ioevents row.now }) }
    ensures err { OnErr result (registry.new ≡ registry.old) }
{
    registry.ioevents.detach(row)
}

// The notifier stands in the registry from now on, unless it is refused.
fn watch_in(registry: &mut RegistryPart, counter: u16, gsi: u16) -> Result<(), Refusal>
    ensures refusal { MatchResult result (λ _. first_of (watch_reasons (registry_of registry.old) counter gsi) ≡ None)
        (λ r. first_of (watch_reasons (registry_of registry.old) counter gsi) ≡ Some r) }
    ensures ok { OnOk result (registry.new ≡ record registry.old { watches = with_row registry.old.watches counter gsi }) }
    ensures err { OnErr result (registry.new ≡ registry.old) }
{
    if is_trigger(&registry.irqfds, counter) {
        return Err(Refusal::RoleClash);
    }
    registry.watches.watch(counter, gsi)
}

// The notifier stands in the registry no longer, unless that is refused.
fn unwatch_in(registry: &mut RegistryPart, counter: u16, gsi: u16) -> Result<(), Refusal>
    ensures answer { result ≡ unwatch_answer registry.old.watches counter gsi }
    ensures ok { OnOk result (registry.new ≡ record registry.old { watches = watches.without_row registry.old.watches counter gsi }) }
    ensures err { OnErr result (registry.new ≡ registry.old) }
{
    registry.watches.unwatch(counter, gsi)
}
