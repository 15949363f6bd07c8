//! irqfds are made and ended (KVM_IRQFD).
ghost use Rattle.std.specs.Prelude.{◌≡◌, ◌<◌, MatchOption, MatchResult, OnOk, OnErr, IfSome, Some, None, true, false, [], ◌∷◌, length};
ghost use Rattle.irq_base.specs.declared.shape.Shape.{Shape as Sizes};
ghost use Rattle.std.specs.List.{list_any};
ghost use Rattle.irq_base.specs.Refusals.{first_of};
ghost use Rattle.irqfd_set.specs.Rows.{with_row, without_row};
ghost use Rattle.board_model.specs.Published.{routing_of_words};
ghost use Rattle.board_model.specs.Run.{Wishes, run_on};
ghost use Rattle.board_raise.specs.Fit.{PinsFit};
ghost use Rattle.board_raise.specs.InHand.{parts_of, chips_of, registry_of};
ghost use Rattle.board_raise.specs.Shown.{DoesQuietly, Leaves};
ghost use Rattle.board_calls.specs.Refusals.{assign_reasons, is_counter, has_resample, is_signalled};
ghost use Rattle.board_calls.specs.Registrations.{assign, deassign, inject_count, release};
ghost use Rattle.board_calls.specs.Done.{Replies, IsMissing, SameInHand, FitsShape};
ghost use Rattle.board_calls.specs.Told.{TellsOn};
ghost use Rattle.board_calls.specs.Pieces.{adding, clashes, last_removed, removing};

use crate::registrations::is_trigger;
use crate::signals::inject_told;
use board_raise::{Lacks, Parts, RegistryPart, Rig, TriggerWord, lower_gsi};
use irq_base::{Events, Part, Refusal, Reply, Shape, Source};
use irqfd_set::{Irqfd, Irqfds};

/// Makes an irqfd: `Done`, or `Busy` where the trigger is that of a living irqfd, or `RoleClash` where it is signalled by a
/// registration, or where the resample counter is the trigger or that of a living irqfd. The count of the trigger is 0 from then
/// on; where it was above 0 the irqfd injects once, with the event `Injected`, which is left out where it finds no room.
pub fn assign<R: Rig>(
    rig: &mut R,
    shape: &Shape,
    trigger: u16,
    gsi: u16,
    resample: Option<u16>,
    events: &mut Events,
) -> Result<Reply, Lacks>
    requires trigger { trigger < shape.now.counters }
    requires gsi { gsi < 4096 }
    requires resample { IfSome resample (λ c. c < shape.now.counters) }
    requires fits { FitsShape shape.now (R.held rig.old) }
    ensures does { R.astray rig.new ≡ false →
        TellsOn (λ reply. reply ∷ []) result events.old.items events.new.items (parts_of (R.held rig.new)) (R.wishes rig.new)
        (run_on (assign (routing_of_words (R.published rig.old)) shape.now trigger gsi resample) (parts_of (R.held rig.old))
        (R.wishes rig.old)) }
    ensures missing { IsMissing result (R.held rig.old) }
    ensures held { SameInHand (R.held rig.old) (R.held rig.new) }
    ensures fits { FitsShape shape.now (R.held rig.new) }
    ensures published { R.published rig.new ≡ R.published rig.old }
    ensures strays { R.astray rig.new ≡ false → R.astray rig.old ≡ false }
    ensures noted { R.noted rig.new ≡ R.noted rig.old }
{
    match add(rig.parts(), trigger, gsi, resample) {
        Err(lacks) => Err(lacks),
        Ok(Err(refusal)) => Ok(Reply::Refused(refusal)),
        Ok(Ok(false)) => Ok(Reply::Done),
        Ok(Ok(true)) => match inject_count(rig, shape, gsi, resample, events) {
            Ok(()) => Ok(Reply::Done),
            Err(lacks) => Err(lacks),
        },
    }
}

// The row is there unless it is refused, and the count of its trigger is 0 from then on; whether it was above 0.
#[tactic(auto, using(crate::proofs::InHand::in_hand_rules, crate::proofs::Counts::count_rules))]
fn add(
    parts: &mut Parts,
    trigger: u16,
    gsi: u16,
    resample: Option<u16>,
) -> Result<Result<bool, Refusal>, Lacks>
    requires trigger { trigger < 256 }
    requires counter { IfSome parts.old.counters (λ counts. trigger < length counts) }
    requires gsi { gsi < 4096 }
    ensures does { (ws : Wishes) →
        DoesQuietly (λ found. found) result (parts_of parts.new) ws (run_on (adding trigger gsi resample) (parts_of parts.old) ws) }
    ensures missing { IsMissing result parts.old }
    ensures held { SameInHand parts.old parts.new }
    ensures fits { (shape : Sizes) → trigger < shape.counters → IfSome resample (λ c. c < shape.counters) → FitsShape shape parts.old →
        FitsShape shape parts.new }
{
    let Some(registry) = &mut parts.registry else {
        return Err(Lacks {
            part: Part::Registry,
        });
    };
    let Some(counters) = &mut parts.counters else {
        return Err(Lacks {
            part: Part::Counters,
        });
    };
    match add_to(registry, trigger, gsi, resample) {
        Err(refusal) => Ok(Err(refusal)),
        Ok(()) => Ok(Ok(counters.take(trigger).is_some())),
    }
}

// The row is in the registry unless it is refused.
#[tactic(auto, using(crate::proofs::Rows::trigger_rules))]
fn add_to(
    registry: &mut RegistryPart,
    trigger: u16,
    gsi: u16,
    resample: Option<u16>,
) -> Result<(), Refusal>
    requires { trigger < 256 }
    ensures refusal { MatchResult result (λ _. first_of (assign_reasons (registry_of registry.old) trigger resample) ≡ None)
        (λ r. first_of (assign_reasons (registry_of registry.old) trigger resample) ≡ Some r) }
    ensures ok { OnOk result (registry.new ≡ record registry.old { irqfds = with_row registry.old.irqfds trigger gsi resample }) }
    ensures err { OnErr result (registry.new ≡ registry.old) }
{
    if is_trigger(&registry.irqfds, trigger) {
        return Err(Refusal::Busy);
    }
    if is_signalled(registry, trigger) || resample_clashes(&registry.irqfds, trigger, resample) {
        return Err(Refusal::RoleClash);
    }
    registry.irqfds.assign(trigger, gsi, resample);
    Ok(())
}

// Whether the counter is a resample counter or that of an acknowledge notifier.
pub(crate) fn is_signalled(registry: &RegistryPart, counter: u16) -> bool
    ensures { result ≡ is_signalled (registry_of registry.now) counter }
{
    is_resampled(registry.irqfds.rows(), counter) || registry.watches.has_counter(counter)
}

// Whether a row has the resample counter.
fn is_resampled(rows: &[Irqfd], counter: u16) -> bool
    ensures { result ≡ list_any (has_resample counter) rows.now }
{
    rows.iter().any(|row| is_counter(counter, row.resample))
}

// Whether there is a counter, and it is this one.
fn is_counter(counter: u16, other: Option<u16>) -> bool
    ensures { result ≡ is_counter counter other }
{
    match other {
        None => false,
        Some(other) => other == counter,
    }
}

// Whether a resample counter, if there is one, is this trigger or that of a living irqfd.
pub(crate) fn resample_clashes(irqfds: &Irqfds, trigger: u16, resample: Option<u16>) -> bool
    ensures { result ≡ clashes irqfds.now trigger resample }
{
    match resample {
        None => false,
        Some(counter) => counter == trigger || is_trigger(irqfds, counter),
    }
}

// The count that an irqfd found at its trigger injects once.
fn inject_count<R: Rig>(
    rig: &mut R,
    shape: &Shape,
    gsi: u16,
    resample: Option<u16>,
    events: &mut Events,
) -> Result<(), Lacks>
    requires gsi { gsi < 4096 }
    requires fits { FitsShape shape.now (R.held rig.old) }
    ensures does { R.astray rig.new ≡ false →
        TellsOn (λ _. []) result events.old.items events.new.items (parts_of (R.held rig.new)) (R.wishes rig.new)
        (run_on (inject_count (routing_of_words (R.published rig.old)) shape.now gsi resample true) (parts_of (R.held rig.old))
        (R.wishes rig.old)) }
    ensures missing { IsMissing result (R.held rig.old) }
    ensures held { SameInHand (R.held rig.old) (R.held rig.new) }
    ensures fits { FitsShape shape.now (R.held rig.new) }
    ensures published { R.published rig.new ≡ R.published rig.old }
    ensures strays { R.astray rig.new ≡ false → R.astray rig.old ≡ false }
    ensures noted { R.noted rig.new ≡ R.noted rig.old }
{
    let trigger = TriggerWord {
        gsi,
        resample: resample.is_some(),
    };
    inject_told(rig, shape, trigger, events)
}

/// Ends the irqfd of that trigger and that GSI: `Removed(1)`, or `Removed(0)` where there is none. Where it was the last with a
/// resample counter of its GSI, the source `Resample` leaves the GSI's pins.
pub fn deassign<R: Rig>(rig: &mut R, trigger: u16, gsi: u16) -> Result<Reply, Lacks>
    requires gsi { gsi < 4096 }
    requires pins { PinsFit (chips_of (R.held rig.old)) }
    ensures does { R.astray rig.new ≡ false →
        Replies (deassign (routing_of_words (R.published rig.old)) trigger gsi) (R.held rig.old) (R.wishes rig.old) result
        (R.held rig.new) (R.wishes rig.new) }
    ensures missing { IsMissing result (R.held rig.old) }
    ensures held { SameInHand (R.held rig.old) (R.held rig.new) }
    ensures fits { (shape : Sizes) → FitsShape shape (R.held rig.old) → FitsShape shape (R.held rig.new) }
    ensures published { R.published rig.new ≡ R.published rig.old }
    ensures strays { R.astray rig.new ≡ false → R.astray rig.old ≡ false }
    ensures noted { R.noted rig.new ≡ R.noted rig.old }
{
    match remove(rig.parts(), trigger, gsi) {
        Err(lacks) => Err(lacks),
        Ok(None) => Ok(Reply::Removed(0)),
        Ok(Some(false)) => Ok(Reply::Removed(1)),
        Ok(Some(true)) => match release(rig, gsi) {
            Ok(()) => Ok(Reply::Removed(1)),
            Err(lacks) => Err(lacks),
        },
    }
}

// The row of that trigger and that GSI goes, and the answer tells whether it was the last resampler of its GSI; none where
// there is none.
#[tactic(auto, using(crate::proofs::InHand::in_hand_rules))]
fn remove(parts: &mut Parts, trigger: u16, gsi: u16) -> Result<Option<bool>, Lacks>
    ensures does { (ws : Wishes) →
        DoesQuietly (λ last. last) result (parts_of parts.new) ws (run_on (removing trigger gsi) (parts_of parts.old) ws) }
    ensures missing { IsMissing result parts.old }
    ensures held { SameInHand parts.old parts.new }
    ensures fits { (shape : Sizes) → FitsShape shape parts.old → FitsShape shape parts.new }
    ensures pins { chips_of parts.new ≡ chips_of parts.old }
{
    match &mut parts.registry {
        None => Err(Lacks {
            part: Part::Registry,
        }),
        Some(registry) => Ok(remove_from(registry, trigger, gsi)),
    }
}

// The same in a registry.
#[tactic(auto, using(crate::proofs::Rows::row_rules))]
fn remove_from(registry: &mut RegistryPart, trigger: u16, gsi: u16) -> Option<bool>
    ensures value { result ≡ last_removed registry.old.irqfds trigger gsi }
    ensures after { MatchOption result (registry.new ≡ registry.old)
        (λ _. registry.new ≡ record registry.old { irqfds = without_row registry.old.irqfds trigger gsi }) }
{
    match registry.irqfds.deassign(trigger, gsi) {
        None => None,
        Some(row) => Some(row.resample.is_some() && !registry.irqfds.has_resampler(row.gsi)),
    }
}

// The source `Resample` leaves the pins of a GSI.
fn release<R: Rig>(rig: &mut R, gsi: u16) -> Result<(), Lacks>
    requires gsi { gsi < 4096 }
    requires pins { PinsFit (chips_of (R.held rig.old)) }
    ensures does { R.astray rig.new ≡ false →
        Leaves result (parts_of (R.held rig.new)) (R.wishes rig.new)
        (run_on (release (routing_of_words (R.published rig.old)) gsi true) (parts_of (R.held rig.old)) (R.wishes rig.old)) }
    ensures missing { IsMissing result (R.held rig.old) }
    ensures held { SameInHand (R.held rig.old) (R.held rig.new) }
    ensures fits { (shape : Sizes) → FitsShape shape (R.held rig.old) → FitsShape shape (R.held rig.new) }
    ensures published { R.published rig.new ≡ R.published rig.old }
    ensures strays { R.astray rig.new ≡ false → R.astray rig.old ≡ false }
    ensures noted { R.noted rig.new ≡ R.noted rig.old }
{
    let targets = rig.targets(gsi);
    match lower_gsi(rig, &targets, Source::Resample) {
        Ok(_) => Ok(()),
        Err(lacks) => Err(lacks),
    }
}
