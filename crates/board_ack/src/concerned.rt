//! Steps 2 and 3 of an acknowledge: who is told of it, by the registrations in hand.
ghost use Rattle.std.specs.Prelude.{◌≡◌, ◌<◌, length, All, IfErr, IsTrue, Some, false, is_some};
ghost use Rattle.std.specs.declared.option.Option.{Option as Maybe};
ghost use Rattle.irq_base.specs.Room.{with_told};
ghost use Rattle.irqfd_set.specs.Rows.{has_resampler};
ghost use Rattle.resampler.specs.Resample.{resampled, resample_events};
ghost use Rattle.ack_notifiers.specs.Rows.{watched, watch_events};
ghost use Rattle.route_table.specs.Words.{is_below};
ghost use Rattle.board_model.specs.Hand.{part_in};
ghost use Rattle.board_model.specs.Registry.{RegistryPart};
ghost use Rattle.board_model.specs.Run.{Wishes, run_on};
ghost use Rattle.board_raise.specs.Fit.{PinsFit};
ghost use Rattle.board_raise.specs.InHand.{parts_of, chips_of};
ghost use Rattle.board_ack.specs.Acknowledge.{signal_each, resample, notify, concern};
ghost use Rattle.board_ack.specs.OnHand.{Adds, SeesConcerned, AreRegistered, OnlyAcked};

use board_raise::{Lacks, Parts, let_go};
use irq_base::{Events, Part, Source, Targets};
use resampler::on_ack;

/// Resamplers and acknowledge notifiers of a marked GSI, which goes to these targets, are told: steps 2 and 3.
///
/// All parts but the local APICs are needed. `Lacks` names the first of them, in the order of `Part`, that is not in hand.
pub fn concern(
    parts: &mut Parts,
    targets: &Targets,
    gsi: u16,
    events: &mut Events,
) -> Result<(), Lacks>
    requires pic { IsTrue (is_below targets.now.pic 16) }
    requires ioapic { IsTrue (is_below targets.now.ioapic 24) }
    requires pins { PinsFit (chips_of parts.old) }
    requires registered { AreRegistered (parts_of parts.old) }
    ensures does { (ws : Wishes) →
        Adds result events.old.items events.new.items (parts_of parts.new) ws
        (run_on (concern targets.now gsi) (parts_of parts.old) ws) }
    ensures missing { IfErr result (λ l. is_some (part_in (parts_of parts.old) l.part) ≡ false) }
    ensures kept { OnlyAcked parts.old parts.new }
    ensures pins { PinsFit (chips_of parts.new) }
{
    match see_concerned(parts) {
        Ok(()) => {}
        Err(lacks) => return Err(lacks),
    }
    match resample(parts, targets, gsi, events) {
        Ok(()) => notify(parts, gsi, events),
        Err(lacks) => Err(lacks),
    }
}

// All parts that a marked GSI concerns, or the first that is lacking.
fn see_concerned(parts: &Parts) -> Result<(), Lacks>
    ensures { SeesConcerned result (parts_of parts.now) }
{
    let lacks = |part| Err(Lacks { part });
    if parts.registry.is_none() {
        return lacks(Part::Registry);
    }
    if parts.counters.is_none() {
        return lacks(Part::Counters);
    }
    if parts.tick.is_none() {
        return lacks(Part::Tick);
    }
    if parts.pic.is_none() {
        return lacks(Part::Pic);
    }
    if parts.ioapic.is_none() {
        return lacks(Part::Ioapic);
    }
    Ok(())
}

// Step 2: where the GSI has resamplers, `Resample` leaves all its pins, and each resample counter gains one, in order.
#[tactic(auto, using(crate::proofs::Adding::told_rules))]
fn resample(
    parts: &mut Parts,
    targets: &Targets,
    gsi: u16,
    events: &mut Events,
) -> Result<(), Lacks>
    requires pic { IsTrue (is_below targets.now.pic 16) }
    requires ioapic { IsTrue (is_below targets.now.ioapic 24) }
    requires pins { PinsFit (chips_of parts.old) }
    requires registered { AreRegistered (parts_of parts.old) }
    ensures does { (ws : Wishes) (registry : RegistryPart) → (parts_of parts.old).registry ≡ Some registry →
        Adds result events.old.items events.new.items (parts_of parts.new) ws
        (run_on (resample targets.now gsi registry) (parts_of parts.old) ws) }
    ensures kept { OnlyAcked parts.old parts.new }
    ensures pins { PinsFit (chips_of parts.new) }
{
    if !has_resampler(parts, gsi) {
        return Ok(());
    }
    match let_go(parts, targets, Source::Resample) {
        Ok(()) => signal_resamplers(parts, gsi, events),
        Err(lacks) => Err(lacks),
    }
}

// Whether the GSI has a resampler.
fn has_resampler(parts: &Parts, gsi: u16) -> bool
    ensures { (registry : RegistryPart) → (parts_of parts.now).registry ≡ Some registry → result ≡ has_resampler registry.irqfds gsi }
{
    match &parts.registry {
        None => false,
        Some(registry) => registry.irqfds.has_resampler(gsi),
    }
}

// Each resample counter of the GSI gains one, in order of registration.
fn signal_resamplers(parts: &mut Parts, gsi: u16, events: &mut Events) -> Result<(), Lacks>
    requires registered { AreRegistered (parts_of parts.old) }
    ensures does { (ws : Wishes) (registry : RegistryPart) → (parts_of parts.old).registry ≡ Some registry →
        Adds result events.old.items events.new.items (parts_of parts.new) ws
        (run_on (signal_each (resampled registry.irqfds gsi) (resample_events registry.irqfds gsi)) (parts_of parts.old) ws) }
    ensures kept { OnlyAcked parts.old parts.new }
    ensures pins { chips_of parts.new ≡ chips_of parts.old }
{
    let Some(registry) = &parts.registry else {
        return Err(Lacks {
            part: Part::Registry,
        });
    };
    let Some(counters) = &mut parts.counters else {
        return Err(Lacks {
            part: Part::Counters,
        });
    };
    on_ack(&registry.irqfds, gsi, counters, events);
    Ok(())
}

// Step 3: the counter of each acknowledge notifier of the GSI gains one, in order of registration.
fn notify(parts: &mut Parts, gsi: u16, events: &mut Events) -> Result<(), Lacks>
    requires registered { AreRegistered (parts_of parts.old) }
    ensures does { (ws : Wishes) (registry : RegistryPart) → (parts_of parts.old).registry ≡ Some registry →
        Adds result events.old.items events.new.items (parts_of parts.new) ws (run_on (notify gsi registry) (parts_of parts.old) ws) }
    ensures kept { OnlyAcked parts.old parts.new }
    ensures pins { chips_of parts.new ≡ chips_of parts.old }
{
    let Some(registry) = &parts.registry else {
        return Err(Lacks {
            part: Part::Registry,
        });
    };
    let Some(counters) = &mut parts.counters else {
        return Err(Lacks {
            part: Part::Counters,
        });
    };
    registry.watches.on_ack(gsi, counters, events);
    Ok(())
}
