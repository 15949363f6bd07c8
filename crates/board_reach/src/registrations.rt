//! What counters and registrations reach, as rows of the table of reach.
ghost use Rattle.std.specs.Prelude.{◌≡◌, ◌<◌, ◌&&◌, not, false, IfSome, AllPairs};
ghost use Rattle.std.specs.List.{list_any};
ghost use Rattle.board_raise.specs.InHand.{registry_of};
ghost use Rattle.irqfd_set.specs.declared.irqfds.Irqfd.{Irqfd as IrqfdRow};
ghost use Rattle.irqfd_set.specs.Rows.{has_trigger, of_trigger, named_row, has_resampler, without_row, is_named, resamples};
ghost use Rattle.board_step.specs.Reach.{of_counter, of_write, does_inject, does_release};
ghost use Rattle.board_reach.specs.Seen.{routing_seen, SeenFits, is_trigger_in, is_free, if_of, row, release_row};

use crate::seen::Seen;
use crate::signals::{is_counters, of_gsi};
use board_calls::assign_refusal;
use board_raise::RegistryPart;
use irq_base::Part;
use irqfd_set::{Irqfd, Irqfds};

// The irqfd of a trigger, if there is one.
fn row_of(seen: &Seen, counter: u16) -> Option<Irqfd>
    requires { SeenFits seen.now }
    ensures value { result ≡ of_trigger seen.now.registry.now.irqfds counter }
    ensures range { IfSome result (λ row. row.gsi < 4096) }
{
    let registry = seen.registry;
    registry.irqfds.of_trigger(counter)
}

// A counter: its own count, or where it is a trigger what its GSI reaches.
pub(crate) fn of_counter(seen: &Seen, counter: u16, part: Part) -> bool
    requires fits { SeenFits seen.now }
    ensures { result ≡ row of_counter seen.now ((routing_seen seen.now).trigger counter) part }
{
    match row_of(seen, counter) {
        None => is_counters(part),
        Some(row) => of_gsi(seen, row.gsi, part),
    }
}

// A write of 0 to a trigger reaches nothing.
pub(crate) fn of_write(seen: &Seen, counter: u16, n: u64, part: Part) -> bool
    requires fits { SeenFits seen.now }
    ensures { result ≡ row of_write seen.now ((routing_seen seen.now).trigger counter) n part }
{
    match row_of(seen, counter) {
        None => is_counters(part),
        Some(row) => n != 0 && of_gsi(seen, row.gsi, part),
    }
}

// Whether an irqfd that is made injects: it is not refused, and its trigger has a count.
#[tactic(auto, using(crate::proofs::SeenRows::assign_rules))]
pub(crate) fn does_inject(seen: &Seen, trigger: u16, resample: Option<u16>) -> bool
    requires trigger { trigger < seen.now.shape.now.counters }
    requires fits { SeenFits seen.now }
    ensures { result ≡ row does_inject seen.now trigger resample }
{
    is_free(seen.registry, trigger, resample) && seen.counters.count(trigger) > 0
}

// Whether an irqfd with that trigger and that resample counter is not refused.
#[tactic(auto, using(crate::proofs::SeenRows::assign_rules))]
fn is_free(registry: &RegistryPart, trigger: u16, resample: Option<u16>) -> bool
    ensures { result ≡ is_free (registry_of registry.now) trigger resample }
{
    assign_refusal(registry, trigger, resample).is_none()
}

// Whether with the row of that trigger and GSI, if there is one, the last resampler of the GSI leaves.
pub(crate) fn does_release(seen: &Seen, trigger: u16, gsi: u16) -> bool
    requires { SeenFits seen.now }
    ensures { result ≡ release_row seen.now trigger gsi }
{
    let registry = seen.registry;
    let rows = registry.irqfds.rows();
    match named(&registry.irqfds, trigger, gsi) {
        None => false,
        Some(row) => row.resample.is_some() && !resamples_without(rows, trigger, gsi, row.gsi),
    }
}

// Whether the row is that of the trigger and the GSI.
fn is_named(row: &Irqfd, trigger: u16, gsi: u16) -> bool
    ensures { result ≡ is_named trigger gsi row.now }
{
    row.trigger == trigger && row.gsi == gsi
}

// The row of a trigger and a GSI, if there is one: triggers are different.
fn named(irqfds: &Irqfds, trigger: u16, gsi: u16) -> Option<Irqfd>
    requires { AllPairs (λ (row other : IrqfdRow). has_trigger row.trigger other ≡ false) irqfds.now }
    ensures { result ≡ named_row irqfds.now trigger gsi }
{
    if_of(irqfds.of_trigger(trigger), gsi)
}

// The irqfd, if there is one, where it has the GSI.
fn if_of(row: Option<Irqfd>, gsi: u16) -> Option<Irqfd>
    ensures { result ≡ if_of gsi row }
{
    match row {
        None => None,
        Some(row) => { if row.gsi == gsi { Some(row) } else { None } }
    }
}

// Whether another row than that of the trigger and the GSI is a resampler of a GSI.
#[tactic(auto, using(crate::proofs::SeenRows::without_rules))]
fn resamples_without(rows: &[Irqfd], trigger: u16, gsi: u16, of: u16) -> bool
    ensures { result ≡ has_resampler (without_row rows.now trigger gsi) of }
{
    others_resample(rows, trigger, gsi, of)
}

// The same, row by row.
fn others_resample(rows: &[Irqfd], trigger: u16, gsi: u16, of: u16) -> bool
    ensures { result ≡ list_any (λ row. not (is_named trigger gsi row) && resamples of row) rows.now }
{
    rows.iter().any(|row| !is_named(row, trigger, gsi) && row.gsi == of && row.resample.is_some())
}
