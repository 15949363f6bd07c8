//! Why a registration is refused for what stands on the board.
ghost use Rattle.std.specs.Prelude.{◌≡◌};
ghost use Rattle.irq_base.specs.Refusals.{first_of};
ghost use Rattle.ack_notifiers.specs.Rows.{has_row};
ghost use Rattle.board_raise.specs.InHand.{registry_of};
ghost use Rattle.board_calls.specs.Refusals.{assign_reasons, watch_reasons, unwatch_reasons};

use crate::irqfds::{is_signalled, resample_clashes};
use crate::registrations::is_trigger;
use ack_notifiers::Watches;
use board_raise::RegistryPart;
use irq_base::Refusal;

// The most acknowledge notifiers that there may be.
const ROOM: usize = 256;

/// Why an irqfd is not made: its trigger is that of a living irqfd (`Busy`), or a counter would be in two roles (`RoleClash`).
pub fn assign_refusal(
    registry: &RegistryPart,
    trigger: u16,
    resample: Option<u16>,
) -> Option<Refusal>
    ensures { result ≡ first_of (assign_reasons (registry_of registry.now) trigger resample) }
{
    if is_trigger(&registry.irqfds, trigger) {
        Some(Refusal::Busy)
    } else if is_signalled(registry, trigger)
        || resample_clashes(&registry.irqfds, trigger, resample)
    {
        Some(Refusal::RoleClash)
    } else {
        None
    }
}

/// Why an acknowledge notifier is not made: its counter is a trigger (`RoleClash`), it is there (`Exists`), or 256 are there
/// (`Full`).
pub fn watch_refusal(registry: &RegistryPart, counter: u16, gsi: u16) -> Option<Refusal>
    ensures { result ≡ first_of (watch_reasons (registry_of registry.now) counter gsi) }
{
    if is_trigger(&registry.irqfds, counter) {
        Some(Refusal::RoleClash)
    } else if has_row(&registry.watches, counter, gsi) {
        Some(Refusal::Exists)
    } else if registry.watches.rows().len() >= ROOM {
        Some(Refusal::Full)
    } else {
        None
    }
}

/// Why an acknowledge notifier does not end: it is not there (`NotThere`).
pub fn unwatch_refusal(registry: &RegistryPart, counter: u16, gsi: u16) -> Option<Refusal>
    ensures { result ≡ first_of (unwatch_reasons (registry_of registry.now) counter gsi) }
{
    if has_row(&registry.watches, counter, gsi) {
        None
    } else {
        Some(Refusal::NotThere)
    }
}

// Whether the notifier is there.
fn has_row(watches: &Watches, counter: u16, gsi: u16) -> bool
    ensures { result ≡ has_row watches.now counter gsi }
{
    watches
        .rows()
        .iter()
        .any(|row| row.counter == counter && row.gsi == gsi)
}
