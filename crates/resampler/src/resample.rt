//! The signals of resample counters at an acknowledge.
ghost use Rattle.std.specs.Prelude.{◌≡◌, ◌+◌, ◌<◌, ◌≤◌, ◌++◌, length, All};
ghost use Rattle.arrayvec.specs.ArrayVec.{array_vec_len};
ghost use Rattle.irq_base.specs.Counts.{signalled_all};
ghost use Rattle.irq_base.specs.Room.{with_told};
ghost use Rattle.resampler.specs.Resample.{resample_of, resampled, resample_events};

use event_counter::Counters;
use irq_base::{Event, Events, tell};
use irqfd_set::{Irqfd, Irqfds};

/// Signals each resample counter of that GSI, in order of registration, with its event. The counters are there; an event that
/// finds no room is left out.
pub fn on_ack(irqfds: &Irqfds, gsi: u16, counters: &mut Counters, events: &mut Events)
    requires each { All (λ counter. counter < length counters.old) (resampled irqfds.now gsi) }
    ensures counts { counters.new ≡ signalled_all counters.old (resampled irqfds.now gsi) }
    ensures events { events.new.items ≡ with_told events.old.items (resample_events irqfds.now gsi) }
    ensures all { array_vec_len events.old + length (resampled irqfds.now gsi) ≤ 640 → events.new.items ≡ events.old.items
        ++ resample_events irqfds.now gsi }
{
    for row in irqfds.rows() {
        if let Some(counter) = resample_of(row, gsi) {
            counters.signal(counter);
            tell(Event::Resampled(counter), events);
        }
    }
}

// The resample counter of a row, where the row is one of that GSI.
fn resample_of(row: &Irqfd, gsi: u16) -> Option<u16>
    ensures { result ≡ resample_of gsi row.now }
{
    if row.gsi == gsi { row.resample } else { None }
}
