//! What happens on a board besides the answer of a call.
ghost use Rattle.std.specs.Prelude.{◌≡◌, [], ◌∷◌};
ghost use Rattle.irq_base.specs.Room.{with_told};

use crate::status::Status;
use arrayvec::ArrayVec;
use std::fmt;

/// A pin: of the 8259A pair (0 to 15, the slave's from 8 on) or of the I/O APIC (0 to 23).
#[derive(Clone, Copy, Debug, PartialEq, Eq)]
pub enum Pin {
    Pic(u8),
    Ioapic(u8),
}

/// What happened in a call, in order.
#[derive(Clone, Copy, Debug, PartialEq, Eq)]
pub enum Event {
    /// A pin was acknowledged; the GSI is the one that the table gives it.
    Acked { pin: Pin, gsi: Option<u16> },
    /// This resample counter was signalled.
    Resampled(u16),
    /// The counter of an acknowledge notifier was signalled.
    Watched(u16),
    /// A guest write rang the ioeventfd with this counter.
    Rang(u16),
    /// An irqfd or the tick injected on this GSI.
    Injected { gsi: u16, status: Status },
    /// A level pin of the I/O APIC sent its message again.
    Resent { pin: u8, status: Status },
    /// An interprocessor interrupt was sent.
    Ipi(Status),
}

/// The events of one call: never more than 560.
pub type Events = ArrayVec<Event, 640>;

/// Tells an event after the others. One that finds no room is left out.
//
// The check knows `Status`, a part of `Event`, only where it is named.
#[tactic(auto, using(crate::proofs::Room::told_one, crate::proofs::Room::told_past_one))]
pub fn tell(event: Event, events: &mut Events)
    ensures { events.new.items ≡ with_told events.old.items (event ∷ []) }
{
    let _named: Option<Status> = None;
    if !events.is_full() {
        events.push(event);
    }
}

// An `ArrayVec` fills its unused places with this.
impl Default for Event {
    fn default() -> Event {
        Event::Resampled(0)
    }
}

impl fmt::Display for Pin {
    ghost use Rattle.irq_base.specs.Text.{pin_text};
    ghost use Rattle.std.specs.Prelude.{Some};

    ghost output = { λ p. Some (pin_text p) };

    fn fmt<W: fmt::Write>(&self, f: &mut fmt::Formatter<W>) -> fmt::Result {
        match self {
            Pin::Pic(n) => write!(f, "pic {n}"),
            Pin::Ioapic(n) => write!(f, "io {n}"),
        }
    }
}

impl fmt::Display for Event {
    ghost use Rattle.irq_base.specs.Text.{event_text};
    ghost use Rattle.std.specs.Prelude.{Some};

    ghost output = { λ e. Some (event_text e) };

    fn fmt<W: fmt::Write>(&self, f: &mut fmt::Formatter<W>) -> fmt::Result {
        match self {
            Event::Acked {
                pin,
                gsi: Some(gsi),
            } => write!(f, "acked {pin} gsi {gsi}"),
            Event::Acked { pin, gsi: None } => write!(f, "acked {pin} gsi -"),
            Event::Resampled(counter) => write!(f, "resampled {counter}"),
            Event::Watched(counter) => write!(f, "watched {counter}"),
            Event::Rang(counter) => write!(f, "rang {counter}"),
            Event::Injected { gsi, status } => write!(f, "injected gsi {gsi} {status}"),
            Event::Resent { pin, status } => write!(f, "resent {pin} {status}"),
            Event::Ipi(status) => write!(f, "ipi {status}"),
        }
    }
}
