//! Whether replies and events are equal.
ghost use Rattle.std.specs.Prelude.{◌≡◌, ◌↔◌, IsTrue};

use irq_base::{Event, EventList, Reply, Status};
use irq_bits::CpuSet;

// Whether two sets have the same processors.
fn same_set(set: &CpuSet, other: &CpuSet) -> bool
    ensures { IsTrue result ↔ (set.now ≡ other.now) }
{
    *set == *other
}

// Whether two statuses are equal, sets and all.
fn same_status(status: &Status, other: &Status) -> bool
    ensures { IsTrue result ↔ (status.now ≡ other.now) }
{
    match (status, other) {
        (
            Status::Delivered { new, stood, pic },
            Status::Delivered {
                new: others,
                stood: there,
                pic: took,
            },
        ) => same_set(new, others) && same_set(stood, there) && *pic == *took,
        (Status::Coalesced { stood }, Status::Coalesced { stood: there }) => same_set(stood, there),
        (Status::Ignored(cause), Status::Ignored(of)) => *cause == *of,
        (Status::Lowered, Status::Lowered) => true,
        _ => false,
    }
}

// Whether two replies are equal.
pub(crate) fn same_reply(reply: &Reply, other: &Reply) -> bool
    ensures { IsTrue result ↔ (reply.now ≡ other.now) }
{
    match (reply, other) {
        (Reply::Signal(status), Reply::Signal(of)) => same_status(status, of),
        (Reply::Done, Reply::Done) => true,
        (Reply::Count(n), Reply::Count(m)) => *n == *m,
        (Reply::Empty, Reply::Empty) => true,
        (Reply::Removed(n), Reply::Removed(m)) => *n == *m,
        (Reply::Value(n), Reply::Value(m)) => *n == *m,
        (Reply::Exit, Reply::Exit) => true,
        (Reply::Vector(n), Reply::Vector(m)) => *n == *m,
        (Reply::Extint(n), Reply::Extint(m)) => *n == *m,
        (Reply::Nmi, Reply::Nmi) => true,
        (Reply::Ended(n), Reply::Ended(m)) => *n == *m,
        (Reply::Nothing, Reply::Nothing) => true,
        (Reply::Held(n), Reply::Held(m)) => *n == *m,
        (Reply::Refused(refusal), Reply::Refused(of)) => *refusal == *of,
        _ => false,
    }
}

// Whether two events are equal.
fn same_event(event: &Event, other: &Event) -> bool
    ensures { IsTrue result ↔ (event.now ≡ other.now) }
{
    match (event, other) {
        (Event::Acked { pin, gsi }, Event::Acked { pin: of, gsi: to }) => {
            *pin == *of && *gsi == *to
        }
        (Event::Resampled(n), Event::Resampled(m)) => *n == *m,
        (Event::Watched(n), Event::Watched(m)) => *n == *m,
        (Event::Rang(n), Event::Rang(m)) => *n == *m,
        (
            Event::Injected { gsi, status },
            Event::Injected {
                gsi: to,
                status: of,
            },
        ) => { *gsi == *to && same_status(status, of) }
        (
            Event::Resent { pin, status },
            Event::Resent {
                pin: to,
                status: of,
            },
        ) => { *pin == *to && same_status(status, of) }
        (Event::Ipi(status), Event::Ipi(of)) => same_status(status, of),
        _ => false,
    }
}

// Whether the lists have equal events, in the same order.
pub(crate) fn same_events(events: &[Event], others: &EventList) -> bool
    ensures { IsTrue result ↔ (events.now ≡ others.now) }
{
    if events.len() != others.len() {
        return false;
    }
    for k in 0..events.len() {
        if !same_event(&events[k], others.at(k)) {
            return false;
        }
    }
    true
}
