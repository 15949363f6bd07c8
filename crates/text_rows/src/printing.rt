//! The words of replies and events.
use irq_base::{Cause, Event, Pin, Refusal, Reply, Status};
use irq_bits::CpuSet;
use std::test::Fail;
use transcript::{push_event, push_reply};

// The words of replies.
fn replies() -> [(Reply, &'static str); 20] {
    let some = CpuSet::of_bits(0x8000_0000_0000_001f);
    [
        (
            Reply::Signal(Status::Coalesced { stood: some }),
            "coalesced stood=800000000000001f",
        ),
        (
            Reply::Signal(Status::Ignored(Cause::Masked)),
            "ignored masked",
        ),
        (
            Reply::Signal(Status::Ignored(Cause::Unrouted)),
            "ignored unrouted",
        ),
        (
            Reply::Signal(Status::Ignored(Cause::NoProcessor)),
            "ignored no-processor",
        ),
        (
            Reply::Signal(Status::Ignored(Cause::BadVector)),
            "ignored bad-vector",
        ),
        (Reply::Signal(Status::Ignored(Cause::Mode)), "ignored mode"),
        (Reply::Signal(Status::Lowered), "lowered"),
        (Reply::Done, "done"),
        (
            Reply::Count(18_446_744_073_709_551_614),
            "count 18446744073709551614",
        ),
        (Reply::Empty, "empty"),
        (Reply::Removed(1), "removed 1"),
        (Reply::Value(0), "value 0"),
        (Reply::Exit, "exit"),
        (Reply::Vector(5), "vector 05"),
        (Reply::Extint(0xff), "extint ff"),
        (Reply::Nmi, "nmi"),
        (Reply::Ended(0x10), "ended 10"),
        (Reply::Nothing, "nothing"),
        (Reply::Held(0), "held 0"),
        (Reply::Refused(Refusal::Exists), "refused 10 exists"),
    ]
}

#[test]
fn replies_have_their_words(rt: HostRuntime) -> Result<(), Fail> {
    let mut text = String::new(rt.alloc());
    for (reply, words) in replies() {
        text.clear();
        push_reply(&mut text, 0, reply)?;
        assert!(rt; text.as_str() == words, "{words}");
    }
    Ok(())
}

// The words of the value 5 in reply to a call of that length.
const VALUES: [(u8, &str); 4] = [
    (2, "value 0005"),
    (3, "value 000005"),
    (200, "value 0000000000000005"),
    (0, "value 5"),
];

#[test]
fn values_have_their_width(rt: HostRuntime) -> Result<(), Fail> {
    let mut text = String::new(rt.alloc());
    for (len, words) in VALUES {
        text.clear();
        push_reply(&mut text, len, Reply::Value(5))?;
        assert!(rt; text.as_str() == words, "{words}");
    }
    Ok(())
}

// The lines of events.
fn events() -> [(Event, &'static str); 9] {
    let lowered = Status::Lowered;
    [
        (
            Event::Acked {
                pin: Pin::Pic(7),
                gsi: Some(9),
            },
            "+ acked pic 7 gsi 9",
        ),
        (
            Event::Acked {
                pin: Pin::Ioapic(255),
                gsi: None,
            },
            "+ acked io 255 gsi -",
        ),
        (Event::Resampled(65535), "+ resampled 65535"),
        (Event::Watched(0), "+ watched 0"),
        (Event::Rang(10), "+ rang 10"),
        (
            Event::Injected {
                gsi: 9,
                status: lowered,
            },
            "+ injected gsi 9 lowered",
        ),
        (
            Event::Resent {
                pin: 23,
                status: Status::Ignored(Cause::Mode),
            },
            "+ resent 23 ignored mode",
        ),
        (
            Event::Ipi(Status::Coalesced {
                stood: CpuSet::of_bits(0xa0),
            }),
            "+ ipi coalesced stood=a0",
        ),
        (
            Event::Ipi(Status::Delivered {
                new: CpuSet::empty(),
                stood: CpuSet::empty(),
                pic: true,
            }),
            "+ ipi delivered new=0 stood=0 pic=1",
        ),
    ]
}

#[test]
fn events_have_their_words(rt: HostRuntime) -> Result<(), Fail> {
    let mut text = String::new(rt.alloc());
    for (event, words) in events() {
        text.clear();
        push_event(&mut text, event)?;
        assert!(rt; text.as_str() == words, "{words}");
    }
    Ok(())
}
