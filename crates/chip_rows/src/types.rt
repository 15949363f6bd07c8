//! The types that all parts speak: their texts, who may ask what, and sets at both ends of their ranges.
use irq_base::{
    Call, Caller, Cause, Event, Items, LineCause, MsiWord, NoMemory, Pin, Refusal, Row, Rows,
    Shape, Status,
};
use irq_bits::{CpuSet, Set256};
use std::test::Fail;

fn set_of(numbers: &[u16]) -> CpuSet {
    let mut set = CpuSet::empty();
    for n in numbers {
        if *n < 64 {
            set.insert(*n);
        }
    }
    set
}

#[test]
fn spells_statuses_and_events(rt: HostRuntime) -> Result<(), Fail> {
    let delivered = Status::Delivered {
        new: set_of(&[0, 63]),
        stood: set_of(&[4]),
        pic: true,
    };
    for (status, text) in [
        (delivered, "delivered new=8000000000000001 stood=10 pic=1"),
        (
            Status::Delivered {
                new: CpuSet::empty(),
                stood: CpuSet::empty(),
                pic: false,
            },
            "delivered new=0 stood=0 pic=0",
        ),
        (
            Status::Coalesced {
                stood: CpuSet::empty(),
            },
            "coalesced stood=0",
        ),
        (Status::Ignored(Cause::Masked), "ignored masked"),
        (Status::Ignored(Cause::Unrouted), "ignored unrouted"),
        (Status::Ignored(Cause::NoProcessor), "ignored no-processor"),
        (Status::Ignored(Cause::BadVector), "ignored bad-vector"),
        (Status::Ignored(Cause::Mode), "ignored mode"),
        (Status::Lowered, "lowered"),
    ] {
        let spelled = status.to_string(rt.alloc())?;
        assert_eq!(rt; spelled.as_str(), text);
    }
    for (event, text) in [
        (
            Event::Acked {
                pin: Pin::Pic(8),
                gsi: Some(8),
            },
            "acked pic 8 gsi 8",
        ),
        (
            Event::Acked {
                pin: Pin::Ioapic(10),
                gsi: None,
            },
            "acked io 10 gsi -",
        ),
        (Event::Resampled(1), "resampled 1"),
        (Event::Watched(255), "watched 255"),
        (Event::Rang(2), "rang 2"),
        (
            Event::Injected {
                gsi: 4095,
                status: Status::Lowered,
            },
            "injected gsi 4095 lowered",
        ),
        (
            Event::Resent {
                pin: 17,
                status: Status::Lowered,
            },
            "resent 17 lowered",
        ),
        (Event::Ipi(Status::Lowered), "ipi lowered"),
    ] {
        let spelled = event.to_string(rt.alloc())?;
        assert_eq!(rt; spelled.as_str(), text);
    }
    Ok(())
}

#[test]
fn spells_refusals_callers_and_causes(rt: HostRuntime) -> Result<(), Fail> {
    for (refusal, text) in [
        (Refusal::NoGsi, "1 no-gsi"),
        (Refusal::NoCounter, "2 no-counter"),
        (Refusal::BadRow, "3 bad-row"),
        (Refusal::ChipTwice, "4 chip-twice"),
        (Refusal::Mixed, "5 mixed"),
        (Refusal::PinTwice, "6 pin-twice"),
        (Refusal::Busy, "7 busy"),
        (Refusal::RoleClash, "8 role-clash"),
        (Refusal::Full, "9 full"),
        (Refusal::Exists, "10 exists"),
        (Refusal::NotThere, "11 not-there"),
        (Refusal::BadRange, "12 bad-range"),
        (Refusal::ChipAddress, "13 chip-address"),
        (Refusal::Over, "14 over"),
        (Refusal::BadCount, "15 bad-count"),
        (Refusal::NoLine, "16 no-line"),
        (Refusal::BadMsi, "17 bad-msi"),
    ] {
        let spelled = refusal.to_string(rt.alloc())?;
        assert_eq!(rt; spelled.as_str(), text);
    }
    for (caller, text) in [(Caller::Device(63), "dev63"), (Caller::Cpu(0), "cpu0")] {
        let spelled = caller.to_string(rt.alloc())?;
        assert_eq!(rt; spelled.as_str(), text);
    }
    for (cause, text) in [
        (LineCause::Cut, "cut"),
        (LineCause::Char, "char"),
        (LineCause::End, "end"),
        (LineCause::Word, "word"),
        (LineCause::Count, "count"),
        (LineCause::Number, "number"),
        (LineCause::Actor, "actor"),
    ] {
        let spelled = cause.to_string(rt.alloc())?;
        assert_eq!(rt; spelled.as_str(), text);
    }
    Ok(())
}

#[test]
fn tells_who_may_ask(rt: HostRuntime) {
    let shape = Shape {
        cpus: 2,
        counters: 16,
        tick: 0,
        calls: 1_000_000,
        publications: 1_048_576,
    };
    for (caller, tick, eoi, inta) in [
        (Caller::Device(0), true, false, false),
        (Caller::Device(63), true, false, false),
        (Caller::Device(64), false, false, false),
        (Caller::Cpu(0), true, true, true),
        (Caller::Cpu(1), true, true, false),
        (Caller::Cpu(2), false, false, false),
    ] {
        assert_eq!(rt; Call::Tick.allowed(caller, &shape), tick);
        assert_eq!(rt; Call::Eoi.allowed(caller, &shape), eoi);
        assert_eq!(rt; Call::Inta.allowed(caller, &shape), inta);
    }
}

#[test]
fn keeps_sets_and_lists(rt: HostRuntime) -> Result<(), NoMemory> {
    let mut vectors = Set256::empty();
    for vector in [0x41, 0xff, 0] {
        vectors.insert(vector);
    }
    assert!(rt; vectors.has(0x41) && !vectors.has(0x40));
    assert_eq!(rt;
        (vectors.least(), vectors.greatest()),
        (Some(0), Some(0xff))
    );
    vectors.remove(0xff);
    assert_eq!(rt; (vectors.greatest(), vectors.word(2)), (Some(0x41), 2));
    let cpus = set_of(&[63, 5]).join(&set_of(&[0]));
    assert_eq!(rt;
        (cpus.least(), cpus.greatest(), cpus.bits()),
        (Some(0), Some(63), 0x8000_0000_0000_0021)
    );
    let mut rows: Rows = Items::empty(rt.alloc());
    rows.push(Row::Pic { gsi: 5, pin: 6 })?;
    rows.push(Row::Ioapic { gsi: 9, pin: 10 })?;
    assert_eq!(rt; rows.len(), 2);
    for (address, good) in [
        (0xfee0_0000, true),
        (0xfeef_ffff, true),
        (0xfed0_0000, false),
        (0x1_fee0_0000, false),
    ] {
        assert_eq!(rt;
            MsiWord {
                address,
                payload: 0x41
            }
            .good(),
            good
        );
    }
    Ok(())
}
