//! Parts that a signal or an acknowledge needs, and that are not in hand.
ghost use Rattle.board_rows.specs.Lacking.{StillFits};

use board_ack::ack_pin;
use board_raise::{BoardRig, Lacks, Parts, Rig, lower_gsi, raise_gsi};
use irq_base::{Event, Events, Part, Pin, Source, Status};
use irq_bits::CpuSet;
use row_table::board_after;
use std::alloc::Global;
use std::test::Fail;

// GSI 0, the tick's, has a pin of both chips; a tick is outstanding and another pending, and counter 3 watches its end. The first was
// given, and its end is not told yet.
fn ticking() -> &'static str {
    "
    cpus 1
    cpu0 store fee000f0 4 000001ff -> done
    cpu0 out 0020 1 11 -> done
    cpu0 out 0021 1 20 -> done
    cpu0 out 0021 1 04 -> done
    cpu0 out 0021 1 01 -> done
    cpu0 store fec00000 4 00000010 -> done
    cpu0 store fec00010 4 00000030 -> done
    dev0 watch 3 0 -> done
    dev0 tick -> delivered new=1 stood=0 pic=1
    dev0 tick -> held 2
    cpu0 ack -> extint 20
    "
}

// The same parts without one of them.
fn without(parts: Parts, part: Part) -> Parts
    ensures { StillFits parts result }
{
    let mut rest = parts;
    match part {
        Part::Registry => rest.registry = None,
        Part::Counters => rest.counters = None,
        Part::Tick => rest.tick = None,
        Part::Pic => rest.pic = None,
        Part::Ioapic => rest.ioapic = None,
        Part::Lapic(n) => {
            if (n as usize) < rest.lapics.len() {
                let _lapic = rest.lapics.put(n, None);
            }
        }
    }
    rest
}

// What is told of the end of the tick, and what it lacks, where that part is not in hand.
fn ended(
    alloc: Global,
    lacking: Option<Part>,
    events: &mut Events,
) -> Result<Result<(), Lacks>, Fail> {
    let Some(board) = board_after(alloc, ticking())? else {
        return Err(Fail::new("no board"));
    };
    let shape = board.shape();
    let (parts, words) = board.into_parts();
    let parts = match lacking {
        None => parts,
        Some(part) => without(parts, part),
    };
    let mut rig = BoardRig::new(parts, words);
    events.clear();
    Ok(ack_pin(&mut rig, &shape, Pin::Pic(0), events))
}

// A request that is new at processor 0, and at the 8259A pair or not.
fn delivered(pic: bool) -> Status {
    Status::Delivered {
        new: CpuSet::of_bits(1),
        stood: CpuSet::empty(),
        pic,
    }
}

// The end of the tick tells the pin, then its acknowledge notifier, and injects the tick that is pending. Without a part that a marked
// GSI concerns it lacks that part behind the pin; without the local APIC of the message that is sent it lacks that, behind both.
#[test]
fn acknowledges_lack_each_part(rt: HostRuntime) -> Result<(), Fail> {
    let mut events = Events::new();
    let acked = Event::Acked {
        pin: Pin::Pic(0),
        gsi: Some(0),
    };
    let stood = Status::Delivered {
        new: CpuSet::empty(),
        stood: CpuSet::of_bits(1),
        pic: true,
    };
    let injected = Event::Injected {
        gsi: 0,
        status: stood,
    };
    assert_eq!(rt; ended(rt.alloc(), None, &mut events)?, Ok(()));
    assert_eq!(rt;
        events.as_slice(),
        [acked, Event::Watched(3), injected].as_slice()
    );
    for part in [
        Part::Registry,
        Part::Counters,
        Part::Tick,
        Part::Pic,
        Part::Ioapic,
    ] {
        assert_eq!(rt;
            ended(rt.alloc(), Some(part), &mut events)?,
            Err(Lacks { part })
        );
        assert_eq!(rt; events.as_slice(), [acked].as_slice());
    }
    let part = Part::Lapic(0);
    assert_eq!(rt;
        ended(rt.alloc(), Some(part), &mut events)?,
        Err(Lacks { part })
    );
    assert_eq!(rt; events.as_slice(), [acked, Event::Watched(3)].as_slice());
    Ok(())
}

// GSI 5 has a pin of both chips, unmasked in both.
fn both_chips() -> &'static str {
    "
    cpus 1
    cpu0 store fee000f0 4 000001ff -> done
    cpu0 out 0020 1 11 -> done
    cpu0 out 0021 1 20 -> done
    cpu0 out 0021 1 04 -> done
    cpu0 out 0021 1 01 -> done
    cpu0 store fec00000 4 0000001a -> done
    cpu0 store fec00010 4 00000035 -> done
    "
}

// What a line of GSI 5 answers that goes high, and then what it answers going low, where that part is not in hand.
fn signalled(
    alloc: Global,
    lacking: Option<Part>,
) -> Result<(Result<Status, Lacks>, Result<Status, Lacks>), Fail> {
    let Some(board) = board_after(alloc, both_chips())? else {
        return Err(Fail::new("no board"));
    };
    let shape = board.shape();
    let (parts, words) = board.into_parts();
    let parts = match lacking {
        None => parts,
        Some(part) => without(parts, part),
    };
    let mut rig = BoardRig::new(parts, words);
    let targets = rig.targets(5);
    let raised = raise_gsi(&mut rig, shape.cpus, &targets, Source::Line(0));
    let lowered = lower_gsi(&mut rig, &targets, Source::Line(0));
    Ok((raised, lowered))
}

// A pin of both chips needs both, and for its message the local APIC; a fall sends nothing. Nothing else is needed.
#[test]
fn signals_lack_chips(rt: HostRuntime) -> Result<(), Fail> {
    let alloc = rt.alloc();
    let fine = (Ok(delivered(true)), Ok(Status::Lowered));
    for lacking in [
        None,
        Some(Part::Registry),
        Some(Part::Counters),
        Some(Part::Tick),
    ] {
        assert_eq!(rt; signalled(alloc, lacking)?, fine);
    }
    for part in [Part::Pic, Part::Ioapic] {
        let lacks = Lacks { part };
        assert_eq!(rt; signalled(alloc, Some(part))?, (Err(lacks), Err(lacks)));
    }
    let part = Part::Lapic(0);
    assert_eq!(rt;
        signalled(alloc, Some(part))?,
        (Err(Lacks { part }), Ok(Status::Lowered))
    );
    Ok(())
}
