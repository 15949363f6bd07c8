//! Copies of the tables and registries: each is as what it was copied from was then, whatever that does afterwards. What rings what, and which
//! calls are refused, is told of a whole board in `board_rows`.
use ack_notifiers::Watches;
use event_counter::Counters;
use ioevent_set::{IoEvents, IoRow};
use irq_base::{Cause, NoMemory, Space, Status};
use irqfd_set::{Irqfd, Irqfds};
use std::alloc::Global;
use tick_reinject::TickState;

/// The greatest count of an eventfd, 2^64 - 2.
const GREATEST: u64 = 18_446_744_073_709_551_614;

// The counts of a counter that is copied and then taken.
fn counts(alloc: Global) -> Result<(u64, u64), NoMemory> {
    let mut counters = Counters::power_on(alloc, 3)?;
    let _ = counters.write(0, GREATEST);
    let mut copy = Counters::power_on(alloc, 3)?;
    copy.copy_from(&counters);
    let _ = counters.take(0);
    Ok((copy.count(0), counters.count(0)))
}

// The ticks that are pending where two were ignored, the state is copied, and then reinjects no more.
fn pending() -> (u64, u64) {
    let ignored = Status::Ignored(Cause::Masked);
    let mut ticks = TickState::power_on();
    let _ = ticks.tick();
    ticks.injected(&ignored);
    let _ = ticks.tick();
    let mut copy = TickState::power_on();
    copy.copy_from(&ticks);
    ticks.set_mode(false);
    (copy.pending(), ticks.pending())
}

#[test]
fn copies_of_counters_and_ticks(rt: HostRuntime) -> Result<(), NoMemory> {
    assert!(rt; counts(rt.alloc())? == (GREATEST, 0));
    assert!(rt; pending() == (2, 0));
    Ok(())
}

// What the copy and the first then say of trigger 255, the rows that they have, and whether GSI 11 has a resampler.
type Said = (Option<Irqfd>, usize, bool);

fn said(irqfds: &Irqfds) -> Said {
    (
        irqfds.of_trigger(255),
        irqfds.rows().len(),
        irqfds.has_resampler(11),
    )
}

fn irqfds(alloc: Global) -> Result<(Said, Said), NoMemory> {
    let mut irqfds = Irqfds::power_on(alloc)?;
    irqfds.assign(255, 11, Some(3));
    irqfds.assign(5, 24, None);
    let mut copy = Irqfds::power_on(alloc)?;
    copy.copy_from(&irqfds);
    let _ = irqfds.deassign(255, 11);
    Ok((said(&copy), said(&irqfds)))
}

#[test]
fn copies_of_irqfds(rt: HostRuntime) -> Result<(), NoMemory> {
    let row = Irqfd {
        trigger: 255,
        gsi: 11,
        resample: Some(3),
    };
    let (copy, first) = irqfds(rt.alloc())?;
    assert!(rt; copy == (Some(row), 2, true) && first == (None, 1, false));
    Ok(())
}

// Whether the copy and the first have a notifier of GSI 8 and one of counter 3.
fn watches(alloc: Global) -> Result<[bool; 4], NoMemory> {
    let mut watches = Watches::power_on(alloc)?;
    let _ = watches.watch(3, 8);
    let mut copy = Watches::power_on(alloc)?;
    copy.copy_from(&watches);
    let _ = watches.unwatch(3, 8);
    Ok([
        copy.has_watch(8),
        copy.has_counter(3),
        watches.has_watch(8),
        watches.has_counter(3),
    ])
}

// The counter that a write rings on the copy and on the first, and that of a write past the ports.
fn rung(alloc: Global) -> Result<[Option<u16>; 3], NoMemory> {
    let row = IoRow {
        space: Space::Port,
        address: 0xc050,
        len: 2,
        counter: 4,
        want: Some(1),
    };
    let mut events = IoEvents::power_on(alloc)?;
    let _ = events.attach(row);
    let mut copy = IoEvents::power_on(alloc)?;
    copy.copy_from(&events);
    let _ = events.detach(&row);
    Ok([
        copy.find(Space::Port, 0xc050, 2, 1),
        events.find(Space::Port, 0xc050, 2, 1),
        copy.find(Space::Port, 0xd000_0000, 4, 1),
    ])
}

#[test]
fn copies_of_notifiers_and_ioeventfds(rt: HostRuntime) -> Result<(), NoMemory> {
    assert!(rt; watches(rt.alloc())? == [true, true, false, false]);
    assert!(rt; rung(rt.alloc())? == [Some(4), None, None]);
    Ok(())
}
