//! The threads of the devices, and that of the routing.
ghost use Rattle.std.specs.Prelude.{◌≡◌};
ghost use Rattle.part_board.specs.Seen.{IsPassOf};

use crate::asking::{ask, publish, try_ask};
use crate::guest::{
    DISK_RESAMPLE, DISK_TRIGGER, DOORBELL, NETWORK_GSI, NETWORK_TRIGGER, ROUNDS, TIMER_WATCH,
    network_route,
};
use crate::monitor::Monitor;
use crate::tally::Tally;
use irq_base::{Call, Reply, Status, Targets};
use part_board::Pass;
use std::sync::Wait;

// Takes a counter, and sleeps while it stands at 0; the count that is taken. 0 where the board answers no more.
fn take_count<R: Wait>(
    rt: &R,
    monitor: &Monitor,
    pass: &mut Pass,
    counter: u16,
    tally: &mut Tally,
) -> u64
    requires pass { IsPassOf monitor.now.board pass.old }
    ensures pass { IsPassOf monitor.now.board pass.new }
{
    for _ in rt.forever() {
        match ask(rt, monitor, pass, &Call::Take { counter }, tally) {
            Some(Reply::Count(count)) => return count,
            Some(Reply::Empty) => monitor.bells.wait_for(rt, counter),
            _ => return 0,
        }
    }
    unreachable!()
}

// Writes to a trigger; whether its interrupt was newly delivered.
fn trigger<R: Wait>(
    rt: &R,
    monitor: &Monitor,
    pass: &mut Pass,
    counter: u16,
    tally: &mut Tally,
) -> bool
    requires pass { IsPassOf monitor.now.board pass.old }
    ensures pass { IsPassOf monitor.now.board pass.new }
{
    let write = Call::Write { counter, n: 1 };
    matches!(
        ask(rt, monitor, pass, &write, tally),
        Some(Reply::Signal(Status::Delivered { .. }))
    )
}

/// The disk raises its level line by an irqfd, and waits until the line was resampled.
pub fn run_disk<R: Wait>(rt: &R, monitor: &Monitor, pass: &mut Pass) -> Tally
    requires pass { IsPassOf monitor.now.board pass.old }
    ensures pass { IsPassOf monitor.now.board pass.new }
{
    let mut tally = Tally::none();
    for _ in 0..ROUNDS {
        if trigger(rt, monitor, pass, DISK_TRIGGER, &mut tally) {
            tally.disk.raised = tally.disk.raised.saturating_add(1);
        }
        let count = take_count(rt, monitor, pass, DISK_RESAMPLE, &mut tally);
        tally.disk.told = tally.disk.told.saturating_add(count);
    }
    tally
}

/// The network sends its message by an irqfd, and waits until the guest has rung the doorbell.
pub fn run_network<R: Wait>(rt: &R, monitor: &Monitor, pass: &mut Pass) -> Tally
    requires pass { IsPassOf monitor.now.board pass.old }
    ensures pass { IsPassOf monitor.now.board pass.new }
{
    let mut tally = Tally::none();
    for _ in 0..ROUNDS {
        if trigger(rt, monitor, pass, NETWORK_TRIGGER, &mut tally) {
            tally.network.raised = tally.network.raised.saturating_add(1);
        }
        let count = take_count(rt, monitor, pass, DOORBELL, &mut tally);
        tally.network.told = tally.network.told.saturating_add(count);
    }
    tally
}

// One attempt of a tick, which waits for nobody; whether it fell.
fn try_tick(monitor: &Monitor, pass: &mut Pass, tally: &mut Tally) -> bool
    requires pass { IsPassOf monitor.now.board pass.old }
    ensures pass { IsPassOf monitor.now.board pass.new }
{
    matches!(
        try_ask(monitor, pass, &Call::Tick, tally),
        Some(Reply::Signal(_)) | Some(Reply::Held(_))
    )
}

// Ticks fall, as many as there are rounds. The thread may not wait in the board: where an attempt gives way, the tick is owed, and
// is tried again later.
fn tick_again<R: Wait>(rt: &R, monitor: &Monitor, pass: &mut Pass, tally: &mut Tally)
    requires pass { IsPassOf monitor.now.board pass.old }
    ensures pass { IsPassOf monitor.now.board pass.new }
{
    for _ in rt.forever() {
        if tally.timer.raised >= u64::from(ROUNDS) {
            return;
        }
        if try_tick(monitor, pass, tally) {
            tally.timer.raised = tally.timer.raised.saturating_add(1);
        }
    }
}

/// The timer lets its ticks fall, and then waits until the guest has acknowledged each of them.
pub fn run_timer<R: Wait>(rt: &R, monitor: &Monitor, pass: &mut Pass) -> Tally
    requires pass { IsPassOf monitor.now.board pass.old }
    ensures pass { IsPassOf monitor.now.board pass.new }
{
    let mut tally = Tally::none();
    tick_again(rt, monitor, pass, &mut tally);
    for _ in 0..ROUNDS {
        if tally.timer.told >= u64::from(ROUNDS) {
            break;
        }
        let count = take_count(rt, monitor, pass, TIMER_WATCH, &mut tally);
        tally.timer.told = tally.timer.told.saturating_add(count);
    }
    tally
}

// Where the network's GSI goes, read without a turn: again, while routing was published meanwhile.
fn network_targets<R: Wait>(rt: &R, monitor: &Monitor, pass: &mut Pass) -> Targets
    requires pass { IsPassOf monitor.now.board pass.old }
    ensures pass { IsPassOf monitor.now.board pass.new }
{
    for _ in rt.forever() {
        if let Ok(targets) = monitor.board.route_now(pass, NETWORK_GSI) {
            return targets;
        }
    }
    unreachable!()
}

/// The network's messages are sent to one processor and to the other in turn, beside all that goes on.
pub fn run_router<R: Wait>(rt: &R, monitor: &Monitor, pass: &mut Pass) -> Tally
    requires pass { IsPassOf monitor.now.board pass.old }
    ensures pass { IsPassOf monitor.now.board pass.new }
{
    let mut tally = Tally::none();
    for k in 0..ROUNDS {
        let (cpu, table) = if k % 2 == 0 {
            (1, &monitor.to_cpu1)
        } else {
            (0, &monitor.to_cpu0)
        };
        if publish(rt, monitor, pass, table, &mut tally)
            && network_targets(rt, monitor, pass) == network_route(cpu)
        {
            tally.routed = tally.routed.saturating_add(1);
        }
    }
    tally
}
