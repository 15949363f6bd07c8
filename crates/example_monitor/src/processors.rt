//! The threads of the processors.
ghost use Rattle.std.specs.Prelude.{◌≡◌, true};
ghost use Rattle.part_board.specs.DueNow.{is_processor};
ghost use Rattle.part_board.specs.Seen.{IsPassOf};

use crate::asking::ask;
use crate::guest::{DISK_VECTOR, NETWORK_VECTOR, TIMER_VECTOR, ring_doorbell};
use crate::monitor::Monitor;
use crate::tally::Tally;
use board_step::Due;
use irq_base::{Call, Reply};
use part_board::Pass;
use std::sync::Wait;

// The guest's handler of a vector: the network's driver rings the doorbell once more.
fn handle<R: Wait>(rt: &R, monitor: &Monitor, pass: &mut Pass, vector: u8, tally: &mut Tally)
    requires pass { IsPassOf monitor.now.board pass.old }
    ensures pass { IsPassOf monitor.now.board pass.new }
    ensures caller { pass.new.caller ≡ pass.old.caller }
{
    if vector == DISK_VECTOR {
        tally.disk.taken = tally.disk.taken.saturating_add(1);
    } else if vector == TIMER_VECTOR {
        tally.timer.taken = tally.timer.taken.saturating_add(1);
    } else if vector == NETWORK_VECTOR {
        tally.network.taken = tally.network.taken.saturating_add(1);
        let _ = ask(rt, monitor, pass, &ring_doorbell(), tally);
    }
}

// The processor takes its next interrupt, handles it, and ends it.
fn take_interrupt<R: Wait>(rt: &R, monitor: &Monitor, pass: &mut Pass, tally: &mut Tally)
    requires pass { IsPassOf monitor.now.board pass.old }
    ensures pass { IsPassOf monitor.now.board pass.new }
    ensures caller { pass.new.caller ≡ pass.old.caller }
{
    if let Some(Reply::Vector(vector)) = ask(rt, monitor, pass, &Call::Ack, tally) {
        handle(rt, monitor, pass, vector, tally);
        let _ = ask(rt, monitor, pass, &Call::Eoi, tally);
    }
}

/// A processor takes each interrupt that is due to it, and sleeps while none is, until all devices are done.
pub fn run_processor<R: Wait>(rt: &R, monitor: &Monitor, pass: &mut Pass, cpu: u16) -> Tally
    requires pass { IsPassOf monitor.now.board pass.old }
    requires processor { is_processor pass.old.caller ≡ true }
    ensures pass { IsPassOf monitor.now.board pass.new }
{
    let mut tally = Tally::none();
    for _ in rt.forever() {
        match monitor.board.due(rt, pass) {
            Due::None if monitor.bells.is_quiet() => return tally,
            Due::None => monitor.bells.sleep(rt, cpu),
            _ => take_interrupt(rt, monitor, pass, &mut tally),
        }
    }
    unreachable!()
}
