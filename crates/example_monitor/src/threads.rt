//! All threads run.
ghost use Rattle.std.specs.Prelude.{All, IfOk};
ghost use Rattle.part_board.specs.Seen.{IsPassOf};

use crate::devices::{run_disk, run_network, run_router, run_timer};
use crate::monitor::Monitor;
use crate::processors::run_processor;
use crate::tally::Tally;
use irq_base::{Caller, NoMemory};
use part_board::Pass;
use std::sync::Wait;
use std::thread;
use std::thread::Threads;

// What a device does, by its number.
fn run_device<R: Wait>(rt: &R, monitor: &Monitor, pass: &mut Pass, device: u16) -> Tally
    requires pass { IsPassOf monitor.now.board pass.old }
    ensures pass { IsPassOf monitor.now.board pass.new }
{
    let tally = match device {
        0 => run_disk(rt, monitor, pass),
        1 => run_network(rt, monitor, pass),
        2 => run_timer(rt, monitor, pass),
        _ => run_router(rt, monitor, pass),
    };
    monitor.bells.leave();
    tally
}

// What the thread of a caller does, with the caller's pass, which it gives back.
fn work<R: Wait>(rt: &R, monitor: &Monitor, mut pass: Pass) -> Pass
    requires pass { IsPassOf monitor.now.board pass }
    ensures pass { IsPassOf monitor.now.board result }
{
    let tally = match pass.caller() {
        Caller::Cpu(cpu) => run_processor(rt, monitor, &mut pass, cpu),
        Caller::Device(device) => run_device(rt, monitor, &mut pass, device),
    };
    monitor.count(rt, tally);
    pass
}

/// Each caller works on a thread of its own, until all are done.
pub fn all_work<R: Threads + Wait + Sync>(
    rt: &R,
    monitor: &Monitor,
    passes: Vec<Pass>,
) -> Result<Vec<Pass>, NoMemory>
    requires passes { All (IsPassOf monitor.now.board) passes.items }
    ensures passes { IfOk result (λ passes. All (IsPassOf monitor.now.board) passes.items) }
{
    let thread = |pass: Pass| -> Pass
        requires { IsPassOf monitor.now.board pass }
        ensures { IsPassOf monitor.entry.now.board result }
    { work(rt, monitor, pass) };
    match thread::map_vec(rt, passes, &thread) {
        Ok(passes) => Ok(passes),
        Err(_) => Err(NoMemory),
    }
}
