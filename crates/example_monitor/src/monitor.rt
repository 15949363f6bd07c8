//! The monitor is made, and its guest is prepared.
ghost use Rattle.std.specs.Prelude.{◌≡◌, All, IfOk, true};
ghost use Rattle.irq_base.specs.Callers.{is_there};
ghost use Rattle.part_board.specs.Seen.{IsDeskOf, IsPassOf};

use crate::asking::{ask, publish};
use crate::bells::Bells;
use crate::guest::{
    COUNTERS, TIMER_GSI, disk_irqfd, doorbell, enable, network_irqfd, table, timer_watch, unmask,
};
use crate::tally::Tally;
use irq_base::{Call, Caller, NoMemory, Shape};
use part_board::{Desk, LiveBoard, Pass};
use std::alloc::Global;
use std::sync::{Mutex, Wait};

/// What all threads of the monitor share.
#[derive(Drop)]
pub struct Monitor {
    pub board: LiveBoard,
    pub bells: Bells,
    /// What all threads have counted by now.
    pub sum: Mutex<Tally>,
    /// The two tables of the routing: each sends the network's messages to another processor.
    pub to_cpu0: Call,
    pub to_cpu1: Call,
}

impl Monitor {
    /// Adds to what was counted.
    pub fn count<R: Wait>(&self, rt: &R, tally: Tally) {
        let mut sum = self.sum.lock(rt);
        *sum = sum.and(tally);
    }
}

// Two processors, and calls and publications in plenty: neither takes memory.
const SHAPE: Shape = Shape {
    cpus: 2,
    counters: COUNTERS,
    tick: TIMER_GSI,
    calls: 1 << 40,
    publications: 1 << 20,
};

// A running board at power-on, and the desk that makes its passes.
fn board(alloc: Global) -> Result<(LiveBoard, Desk), NoMemory>
    ensures desk { IfOk result (λ made. IsDeskOf made.0 made.1) }
    ensures cpus { IfOk result (λ made. made.0.shape.cpus ≡ 2) }
{
    match LiveBoard::power_on(alloc, &SHAPE) {
        Ok(made) => Ok(made),
        Err(_) => Err(NoMemory),
    }
}

// The pass of a caller.
fn pass(alloc: Global, board: &LiveBoard, desk: &mut Desk, caller: Caller) -> Result<Pass, NoMemory>
    requires desk { IsDeskOf board.now desk.old }
    requires there { is_there caller board.now.shape ≡ true }
    ensures desk { IsDeskOf board.now desk.new }
    ensures pass { IfOk result (IsPassOf board.now) }
{
    match desk.pass(alloc, board, caller) {
        Ok(pass) => Ok(pass),
        Err(_) => Err(NoMemory),
    }
}

// Processor 0 enables its local APIC and two pins of the I/O APIC, and processor 1 its local APIC.
fn prepare_processors<R: Wait>(rt: &R, monitor: &Monitor, cpu0: &mut Pass, cpu1: &mut Pass)
    requires cpu0 { IsPassOf monitor.now.board cpu0.old }
    requires cpu1 { IsPassOf monitor.now.board cpu1.old }
    ensures cpu0 { IsPassOf monitor.now.board cpu0.new }
    ensures cpu1 { IsPassOf monitor.now.board cpu1.new }
{
    let mut tally = Tally::none();
    let _ = ask(rt, monitor, cpu0, &enable(), &mut tally);
    let _ = ask(rt, monitor, cpu1, &enable(), &mut tally);
    for call in unmask().as_slice() {
        let _ = ask(rt, monitor, cpu0, call, &mut tally);
    }
    monitor.count(rt, tally);
}

// The monitor publishes its routing, and registers its irqfds, its doorbell and its acknowledge notifier.
fn register<R: Wait>(rt: &R, monitor: &Monitor, router: &mut Pass)
    requires pass { IsPassOf monitor.now.board router.old }
    ensures pass { IsPassOf monitor.now.board router.new }
{
    let mut tally = Tally::none();
    publish(rt, monitor, router, &monitor.to_cpu0, &mut tally);
    publish(rt, monitor, router, &disk_irqfd(), &mut tally);
    publish(rt, monitor, router, &network_irqfd(), &mut tally);
    publish(rt, monitor, router, &timer_watch(), &mut tally);
    let _ = ask(rt, monitor, router, &doorbell(), &mut tally);
    monitor.count(rt, tally);
}

/// A monitor that is ready to run, with its desk and the pass of each of its threads.
#[derive(Drop)]
pub struct Ready {
    pub monitor: Monitor,
    pub desk: Desk,
    pub passes: Vec<Pass>,
}

/// Makes the monitor: its board, a pass for each processor and each device, and the guest prepared through these.
pub fn power_on<R: Wait>(rt: &R, alloc: Global) -> Result<Ready, NoMemory>
    ensures desk { IfOk result (λ ready. IsDeskOf ready.monitor.board ready.desk) }
    ensures passes { IfOk result (λ ready. All (IsPassOf ready.monitor.board) ready.passes.items) }
{
    let to_cpu0 = table(alloc, 0)?;
    let to_cpu1 = table(alloc, 1)?;
    let (board, mut desk) = board(alloc)?;
    let mut cpu0 = pass(alloc, &board, &mut desk, Caller::Cpu(0))?;
    let mut cpu1 = pass(alloc, &board, &mut desk, Caller::Cpu(1))?;
    let disk = pass(alloc, &board, &mut desk, Caller::Device(0))?;
    let network = pass(alloc, &board, &mut desk, Caller::Device(1))?;
    let timer = pass(alloc, &board, &mut desk, Caller::Device(2))?;
    let mut router = pass(alloc, &board, &mut desk, Caller::Device(3))?;
    let monitor = Monitor {
        board,
        bells: Bells::new(4),
        sum: Mutex::new(Tally::none()),
        to_cpu0,
        to_cpu1,
    };
    prepare_processors(rt, &monitor, &mut cpu0, &mut cpu1);
    register(rt, &monitor, &mut router);
    let Ok(passes) = vec![in alloc; cpu0, cpu1, disk, network, timer, router] else {
        return Err(NoMemory);
    };
    Ok(Ready {
        monitor,
        desk,
        passes,
    })
}
