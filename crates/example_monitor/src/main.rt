//! A monitor in small: a guest of two processors and three devices, each a thread over one running board, and a thread that replaces
//! the routing meanwhile. At the end the board is closed, and what the threads counted is held against it.
//!
//! It prints what does not depend on the order in which the threads run, and `agree` where all counts agree.
#![tactic(auto)]

mod asking;
mod bells;
mod devices;
mod ending;
mod guest;
mod monitor;
mod processors;
mod tally;
mod threads;

use ending::{Report, closed};
use irq_base::NoMemory;
use monitor::{Ready, power_on};
use std::alloc::Global;
use std::io;
use std::sync::Wait;
use std::thread::Threads;
use threads::all_work;

// Makes the board, prepares the guest, runs all threads, and closes the board.
fn run<R: Threads + Wait + Sync>(rt: &R, alloc: Global) -> Result<Option<Report>, NoMemory> {
    let Ready {
        monitor,
        desk,
        passes,
    } = power_on(rt, alloc)?;
    let passes = all_work(rt, &monitor, passes)?;
    Ok(closed(monitor, desk, passes))
}

fn main(rt: HostRuntime) -> io::Result<()> {
    let Ok(Some(report)) = run(&rt, rt.alloc()) else {
        return println!(rt; "out of memory");
    };
    let Report { sum, end } = report;
    println!(rt;
        "disk: {} raised, {} taken, {} resampled",
        sum.disk.raised, sum.disk.taken, sum.disk.told
    )?;
    println!(rt;
        "network: {} raised, {} taken, {} rung",
        sum.network.raised, sum.network.taken, sum.network.told
    )?;
    println!(rt;
        "timer: {} fell, {} taken, {} watched",
        sum.timer.raised, sum.timer.taken, sum.timer.told
    )?;
    println!(rt;
        "routing: {} published, {} read back",
        sum.published, sum.routed
    )?;
    println!(rt;
        "closed: {} published, {} due, {} counters stand",
        end.publications, end.due, end.standing
    )?;
    if report.agrees() {
        println!(rt; "agree")
    } else {
        println!(rt; "differ")
    }
}
