// Passes do jobs on threads.
ghost use Rattle.std.specs.Prelude.{All, IfOk};
ghost use Rattle.part_board.specs.Seen.{IsPassOf};

use crate::counts::Counts;
use crate::jobs::{Job, work};
use crate::opening::{length_of, opened, passes_of};
use irq_base::NoMemory;
use part_board::{LiveBoard, Pass};
use std::alloc::Global;
use std::sync::{Mutex, Wait};
use std::thread;
use std::thread::Threads;

// The pass does its job, and adds to the sum what it counted.
fn add_work<R: Wait>(
    rt: &R,
    alloc: Global,
    board: &LiveBoard,
    pass: Pass,
    job: Job,
    sum: &Mutex<Counts>,
) -> Pass
    requires pass { IsPassOf board.now pass }
    ensures pass { IsPassOf board.now result }
{
    let (pass, counts) = work(rt, alloc, board, pass, job);
    let mut all = sum.lock(rt);
    *all = all.and(counts);
    pass
}

// Each pass does its job, on a thread of its own.
fn all_work<R: Threads + Wait + Sync>(
    rt: &R,
    alloc: Global,
    board: &LiveBoard,
    passes: Vec<Pass>,
    job: Job,
    sum: &Mutex<Counts>,
) -> Result<Vec<Pass>, NoMemory>
    requires passes { All (IsPassOf board.now) passes.items }
    ensures passes { IfOk result (λ passes. All (IsPassOf board.now) passes.items) }
{
    let act = |pass: Pass| -> Pass
        requires { IsPassOf board.now pass }
        ensures { IsPassOf board.entry.now result }
    { add_work(rt, alloc, board, pass, job, sum) };
    match thread::map_vec(rt, passes, &act) {
        Ok(passes) => Ok(passes),
        Err(_) => Err(NoMemory),
    }
}

// Each pass does all jobs, one after the other: before the next begins, all passes have done this.
fn all_jobs<R: Threads + Wait + Sync>(
    rt: &R,
    alloc: Global,
    board: &LiveBoard,
    passes: Vec<Pass>,
    jobs: &[Job],
    sum: &Mutex<Counts>,
) -> Result<Vec<Pass>, NoMemory>
    requires passes { All (IsPassOf board.now) passes.items }
    ensures passes { IfOk result (λ passes. All (IsPassOf board.now) passes.items) }
{
    let mut passes = passes;
    for job in jobs {
        passes = all_work(rt, alloc, board, passes, *job, sum)?;
    }
    Ok(passes)
}

/// What the processors of a board count who do these jobs on threads, and how many entries it has when it is closed.
pub(crate) fn played<R: Threads + Wait + Sync>(
    rt: &R,
    alloc: Global,
    cpus: u16,
    jobs: &[Job],
) -> Result<(Counts, Option<u64>), NoMemory> {
    let (board, mut desk) = opened(alloc, cpus)?;
    let passes = passes_of(alloc, &board, &mut desk, cpus)?;
    let sum = Mutex::new(Counts::none());
    let passes = all_jobs(rt, alloc, &board, passes, jobs, &sum)?;
    let counts = *sum.lock(rt);
    Ok((counts, length_of(board, desk, passes)))
}
