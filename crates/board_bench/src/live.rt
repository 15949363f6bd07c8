//! The benches of a running board.
ghost use Rattle.std.specs.Prelude.{◌≡◌, ◌≤◌, All};
ghost use Rattle.part_board.specs.Seen.{IsPassOf};

use crate::asking::{ask_again, ask_each, ask_until, look_again};
use crate::benches::Bench;
use crate::calls::{assign, deassign, default_table, enable, set_up};
use crate::opening::{opened, pass_of, passes_of};
use board_step::OpenError;
use irq_base::Caller;
use part_board::{LiveBoard, Pass};
use std::alloc::Global;
use std::sync::Wait;
use std::sync::atomic::{AtomicBool, Ordering};
use std::thread;
use std::thread::Threads;

/// What is done to a running board.
#[derive(Clone, Copy)]
pub enum Live {
    /// Rounds of a bench, on as many threads as it is told, each a processor of its own.
    Rounds(Bench),
    /// A look at where a GSI goes.
    Route,
    /// The routing table of power-on is put in place again.
    Reroute,
    /// An irqfd is made and ended.
    Assign,
    /// Rounds of messages on one thread, beside another that puts the table of power-on in place again and again.
    Beside,
}

impl Live {
    /// The bench of that name.
    pub fn named(name: &str) -> Option<Live> {
        match name {
            "route" => Some(Live::Route),
            "reroute" => Some(Live::Reroute),
            "assign" => Some(Live::Assign),
            "beside" => Some(Live::Beside),
            _ => match name.strip_prefix("live-") {
                Some(bench) => Some(Live::Rounds(Bench::named(bench)?)),
                None => None,
            },
        }
    }
}

// What is asked before the rounds: processor 0 sets the board up, and another enables its local APIC. Whether memory was there.
fn is_ready<R: Wait>(rt: &R, alloc: Global, board: &LiveBoard, pass: &mut Pass) -> bool
    requires pass { IsPassOf board.now pass.old }
    ensures pass { IsPassOf board.now pass.new }
{
    match pass.caller() {
        Caller::Cpu(0) => match set_up(alloc) {
            Ok(calls) => {
                ask_each(rt, board, pass, &calls);
                true
            }
            Err(_) => false,
        },
        _ => {
            ask_each(rt, board, pass, &[enable()]);
            true
        }
    }
}

// The processor of a caller, 0 where it is a device.
fn processor_of(caller: Caller) -> u16 {
    match caller {
        Caller::Cpu(n) => n,
        Caller::Device(_) => 0,
    }
}

// So many rounds of the bench by one pass, once it is ready; how many vectors they gave.
fn rounds_of<R: Wait>(
    rt: &R,
    alloc: Global,
    board: &LiveBoard,
    mut pass: Pass,
    bench: Bench,
    rounds: u32,
) -> u64
    requires pass { IsPassOf board.now pass }
{
    if !is_ready(rt, alloc, board, &mut pass) {
        return 0;
    }
    let round = bench.round_of(processor_of(pass.caller()));
    let calls = bench.calls();
    ask_again(rt, board, pass, &round[..calls], rounds)
}

// What the pass of a thread does: its rounds of the bench. Beside a rerouting thread, processor 0 does them and then stops the others,
// which put the table of power-on in place until then. How many vectors its rounds gave.
fn work<R: Wait>(
    rt: &R,
    alloc: Global,
    board: &LiveBoard,
    pass: Pass,
    bench: Live,
    rounds: u32,
    stop: &AtomicBool,
) -> u64
    requires pass { IsPassOf board.now pass }
{
    match (bench, pass.caller()) {
        (Live::Rounds(bench), _) => rounds_of(rt, alloc, board, pass, bench, rounds),
        (_, Caller::Cpu(0)) => {
            let given = rounds_of(rt, alloc, board, pass, Bench::Message, rounds);
            stop.store(true, Ordering::SeqCst);
            given
        }
        _ => {
            if let Ok(call) = default_table(alloc) {
                let _published = ask_until(rt, board, pass, &call, stop);
            }
            0
        }
    }
}

// The work of each of the passes, on a thread of its own; how many vectors all gave.
fn on_threads<R: Threads + Wait + Sync>(
    rt: &R,
    alloc: Global,
    board: &LiveBoard,
    passes: Vec<Pass>,
    bench: Live,
    rounds: u32,
) -> Result<u64, OpenError>
    requires passes { All (IsPassOf board.now) passes.items }
{
    let stop = AtomicBool::new(false);
    let act = |pass: Pass| -> u64
        requires { IsPassOf board.now pass }
    { work(rt, alloc, board, pass, bench, rounds, &stop) };
    let Ok(given) = thread::map_vec(rt, passes, &act) else {
        return Err(OpenError::NoMemory);
    };
    let mut sum = 0u64;
    for count in given.as_slice() {
        sum = sum.wrapping_add(*count);
    }
    Ok(sum)
}

/// Runs so many rounds on a running board of so many processors; how many did what they are for: vectors that were given, looks that
/// were answered, or publications.
pub fn run<R: Threads + Wait + Sync>(
    rt: &R,
    alloc: Global,
    bench: Live,
    rounds: u32,
    threads: u16,
) -> Result<u64, OpenError> {
    let cpus = if matches!(bench, Live::Beside) {
        2
    } else {
        threads
    };
    let (board, mut desk) = opened(alloc, cpus)?;
    match bench {
        Live::Rounds(_) | Live::Beside => {
            let passes = passes_of(alloc, &board, &mut desk, cpus)?;
            on_threads(rt, alloc, &board, passes, bench, rounds)
        }
        Live::Route => {
            let pass = pass_of(alloc, &board, &mut desk, 0)?;
            Ok(look_again(&board, pass, rounds))
        }
        Live::Reroute => {
            let pass = pass_of(alloc, &board, &mut desk, 0)?;
            let call = default_table(alloc)?;
            Ok(ask_again(rt, &board, pass, &[call], rounds))
        }
        Live::Assign => {
            let pass = pass_of(alloc, &board, &mut desk, 0)?;
            Ok(ask_again(
                rt,
                &board,
                pass,
                &[assign(0, 24, None), deassign(0, 24)],
                rounds,
            ))
        }
    }
}
