//! Rounds of calls on a board, to be counted: the words are the name of a bench, how many rounds, and how many threads where they are
//! not one. It prints how many rounds did what they are for, and how many microseconds all took. Instructions a round are the
//! difference of two runs with different rounds (`valgrind --tool=callgrind`) over the difference of the rounds; `bench/run` makes them.
#![tactic(auto)]

mod asking;
mod benches;
mod calls;
mod live;
mod opening;

use benches::Bench;
use board_step::OpenError;
use live::Live;
use opening::open_again;
use std::alloc::Global;
use std::sync::Wait;
use std::thread::Threads;
use std::time::Instant;
use std::{env, io};

// What is measured.
#[derive(Clone, Copy)]
enum Measured {
    // rounds on a board on one thread
    Board(Bench),
    // on a running board
    Running(Live),
    // running boards of 64 processors are made, each with so many passes as there were to be threads
    PowerOn,
}

// What bears that name.
fn named(name: &str) -> Option<Measured> {
    if name == "power-on" {
        return Some(Measured::PowerOn);
    }
    match Bench::named(name) {
        Some(bench) => Some(Measured::Board(bench)),
        None => Some(Measured::Running(Live::named(name)?)),
    }
}

// The number of that word, and 1 where there is no word.
fn number(word: Option<String>) -> Option<u32> {
    match word {
        None => Some(1),
        Some(word) => word.as_str().parse::<u32>().ok(),
    }
}

// So many rounds, on so many threads; how many did what they are for.
fn measure<R: Threads + Wait + Sync>(
    rt: &R,
    alloc: Global,
    what: Measured,
    rounds: u32,
    threads: u16,
) -> Result<u64, OpenError> {
    match what {
        Measured::Board(bench) => benches::run(alloc, bench, rounds),
        Measured::Running(bench) => live::run(rt, alloc, bench, rounds, threads),
        Measured::PowerOn => open_again(alloc, threads, rounds),
    }
}

fn main(rt: HostRuntime) -> io::Result<()> {
    let mut words = env::args(&rt)?;
    let _program = words.next();
    let Some(name) = words.next() else {
        return Ok(());
    };
    let (Some(what), Some(rounds), Some(threads)) = (
        named(name.as_str()),
        number(words.next()),
        number(words.next()),
    ) else {
        return Ok(());
    };
    let Ok(threads) = u16::try_from(threads) else {
        return Ok(());
    };
    let start = Instant::now(&rt)?;
    let Ok(count) = measure(&rt, rt.alloc(), what, rounds, threads) else {
        return Ok(());
    };
    let took = start.elapsed(&rt)?;
    println!(rt; "{count} {}", took.as_micros())
}
