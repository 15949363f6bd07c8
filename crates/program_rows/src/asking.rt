//! The top call over ends in memory.
use io_edge::{Gate, MemSink, MemSource, Word};
use irqboard::{Bench, Live, Outcome, irqboard};
use std::alloc::{AllocError, Global};
use std::sync::Wait;
use std::thread::Threads;

/// The script of the first transcript, and that transcript.
pub const FIRST_SCRIPT: &str =
    "irqboard 1\ncpus 1\ncpu0 store fee000f0 4 000001ff\ncpu0 msi fee00000 00000041\ncpu0 ack\ncpu0 eoi\nend\n";

pub const FIRST_TRANSCRIPT: &str =
    "transcript 1\n0 cpu0 store fee000f0 4 000001ff -> done\n1 cpu0 msi fee00000 00000041 -> delivered new=1 stood=0 pic=0\n2 cpu0 ack -> vector 41\n3 cpu0 eoi -> ended 41\nend 4\n";

/// What the top call answers, all that it wrote, and how many entries the history of the board has that it left, which is closed for it.
#[derive(Drop)]
pub struct Came {
    pub outcome: Outcome,
    pub sink: MemSink,
    pub entries: Option<u64>,
}

// The words of a command line without its name, which spaces part here.
fn words_of(alloc: Global, line: &str) -> Result<Vec<Word>, AllocError> {
    let mut words = Vec::new(alloc);
    for text in line.split_whitespace() {
        words.push(Word::of(String::from_str(alloc, text)?))?;
    }
    Ok(words)
}

// How many entries the history of a board has, which is closed for it.
fn length_of(live: Option<Live>) -> Option<u64> {
    let (board, desk, passes) = live?.into_parts();
    match board.close(desk, passes) {
        Ok(closed) => Some(closed.length),
        Err(_) => None,
    }
}

/// Asks the top call for these words over this source and this sink.
pub fn ask<R: Threads + Wait + Sync, G: Gate>(
    rt: &R,
    alloc: Global,
    line: &str,
    mut source: MemSource,
    mut sink: MemSink,
    gate: &G,
) -> Result<Came, AllocError> {
    let words = words_of(alloc, line)?;
    let mut bench = Bench::empty();
    let outcome = irqboard(
        rt,
        alloc,
        words.as_slice(),
        &mut source,
        &mut sink,
        gate,
        &mut bench,
    );
    let Bench { live } = bench;
    Ok(Came {
        outcome,
        sink,
        entries: length_of(live),
    })
}
