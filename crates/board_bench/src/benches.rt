//! The rounds, and a board on one thread that they are asked of.
ghost use Rattle.std.specs.Prelude.{◌≤◌};

use crate::calls::{is_vector, line, message_to, out, set_up, trigger};
use board_step::{Board, OpenError};
use irq_base::{Call, Caller, Events, Shape};
use std::alloc::Global;

/// What a round asks, all of it by one processor.
#[derive(Clone, Copy, PartialEq, Eq)]
pub enum Bench {
    /// A message, given and ended.
    Message,
    /// A line on a level pin of the 8259A pair, given through LINT0, let go, and ended at the master.
    PairLevel,
    /// A line on an edge pin of the pair, given through LINT0, ended at the master, and let go.
    PairEdge,
    /// The same on a pin of the slave, ended at both chips.
    Slave,
    /// A write to the trigger of an irqfd on a message, given and ended.
    Trigger,
    /// A line on a level pin of the I/O APIC, given, let go and ended.
    IoapicLevel,
    /// A write to the trigger of an irqfd with a resample counter on such a pin, given and ended, and the counter taken.
    Resampler,
}

impl Bench {
    /// The bench of that name.
    pub fn named(name: &str) -> Option<Bench> {
        match name {
            "message" => Some(Bench::Message),
            "pair-level" => Some(Bench::PairLevel),
            "pair-edge" => Some(Bench::PairEdge),
            "slave" => Some(Bench::Slave),
            "trigger" => Some(Bench::Trigger),
            "ioapic-level" => Some(Bench::IoapicLevel),
            "resampler" => Some(Bench::Resampler),
            _ => None,
        }
    }

    /// How many of its calls a round asks.
    pub fn calls(self) -> usize
        ensures { result ≤ 5 }
    {
        match self {
            Bench::Message | Bench::Trigger => 3,
            Bench::Slave => 5,
            _ => 4,
        }
    }

    // What a round asks, filled up to five calls.
    fn round(self) -> [Call; 5] {
        match self {
            Bench::Message => [message(), Call::Ack, Call::Eoi, Call::Ack, Call::Ack],
            Bench::PairLevel => [
                line(5, true),
                Call::Ack,
                line(5, false),
                out(0x20, 0x20),
                Call::Ack,
            ],
            Bench::PairEdge => [
                line(1, true),
                Call::Ack,
                out(0x20, 0x20),
                line(1, false),
                Call::Ack,
            ],
            Bench::Slave => [
                line(12, true),
                Call::Ack,
                out(0xa0, 0x20),
                out(0x20, 0x20),
                line(12, false),
            ],
            Bench::Trigger => [trigger(0), Call::Ack, Call::Eoi, Call::Ack, Call::Ack],
            Bench::IoapicLevel => [
                line(10, true),
                Call::Ack,
                line(10, false),
                Call::Eoi,
                Call::Ack,
            ],
            Bench::Resampler => [
                trigger(2),
                Call::Ack,
                Call::Eoi,
                Call::Take { counter: 3 },
                Call::Ack,
            ],
        }
    }

    /// What a round asks on that processor, filled up to five calls: a message goes to the processor itself.
    pub fn round_of(self, cpu: u16) -> [Call; 5] {
        match self {
            Bench::Message => [message_to(cpu), Call::Ack, Call::Eoi, Call::Ack, Call::Ack],
            _ => self.round(),
        }
    }
}

// A message of vector 41h to processor 0.
fn message() -> Call {
    Call::Msi {
        address: 0xfee0_0000,
        payload: 0x41,
    }
}

// Processor 0 asks; whether it was answered.
fn is_answered(board: &mut Board, call: &Call, events: &mut Events) -> bool {
    call.allowed(Caller::Cpu(0), &board.shape())
        && board.apply(Caller::Cpu(0), call, events).is_ok()
}

// Processor 0 asks; whether the answer gives it a vector.
fn is_given(board: &mut Board, call: &Call, events: &mut Events) -> bool {
    if !call.allowed(Caller::Cpu(0), &board.shape()) {
        return false;
    }
    match board.apply(Caller::Cpu(0), call, events) {
        Ok(done) => is_vector(done.reply),
        Err(_) => false,
    }
}

// Processor 0 asks these calls; how many vectors they gave it.
fn vectors_of(board: &mut Board, calls: &[Call], events: &mut Events) -> u64 {
    let mut given = 0u64;
    for call in calls {
        if is_given(board, call, events) {
            given = given.wrapping_add(1);
        }
    }
    given
}

/// Runs so many rounds on a board of one processor; how many vectors they gave, one a round.
pub fn run(alloc: Global, bench: Bench, rounds: u32) -> Result<u64, OpenError> {
    let shape = Shape {
        cpus: 1,
        counters: 16,
        tick: 0,
        calls: 1 << 40,
        publications: 1 << 20,
    };
    let mut board = Board::power_on(alloc, &shape)?;
    let mut events = Events::new();
    for call in &set_up(alloc)? {
        let _ready = is_answered(&mut board, call, &mut events);
    }
    let round = bench.round();
    let calls = bench.calls();
    let mut given = 0u64;
    for _ in 0..rounds {
        given = given.wrapping_add(vectors_of(&mut board, &round[..calls], &mut events));
    }
    Ok(given)
}
