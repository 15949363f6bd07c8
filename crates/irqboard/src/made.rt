//! The calls for the words that make a text out of their numbers. They read nothing.
ghost use Rattle.std.specs.Prelude.{◌≡◌, ◌≢◌};
ghost use Rattle.io_edge.specs.Faults.{Rose};
ghost use Rattle.irqboard.specs.Making.{CanBeMade, IsMade, MakesRightly};
ghost use Rattle.workload_gen.specs.Laws.{IsInRange};
ghost use Rattle.workload_gen.specs.Text.{workload_text};
ghost use Rattle.workload_sum.specs.Summary.{IsSummary};

use crate::making::{Making, Storm};
use crate::outcome::Outcome;
use crate::writing::write_whole;
use io_edge::Sink;
use std::alloc::Global;
use workload_gen::generate;
use workload_sum::sum;

/// Writes the generated script of three numbers: where the draws start, how many lines are drawn, and how many processors there are. Where
/// the sink does not fail, it answers `Fine` or want of memory.
pub fn gen_text<K: Sink>(alloc: Global, start: u64, lines: u32, cpus: u16, sink: &mut K) -> Outcome
    requires { IsInRange lines cpus }
    ensures output { MakesRightly (λ text. text ≡ workload_text start lines cpus) (K.holds sink.old) (K.holds sink.new) result }
    ensures write_fault { result ≡ Outcome.WriteFault → Rose (K.faults sink.old) (K.faults sink.new) }
    ensures sink_faults { result ≢ Outcome.WriteFault → K.faults sink.new ≡ K.faults sink.old }
{
    let Ok(text) = generate(alloc, start, lines, cpus) else {
        return Outcome::NoMemory;
    };
    match write_whole(sink, text.as_slice()) {
        Ok(()) => Outcome::Fine,
        Err(_) => Outcome::WriteFault,
    }
}

/// Replays the generated script of three numbers, and writes the eight lines of its summary, which is a function of these numbers. Where the
/// sink does not fail, it answers `Fine` or want of memory.
pub fn sum_text<K: Sink>(alloc: Global, start: u64, lines: u32, cpus: u16, sink: &mut K) -> Outcome
    requires { IsInRange lines cpus }
    ensures output { MakesRightly (IsSummary start lines cpus) (K.holds sink.old) (K.holds sink.new) result }
    ensures write_fault { result ≡ Outcome.WriteFault → Rose (K.faults sink.old) (K.faults sink.new) }
    ensures sink_faults { result ≢ Outcome.WriteFault → K.faults sink.new ≡ K.faults sink.old }
{
    let Ok(text) = sum(alloc, start, lines, cpus) else {
        return Outcome::NoMemory;
    };
    match write_whole(sink, text.as_slice()) {
        Ok(()) => Outcome::Fine,
        Err(_) => Outcome::WriteFault,
    }
}

/// Makes and writes what is asked for.
pub fn make_text<K: Sink>(alloc: Global, making: Making, sink: &mut K) -> Outcome
    requires { CanBeMade making }
    ensures output { MakesRightly (IsMade making) (K.holds sink.old) (K.holds sink.new) result }
    ensures write_fault { result ≡ Outcome.WriteFault → Rose (K.faults sink.old) (K.faults sink.new) }
    ensures sink_faults { result ≢ Outcome.WriteFault → K.faults sink.new ≡ K.faults sink.old }
{
    match making {
        Making::Gen(Storm { start, lines, cpus }) => gen_text(alloc, start, lines, cpus, sink),
        Making::Sum(Storm { start, lines, cpus }) => sum_text(alloc, start, lines, cpus, sink),
    }
}
