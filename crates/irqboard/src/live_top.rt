//! The call for the word `run`.
ghost use Rattle.std.specs.Prelude.{◌≡◌, ◌≢◌};
ghost use Rattle.io_edge.specs.Faults.{Rose};
ghost use Rattle.irqboard.specs.Answers.{ReadsRightly, JudgesRightly, WritesRightly, KeepsSilent, IsGood, IsAnswered};
ghost use Rattle.irqboard.specs.Benches.{LeavesRun};
ghost use Rattle.irqboard.specs.declared.command.Command.{Command};

use crate::bench::Bench;
use crate::live_work::{LiveWork, live_work_of};
use crate::outcome::Outcome;
use crate::reading::{Stop, read_whole};
use crate::writing::write_whole;
use io_edge::{Gate, Sink, Source};
use script_text::ScriptFault;
use std::alloc::Global;
use std::sync::Wait;
use std::thread::Threads;

/// Reads a script, runs it on a running board, a thread an actor, and writes the transcript of the run. It first reads the whole
/// input, then judges its lines, then runs them, then writes the text. Where the whole text was written, or a front of it before the sink
/// failed, the board on which the script ran stands on the bench, with its desk and a pass for each actor. That it returns is not promised.
pub fn run_text<R: Threads + Wait + Sync, S: Source, K: Sink, G: Gate>(
    rt: &R,
    alloc: Global,
    source: &mut S,
    sink: &mut K,
    gate: &G,
    bench: &mut Bench,
) -> Outcome
    ensures usage { result ≢ Outcome.Usage }
    ensures length { ReadsRightly (S.left source.old) (S.left source.new) result }
    ensures input { JudgesRightly Command.Run (S.left source.old) (S.left source.new) result }
    ensures output { WritesRightly Command.Run (S.left source.old) (K.holds sink.old) (K.holds sink.new) result }
    ensures bench { LeavesRun Command.Run bench.new.live (S.left source.old) (S.left source.new)
        (K.holds sink.old) (K.holds sink.new) result }
    ensures silent { KeepsSilent (K.holds sink.old) (K.holds sink.new) result }
    ensures read_fault { result ≡ Outcome.ReadFault → Rose (S.faults source.old) (S.faults source.new) }
    ensures write_fault { result ≡ Outcome.WriteFault → Rose (K.faults sink.old) (K.faults sink.new) }
    ensures source_faults { result ≢ Outcome.ReadFault → S.faults source.new ≡ S.faults source.old }
    ensures sink_faults { result ≢ Outcome.WriteFault → K.faults sink.new ≡ K.faults sink.old }
    ensures complete { IsGood Command.Run (S.left source.old)
        → ¬ Rose (S.faults source.old) (S.faults source.new)
        → ¬ Rose (K.faults sink.old) (K.faults sink.new)
        → IsAnswered Command.Run (S.left source.old) result }
{
    let input = match read_whole(alloc, source) {
        Ok(input) => input,
        Err(Stop::Fault) => return Outcome::ReadFault,
        Err(Stop::Memory) => return Outcome::NoMemory,
        Err(Stop::TooLong(bytes)) => return Outcome::TooLong { bytes },
    };
    let done = match live_work_of(rt, alloc, &input, gate) {
        Ok(done) => done,
        Err(ScriptFault::BadLine { line, cause }) => return Outcome::BadInput { line, cause },
        Err(ScriptFault::NoMemory) => return Outcome::NoMemory,
    };
    let LiveWork {
        outcome,
        text,
        live,
    } = done;
    bench.live = Some(live);
    match write_whole(sink, text.as_slice()) {
        Ok(()) => outcome,
        Err(_) => Outcome::WriteFault,
    }
}
