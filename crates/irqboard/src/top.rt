//! The top call, and the calls for its words.
ghost use Rattle.std.specs.Prelude.{◌≡◌, ◌≢◌, ◌↔◌, None, IfSome};
ghost use Rattle.io_edge.specs.Faults.{Rose};
ghost use Rattle.irqboard.specs.Commands.{command_of};
ghost use Rattle.irqboard.specs.Answers.{ReadsRightly, JudgesRightly, WritesRightly, KeepsSilent, IsGood, IsAnswered};
ghost use Rattle.irqboard.specs.Benches.{LeavesRun};
ghost use Rattle.irqboard.specs.Making.{making_of, AreNone, IsMade, MakesRightly};

use crate::bench::Bench;
use crate::command::{Command, command_of};
use crate::live_top::run_text;
use crate::made::make_text;
use crate::making::making_of;
use crate::outcome::Outcome;
use crate::reading::{Stop, read_whole};
use crate::work::work_of;
use crate::writing::write_whole;
use io_edge::{Gate, Sink, Source, Word};
use script_text::ScriptFault;
use std::alloc::Global;
use std::sync::Wait;
use std::thread::Threads;

// Reads the whole input, does the work of `replay` or `check` on it, and writes the text of the work.
fn run<S: Source, K: Sink>(alloc: Global, command: Command, source: &mut S, sink: &mut K) -> Outcome
    requires { command ≢ Command.Run }
    ensures usage { result ≢ Outcome.Usage }
    ensures length { ReadsRightly (S.left source.old) (S.left source.new) result }
    ensures input { JudgesRightly command (S.left source.old) (S.left source.new) result }
    ensures output { WritesRightly command (S.left source.old) (K.holds sink.old) (K.holds sink.new) result }
    ensures silent { KeepsSilent (K.holds sink.old) (K.holds sink.new) result }
    ensures read_fault { result ≡ Outcome.ReadFault → Rose (S.faults source.old) (S.faults source.new) }
    ensures write_fault { result ≡ Outcome.WriteFault → Rose (K.faults sink.old) (K.faults sink.new) }
    ensures source_faults { result ≢ Outcome.ReadFault → S.faults source.new ≡ S.faults source.old }
    ensures sink_faults { result ≢ Outcome.WriteFault → K.faults sink.new ≡ K.faults sink.old }
    ensures complete { IsGood command (S.left source.old)
        → ¬ Rose (S.faults source.old) (S.faults source.new)
        → ¬ Rose (K.faults sink.old) (K.faults sink.new)
        → IsAnswered command (S.left source.old) result }
{
    let input = match read_whole(alloc, source) {
        Ok(input) => input,
        Err(Stop::Fault) => return Outcome::ReadFault,
        Err(Stop::Memory) => return Outcome::NoMemory,
        Err(Stop::TooLong(bytes)) => return Outcome::TooLong { bytes },
    };
    let done = match work_of(alloc, command, &input) {
        Ok(done) => done,
        Err(ScriptFault::BadLine { line, cause }) => return Outcome::BadInput { line, cause },
        Err(ScriptFault::NoMemory) => return Outcome::NoMemory,
    };
    match write_whole(sink, done.text.as_slice()) {
        Ok(()) => done.outcome,
        Err(_) => Outcome::WriteFault,
    }
}

/// Reads a script and writes the transcript of its lines, asked in file order on one thread. It first reads the whole input,
/// then judges its lines, then does the work, then writes the text.
pub fn replay<S: Source, K: Sink>(alloc: Global, source: &mut S, sink: &mut K) -> Outcome
    ensures usage { result ≢ Outcome.Usage }
    ensures length { ReadsRightly (S.left source.old) (S.left source.new) result }
    ensures input { JudgesRightly Command.Replay (S.left source.old) (S.left source.new) result }
    ensures output { WritesRightly Command.Replay (S.left source.old) (K.holds sink.old) (K.holds sink.new) result }
    ensures silent { KeepsSilent (K.holds sink.old) (K.holds sink.new) result }
    ensures read_fault { result ≡ Outcome.ReadFault → Rose (S.faults source.old) (S.faults source.new) }
    ensures write_fault { result ≡ Outcome.WriteFault → Rose (K.faults sink.old) (K.faults sink.new) }
    ensures source_faults { result ≢ Outcome.ReadFault → S.faults source.new ≡ S.faults source.old }
    ensures sink_faults { result ≢ Outcome.WriteFault → K.faults sink.new ≡ K.faults sink.old }
    ensures complete { IsGood Command.Replay (S.left source.old)
        → ¬ Rose (S.faults source.old) (S.faults source.new)
        → ¬ Rose (K.faults sink.old) (K.faults sink.new)
        → IsAnswered Command.Replay (S.left source.old) result }
{
    run(alloc, Command::Replay, source, sink)
}

/// Reads a script and a transcript behind it, and writes the verdict on the transcript. It first reads the whole input, then judges its
/// lines, then does the work, then writes the text.
pub fn check_text<S: Source, K: Sink>(alloc: Global, source: &mut S, sink: &mut K) -> Outcome
    ensures usage { result ≢ Outcome.Usage }
    ensures length { ReadsRightly (S.left source.old) (S.left source.new) result }
    ensures input { JudgesRightly Command.Check (S.left source.old) (S.left source.new) result }
    ensures output { WritesRightly Command.Check (S.left source.old) (K.holds sink.old) (K.holds sink.new) result }
    ensures silent { KeepsSilent (K.holds sink.old) (K.holds sink.new) result }
    ensures read_fault { result ≡ Outcome.ReadFault → Rose (S.faults source.old) (S.faults source.new) }
    ensures write_fault { result ≡ Outcome.WriteFault → Rose (K.faults sink.old) (K.faults sink.new) }
    ensures source_faults { result ≢ Outcome.ReadFault → S.faults source.new ≡ S.faults source.old }
    ensures sink_faults { result ≢ Outcome.WriteFault → K.faults sink.new ≡ K.faults sink.old }
    ensures complete { IsGood Command.Check (S.left source.old)
        → ¬ Rose (S.faults source.old) (S.faults source.new)
        → ¬ Rose (K.faults sink.old) (K.faults sink.new)
        → IsAnswered Command.Check (S.left source.old) result }
{
    run(alloc, Command::Check, source, sink)
}

/// All that the program does: the word `replay` alone replays a script, the word `run` alone runs its actors side by side on a running
/// board, the word `check` alone checks a transcript, `gen` with three numbers writes a generated script and `sum` with three numbers its
/// summary, and any other words are refused. `gen` and `sum` read nothing.
///
/// `run` tells the gate of each turn of each actor, and leaves the running board on the bench; no other word uses them. That `run`
/// returns is not promised.
pub fn irqboard<R: Threads + Wait + Sync, S: Source, K: Sink, G: Gate>(
    rt: &R,
    alloc: Global,
    words: &[Word],
    source: &mut S,
    sink: &mut K,
    gate: &G,
    bench: &mut Bench,
) -> Outcome
    ensures usage { (result ≡ Outcome.Usage) ↔ AreNone words.now }
    ensures length { ReadsRightly (S.left source.old) (S.left source.new) result }
    ensures input { IfSome (command_of words.now) (λ command.
        JudgesRightly command (S.left source.old) (S.left source.new) result) }
    ensures output { IfSome (command_of words.now) (λ command.
        WritesRightly command (S.left source.old) (K.holds sink.old) (K.holds sink.new) result) }
    ensures bench { IfSome (command_of words.now) (λ command.
        LeavesRun command bench.new.live (S.left source.old) (S.left source.new) (K.holds sink.old) (K.holds sink.new) result) }
    ensures made { IfSome (making_of words.now) (λ making.
        MakesRightly (IsMade making) (K.holds sink.old) (K.holds sink.new) result) }
    ensures unread { IfSome (making_of words.now) (λ _. S.left source.new ≡ S.left source.old) }
    ensures silent { KeepsSilent (K.holds sink.old) (K.holds sink.new) result }
    ensures read_fault { result ≡ Outcome.ReadFault → Rose (S.faults source.old) (S.faults source.new) }
    ensures write_fault { result ≡ Outcome.WriteFault → Rose (K.faults sink.old) (K.faults sink.new) }
    ensures source_faults { result ≢ Outcome.ReadFault → S.faults source.new ≡ S.faults source.old }
    ensures sink_faults { result ≢ Outcome.WriteFault → K.faults sink.new ≡ K.faults sink.old }
    ensures complete { IfSome (command_of words.now) (λ command. IsGood command (S.left source.old)
        → ¬ Rose (S.faults source.old) (S.faults source.new)
        → ¬ Rose (K.faults sink.old) (K.faults sink.new)
        → IsAnswered command (S.left source.old) result) }
{
    match command_of(words) {
        Some(Command::Replay) => replay(alloc, source, sink),
        Some(Command::Run) => run_text(rt, alloc, source, sink, gate, bench),
        Some(Command::Check) => check_text(alloc, source, sink),
        None => match making_of(words) {
            Some(making) => make_text(alloc, making, sink),
            None => Outcome::Usage,
        },
    }
}
