//! A run of the program: its words, its work, its line on standard error and its exit status.
ghost use Rattle.std.specs.Prelude.{◌≡◌, ◌≢◌, IfOk, IfSome};
ghost use Rattle.std.specs.Io.KnownBytes.{Appends};
ghost use Rattle.io_edge.specs.Faults.{Rose};
ghost use Rattle.irqboard.specs.Commands.{command_of};
ghost use Rattle.irqboard.specs.Answers.{status_of, said_of, ReadsRightly, JudgesRightly, WritesRightly, KeepsSilent, IsGood, IsAnswered};
ghost use Rattle.irqboard.specs.Benches.{LeavesRun};
ghost use Rattle.irqboard.specs.Making.{making_of, IsMade, MakesRightly};
ghost use Rattle.irqboard.specs.Output.{AppendsFront};
ghost use Rattle.irqboard.specs.Words.{words_in, KnowsWords};
ghost use Rattle.std.specs.Process.{exit_status};

use crate::bench::Bench;
use crate::outcome::Outcome;
use crate::top::irqboard;
use crate::words::{without_words, words_of};
use crate::writing::write_whole;
use io_edge::{Gate, Sink, Source};
use std::alloc::Global;
use std::env::Args;
use std::io;
use std::marker::Model;
use std::process::{ExitCode, Termination};
use std::sync::Wait;
use std::thread::Threads;

/// What a run came to, before it is said. Only `asked` makes one, and it cannot be let go: only `said` takes it.
pub struct Answered {
    outcome: Outcome,
}

impl Model for Answered {
    ghost use Rattle.irqboard.specs.declared.outcome.Outcome.{Outcome};

    ghost Value = { Outcome };

    ghost view = { λ a. a.outcome };
}

/// A run whose line was said. Only `said` makes one, and it cannot be let go: a `main` that asked has to give it back, and ends with
/// the outcome's status.
pub struct Ended {
    outcome: Outcome,
}

impl Model for Ended {
    ghost use Rattle.irqboard.specs.declared.outcome.Outcome.{Outcome};

    ghost Value = { Outcome };

    ghost view = { λ e. e.outcome };
}

/// Asks the top call for the words of a command line, whose first text is the program's name. Where the texts are not to be had,
/// nothing is written, and the answer is by what kept them away. That it returns is not promised for the word `run`.
pub fn asked<R: Threads + Wait + Sync, S: Source, K: Sink, G: Gate>(
    rt: &R,
    alloc: Global,
    texts: io::Result<Args>,
    source: &mut S,
    sink: &mut K,
    gate: &G,
    bench: &mut Bench,
) -> Answered
    ensures usage { KnowsWords texts result }
    ensures length { ReadsRightly (S.left source.old) (S.left source.new) result }
    ensures input { IfOk texts (λ t. IfSome (command_of (words_in t)) (λ command.
        JudgesRightly command (S.left source.old) (S.left source.new) result)) }
    ensures output { IfOk texts (λ t. IfSome (command_of (words_in t)) (λ command.
        WritesRightly command (S.left source.old) (K.holds sink.old) (K.holds sink.new) result)) }
    ensures bench { IfOk texts (λ t. IfSome (command_of (words_in t)) (λ command.
        LeavesRun command bench.new.live (S.left source.old) (S.left source.new) (K.holds sink.old) (K.holds sink.new) result)) }
    ensures made { IfOk texts (λ t. IfSome (making_of (words_in t)) (λ making.
        MakesRightly (IsMade making) (K.holds sink.old) (K.holds sink.new) result)) }
    ensures unread { IfOk texts (λ t. IfSome (making_of (words_in t)) (λ _. S.left source.new ≡ S.left source.old)) }
    ensures silent { KeepsSilent (K.holds sink.old) (K.holds sink.new) result }
    ensures read_fault { result ≡ Outcome.ReadFault → Rose (S.faults source.old) (S.faults source.new) }
    ensures write_fault { result ≡ Outcome.WriteFault → Rose (K.faults sink.old) (K.faults sink.new) }
    ensures source_faults { result ≢ Outcome.ReadFault → S.faults source.new ≡ S.faults source.old }
    ensures sink_faults { result ≢ Outcome.WriteFault → K.faults sink.new ≡ K.faults sink.old }
    ensures complete { IfOk texts (λ t. IfSome (command_of (words_in t)) (λ command. IsGood command (S.left source.old)
        → ¬ Rose (S.faults source.old) (S.faults source.new)
        → ¬ Rose (K.faults sink.old) (K.faults sink.new)
        → IsAnswered command (S.left source.old) result)) }
{
    let texts = match texts {
        Ok(texts) => texts,
        Err(error) => {
            return Answered {
                outcome: without_words(&error),
            };
        }
    };
    let Ok(words) = words_of(alloc, texts) else {
        return Answered {
            outcome: Outcome::NoMemory,
        };
    };
    Answered {
        outcome: irqboard(rt, alloc, words.as_slice(), source, sink, gate, bench),
    }
}

impl Answered {
    /// Says the outcome's line on standard error. A fault of standard error changes nothing of the outcome; a front of the line is
    /// then written.
    pub fn said<E: Sink>(self, errors: &mut E) -> Ended
        ensures outcome { result ≡ self }
        ensures line { ¬ Rose (E.faults errors.old) (E.faults errors.new)
            → Appends (E.holds errors.old) (E.holds errors.new) (said_of self) }
        ensures front { AppendsFront (E.holds errors.old) (E.holds errors.new) (said_of self) }
    {
        let Answered { outcome } = self;
        let line = outcome.said();
        let _ = write_whole(errors, line.as_str().as_bytes());
        Ended { outcome }
    }
}

impl Termination for Ended {
    /// The exit status is the outcome's.
    fn report<R: Eprint>(self, _rt: &R) -> ExitCode
        ensures { exit_status result ≡ status_of self }
    {
        let Ended { outcome } = self;
        ExitCode::from(outcome.status())
    }
}
