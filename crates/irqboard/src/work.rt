//! The work of a command on an input that was read.
ghost use Rattle.std.specs.Prelude.{◌≡◌, ◌≢◌, ◌≤◌, length, IfOk, IfErr};
ghost use Rattle.irqboard.specs.Works.{Works, flaw_text, verdict_text};
ghost use Rattle.irqboard.specs.Done.{answer_of_replay, answer_of_check, HasFault};

use crate::command::Command;
use crate::outcome::Outcome;
use crate::parting::parted;
use crate::reading::LIMIT;
use board_laws::legal_histories_keep_the_laws;
use irq_base::{Bytes, Spent};
use legal_check::{Flaw, Verdict, check};
use replaying::Run;
use script_text::{ScriptFault, parse};
use std::alloc::{AllocError, Global};
use std::fmt::Write;
use transcript::{Transcript, print, read};

/// Work that was done: what is answered once its whole text is written, and that text.
#[derive(Drop)]
pub struct Work {
    pub outcome: Outcome,
    pub text: Bytes,
}

/// How a replay or a run ends whose whole text was written.
pub fn answer_of_replay(spent: Option<Spent>) -> Outcome
    ensures { result ≡ answer_of_replay spent }
{
    match spent {
        None => Outcome::Fine,
        Some(spent) => Outcome::Spent { spent },
    }
}

// How a check ends whose whole text was written.
fn answer_of_check(verdict: Verdict) -> Outcome
    ensures { result ≡ answer_of_check verdict }
{
    match verdict {
        Verdict::Legal => Outcome::Fine,
        Verdict::NotAt { at, cause } => Outcome::NotLegal { at, cause },
    }
}

// The word of a flaw.
fn word_of(flaw: Flaw) -> &'static str
    ensures { result.now ≡ flaw_text flaw }
{
    match flaw {
        Flaw::Asked => "asked",
        Flaw::Reply => "reply",
        Flaw::Ending => "ending",
    }
}

// The line of a verdict.
fn line_of(alloc: Global, verdict: Verdict) -> Result<Bytes, AllocError>
    ensures { IfOk result (λ text. text ≡ verdict_text verdict) }
{
    let mut text = String::new(alloc);
    match verdict {
        Verdict::Legal => text.push_str("legal\n")?,
        Verdict::NotAt { at, cause } => {
            let word = word_of(cause);
            write!(text, "not legal at {at}: {word}\n")?;
        }
    }
    Ok(Bytes::of(text.into_bytes()))
}

// The replay of a script.
fn replayed(alloc: Global, input: &[u8]) -> Result<Work, ScriptFault>
    requires { length input.now ≤ LIMIT }
    ensures done { IfOk result (λ work. Works Command.Replay input.now work.outcome work.text) }
    ensures fault { IfErr result (HasFault Command.Replay input.now) }
{
    legal_histories_keep_the_laws();
    let script = match parse(alloc, input) {
        Ok(script) => script,
        Err(fault) => return Err(fault),
    };
    let Ok(Run { history, spent }) = replaying::replay(alloc, &script) else {
        return Err(ScriptFault::NoMemory);
    };
    let run = Transcript {
        history,
        spent: spent.is_some(),
    };
    match print(alloc, &run) {
        Ok(text) => Ok(Work {
            outcome: answer_of_replay(spent),
            text,
        }),
        Err(_) => Err(ScriptFault::NoMemory),
    }
}

// The verdict on a transcript behind its script.
fn checked(alloc: Global, input: &[u8]) -> Result<Work, ScriptFault>
    requires { length input.now ≤ LIMIT }
    ensures done { IfOk result (λ work. Works Command.Check input.now work.outcome work.text) }
    ensures fault { IfErr result (HasFault Command.Check input.now) }
{
    let (script, transcript, line) = parted(input);
    let script = match parse(alloc, script) {
        Ok(script) => script,
        Err(fault) => return Err(fault),
    };
    let run = match read(alloc, transcript, line) {
        Ok(run) => run,
        Err(fault) => return Err(fault),
    };
    let Ok(verdict) = check(alloc, &script, &run) else {
        return Err(ScriptFault::NoMemory);
    };
    match line_of(alloc, verdict) {
        Ok(text) => Ok(Work {
            outcome: answer_of_check(verdict),
            text,
        }),
        Err(_) => Err(ScriptFault::NoMemory),
    }
}

/// The work of `replay` or `check` on an input: its answer and its text, or the first bad line of the input.
pub fn work_of(alloc: Global, command: Command, input: &[u8]) -> Result<Work, ScriptFault>
    requires length { length input.now ≤ LIMIT }
    requires one_thread { command ≢ Command.Run }
    ensures done { IfOk result (λ work. Works command input.now work.outcome work.text) }
    ensures fault { IfErr result (HasFault command input.now) }
{
    match command {
        Command::Replay => replayed(alloc, input),
        Command::Run => unreachable!(),
        Command::Check => checked(alloc, input),
    }
}
