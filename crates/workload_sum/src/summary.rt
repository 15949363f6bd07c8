//! A generated script made, read, replayed and counted.
ghost use Rattle.std.specs.Prelude.{◌≡◌, [], IfOk};
ghost use Rattle.std.specs.String.{string_bytes};
ghost use Rattle.replaying.specs.Replays.{Replays};
ghost use Rattle.workload_gen.specs.Workload.{workload};
ghost use Rattle.workload_gen.specs.Laws.{IsInRange};
ghost use Rattle.workload_sum.specs.Counts.{summary_text};
ghost use Rattle.workload_sum.specs.Summary.{IsSummary};

use crate::counting::push_summary;
use irq_base::{Bytes, History, NoMemory};
use replaying::{replay, replays_are_one};
use script_text::{Script, ScriptFault, parse};
use std::alloc::{AllocError, Global};
use workload_gen::{generate, workloads_are_read};

// The script of three numbers, read from its text.
fn script(alloc: Global, start: u64, lines: u32, cpus: u16) -> Result<Script, NoMemory>
    requires { IsInRange lines cpus }
    ensures { IfOk result (λ script. script ≡ workload start lines cpus) }
{
    workloads_are_read();
    let text = generate(alloc, start, lines, cpus)?;
    match parse(alloc, text.as_slice()) {
        Ok(script) => Ok(script),
        Err(ScriptFault::NoMemory) => Err(NoMemory),
        Err(ScriptFault::BadLine { .. }) => unreachable!(),
    }
}

// A history's eight lines.
fn lines_of(alloc: Global, history: &History) -> Result<String, AllocError>
    ensures { IfOk result (λ text. string_bytes text ≡ summary_text history.now) }
{
    let mut text = String::new(alloc);
    push_summary(&mut text, history)?;
    Ok(text)
}

/// Replays the script of three numbers, and counts what is replied: the eight lines of its summary, a function of these numbers, which
/// are where the draws start, how many lines are drawn (at most 400,000), and how many processors there are (1 to `MAX_CPUS`).
pub fn sum(alloc: Global, start: u64, lines: u32, cpus: u16) -> Result<Bytes, NoMemory>
    requires { IsInRange lines cpus }
    ensures { IfOk result (λ bytes. IsSummary start lines cpus bytes) }
{
    replays_are_one();
    let script = script(alloc, start, lines, cpus)?;
    let run = replay(alloc, &script)?;
    match lines_of(alloc, &run.history) {
        Ok(text) => Ok(Bytes::of(text.into_bytes())),
        Err(_) => Err(NoMemory),
    }
}
