//! Generated scripts as texts.
ghost use Rattle.std.specs.Prelude.{◌≡◌, [], ◌∷◌, ◌++◌, ◌≤◌, OnOk, IfOk, Ok, map};
ghost use Rattle.std.specs.String.{string_bytes};
ghost use Rattle.script_text.specs.Spelling.{with_feeds, joined};
ghost use Rattle.workload_gen.specs.Workload.{asks, each_below, enable, set_up, trigger, drawn_line};
ghost use Rattle.workload_gen.specs.Laws.{IsInRange};
ghost use Rattle.workload_gen.specs.Text.{header_words, lines_text, workload_text};
ghost use Rattle.irq_bits.specs.declared.limits.TheConstants.{MAX_CPUS};

use crate::drawing::{actor, drawn};
use crate::setting_up::rerouting;
use irq_base::{Bytes, Call, Caller, NoMemory};
use rand_pcg::Pcg32;
use script_text::push_call;
use std::alloc::{AllocError, Global};
use std::fmt::Write;

// Puts a line, with its line feed, at the end.
#[tactic(auto, using(crate::proofs::Below::one_rules))]
fn push_line(text: &mut String, caller: Caller, call: &Call) -> Result<(), AllocError>
    ensures { OnOk result (string_bytes text.new ≡ string_bytes text.old ++ lines_text (asks caller call.now ∷ [])) }
{
    write!(text, "{caller}")?;
    push_call(text, call)?;
    text.push_str("\n")
}

// Puts the lines by which the processors enable their local APICs at the end.
#[tactic(auto, using(crate::proofs::Below::line_rules))]
fn push_enables(text: &mut String, cpus: u16) -> Result<(), AllocError>
    ensures { OnOk result (string_bytes text.new ≡ string_bytes text.old ++ lines_text (each_below enable cpus)) }
{
    'cpus: for n in 0..cpus {
        let call = Call::Store {
            address: 0xfee0_00f0,
            len: 4,
            value: 0x1ff,
        };
        push_line(text, Caller::Cpu(n), &call)?;
    }
    Ok(())
}

// Puts the lines by which the eight GSIs get their triggers at the end.
#[tactic(auto, using(crate::proofs::Below::line_rules))]
fn push_triggers(text: &mut String) -> Result<(), AllocError>
    ensures { OnOk result (string_bytes text.new ≡ string_bytes text.old ++ lines_text (each_below trigger 8)) }
{
    'gsis: for j in 0..8 {
        let call = Call::Assign {
            trigger: j,
            gsi: 24 + j,
            resample: None,
        };
        push_line(text, Caller::Device(0), &call)?;
    }
    Ok(())
}

// Puts the lines that set up at the end.
#[tactic(auto, using(crate::proofs::Below::text_rules))]
fn push_set_up(alloc: Global, text: &mut String, cpus: u16) -> Result<(), NoMemory>
    requires some { 1 ≤ cpus }
    ensures { OnOk result (string_bytes text.new ≡ string_bytes text.old ++ lines_text (set_up cpus)) }
{
    let call = rerouting(alloc, cpus, 0)?;
    or_no_memory(push_enables(text, cpus))?;
    or_no_memory(push_line(text, Caller::Device(0), &call))?;
    or_no_memory(push_triggers(text))
}

// Puts the drawn lines at the end.
#[tactic(auto, using(crate::proofs::Below::drawn_rules))]
fn push_drawn(
    alloc: Global,
    text: &mut String,
    start: u64,
    lines: u32,
    cpus: u16,
) -> Result<(), NoMemory>
    requires lines { lines ≤ 400000 }
    requires some { 1 ≤ cpus }
    requires few { cpus ≤ MAX_CPUS }
    ensures { OnOk result (string_bytes text.new ≡ string_bytes text.old ++ lines_text (each_below (drawn_line start cpus) lines)) }
{
    let mut draws = Pcg32::new(start, 54);
    'lines: for k in 0..lines {
        let call = drawn(alloc, &mut draws, cpus, k)?;
        or_no_memory(push_line(text, actor(cpus, k), &call))?;
    }
    Ok(())
}

// A refused growth of a text is want of memory.
fn or_no_memory(pushed: Result<(), AllocError>) -> Result<(), NoMemory>
    ensures { OnOk result (pushed ≡ Ok tt) }
{
    match pushed {
        Ok(()) => Ok(()),
        Err(_) => Err(NoMemory),
    }
}

// The header.
fn header(alloc: Global, cpus: u16) -> Result<String, AllocError>
    ensures { IfOk result (λ text. string_bytes text ≡ with_feeds (map joined (header_words cpus))) }
{
    let mut text = String::new(alloc);
    write!(
        text,
        "irqboard 1\ncpus {cpus}\ncounters 16\ncalls 2000000\n"
    )?;
    Ok(text)
}

/// The text of the script of three numbers: where the draws start, how many lines are drawn (at most 400,000), and how many
/// processors there are (1 to `MAX_CPUS`).
#[tactic(auto, using(crate::proofs::Below::whole_rules))]
pub fn generate(alloc: Global, start: u64, lines: u32, cpus: u16) -> Result<Bytes, NoMemory>
    requires { IsInRange lines cpus }
    ensures { IfOk result (λ bytes. bytes ≡ workload_text start lines cpus) }
{
    let Ok(mut text) = header(alloc, cpus) else {
        return Err(NoMemory);
    };
    push_set_up(alloc, &mut text, cpus)?;
    push_drawn(alloc, &mut text, start, lines, cpus)?;
    or_no_memory(text.push_str("end\n"))?;
    Ok(Bytes::of(text.into_bytes()))
}
