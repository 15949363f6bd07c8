//! The words of a table: a call that is read, and what a board tells of it.
ghost use Rattle.std.specs.Prelude.{◌≡◌, true};
ghost use Rattle.irq_base.specs.Callers.{is_allowed};

use board_reach::Reach;
use board_step::{Board, Due};
use irq_base::{Call, Caller, Events, Part, Spent};
use script_text::{ActorLine, Script, Task, parse};
use std::alloc::{AllocError, Global};
use std::fmt::Write;
use transcript::{len_of, push_event, push_reply};

/// Whether a line stands for nothing.
pub fn is_passed_over(line: &str) -> bool {
    line.is_empty() || line.starts_with("#")
}

/// The script of these headers and this line, if it is one.
pub fn script_of(alloc: Global, headers: &str, line: &str) -> Result<Option<Script>, AllocError> {
    let text = format!(in alloc; "irqboard 1\n{headers}{line}\nend\n")?;
    let bytes = text.as_bytes();
    if bytes.len() >= 0xffff_ffff {
        return Ok(None);
    }
    match parse(alloc, bytes) {
        Ok(script) => Ok(Some(script)),
        Err(_) => Ok(None),
    }
}

/// The first call of a script, if it has one, with its caller.
pub fn first_call(script: &Script) -> Option<(Caller, &Call)> {
    if script.lines() == 0 {
        return None;
    }
    let ActorLine { caller, task } = script.line(0);
    match task {
        Task::Once(call) => Some((*caller, call)),
        _ => None,
    }
}

/// Asks a call, and writes the reply and the events behind it.
pub fn ask(
    board: &mut Board,
    caller: Caller,
    call: &Call,
    text: &mut String,
) -> Result<(), AllocError>
    requires { is_allowed caller call.now board.old.shape ≡ true }
{
    let mut events = Events::new();
    match board.apply(caller, call, &mut events) {
        Ok(done) => push_reply(text, len_of(call), done.reply)?,
        Err(Spent::Calls { at }) => write!(text, "spent calls {at}")?,
        Err(Spent::Publications { at }) => write!(text, "spent publications {at}")?,
    }
    for event in events.as_slice() {
        text.push_str("\n")?;
        push_event(text, *event)?;
    }
    Ok(())
}

/// Writes the parts that a call would reach.
pub fn tell_reach(
    board: &Board,
    caller: Caller,
    call: &Call,
    text: &mut String,
) -> Result<(), AllocError>
    requires { is_allowed caller call.now board.now.shape ≡ true }
{
    let parts = [
        (Part::Registry, " registry"),
        (Part::Counters, " counters"),
        (Part::Tick, " tick"),
        (Part::Pic, " pic"),
        (Part::Ioapic, " ioapic"),
    ];
    let before = text.len();
    for (part, name) in parts {
        if board.reach(caller, call, part) {
            text.push_str(name)?;
        }
    }
    for n in 0..board.shape().cpus {
        if board.reach(caller, call, Part::Lapic(n)) {
            write!(text, " lapic{n}")?;
        }
    }
    if text.len() == before {
        text.push_str(" nothing")?;
    }
    Ok(())
}

/// Writes what an acknowledge by the processor would give.
pub fn tell_due(board: &Board, caller: Caller, text: &mut String) -> Result<(), AllocError> {
    match caller {
        Caller::Cpu(n) if n < board.shape().cpus => match board.due(n) {
            Due::None => text.push_str(" nothing"),
            Due::Nmi => text.push_str(" nmi"),
            Due::Extint => text.push_str(" extint"),
            Due::Vector(vector) => write!(text, " vector {vector:02x}"),
        },
        _ => text.push_str(" no processor"),
    }
}
