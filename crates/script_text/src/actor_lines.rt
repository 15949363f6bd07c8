//! Actor lines: who asks, and what.
ghost use Rattle.std.specs.Prelude.{◌≡◌, ◌<◌, ◌∷◌, Ok, Err, IfOk};
ghost use Rattle.std.specs.List.{list_all};
ghost use Rattle.script_text.specs.Words.{words_of, more_words};
ghost use Rattle.script_text.specs.Causes.{Says};
ghost use Rattle.script_text.specs.Commands.{one_field};
ghost use Rattle.script_text.specs.declared.task.Task.TheVariants.{Serve};
ghost use Rattle.script_text.specs.Scripts.{is_digit, caller, times_of, repeated, task, may_ask, if_allowed, actor_line};
ghost use Rattle.script_text.specs.Index.{IsCounted};

use crate::causes::{LineFault, both_in_memory, or_bad};
use crate::commands::command;
use crate::numbers::{decimal_in, number16};
use crate::task::{ActorLine, Task};
use crate::words::{next_word, one_word};
use irq_base::{Call, Caller, LineCause, Shape};
use std::alloc::Global;

fn is_digits(word: &[u8]) -> bool
    ensures { result ≡ list_all is_digit word.now }
{
    word.iter().all(|b| 48 <= *b && *b <= 57)
}

/// The actor that has this name: `cpu` or `dev` and a number of 16 bits.
pub fn caller(word: &[u8]) -> Result<Caller, LineCause>
    ensures { result ≡ caller word.now }
{
    if word.len() < 4 {
        return Err(LineCause::Word);
    }
    let (kind, number) = word.split_at(3);
    if !is_digits(number) {
        return Err(LineCause::Word);
    }
    if kind == b"cpu".as_slice() {
        match number16(number) {
            Ok(n) => Ok(Caller::Cpu(n)),
            Err(cause) => Err(cause),
        }
    } else if kind == b"dev".as_slice() {
        match number16(number) {
            Ok(n) => Ok(Caller::Device(n)),
            Err(cause) => Err(cause),
        }
    } else {
        Err(LineCause::Word)
    }
}

// How often.
fn times_of(word: &[u8]) -> Result<u32, LineCause>
    ensures value { result ≡ times_of word.now }
    ensures some { IfOk result (λ n. 0 < n) }
{
    match decimal_in(1, 1_000_000, word) {
        Ok(n) => Ok(n as u32),
        Err(cause) => Err(cause),
    }
}

// `repeat N COMMAND`
fn repeated(alloc: Global, tail: &[u8]) -> Result<Task, LineFault>
    ensures value { Says result (repeated (more_words tail.now)) }
    ensures counted { IfOk result IsCounted }
{
    let Some((count, tail)) = next_word(tail) else {
        return Err(LineFault::Bad(LineCause::Word));
    };
    let Some((name, tail)) = next_word(tail) else {
        return Err(LineFault::Bad(LineCause::Word));
    };
    let call = command(alloc, name, tail);
    match both_in_memory(times_of(count), call) {
        Ok((count, call)) => Ok(Task::Repeat(count, call)),
        Err(fault) => Err(fault),
    }
}

// `serve N`
fn served(tail: &[u8]) -> Result<Task, LineCause>
    ensures value { result ≡ one_field (λ n. Serve n) times_of (more_words tail.now) }
    ensures counted { IfOk result IsCounted }
{
    let Some(count) = one_word(tail) else {
        return Err(LineCause::Count);
    };
    match times_of(count) {
        Ok(count) => Ok(Task::Serve(count)),
        Err(cause) => Err(cause),
    }
}

// What a line asks.
fn task(alloc: Global, name: &[u8], tail: &[u8]) -> Result<Task, LineFault>
    ensures value { Says result (task name.now (more_words tail.now)) }
    ensures counted { IfOk result IsCounted }
{
    if name == b"repeat".as_slice() {
        repeated(alloc, tail)
    } else if name == b"serve".as_slice() {
        or_bad(served(tail))
    } else {
        match command(alloc, name, tail) {
            Ok(call) => Ok(Task::Once(call)),
            Err(fault) => Err(fault),
        }
    }
}

// Whether the actor is there and may ask this.
fn may_ask(shape: &Shape, who: Caller, task: &Task) -> bool
    ensures { result ≡ may_ask shape.now who task.now }
{
    match task {
        Task::Once(call) => call.allowed(who, shape),
        Task::Repeat(_, call) => call.allowed(who, shape),
        Task::Serve(_) => {
            let ack = Call::Ack;
            ack.allowed(who, shape)
        }
    }
}

// The actor line of a name and the words behind it.
pub fn actor_line(
    alloc: Global,
    shape: &Shape,
    who: &[u8],
    tail: &[u8],
) -> Result<ActorLine, LineFault>
    ensures value { Says result (actor_line shape.now (who.now ∷ more_words tail.now)) }
    ensures counted { IfOk result (λ line. IsCounted line.task) }
{
    let Some((name, tail)) = next_word(tail) else {
        return Err(LineFault::Bad(LineCause::Word));
    };
    let task = task(alloc, name, tail);
    match both_in_memory(caller(who), task) {
        Ok((caller, task)) => {
            if may_ask(shape, caller, &task) {
                Ok(ActorLine { caller, task })
            } else {
                Err(LineFault::Bad(LineCause::Actor))
            }
        }
        Err(fault) => Err(fault),
    }
}
