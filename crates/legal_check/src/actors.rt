//! The actors of a script, and how far each has come.
ghost use Rattle.std.specs.Prelude.{◌≡◌, ◌<◌, ◌∷◌, ◌++◌, [], List, true, length, IfOk, IfSome, IfNone, None, Some};
ghost use Rattle.std.specs.Option.{option_copied};
ghost use Rattle.irq_base.specs.Callers.{is_allowed};
ghost use Rattle.irq_base.specs.declared.lists.Entry.{Entry as AnyEntry};
ghost use Rattle.script_text.specs.Asks.{caller_at};
ghost use Rattle.script_merging.specs.Merging.{next_of, IsAsked};
ghost use Rattle.legal_check.specs.Standing.{actors_in, progress_at, HaveFollowed};

use crate::same::{same_call, same_caller};
use irq_base::{Call, Caller, Entry, NoMemory, Reply};
use script_text::{Progress, Script};
use std::alloc::Global;

/// Nobody has asked anything yet.
pub fn started(alloc: Global, script: &Script) -> Result<Vec<Progress>, NoMemory>
    ensures { IfOk result (λ all. HaveFollowed script.now [] all.items) }
{
    let first = Progress::start();
    let mut all = Vec::new(alloc);
    for _actor in 0..script.actors() {
        if all.push(first).is_err() {
            return Err(NoMemory);
        }
    }
    Ok(all)
}

/// What an actor asks next.
pub fn next_of<'a>(script: &'a Script, all: &[Progress], actor: usize) -> Option<&'a Call>
    requires there { actor < actors_in script.now }
    requires as_many { length all.now ≡ actors_in script.now }
    ensures asks { (before : List AnyEntry) → HaveFollowed script.now before all.now
        → option_copied result ≡ next_of script.now before (caller_at script.now.lines actor) }
    ensures allowed { IfSome result (λ call. is_allowed (caller_at script.now.lines actor) call.now script.now.shape ≡ true) }
{
    script.next(actor, &all[actor])
}

// The actor of a caller, if it has lines.
fn actor_of(script: &Script, caller: Caller) -> Option<usize>
    ensures found { IfSome result (λ actor. actor < actors_in script.now × (caller_at script.now.lines actor ≡ caller)) }
    ensures none { IfNone result ((before : List AnyEntry) → next_of script.now before caller ≡ None) }
{
    for actor in 0..script.actors() {
        if same_caller(script.caller_of(actor), caller) {
            return Some(actor);
        }
    }
    None
}

/// The actor that asks this entry's call next, if one does.
pub fn asked(script: &Script, all: &[Progress], entry: &Entry) -> Option<usize>
    requires { length all.now ≡ actors_in script.now }
    ensures is { (before : List AnyEntry) → HaveFollowed script.now before all.now
        → IfSome result (λ _. IsAsked script.now before entry.now) }
    ensures not { (before : List AnyEntry) → HaveFollowed script.now before all.now
        → IfNone result (IsAsked script.now before entry.now → ⊥) }
    ensures found { IfSome result (λ actor. actor < actors_in script.now × (caller_at script.now.lines actor ≡ entry.now.caller)) }
    ensures allowed { IfSome result (λ _. is_allowed entry.now.caller entry.now.call script.now.shape ≡ true) }
{
    match actor_of(script, entry.caller) {
        None => None,
        Some(actor) => match next_of(script, all, actor) {
            None => None,
            Some(call) => {
                if same_call(call, &entry.call) {
                    Some(actor)
                } else {
                    None
                }
            }
        },
    }
}

// How far an actor has come.
fn progress_of(all: &[Progress], actor: usize) -> Progress
    requires { actor < length all.now }
    ensures { result ≡ progress_at all.now actor }
{
    all[actor]
}

/// The actor follows the reply to its call.
pub fn follow(script: &Script, all: &mut [Progress], actor: usize, reply: &Reply)
    requires there { actor < actors_in script.now }
    requires as_many { length all.old ≡ actors_in script.now }
    ensures { (before : List AnyEntry) (e : AnyEntry) → HaveFollowed script.now before all.old
        → caller_at script.now.lines actor ≡ e.caller → e.reply ≡ reply.now → HaveFollowed script.now (before ++ e ∷ []) all.new }
{
    let mut next = progress_of(all, actor);
    next.after(script, actor, reply);
    all[actor] = next;
}
