//! A script, whole.
ghost use Rattle.std.specs.Prelude.{◌≡◌, ◌+◌, ◌-◌, ◌<◌, ◌^◌, true, List, [], ◌∷◌, drop, length, option_copied, IfOk, IfSome, MatchOption, slice_get, Some, None};
ghost use Rattle.irq_base.specs.Callers.{is_allowed};
ghost use Rattle.script_text.specs.Scripts.{script_of, at_end, may_ask};
ghost use Rattle.script_text.specs.Asks.{actors_of, caller_at, tasks_of, next_call, left_at, next_ask, HasFollowed};
ghost use Rattle.script_text.specs.Draft.{script_in, IsIndexedDraft};
ghost use Rattle.script_text.specs.Index.{IsCounted};
ghost use Rattle.script_text.specs.Faults.{Tells};
ghost use Rattle.script_text.specs.Answers.{Reads};
ghost use Rattle.script_text.specs.Fitting.{IsScript, IsHeader};
ghost use Rattle.irq_base.specs.declared.reply.Reply.{Reply};

use crate::causes::LineFault;
use crate::draft::{Draft, blank};
use crate::judging::{Place, judge};
use crate::progress::{Progress, Served, asked};
use crate::task::{ActorLine, Task};
use crate::words::cut;
use irq_base::{Call, Caller, LineCause, Shape};
use std::alloc::Global;
use std::marker::Model;

/// Why bytes are not read as a script.
#[derive(Clone, Copy, Debug, PartialEq, Eq)]
pub enum ScriptFault {
    /// The first bad line, from 1, and the first cause that fits it.
    BadLine { line: u32, cause: LineCause },
    NoMemory,
}

/// A script: the board that it wants, the lines of its actors, and what each of them asks next.
#[derive(Drop)]
pub struct Script {
    draft: Draft,
    served: Served,
}

impl Model for Script {
    ghost use Rattle.script_text.specs.Scripts.{Script as Lines};
    ghost use Rattle.script_text.specs.Draft.{script_in, IsKeptDraft};

    ghost Value = { Lines };

    ghost view = { λ a. script_in a.draft };

    ghost invariant = { λ a. IsKeptDraft a.draft };
}

// The place behind the lines, where the text ends.
fn at_end(draft: Draft, place: Place, number: u32, is_whole: bool) -> Result<Draft, ScriptFault>
    ensures value { Tells result (at_end place (script_in draft) number is_whole) }
    ensures index { IfOk result (λ d. IsIndexedDraft draft → IsIndexedDraft d) }
{
    if !is_whole {
        return Err(ScriptFault::BadLine {
            line: number,
            cause: LineCause::Cut,
        });
    }
    match place {
        Place::Over => Ok(draft),
        _ => Err(ScriptFault::BadLine {
            line: number,
            cause: LineCause::End,
        }),
    }
}

// The lines of a text, one after another.
#[tactic(auto, using(crate::proofs::Readings::read_rules))]
fn draft_of(alloc: Global, bytes: &[u8]) -> Result<Draft, ScriptFault>
    requires { length bytes.now < 2 ^ 32 - 1 }
    ensures value { Tells result (script_of bytes.now) }
    ensures index { IfOk result IsIndexedDraft }
{
    let mut draft = blank(alloc);
    let mut place = Place::Version;
    let mut rest = bytes;
    let mut number = 1;
    while let Some((line, behind)) = cut(rest, b'\n') {
        match judge(alloc, place, &mut draft, line) {
            Ok(next) => place = next,
            Err(fault) => match fault {
                LineFault::Bad(cause) => return Err(ScriptFault::BadLine {
                    line: number,
                    cause,
                }),
                LineFault::NoMemory => return Err(ScriptFault::NoMemory),
            },
        }
        rest = behind;
        number += 1;
    }
    at_end(draft, place, number, rest.is_empty())
}

/// The script that these bytes are. Otherwise the first bad line, counted from 1, with the first cause that fits it.
pub fn parse(alloc: Global, bytes: &[u8]) -> Result<Script, ScriptFault>
    requires { length bytes.now < 2 ^ 32 - 1 }
    ensures read { Reads result (script_of bytes.now) }
    ensures fits { IfOk result IsScript }
{
    match draft_of(alloc, bytes) {
        Ok(draft) => Ok(Script {
            draft,
            served: Served::new(),
        }),
        Err(fault) => Err(fault),
    }
}

impl Script {
    /// The board that the script wants.
    pub fn shape(&self) -> Shape
        ensures value { result ≡ self.now.shape }
        ensures ranges { IsHeader result }
    {
        self.draft.shape
    }

    /// How many actors it has.
    pub fn actors(&self) -> usize
        ensures { result ≡ length (actors_of self.now.lines) }
    {
        self.draft.actors.as_slice().len()
    }

    /// Who an actor is; actors are numbered from 0 by their first lines.
    pub fn caller_of(&self, actor: usize) -> Caller
        requires { actor < length (actors_of self.now.lines) }
        ensures { result ≡ caller_at self.now.lines actor }
    {
        self.draft.actors.as_slice()[actor]
    }

    /// How many actor lines it has.
    pub fn lines(&self) -> usize
        ensures { result ≡ length self.now.lines }
    {
        self.draft.lines.as_slice().len()
    }

    /// The k-th actor line, from 0, in the order of the file.
    pub fn line(&self, k: usize) -> &ActorLine
        requires { k < length self.now.lines }
        ensures { slice_get self.now.lines k ≡ Some result.now }
    {
        &self.draft.lines.as_slice()[k]
    }

    // What the k-th line of an actor asks, from 0.
    pub fn task(&self, actor: usize, k: usize) -> Option<&Task>
        requires { actor < length (actors_of self.now.lines) }
        ensures at { let tasks = tasks_of (caller_at self.now.lines actor) self.now.lines in
            MatchOption result (drop k tasks ≡ []) (λ t. drop k tasks ≡ t.now ∷ drop (k + 1) tasks) }
        ensures counted { IfSome result (λ t. IsCounted t.now) }
        ensures below { IfSome result (λ _. k + 1 < 2 ^ 64) }
        ensures may { let who = caller_at self.now.lines actor in
            IfSome result (λ t. may_ask self.now.shape who t.now ≡ true) }
    {
        self.draft.task(self.caller_of(actor), k)
    }

    /// What an actor asks next, where the progress followed its replies; `None` where it asks nothing more. The actor is there on
    /// the board that the script wants, and may ask it.
    pub fn next<'a>(&'a self, actor: usize, progress: &Progress) -> Option<&'a Call>
        requires { actor < length (actors_of self.now.lines) }
        ensures left { let tasks = tasks_of (caller_at self.now.lines actor) self.now.lines in
            option_copied result ≡ next_call (left_at tasks progress.now) }
        ensures followed { let who = caller_at self.now.lines actor in
            (replies : List Reply) → HasFollowed who self.now.lines replies progress.now
            → option_copied result ≡ next_ask who self.now.lines replies }
        ensures allowed { let who = caller_at self.now.lines actor in
            IfSome result (λ call. is_allowed who call.now self.now.shape ≡ true) }
    {
        match self.task(actor, progress.line) {
            None => None,
            Some(task) => Some(asked(&self.served, task, progress.done, progress.phase)),
        }
    }
}
