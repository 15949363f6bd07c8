//! What an actor asks next.
ghost use Rattle.std.specs.Prelude.{◌≡◌, ◌+◌, ◌<◌, ◌≤◌, ◌++◌, ◌∷◌, [], true, nat_lt, if◌then◌else◌, length, List, Some, None};
ghost use Rattle.irq_base.specs.declared.call.Caller.{Caller};
ghost use Rattle.irq_base.specs.declared.call.Call.TheVariants.{Ack, Eoi, PortOut};
ghost use Rattle.irq_base.specs.declared.reply.Reply.{Reply};
ghost use Rattle.irq_base.specs.declared.shape.Shape.{Shape};
ghost use Rattle.irq_base.specs.Callers.{is_allowed};
ghost use Rattle.script_text.specs.declared.progress.Phase.TheVariants.{Round};
ghost use Rattle.script_text.specs.declared.task.ActorLine.{ActorLine};
ghost use Rattle.script_text.specs.Asks.{Asks, next_call, answered, phase_after, rest_of_line, goes_on, left_at, tasks_of, actors_of, caller_at, HasFollowed};
ghost use Rattle.script_text.specs.Index.{IsCounted};
ghost use Rattle.script_text.specs.Scripts.{may_ask};

use crate::script::Script;
use crate::task::Task;
use irq_base::{Call, Reply};

/// Where a round of `serve` stands.
#[derive(Clone, Copy, Debug, PartialEq, Eq)]
pub enum Phase {
    /// Its acknowledge comes next.
    Round,
    /// The end of a local APIC's interrupt comes next.
    End,
    /// The ends of the 8259A pair's interrupt come next, to the slave and then to the master.
    Slave,
    /// The end to the master comes next.
    Master,
}

/// How far an actor has come: the number of its lines that are done, how often the next was done, and where a round stands.
#[derive(Clone, Copy, Debug, PartialEq, Eq)]
pub struct Progress {
    pub(crate) line: usize,
    pub(crate) done: u32,
    pub(crate) phase: Phase,
}

/// The calls of a round of `serve`, which no line spells.
#[derive(Drop)]
pub struct Served {
    ack: Call,
    eoi: Call,
    to_slave: Call,
    to_master: Call,
    ghost acks: { ack ≡ Ack },
    ghost ends: { eoi ≡ Eoi },
    ghost ends_slave: { to_slave ≡ PortOut 0xa0 1 0x20 },
    ghost ends_master: { to_master ≡ PortOut 0x20 1 0x20 },
}

impl Served {
    pub fn new() -> Served {
        Served {
            ack: Call::Ack,
            eoi: Call::Eoi,
            to_slave: Call::PortOut {
                port: 0xa0,
                len: 1,
                value: 0x20,
            },
            to_master: Call::PortOut {
                port: 0x20,
                len: 1,
                value: 0x20,
            },
        }
    }
}

// What a line asks next.
pub fn asked<'a>(served: &'a Served, task: &'a Task, done: u32, phase: Phase) -> &'a Call
    requires { IsCounted task.now }
    ensures next { (rest : Asks) → next_call (rest_of_line task.now done phase rest) ≡ Some result.now }
    ensures allowed { (who : Caller) (shape : Shape) → may_ask shape who task.now ≡ true → is_allowed who result.now shape ≡ true }
{
    match task {
        Task::Once(call) => call,
        Task::Repeat(_, call) => call,
        Task::Serve(_) => match phase {
            Phase::Round => &served.ack,
            Phase::End => &served.eoi,
            Phase::Slave => &served.to_slave,
            Phase::Master => &served.to_master,
        },
    }
}

// The next repetition, where the line has one.
fn once_more(done: u32, count: u32) -> Option<(u32, Phase)>
    ensures { result ≡ (if nat_lt (done + 1) count then Some (done + 1, Round) else None) }
{
    if done < count && done + 1 < count {
        Some((done + 1, Phase::Round))
    } else {
        None
    }
}

// Where a round goes on after the reply to its acknowledge; `None` where it is over.
fn phase_after(reply: &Reply) -> Option<Phase>
    ensures { result ≡ phase_after reply.now }
{
    match reply {
        Reply::Vector(_) => Some(Phase::End),
        Reply::Extint(_) => Some(Phase::Slave),
        _ => None,
    }
}

// Where a line stands after a reply, if it is not done.
fn replied(task: &Task, done: u32, phase: Phase, reply: &Reply) -> Option<(u32, Phase)>
    requires { IsCounted task.now }
    ensures { (rest : Asks) → goes_on task.now rest result ≡ answered (rest_of_line task.now done phase rest) reply.now }
{
    match task {
        Task::Once(_) => None,
        Task::Repeat(count, _) => once_more(done, *count),
        Task::Serve(count) => match phase {
            Phase::Round => match phase_after(reply) {
                Some(next) => Some((done, next)),
                None => once_more(done, *count),
            },
            Phase::Slave => Some((done, Phase::Master)),
            Phase::End => once_more(done, *count),
            Phase::Master => once_more(done, *count),
        },
    }
}

impl Progress {
    /// Nothing is done yet.
    pub fn start() -> Progress
        ensures { (who : Caller) (lines : List ActorLine) → HasFollowed who lines [] result }
    {
        Progress {
            line: 0,
            done: 0,
            phase: Phase::Round,
        }
    }

    // Follows a reply to the call that this actor asked next. Where there was none, it stays.
    fn follow(&mut self, script: &Script, actor: usize, reply: &Reply)
        requires { actor < length (actors_of script.now.lines) }
        ensures left { let tasks = tasks_of (caller_at script.now.lines actor) script.now.lines in
            left_at tasks self.new ≡ answered (left_at tasks self.old) reply.now }
        ensures followed { let who = caller_at script.now.lines actor in
            (replies : List Reply) → HasFollowed who script.now.lines replies self.old
            → HasFollowed who script.now.lines (replies ++ reply.now ∷ []) self.new }
    {
        if let Some(task) = script.task(actor, self.line) {
            match replied(task, self.done, self.phase, reply) {
                None => {
                    self.line += 1;
                    self.done = 0;
                    self.phase = Phase::Round;
                }
                Some((done, phase)) => {
                    self.done = done;
                    self.phase = phase;
                }
            }
        }
    }

    /// Follows a reply to the call that this actor of the script asked next. Where there was none, or no such actor, it stays.
    pub fn after(&mut self, script: &Script, actor: usize, reply: &Reply)
        ensures left { let tasks = tasks_of (caller_at script.now.lines actor) script.now.lines in
            actor < length (actors_of script.now.lines)
            → left_at tasks self.new ≡ answered (left_at tasks self.old) reply.now }
        ensures followed { let who = caller_at script.now.lines actor in
            (replies : List Reply) → actor < length (actors_of script.now.lines)
            → HasFollowed who script.now.lines replies self.old
            → HasFollowed who script.now.lines (replies ++ reply.now ∷ []) self.new }
        ensures stays { length (actors_of script.now.lines) ≤ actor → self.new ≡ self.old }
    {
        if actor < script.actors() {
            self.follow(script, actor, reply);
        }
    }
}
