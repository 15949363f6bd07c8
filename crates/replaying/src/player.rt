//! Calls asked of a board, and their entries.
ghost use Rattle.std.specs.Prelude.{◌≡◌, [], ◌∷◌, ◌++◌, true, IfOk};
ghost use Rattle.irq_base.specs.Callers.{is_allowed};
ghost use Rattle.irq_base.specs.declared.call.Call.TheVariants as calls;
ghost use Rattle.script_text.specs.Asks.{Asks, ask, no_more, once, times, rounds, to_slave, after_ack, line_asks};
ghost use Rattle.script_text.specs.Scripts.{may_ask};
ghost use Rattle.script_text.specs.Fitting.{IsHeader};
ghost use Rattle.board_step.specs.Bodies.{entry_of};
ghost use Rattle.board_step.specs.History.{opening};
ghost use Rattle.replaying.specs.Played.{Answered, Played};

use board_step::{Board, OpenError};
use entry_copies::copied_entry;
use irq_base::{Call, Caller, Event, Events, History, NoMemory, Reply, Shape, Spent};
use script_text::{ActorLine, Task};
use std::alloc::Global;

/// A board, the entries of its calls, and room for the events of one.
#[derive(Drop)]
pub struct Player {
    pub board: Board,
    pub history: History,
    events: Events,
}

// The end of the interrupt of an 8259A.
fn end_at(port: u16) -> Call
    ensures { result ≡ calls.PortOut port 1 0x20 }
{
    Call::PortOut {
        port,
        len: 1,
        value: 0x20,
    }
}

// Puts the entry of a call that was answered behind the others.
fn keep(
    history: &mut History,
    alloc: Global,
    caller: Caller,
    call: &Call,
    reply: Reply,
    events: &[Event],
) -> Result<(), NoMemory>
    ensures { IfOk result (λ _. history.new ≡ history.old ++ entry_of caller call.now reply events.now ∷ []) }
{
    let entry = copied_entry(alloc, caller, call, reply, events)?;
    history.push(entry)
}

impl Player {
    /// A board at power-on, of which nothing was asked.
    pub fn power_on(alloc: Global, shape: &Shape) -> Result<Player, NoMemory>
        requires { IsHeader shape.now }
        ensures board { IfOk result (λ player. player.board ≡ opening shape.now) }
        ensures history { IfOk result (λ player. player.history ≡ []) }
    {
        match Board::power_on(alloc, shape) {
            Ok(board) => Ok(Player {
                board,
                history: History::empty(alloc),
                events: Events::new(),
            }),
            Err(OpenError::NoMemory) => Err(NoMemory),
            Err(OpenError::BadShape) => unreachable!(),
        }
    }

    // Asks a call of the board. Where it is answered, its entry stands behind the others.
    fn ask(
        &mut self,
        alloc: Global,
        caller: Caller,
        call: &Call,
    ) -> Result<Result<Reply, Spent>, NoMemory>
        requires { is_allowed caller call.now self.old.board.shape ≡ true }
        ensures shape { self.new.board.shape ≡ self.old.board.shape }
        ensures answered { IfOk result (λ answer.
            Answered caller call.now self.old.board self.old.history answer self.new.board self.new.history) }
    {
        match self.board.apply(caller, call, &mut self.events) {
            Err(spent) => Ok(Err(spent)),
            Ok(done) => {
                keep(
                    &mut self.history,
                    alloc,
                    caller,
                    call,
                    done.reply,
                    self.events.as_slice(),
                )?;
                Ok(Ok(done.reply))
            }
        }
    }

    // Asks a call once. It answers the limit that bars it, if one does.
    #[tactic(auto, using(crate::proofs::Turns::once_rules))]
    fn once(
        &mut self,
        alloc: Global,
        caller: Caller,
        call: &Call,
    ) -> Result<Option<Spent>, NoMemory>
        requires { is_allowed caller call.now self.old.board.shape ≡ true }
        ensures shape { self.new.board.shape ≡ self.old.board.shape }
        ensures played { IfOk result (λ stop. (rest : Asks) →
            Played caller (once call.now rest) rest self.old.board self.old.history stop self.new.board self.new.history) }
    {
        match self.ask(alloc, caller, call) {
            Ok(Ok(_)) => Ok(None),
            Ok(Err(spent)) => Ok(Some(spent)),
            Err(NoMemory) => Err(NoMemory),
        }
    }

    // Asks a call so many times, or up to the first that a limit bars.
    fn times(
        &mut self,
        alloc: Global,
        caller: Caller,
        call: &Call,
        count: u32,
    ) -> Result<Option<Spent>, NoMemory>
        requires { is_allowed caller call.now self.old.board.shape ≡ true }
        ensures shape { self.new.board.shape ≡ self.old.board.shape }
        ensures played { IfOk result (λ stop. (rest : Asks) →
            Played caller (times count call.now rest) rest self.old.board self.old.history stop self.new.board self.new.history) }
    {
        'turns: for _turn in 0..count {
            if let Some(spent) = self.once(alloc, caller, call)? {
                return Ok(Some(spent));
            }
        }
        Ok(None)
    }

    // Ends an interrupt of the 8259A pair: at the slave, and then at the master.
    fn end_pair(&mut self, alloc: Global, caller: Caller) -> Result<Option<Spent>, NoMemory>
        requires { is_allowed caller calls.Ack self.old.board.shape ≡ true }
        ensures shape { self.new.board.shape ≡ self.old.board.shape }
        ensures played { IfOk result (λ stop. (rest : Asks) →
            Played caller (to_slave rest) rest self.old.board self.old.history stop self.new.board self.new.history) }
    {
        if let Some(spent) = self.once(alloc, caller, &end_at(0xa0))? {
            return Ok(Some(spent));
        }
        self.once(alloc, caller, &end_at(0x20))
    }

    // Asks what a round goes on with, after the reply to its acknowledge.
    fn go_on(
        &mut self,
        alloc: Global,
        caller: Caller,
        reply: &Reply,
    ) -> Result<Option<Spent>, NoMemory>
        requires { is_allowed caller calls.Ack self.old.board.shape ≡ true }
        ensures shape { self.new.board.shape ≡ self.old.board.shape }
        ensures played { IfOk result (λ stop. (rest : Asks) →
            Played caller (after_ack reply.now rest) rest self.old.board self.old.history stop self.new.board self.new.history) }
    {
        match reply {
            Reply::Vector(_) => self.once(alloc, caller, &Call::Eoi),
            Reply::Extint(_) => self.end_pair(alloc, caller),
            _ => Ok(None),
        }
    }

    // One round: an acknowledge, and the end of the interrupt that it gives.
    fn round(&mut self, alloc: Global, caller: Caller) -> Result<Option<Spent>, NoMemory>
        requires { is_allowed caller calls.Ack self.old.board.shape ≡ true }
        ensures shape { self.new.board.shape ≡ self.old.board.shape }
        ensures played { IfOk result (λ stop. (rest : Asks) →
            Played caller (ask calls.Ack (λ reply. after_ack reply rest)) rest
            self.old.board self.old.history stop self.new.board self.new.history) }
    {
        match self.ask(alloc, caller, &Call::Ack) {
            Ok(Ok(reply)) => self.go_on(alloc, caller, &reply),
            Ok(Err(spent)) => Ok(Some(spent)),
            Err(NoMemory) => Err(NoMemory),
        }
    }

    // So many rounds, or up to the first call that a limit bars.
    fn rounds(
        &mut self,
        alloc: Global,
        caller: Caller,
        count: u32,
    ) -> Result<Option<Spent>, NoMemory>
        requires { is_allowed caller calls.Ack self.old.board.shape ≡ true }
        ensures shape { self.new.board.shape ≡ self.old.board.shape }
        ensures played { IfOk result (λ stop. (rest : Asks) →
            Played caller (rounds count rest) rest self.old.board self.old.history stop self.new.board self.new.history) }
    {
        'turns: for _turn in 0..count {
            if let Some(spent) = self.round(alloc, caller)? {
                return Ok(Some(spent));
            }
        }
        Ok(None)
    }

    /// Asks what a line asks: all of it, or up to the first call that a limit bars, which it answers.
    pub fn line(&mut self, alloc: Global, line: &ActorLine) -> Result<Option<Spent>, NoMemory>
        requires { may_ask self.old.board.shape line.now.caller line.now.task ≡ true }
        ensures shape { self.new.board.shape ≡ self.old.board.shape }
        ensures played { IfOk result (λ stop. (rest : Asks) →
            Played line.now.caller (line_asks line.now.task rest) rest
            self.old.board self.old.history stop self.new.board self.new.history) }
    {
        let caller = line.caller;
        match &line.task {
            Task::Once(call) => self.once(alloc, caller, call),
            Task::Repeat(count, call) => self.times(alloc, caller, call, *count),
            Task::Serve(count) => self.rounds(alloc, caller, *count),
        }
    }
}
