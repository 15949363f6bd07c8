// Calls are tried while another pen holds the turn of a part.
ghost use Rattle.std.specs.Prelude.{◌≡◌, true, IfOk};
ghost use Rattle.irq_base.specs.Callers.{is_there};
ghost use Rattle.part_board.specs.Seen.{IsDeskOf, IsPassOf};

use crate::desk::Desk;
use crate::live::LiveBoard;
use crate::pass::Pass;
use irq_base::{Call, Caller, Events, NoMemory, Part, Reply, Shape};
use part_attempt::NotNow;
use part_machine::RunningBoard;
use part_slots::place;
use std::alloc::Global;
use turn_book::{Pen, Took};

const SHAPE: Shape = Shape {
    cpus: 1,
    counters: 1,
    tick: 0,
    calls: 10,
    publications: 0,
};

// A running board, and its desk.
fn opened(alloc: Global) -> Result<(LiveBoard, Desk), NoMemory>
    ensures desk { IfOk result (λ made. IsDeskOf made.0 made.1) }
{
    match LiveBoard::power_on(alloc, &SHAPE) {
        Ok(made) => Ok(made),
        Err(_) => Err(NoMemory),
    }
}

// The pass of a caller.
fn pass_of(
    alloc: Global,
    board: &LiveBoard,
    desk: &mut Desk,
    caller: Caller,
) -> Result<Pass, NoMemory>
    requires desk { IsDeskOf board.now desk.old }
    requires there { is_there caller board.now.shape ≡ true }
    ensures desk { IsDeskOf board.now desk.new }
    ensures pass { IfOk result (IsPassOf board.now) }
{
    match desk.pass(alloc, board, caller) {
        Ok(pass) => Ok(pass),
        Err(_) => Err(NoMemory),
    }
}

// The pen of the pass, which has taken the turn of the I/O APIC.
fn with_ioapic(board: &LiveBoard, pass: Pass) -> Option<Pen<RunningBoard>>
    requires pass { IsPassOf board.now pass }
{
    let Pass { mut pen, .. } = pass;
    match board.book.take(&mut pen, place(Part::Ioapic)) {
        Took::Got => Some(pen),
        Took::Found => None,
    }
}

// What an attempt comes to: the reply, where it is answered, or why it gave way.
fn tried(board: &LiveBoard, pass: &mut Pass, call: &Call) -> Result<Option<Reply>, NotNow>
    requires pass { IsPassOf board.now pass.old }
    ensures pass { IsPassOf board.now pass.new }
{
    if !call.allowed(pass.caller(), &board.shape()) {
        return Ok(None);
    }
    let mut events = Events::new();
    match board.try_call(pass, call, &mut events) {
        Ok(Ok(done)) => Ok(Some(done.reply)),
        Ok(Err(_)) => Ok(None),
        Err(why) => Err(why),
    }
}

// What `Line` on GSI 16 and `Take` come to while another pen holds the turn of the I/O APIC.
type Tries = (Result<Option<Reply>, NotNow>, Result<Option<Reply>, NotNow>);

// These two are tried.
fn tried_beside(alloc: Global) -> Result<Tries, NoMemory> {
    let (board, mut desk) = opened(alloc)?;
    let mut pass = pass_of(alloc, &board, &mut desk, Caller::Device(0))?;
    let other = pass_of(alloc, &board, &mut desk, Caller::Device(1))?;
    let Some(_held) = with_ioapic(&board, other) else {
        return Err(NoMemory);
    };
    let line = Call::Line {
        gsi: 16,
        line: 0,
        high: true,
    };
    let first = tried(&board, &mut pass, &line);
    let second = tried(&board, &mut pass, &Call::Take { counter: 0 });
    Ok((first, second))
}

#[test]
fn an_attempt_finds_the_turn_that_another_pen_holds(rt: HostRuntime) -> Result<(), NoMemory> {
    let (line, take) = tried_beside(rt.alloc())?;
    assert!(rt; line == Err(NotNow::Busy { part: Part::Ioapic }));
    assert!(rt; take == Ok(Some(Reply::Empty)));
    Ok(())
}
