// One call of a pass, where it is allowed.
ghost use Rattle.part_board.specs.Seen.{IsPassOf};

use irq_base::{Call, Done, Event, Events, Reply, Spent, Status};
use part_board::{LiveBoard, NotNow, Pass};
use std::sync::Wait;

// What a call is answered that waits for its turns.
fn done_by<R: Wait>(
    rt: &R,
    board: &LiveBoard,
    pass: &mut Pass,
    call: &Call,
    events: &mut Events,
) -> Option<Done>
    requires pass { IsPassOf board.now pass.old }
    ensures pass { IsPassOf board.now pass.new }
{
    if call.allowed(pass.caller(), &board.shape()) {
        board.call(rt, pass, call, events).ok()
    } else {
        None
    }
}

/// Whether a call was answered that waits for its turns.
pub(crate) fn is_answered<R: Wait>(rt: &R, board: &LiveBoard, pass: &mut Pass, call: &Call) -> bool
    requires pass { IsPassOf board.now pass.old }
    ensures pass { IsPassOf board.now pass.new }
{
    let mut events = Events::new();
    done_by(rt, board, pass, call, &mut events).is_some()
}

/// The vector that a call gives that waits for its turns.
pub(crate) fn vector_given<R: Wait>(
    rt: &R,
    board: &LiveBoard,
    pass: &mut Pass,
    call: &Call,
) -> Option<u8>
    requires pass { IsPassOf board.now pass.old }
    ensures pass { IsPassOf board.now pass.new }
{
    let mut events = Events::new();
    match done_by(rt, board, pass, call, &mut events)?.reply {
        Reply::Vector(vector) => Some(vector),
        _ => None,
    }
}

// Whether the message of the call's interprocessor interrupt was newly delivered.
fn tells_delivered(events: &Events) -> bool {
    for event in events.as_slice() {
        if let Event::Ipi(Status::Delivered { .. }) = event {
            return true;
        }
    }
    false
}

/// Whether the interprocessor interrupt of a call that waits for its turns was newly delivered.
pub(crate) fn is_delivered<R: Wait>(rt: &R, board: &LiveBoard, pass: &mut Pass, call: &Call) -> bool
    requires pass { IsPassOf board.now pass.old }
    ensures pass { IsPassOf board.now pass.new }
{
    let mut events = Events::new();
    done_by(rt, board, pass, call, &mut events).is_some() && tells_delivered(&events)
}

// What was done, where an attempt was answered.
fn done_of(answer: Result<Result<Done, Spent>, NotNow>) -> Option<Done> {
    match answer {
        Ok(Ok(done)) => Some(done),
        Ok(Err(_)) | Err(_) => None,
    }
}

/// What one attempt is answered, where it has its entry.
pub(crate) fn attempted(board: &LiveBoard, pass: &mut Pass, call: &Call) -> Option<Done>
    requires pass { IsPassOf board.now pass.old }
    ensures pass { IsPassOf board.now pass.new }
{
    let mut events = Events::new();
    if call.allowed(pass.caller(), &board.shape()) {
        done_of(board.try_call(pass, call, &mut events))
    } else {
        None
    }
}
