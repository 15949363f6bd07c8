//! A call of a thread on the running board.
ghost use Rattle.std.specs.Prelude.{◌≡◌};
ghost use Rattle.part_board.specs.Seen.{IsPassOf};

use crate::monitor::Monitor;
use crate::tally::Tally;
use irq_base::{Call, Events, Reply};
use part_board::Pass;
use std::sync::Wait;

/// One call, which waits for its turns, and what follows from its answer: whom it concerns is woken. `None`: the call is not one
/// that this caller may ask, or a limit of the board bars it.
pub fn ask<R: Wait>(
    rt: &R,
    monitor: &Monitor,
    pass: &mut Pass,
    call: &Call,
    tally: &mut Tally,
) -> Option<Reply>
    requires pass { IsPassOf monitor.now.board pass.old }
    ensures pass { IsPassOf monitor.now.board pass.new }
    ensures caller { pass.new.caller ≡ pass.old.caller }
{
    if !call.allowed(pass.caller(), &monitor.board.shape()) {
        return None;
    }
    let mut events = Events::new();
    let Ok(done) = monitor.board.call(rt, pass, call, &mut events) else {
        return None;
    };
    tally.calls = tally.calls.saturating_add(1);
    monitor.bells.ring(done.reply, &events);
    Some(done.reply)
}

/// One attempt of a call, which waits for nobody, and what follows from its answer. `None` also where the attempt gave way: a turn
/// that it wants is taken, or another call was entered meanwhile.
pub fn try_ask(monitor: &Monitor, pass: &mut Pass, call: &Call, tally: &mut Tally) -> Option<Reply>
    requires pass { IsPassOf monitor.now.board pass.old }
    ensures pass { IsPassOf monitor.now.board pass.new }
    ensures caller { pass.new.caller ≡ pass.old.caller }
{
    if !call.allowed(pass.caller(), &monitor.board.shape()) {
        return None;
    }
    let mut events = Events::new();
    let Ok(Ok(done)) = monitor.board.try_call(pass, call, &mut events) else {
        return None;
    };
    tally.calls = tally.calls.saturating_add(1);
    monitor.bells.ring(done.reply, &events);
    Some(done.reply)
}

/// Whether a call that changes the published words was answered with `Done`.
pub fn publish<R: Wait>(
    rt: &R,
    monitor: &Monitor,
    pass: &mut Pass,
    call: &Call,
    tally: &mut Tally,
) -> bool
    requires pass { IsPassOf monitor.now.board pass.old }
    ensures pass { IsPassOf monitor.now.board pass.new }
    ensures caller { pass.new.caller ≡ pass.old.caller }
{
    let is_done = ask(rt, monitor, pass, call, tally) == Some(Reply::Done);
    if is_done {
        tally.published = tally.published.saturating_add(1);
    }
    is_done
}
