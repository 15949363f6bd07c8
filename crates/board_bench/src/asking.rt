//! One pass asks calls of a running board, again and again.
ghost use Rattle.std.specs.Prelude.{◌≡◌, ◌≤◌};
ghost use Rattle.part_board.specs.Seen.{IsPassOf};

use crate::calls::is_vector;
use irq_base::{Call, Events, Reply};
use part_board::{LiveBoard, Pass};
use std::sync::Wait;
use std::sync::atomic::{AtomicBool, Ordering};

// What the pass is answered, where the call is allowed to its caller and no limit bars it.
fn reply_to<R: Wait>(
    rt: &R,
    board: &LiveBoard,
    pass: &mut Pass,
    call: &Call,
    events: &mut Events,
) -> Option<Reply>
    requires pass { IsPassOf board.now pass.old }
    ensures pass { IsPassOf board.now pass.new }
{
    if !call.allowed(pass.caller(), &board.shape()) {
        return None;
    }
    match board.call(rt, pass, call, events) {
        Ok(done) => Some(done.reply),
        Err(_) => None,
    }
}

/// The pass asks these calls once.
pub fn ask_each<R: Wait>(rt: &R, board: &LiveBoard, pass: &mut Pass, calls: &[Call])
    requires pass { IsPassOf board.now pass.old }
    ensures pass { IsPassOf board.now pass.new }
{
    let mut events = Events::new();
    for call in calls {
        let _reply = reply_to(rt, board, pass, call, &mut events);
    }
}

// Whether the answer to the call does what its round is for: it gives a vector, or it publishes.
fn is_met<R: Wait>(
    rt: &R,
    board: &LiveBoard,
    pass: &mut Pass,
    call: &Call,
    events: &mut Events,
) -> bool
    requires pass { IsPassOf board.now pass.old }
    ensures pass { IsPassOf board.now pass.new }
{
    match reply_to(rt, board, pass, call, events) {
        Some(Reply::Done) => matches!(call, Call::Reroute { .. } | Call::Assign { .. }),
        Some(Reply::Removed(1)) => true,
        Some(reply) => is_vector(reply),
        None => false,
    }
}

// One round of these calls; how many vectors they gave, and how many publications they were.
fn round<R: Wait>(
    rt: &R,
    board: &LiveBoard,
    pass: &mut Pass,
    calls: &[Call],
    events: &mut Events,
) -> u64
    requires pass { IsPassOf board.now pass.old }
    ensures pass { IsPassOf board.now pass.new }
{
    let mut met = 0u64;
    for call in calls {
        if is_met(rt, board, pass, call, events) {
            met = met.wrapping_add(1);
        }
    }
    met
}

/// So many rounds of these calls; how many vectors they gave, and how many publications they were.
pub fn ask_again<R: Wait>(
    rt: &R,
    board: &LiveBoard,
    mut pass: Pass,
    calls: &[Call],
    rounds: u32,
) -> u64
    requires pass { IsPassOf board.now pass }
{
    let mut met = 0u64;
    let mut events = Events::new();
    for _ in 0..rounds {
        met = met.wrapping_add(round(rt, board, &mut pass, calls, &mut events));
    }
    met
}

/// The call again and again, until it is told to stop; how many publications it was.
pub fn ask_until<R: Wait>(
    rt: &R,
    board: &LiveBoard,
    mut pass: Pass,
    call: &Call,
    stop: &AtomicBool,
) -> u64
    requires pass { IsPassOf board.now pass }
{
    let mut met = 0u64;
    let mut events = Events::new();
    for _ in 0..u64::MAX {
        if stop.load(Ordering::SeqCst) {
            break;
        }
        if is_met(rt, board, &mut pass, call, &mut events) {
            met = met.wrapping_add(1);
        }
    }
    met
}

/// So many looks at where GSI 16 goes; how many were answered.
pub fn look_again(board: &LiveBoard, mut pass: Pass, rounds: u32) -> u64
    requires pass { IsPassOf board.now pass }
{
    let mut answered = 0u64;
    for _ in 0..rounds {
        if board.route_now(&mut pass, 16).is_ok() {
            answered = answered.wrapping_add(1);
        }
    }
    answered
}
