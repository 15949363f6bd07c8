//! The board is closed, and held against what was counted.
ghost use Rattle.std.specs.Prelude.{All};
ghost use Rattle.part_board.specs.Seen.{IsDeskOf, IsPassOf};

use crate::guest::{COUNTERS, ROUNDS};
use crate::monitor::Monitor;
use crate::tally::Tally;
use board_step::{Board, Due};
use irq_base::{Call, Caller, Done, Events, Reply};
use part_board::{Desk, Pass};

/// What the closed board tells.
#[derive(Clone, Copy, PartialEq, Eq)]
pub struct End {
    /// How many calls were answered.
    pub length: u64,
    /// How many of them changed the published words.
    pub publications: u32,
    /// To how many processors something is due.
    pub due: u32,
    /// How many counters stand above 0.
    pub standing: u32,
}

/// What all threads counted, and what the closed board tells.
#[derive(Clone, Copy, PartialEq, Eq)]
pub struct Report {
    pub sum: Tally,
    pub end: End,
}

impl Report {
    /// Whether each interrupt that was raised was taken and told, as often as there were rounds; the board has as many entries and
    /// publications as the threads had answers; and nothing is left to be taken.
    pub fn agrees(&self) -> bool {
        let Report { sum, end } = *self;
        let rounds = u64::from(ROUNDS);
        sum.disk.is_all(rounds)
            && sum.network.is_all(rounds)
            && sum.timer.is_all(rounds)
            && sum.routed == rounds
            && end.length == sum.calls
            && u64::from(end.publications) == sum.published
            && end.due == 0
            && end.standing == 0
    }
}

// To how many processors something is due.
fn count_due(board: &Board) -> u32 {
    let mut due = 0u32;
    for cpu in 0..board.shape().cpus {
        if board.due(cpu) != Due::None {
            due = due.saturating_add(1);
        }
    }
    due
}

// Whether a counter stands above 0; it is taken.
fn stands(board: &mut Board, counter: u16) -> bool {
    let mut events = Events::new();
    let take = Call::Take { counter };
    take.allowed(Caller::Device(0), &board.shape())
        && matches!(
            board.apply(Caller::Device(0), &take, &mut events),
            Ok(Done {
                reply: Reply::Count(_),
                ..
            })
        )
}

// How many counters stand above 0.
fn count_standing(board: &mut Board) -> u32 {
    let mut standing = 0u32;
    for counter in 0..COUNTERS {
        if stands(board, counter) {
            standing = standing.saturating_add(1);
        }
    }
    standing
}

// What the board that is left tells.
fn end_of(mut board: Board, length: u64) -> End {
    let publications = board.publications();
    let due = count_due(&board);
    let standing = count_standing(&mut board);
    End {
        length,
        publications,
        due,
        standing,
    }
}

/// Closes the board with all its passes, and tells what it came to.
pub fn closed(monitor: Monitor, desk: Desk, passes: Vec<Pass>) -> Option<Report>
    requires desk { IsDeskOf monitor.board desk }
    requires passes { All (IsPassOf monitor.board) passes.items }
{
    let Monitor { board, sum, .. } = monitor;
    match board.close(desk, passes) {
        // the pass of a caller is not there
        Err(_) => None,
        Ok(closed) => Some(Report {
            sum: sum.into_inner(),
            end: end_of(closed.board, closed.length),
        }),
    }
}
