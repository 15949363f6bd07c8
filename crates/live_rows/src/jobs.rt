// What passes do.
ghost use Rattle.part_board.specs.Seen.{IsPassOf};

use crate::asking::{attempted, is_answered, is_delivered, vector_given};
use crate::counts::Counts;
use irq_base::{Call, Caller, MsiWord, NoMemory, Row, Rows, Targets};
use part_board::{LiveBoard, Pass};
use std::alloc::Global;
use std::sync::Wait;

/// What each pass of a board does, and what it counts of that.
#[derive(Clone, Copy)]
pub(crate) enum Job {
    /// 1,000 calls that wait for their turns. Count 0: those that were answered.
    Calls,
    /// 1,000 attempts. Count 0: those that were answered.
    Attempts,
    /// 10,000 attempts of four kinds in turn. Counts 0 to 3: those of each kind that were answered.
    Storm,
    /// Processor 0 sends the GSI by the first table. Count 0: whether that was answered.
    FirstTable,
    /// Processor 0 replaces the table 1,000 times; the others read 10,000 times where the GSI goes. Count 0: the tables that were
    /// answered; count 1: reads by which the GSI goes where a table sends it; count 2: reads by which it goes elsewhere; count 3:
    /// reads beside which routing moved.
    Routes,
    /// The local APIC is enabled.
    Enable,
    /// 250 messages to the other processors in turn, and after each the next interrupt is taken. Counts 0 to 3: how often each of the
    /// vectors 40h to 43h was newly delivered; counts 4 to 7: how often each was taken.
    Exchange,
    /// What is pending is taken, and counted as before.
    Drain,
}

// The processor of a pass; a device is none, and stands for 0.
fn processor_of(caller: Caller) -> u16 {
    match caller {
        Caller::Cpu(n) => n,
        Caller::Device(_) => 0,
    }
}

// How many turns the job has for that processor.
fn turns(job: Job, cpu: u16) -> u32 {
    match job {
        Job::Calls | Job::Attempts => 1000,
        Job::Storm => 10_000,
        Job::FirstTable => u32::from(cpu == 0),
        Job::Routes => { if cpu == 0 { 1000 } else { 10_000 } }
        Job::Enable => 1,
        Job::Exchange => 250,
        Job::Drain => 4,
    }
}

// The level line of turn k, which goes up and down in turn.
fn line_at(k: u32) -> Call {
    Call::Line {
        gsi: 16,
        line: 0,
        high: k % 2 == 0,
    }
}

// The call of turn k of a storm: a line, a message to processor 0, an acknowledge, an end of interrupt.
fn call_at(k: u32) -> Call {
    match k % 4 {
        0 => line_at(k / 4),
        1 => Call::Msi {
            address: 0xfee0_0000,
            payload: 0x41,
        },
        2 => Call::Ack,
        _ => Call::Eoi,
    }
}

// A store to a register of the processor's own local APIC.
fn store(offset: u16, value: u64) -> Call {
    Call::Store {
        address: 0xfee0_0000 + u64::from(offset),
        len: 4,
        value,
    }
}

// The GSI that is read.
const GSI: u16 = 24;

// The message by which the table of turn k sends the GSI.
fn message_at(k: u32) -> MsiWord {
    MsiWord {
        address: 0xfee0_0000,
        payload: 0x41 + k % 2,
    }
}

// The call that publishes that table, which sends no other GSI anywhere.
fn reroute_at(alloc: Global, k: u32) -> Result<Call, NoMemory> {
    let MsiWord { address, payload } = message_at(k);
    let mut rows = Rows::empty(alloc);
    rows.push(Row::Msi {
        gsi: GSI,
        address,
        payload,
    })?;
    Ok(Call::Reroute { rows })
}

// Turn k of the one that replaces the table.
fn reroute<R: Wait>(rt: &R, alloc: Global, board: &LiveBoard, pass: &mut Pass, k: u32) -> Counts
    requires pass { IsPassOf board.now pass.old }
    ensures pass { IsPassOf board.now pass.new }
{
    match reroute_at(alloc, k) {
        Ok(call) => Counts::one_if(is_answered(rt, board, pass, &call), 0),
        Err(_) => Counts::none(),
    }
}

// Which count a read of the GSI is of.
fn kind_of(targets: Targets) -> u32 {
    match targets {
        Targets {
            pic: None,
            ioapic: None,
            msi: Some(word),
        } if word == message_at(0) || word == message_at(1) => 1,
        _ => 2,
    }
}

// A read of the GSI.
fn read(board: &LiveBoard, pass: &mut Pass) -> Counts
    requires pass { IsPassOf board.now pass.old }
    ensures pass { IsPassOf board.now pass.new }
{
    match board.route_now(pass, GSI) {
        Ok(targets) => Counts::one(kind_of(targets)),
        Err(_) => Counts::one(3),
    }
}

// A message of turn k to another of four processors.
fn send<R: Wait>(rt: &R, board: &LiveBoard, pass: &mut Pass, k: u32) -> Counts
    requires pass { IsPassOf board.now pass.old }
    ensures pass { IsPassOf board.now pass.new }
{
    let to = u64::from(processor_of(pass.caller())) + 1 + u64::from(k % 3);
    let _ = is_answered(rt, board, pass, &store(0x310, to % 4 * 0x100_0000));
    let kind = k % 4;
    Counts::one_if(
        is_delivered(rt, board, pass, &store(0x300, 0x40 + u64::from(kind))),
        kind,
    )
}

// The next interrupt is taken and ended, if there is one.
fn take<R: Wait>(rt: &R, board: &LiveBoard, pass: &mut Pass) -> Counts
    requires pass { IsPassOf board.now pass.old }
    ensures pass { IsPassOf board.now pass.new }
{
    match vector_given(rt, board, pass, &Call::Ack) {
        Some(vector) => {
            let _ = is_answered(rt, board, pass, &Call::Eoi);
            Counts::one(4 + u32::from(vector % 4))
        }
        None => Counts::none(),
    }
}

// Turn k of the job.
fn turn<R: Wait>(
    rt: &R,
    alloc: Global,
    board: &LiveBoard,
    pass: &mut Pass,
    job: Job,
    k: u32,
) -> Counts
    requires pass { IsPassOf board.now pass.old }
    ensures pass { IsPassOf board.now pass.new }
{
    match job {
        Job::Calls => Counts::one_if(is_answered(rt, board, pass, &line_at(k)), 0),
        Job::Attempts => Counts::one_if(attempted(board, pass, &line_at(k)).is_some(), 0),
        Job::Storm => Counts::one_if(attempted(board, pass, &call_at(k)).is_some(), k % 4),
        Job::FirstTable => reroute(rt, alloc, board, pass, 0),
        Job::Routes => {
            if processor_of(pass.caller()) == 0 {
                reroute(rt, alloc, board, pass, k.wrapping_add(1))
            } else {
                read(board, pass)
            }
        }
        Job::Enable => {
            let _ = is_answered(rt, board, pass, &store(0xf0, 0x1ff));
            Counts::none()
        }
        Job::Exchange => {
            let sent = send(rt, board, pass, k);
            sent.and(take(rt, board, pass))
        }
        Job::Drain => take(rt, board, pass),
    }
}

/// The pass does its job, from its first turn to its last.
pub(crate) fn work<R: Wait>(
    rt: &R,
    alloc: Global,
    board: &LiveBoard,
    mut pass: Pass,
    job: Job,
) -> (Pass, Counts)
    requires pass { IsPassOf board.now pass }
    ensures pass { IsPassOf board.now result.0 }
{
    let mut counts = Counts::none();
    for k in 0..turns(job, processor_of(pass.caller())) {
        counts = counts.and(turn(rt, alloc, board, &mut pass, job, k));
    }
    (pass, counts)
}
