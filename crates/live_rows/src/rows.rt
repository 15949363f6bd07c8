// A running board is opened, gives passes and notes, is asked, and is closed.
ghost use Rattle.std.specs.Prelude.{◌≡◌, ◌∷◌, [], All, IfSome};
ghost use Rattle.part_board.specs.Seen.{IsDeskOf, IsPassOf};

use crate::asking::attempted;
use crate::opening::{length_of, opened, pass_of, passes_of, push, shape_of};
use board_step::{Board, OpenError};
use irq_base::{Call, Caller, Cause, Done, NoMemory, Reply, Shape, Status, Targets};
use part_board::{Desk, LiveBoard, Missing, Pass, PassError};
use std::alloc::Global;

// Why no running board of that shape is made; none where one is made.
fn refused(alloc: Global, shape: &Shape) -> Option<OpenError> {
    match LiveBoard::power_on(alloc, shape) {
        Ok(_) => None,
        Err(fault) => Some(fault),
    }
}

// Shapes each of which has one number outside its limits.
fn bad_shapes() -> [Shape; 7] {
    let good = shape_of(1);
    [
        Shape { cpus: 0, ..good },
        Shape { cpus: 65, ..good },
        Shape {
            counters: 257,
            ..good
        },
        Shape { tick: 4096, ..good },
        Shape { calls: 0, ..good },
        Shape {
            calls: (1 << 40) + 1,
            ..good
        },
        Shape {
            publications: (1 << 20) + 1,
            ..good
        },
    ]
}

#[test]
fn shapes_outside_the_limits_are_refused(rt: HostRuntime) {
    for shape in bad_shapes().as_slice() {
        assert!(rt; refused(rt.alloc(), shape) == Some(OpenError::BadShape));
    }
    assert!(rt; refused(rt.alloc(), &shape_of(1)) == None);
}

// Why the desk makes no pass of the device; none where it makes one.
fn refused_pass(alloc: Global, board: &LiveBoard, desk: &mut Desk) -> Option<PassError>
    requires desk { IsDeskOf board.now desk.old }
    ensures desk { IsDeskOf board.now desk.new }
{
    desk.pass(alloc, board, Caller::Device(0)).err()
}

// What a desk answers that is asked twice for the pass of a device.
fn asked_twice(alloc: Global) -> Result<(Option<PassError>, Option<PassError>), NoMemory> {
    let (board, mut desk) = opened(alloc, 1)?;
    let first = refused_pass(alloc, &board, &mut desk);
    Ok((first, refused_pass(alloc, &board, &mut desk)))
}

#[test]
fn each_caller_has_one_pass(rt: HostRuntime) -> Result<(), NoMemory> {
    let (first, second) = asked_twice(rt.alloc())?;
    assert!(rt; first == None && second == Some(PassError::Taken));
    Ok(())
}

// How many entries and publications a board has.
fn counts(board: &Board) -> (u64, u32) {
    (board.length(), board.publications())
}

// The same when the board is closed, behind the entries that it answers.
fn counted_at_close(board: LiveBoard, desk: Desk, passes: Vec<Pass>) -> Option<(u64, (u64, u32))>
    requires desk { IsDeskOf board desk }
    requires passes { All (IsPassOf board) passes.items }
{
    let closed = board.close(desk, passes).ok()?;
    Some((closed.length, counts(&closed.board)))
}

// The same of a board that nobody called.
fn untouched(alloc: Global) -> Result<Option<(u64, (u64, u32))>, NoMemory> {
    let (board, mut desk) = opened(alloc, 4)?;
    let passes = passes_of(alloc, &board, &mut desk, 4)?;
    Ok(counted_at_close(board, desk, passes))
}

#[test]
fn a_board_that_nobody_called_is_closed_as_it_was_opened(rt: HostRuntime) -> Result<(), NoMemory> {
    assert!(rt; untouched(rt.alloc())? == Some((0, (0, 0))));
    Ok(())
}

// Whom a board misses that is closed with these passes, with all that it hands back.
fn missing_of(board: LiveBoard, desk: Desk, passes: Vec<Pass>) -> Option<Missing>
    requires desk { IsDeskOf board desk }
    requires passes { All (IsPassOf board) passes.items }
    ensures { IfSome result (λ missing. (missing.board ≡ board) × (missing.desk ≡ desk) × (missing.passes ≡ passes)) }
{
    board.close(desk, passes).err()
}

// The pass alone.
fn alone(alloc: Global, pass: Pass) -> Option<Vec<Pass>>
    ensures { IfSome result (λ passes. passes.items ≡ pass ∷ []) }
{
    let mut passes = Vec::new(alloc);
    push(&mut passes, pass).ok()?;
    Some(passes)
}

// Whom a board misses that is closed with one pass of two, and its length when it is closed with both.
fn closed_in_two(
    alloc: Global,
    board: LiveBoard,
    desk: Desk,
    one: Pass,
    two: Pass,
) -> Option<(Caller, u64)>
    requires desk { IsDeskOf board desk }
    requires one { IsPassOf board one }
    requires two { IsPassOf board two }
{
    let passes = alone(alloc, one)?;
    let Missing {
        caller,
        board,
        desk,
        mut passes,
    } = missing_of(board, desk, passes)?;
    push(&mut passes, two).ok()?;
    Some((caller, length_of(board, desk, passes)?))
}

// Where GSI 5 goes, as a pass is told, and what a tick is answered that it asks.
fn told(board: &LiveBoard, pass: &mut Pass) -> (Option<Targets>, Option<Done>)
    requires pass { IsPassOf board.now pass.old }
    ensures pass { IsPassOf board.now pass.new }
{
    let targets = board.route_now(pass, 5).ok();
    (targets, attempted(board, pass, &Call::Tick))
}

// The first pass learns what the second has seen.
fn learn(board: &LiveBoard, one: &mut Pass, two: &mut Pass)
    requires one { IsPassOf board.now one.old }
    requires two { IsPassOf board.now two.old }
    ensures one { IsPassOf board.now one.new }
    ensures two { IsPassOf board.now two.new }
{
    let note = board.note(two);
    board.learn(one, note);
}

// What a device is told of GSI 5, what its tick is answered, and whom the board then misses, with its length.
type Answers = (Option<Targets>, Option<Done>, Option<(Caller, u64)>);

// A device asks where a GSI goes and falls a tick; a processor learns of it; the board is closed without the processor, and then
// with it.
fn asked(alloc: Global) -> Result<Answers, NoMemory> {
    let (board, mut desk) = opened(alloc, 1)?;
    let mut device = pass_of(alloc, &board, &mut desk, Caller::Device(0))?;
    let mut cpu = pass_of(alloc, &board, &mut desk, Caller::Cpu(0))?;
    let (targets, done) = told(&board, &mut device);
    learn(&board, &mut cpu, &mut device);
    let missing = closed_in_two(alloc, board, desk, device, cpu);
    Ok((targets, done, missing))
}

#[test]
fn a_board_is_asked_and_learnt_of_and_closed(rt: HostRuntime) -> Result<(), NoMemory> {
    let targets = Targets {
        pic: Some(5),
        ioapic: Some(5),
        msi: None,
    };
    let done = Done {
        reply: Reply::Signal(Status::Ignored(Cause::Masked)),
        at: 0,
    };
    let missing = (Caller::Cpu(0), 1);
    let answers = asked(rt.alloc())?;
    assert!(rt; answers == (Some(targets), Some(done), Some(missing)));
    Ok(())
}
