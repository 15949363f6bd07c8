//! A face over a board on one thread.
ghost use Rattle.std.specs.Prelude.{◌≡◌, true};
ghost use Rattle.irq_base.specs.Callers.{is_allowed};
ghost use Rattle.irq_base.specs.declared.call.Caller.TheVariants.{Device};

use board_step::{Board, OnBoard};
use irq_base::{
    Call, Caller, Cause, Done, Event, Events, Face, Reply, Shape, Spent, Status, Stops,
};
use std::test::Fail;

/// A board of one processor that answers three calls, one of which may be a publication.
const SMALL: Shape = Shape {
    cpus: 1,
    counters: 16,
    tick: 0,
    calls: 3,
    publications: 1,
};

/// What a face answers, and the first event that it tells.
type Answer = (Result<Done, Spent>, Option<Event>);

// A call on a face.
fn asked<F: Face>(face: &mut F, call: &Call, events: &mut Events) -> Answer
    requires { is_allowed (F.who face.old) call.now (F.shape face.old) ≡ true }
    ensures { F.who face.new ≡ F.who face.old }
{
    let answer = face.ask(call, events);
    (answer, events.as_slice().first().copied())
}

// Counter 0 gains 3.
fn write<F: Face>(face: &mut F, events: &mut Events) -> Answer
    requires { F.who face.old ≡ Device 7 }
    ensures { F.who face.new ≡ Device 7 }
{
    asked(face, &Call::Write { counter: 0, n: 3 }, events)
}

// Counter 0 is taken.
fn take<F: Face>(face: &mut F, events: &mut Events) -> Answer
    requires { F.who face.old ≡ Device 7 }
    ensures { F.who face.new ≡ Device 7 }
{
    asked(face, &Call::Take { counter: 0 }, events)
}

// An irqfd is made on GSI 24, which goes nowhere.
fn assign<F: Face>(face: &mut F, trigger: u16, events: &mut Events) -> Answer
    requires { F.who face.old ≡ Device 7 }
    ensures { F.who face.new ≡ Device 7 }
{
    let call = Call::Assign {
        trigger,
        gsi: 24,
        resample: None,
    };
    asked(face, &call, events)
}

// What is answered to these five, one after another.
fn answers<F: Face>(face: &mut F) -> [Answer; 5]
    requires { F.who face.old ≡ Device 7 }
{
    let mut events = Events::new();
    let written = write(face, &mut events);
    let made = assign(face, 0, &mut events);
    let barred = assign(face, 1, &mut events);
    let taken = take(face, &mut events);
    [written, made, barred, taken, take(face, &mut events)]
}

// What a call is answered at that place.
fn done(reply: Reply, at: u64) -> Result<Done, Spent> {
    Ok(Done { reply, at })
}

// Answers stand at places that rise; the events are those of the call; a call that a limit bars counts as a stop, tells no event
// and leaves the board.
#[test]
fn a_face_of_a_board(rt: HostRuntime) -> Result<(), Fail> {
    let mut board = Board::power_on(rt.alloc(), &SMALL)?;
    let mut face = OnBoard {
        board: &mut board,
        caller: Caller::Device(7),
        stops: Stops::none(),
    };
    let injected = Event::Injected {
        gsi: 24,
        status: Status::Ignored(Cause::Unrouted),
    };
    let over = Spent::Calls { at: 3 };
    let expected = [
        (done(Reply::Done, 0), None),
        (done(Reply::Done, 1), Some(injected)),
        (Err(Spent::Publications { at: 1 }), None),
        (done(Reply::Empty, 2), None),
        (Err(over), None),
    ];
    assert_eq!(rt; answers(&mut face), expected);
    let stops = Stops {
        count: 2,
        last: Some(over),
    };
    assert_eq!(rt; face.stops, stops);
    Ok(())
}
