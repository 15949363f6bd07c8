//! A limit that bars a tick.
ghost use Rattle.std.specs.Prelude.{◌≤◌};

use crate::meter::Meter;
use irq_base::{Events, Spent, Stops};
use pit_8254::{CHANNEL_PORT, CONTROL_PORT, Pit, PitSpent};

// Sets a channel to count 4 in mode 2, with a next count 6.
fn set(pit: &mut Pit) {
    pit.write(CONTROL_PORT, 0x14);
    pit.write(CHANNEL_PORT, 4);
    pit.write(CHANNEL_PORT, 6);
}

// What an advance answers over a face that answers so many calls, and what the channel shows then.
fn advanced(pit: &mut Pit, clocks: u64, calls: u64) -> (Result<u64, PitSpent>, u8, Stops)
    requires { clocks ≤ 10000000 }
{
    let mut events = Events::new();
    let mut face = Meter::of(calls);
    let answer = pit.advance(clocks, &mut face, &mut events);
    (answer, pit.read(CHANNEL_PORT), face.stops)
}

// A limit that bars a tick after so many.
fn barred(ticks: u64) -> (Result<u64, PitSpent>, u8, Stops) {
    let spent = Spent::Calls { at: ticks };
    let stops = Stops {
        count: 1,
        last: Some(spent),
    };
    (Err(PitSpent { ticks, spent }), 1, stops)
}

// Where the third tick is barred, the channel stands one clock before it, with the count that was to come loaded; the tick falls in the
// next clock that is answered.
#[test]
fn a_limit_bars_a_tick(rt: HostRuntime) {
    let mut pit = Pit::power_on();
    set(&mut pit);
    assert_eq!(rt; advanced(&mut pit, 100, 2), barred(2));
    assert_eq!(rt; advanced(&mut pit, 1, 0), barred(0));
    assert_eq!(rt; advanced(&mut pit, 1, 1), (Ok(1), 6, Stops::none()));
    assert_eq!(rt; advanced(&mut pit, 11, 1), (Ok(1), 1, Stops::none()));
    assert_eq!(rt; advanced(&mut pit, 1, 1), (Ok(1), 6, Stops::none()));
}
