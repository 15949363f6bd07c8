// Four writers and a reader, each on a thread of its own.
ghost use Rattle.write_ring.specs.Seen.{IsPassOf};

use crate::ring_reading::{Tally, take_all};
use crate::ring_writing::put_all;
use std::thread::join;
use write_ring::{NoMemory, WriteRing};

// How many writes each writer puts, and how many all put.
const COUNT: u64 = 10_000;

const TOTAL: u64 = 40_000;

#[test]
fn no_write_is_lost_and_each_writer_keeps_its_order(rt: HostRuntime) -> Result<(), NoMemory> {
    let (ring, mut desk) = WriteRing::power_on(rt.alloc())?;
    let zero = desk.pass(&ring);
    let one = desk.pass(&ring);
    let two = desk.pass(&ring);
    let three = desk.pass(&ring);
    let reader = desk.pass(&ring);
    let shared = &ring;
    let (low, (high, tally)) = join(
        &rt,
        ||
            requires zero { IsPassOf shared.now zero }
            requires one { IsPassOf shared.now one }
        {
            join(
                &rt,
                || put_all(&rt, shared, zero, 0, COUNT),
                || put_all(&rt, shared, one, 1, COUNT),
            )
        },
        ||
            requires two { IsPassOf shared.now two }
            requires three { IsPassOf shared.now three }
            requires reader { IsPassOf shared.now reader }
        {
            join(
                &rt,
                ||
                    requires two { IsPassOf shared.now two }
                    requires three { IsPassOf shared.now three }
                {
                    join(
                        &rt,
                        || put_all(&rt, shared, two, 2, COUNT),
                        || put_all(&rt, shared, three, 3, COUNT),
                    )
                },
                || take_all(&rt, shared, reader, TOTAL),
            )
        },
    );
    let all = Tally {
        next: [COUNT; 4],
        wrong: 0,
    };
    assert!(rt; low == (COUNT, COUNT) && high == (COUNT, COUNT) && tally == all);
    Ok(())
}
