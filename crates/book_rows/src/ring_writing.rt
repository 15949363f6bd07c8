// Numbered writes.
ghost use Rattle.std.specs.Prelude.{◌≡◌};
ghost use Rattle.write_ring.specs.Seen.{IsPassOf};

use irq_base::Space;
use std::sync::Wait;
use write_ring::{RingPass, RingPut, RingWrite, RingWrites, WriteRing};

/// A write by that processor of that number.
pub(crate) fn numbered(cpu: u16, number: u64) -> RingWrite {
    RingWrite {
        cpu,
        space: Space::Port,
        address: 0xc050,
        len: 4,
        value: number,
    }
}

/// Whether a put of that number, tried again while the ring is full, was placed.
fn put_placed<R: Wait>(rt: &R, ring: &WriteRing, pass: &mut RingPass, cpu: u16, number: u64) -> bool
    requires pass { IsPassOf ring.now pass.old }
    ensures pass { IsPassOf ring.now pass.new }
{
    for _ in rt.forever() {
        match ring.put(rt, pass, &numbered(cpu, number)) {
            Ok(RingPut::Placed { .. }) => return true,
            Ok(RingPut::Full) => {}
            Err(_) => return false,
        }
    }
    unreachable!()
}

/// Puts the numbers below `count`, each until it is placed, and answers how many were placed.
pub(crate) fn put_all<R: Wait>(
    rt: &R,
    ring: &WriteRing,
    mut pass: RingPass,
    cpu: u16,
    count: u64,
) -> u64
    requires pass { IsPassOf ring.now pass }
{
    let mut placed: u64 = 0;
    for number in 0..count {
        if put_placed(rt, ring, &mut pass, cpu, number) {
            placed = placed.saturating_add(1);
        }
    }
    placed
}

/// Puts the numbers from `first` on, each once, and answers how many of `count` were placed at their number.
pub(crate) fn put_once_each<R: Wait>(
    rt: &R,
    ring: &WriteRing,
    pass: &mut RingPass,
    first: u64,
    count: u64,
) -> u64
    requires pass { IsPassOf ring.now pass.old }
    ensures pass { IsPassOf ring.now pass.new }
{
    let mut placed: u64 = 0;
    for k in 0..count {
        let number = first.wrapping_add(k);
        let reply = ring.put(rt, pass, &numbered(0, number));
        if reply == Ok(RingPut::Placed { at: number }) {
            placed = placed.saturating_add(1);
        }
    }
    placed
}

/// Whether the writes are those of processor 0 with the numbers from `first` on.
pub(crate) fn are_from(first: u64, writes: &RingWrites) -> bool {
    let mut number = first;
    for write in writes.as_slice() {
        if *write != numbered(0, number) {
            return false;
        }
        number = number.wrapping_add(1);
    }
    true
}
