// One thread: a full ring, and what passes learn of each other.

use crate::ring_writing::{are_from, numbered, put_once_each};
use write_ring::{NoMemory, RingPut, RingWrites, WriteRing};

#[test]
fn a_full_ring_takes_no_write_until_it_is_emptied(rt: HostRuntime) -> Result<(), NoMemory> {
    let (ring, mut desk) = WriteRing::power_on(rt.alloc())?;
    let mut pass = desk.pass(&ring);
    let mut out = RingWrites::new();
    let placed = put_once_each(&rt, &ring, &mut pass, 0, 128);
    let over = ring.put(&rt, &mut pass, &numbered(0, 128));
    let first = ring.take(&rt, &mut pass, &mut out);
    assert!(rt;
        placed == 128 && over == Ok(RingPut::Full) && first == Ok(128) && are_from(0, &out)
    );
    let after = ring.put(&rt, &mut pass, &numbered(0, 128));
    let second = ring.take(&rt, &mut pass, &mut out);
    assert!(rt; after == Ok(RingPut::Placed { at: 128 }) && second == Ok(1) && are_from(128, &out));
    let third = ring.take(&rt, &mut pass, &mut out);
    assert!(rt; third == Ok(0) && out.is_empty());
    Ok(())
}

#[test]
fn passes_put_and_take_and_learn_of_each_other(rt: HostRuntime) -> Result<(), NoMemory> {
    let (ring, mut desk) = WriteRing::power_on(rt.alloc())?;
    let mut writer = desk.pass(&ring);
    let mut reader = desk.pass(&ring);
    assert!(rt; writer.number() == 0 && reader.number() == 1 && desk.passes() == 2);
    let mut out = RingWrites::new();
    let first = ring.try_put(&mut writer, &numbered(0, 0));
    let note = ring.note(&mut writer);
    ring.learn(&mut reader, note);
    let taken = ring.try_take(&mut reader, &mut out);
    assert!(rt; first == Ok(RingPut::Placed { at: 0 }) && taken == Ok(1) && are_from(0, &out));
    desk.join(&ring, writer);
    desk.join(&ring, reader);
    let mut late = desk.pass(&ring);
    let second = ring.put(&rt, &mut late, &numbered(0, 1));
    assert!(rt; late.number() == 2 && second == Ok(RingPut::Placed { at: 1 }));
    Ok(())
}
