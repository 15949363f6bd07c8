//! Counters, irqfds, ioeventfds, acknowledge notifiers and the routing table, through the calls on a board: limits at both ends, and what rings what.
//!
//! Expected values are those of eventfd(2) and of the KVM API (KVM_IRQFD, KVM_IOEVENTFD, KVM_SET_GSI_ROUTING).
use crate::plays::{all_play, plays};
use std::alloc::{AllocError, Global};
use std::fmt::Write;
use std::test::Fail;

// The tables, with their names.
const TABLES: [(&str, &str); 7] = [
    // eventfd(2): a write that would pass 2^64 - 2 is refused and changes nothing, a signal leaves the greatest count, and a read takes the whole count.
    (
        "counts",
        "
        cpus 1
        dev0 attach port c050 1 0 -> done
        dev0 attach port c051 1 1 -> done
        dev0 take 0 -> empty
        dev0 write 0 18446744073709551614 -> done
        dev0 write 0 1 -> refused 14 over
        dev0 write 0 0 -> done
        cpu0 out c050 1 00 -> done
        + rang 0
        cpu0 out c051 1 00 -> done
        + rang 1
        dev0 write 1 4 -> done
        dev0 take 0 -> count 18446744073709551614
        dev0 take 0 -> empty
        dev0 take 1 -> count 5
        dev0 take 2 -> empty
        ",
    ),
    // Two resamplers on one GSI, and an irqfd on another: each ends by its trigger and its GSI, once; a counter of no irqfd keeps its count.
    (
        "irqfds_end",
        "
        cpus 1
        counters 256
        dev0 assign 0 11 resample 1 -> done
        dev0 assign 255 11 resample 3 -> done
        dev0 assign 5 24 -> done
        dev0 write 1 2 -> done
        dev0 take 1 -> count 2
        dev0 write 255 1 -> ignored masked
        dev0 take 255 -> empty
        dev0 deassign 255 24 -> removed 0
        dev0 deassign 0 11 -> removed 1
        dev0 deassign 0 11 -> removed 0
        dev0 write 0 2 -> done
        dev0 take 0 -> count 2
        dev0 write 255 1 -> ignored masked
        dev0 deassign 255 11 -> removed 1
        dev0 deassign 255 11 -> removed 0
        dev0 write 5 1 -> ignored unrouted
        ",
    ),
    // Whether a second ioeventfd at an address collides, by lengths and matches; length 0 collides with each of its space.
    (
        "ioeventfds_collide",
        "
        cpus 1
        dev0 attach port c050 2 4 match 0001 -> done
        dev0 attach port c050 2 5 match 0001 -> refused 10 exists
        dev0 attach port c050 2 4 match 0001 -> refused 10 exists
        dev0 detach port c050 2 4 match 0001 -> done
        dev0 detach port c050 2 5 match 0001 -> refused 11 not-there
        dev0 attach port c050 2 4 match 0001 -> done
        dev0 attach port c050 2 5 match 0002 -> done
        dev0 attach port c050 2 4 match 0001 -> refused 10 exists
        dev0 detach port c050 2 4 match 0001 -> done
        dev0 detach port c050 2 5 match 0002 -> done
        dev0 attach port c050 2 4 match 0001 -> done
        dev0 attach port c050 2 5 -> refused 10 exists
        dev0 attach port c050 2 4 match 0001 -> refused 10 exists
        dev0 detach port c050 2 4 match 0001 -> done
        dev0 detach port c050 2 5 -> refused 11 not-there
        dev0 attach port c050 2 4 -> done
        dev0 attach port c050 2 5 match 0001 -> refused 10 exists
        dev0 attach port c050 2 4 -> refused 10 exists
        dev0 detach port c050 2 4 -> done
        dev0 detach port c050 2 5 match 0001 -> refused 11 not-there
        dev0 attach port c050 2 4 -> done
        dev0 attach port c050 2 5 -> refused 10 exists
        dev0 attach port c050 2 4 -> refused 10 exists
        dev0 detach port c050 2 4 -> done
        dev0 detach port c050 2 5 -> refused 11 not-there
        dev0 attach port c050 2 4 -> done
        dev0 attach port c050 1 5 -> done
        dev0 attach port c050 2 4 -> refused 10 exists
        dev0 detach port c050 2 4 -> done
        dev0 detach port c050 1 5 -> done
        dev0 attach port c050 2 4 match 0001 -> done
        dev0 attach port c050 0 5 -> refused 10 exists
        dev0 attach port c050 2 4 match 0001 -> refused 10 exists
        dev0 detach port c050 2 4 match 0001 -> done
        dev0 detach port c050 0 5 -> refused 11 not-there
        dev0 attach port c050 0 4 -> done
        dev0 attach port c050 4 5 match 00000009 -> refused 10 exists
        dev0 attach port c050 0 4 -> refused 10 exists
        dev0 detach port c050 0 4 -> done
        dev0 detach port c050 4 5 match 00000009 -> refused 11 not-there
        dev0 attach port c050 0 4 -> done
        dev0 attach port c050 0 5 -> refused 10 exists
        dev0 attach port c050 0 4 -> refused 10 exists
        dev0 detach port c050 0 4 -> done
        dev0 detach port c050 0 5 -> refused 11 not-there
        dev0 attach port c050 0 4 -> done
        dev0 attach port c051 0 5 -> done
        dev0 attach port c050 0 4 -> refused 10 exists
        dev0 detach port c050 0 4 -> done
        dev0 detach port c051 0 5 -> done
        dev0 attach port c050 0 4 -> done
        dev0 attach mem 0000c050 0 5 -> done
        dev0 attach port c050 0 4 -> refused 10 exists
        dev0 detach port c050 0 4 -> done
        dev0 detach mem 0000c050 0 5 -> done
        ",
    ),
    // A write rings the ioeventfd of its space, address, length and value.
    (
        "ioeventfds_ring",
        "
        cpus 1
        dev0 attach mem d0000000 0 6 -> done
        dev0 attach port c050 2 4 match 0001 -> done
        dev0 attach port c050 2 7 match 0003 -> done
        dev0 attach port c050 1 8 -> done
        cpu0 out c050 2 0001 -> done
        + rang 4
        cpu0 out c050 2 0002 -> exit
        cpu0 out c050 2 0003 -> done
        + rang 7
        cpu0 out c050 1 01 -> done
        + rang 8
        cpu0 out c050 4 00000001 -> exit
        cpu0 out c051 2 0001 -> exit
        cpu0 store 0000c050 2 0001 -> exit
        cpu0 store d0000000 4 00000001 -> done
        + rang 6
        cpu0 store d0000000 8 0000000000000063 -> done
        + rang 6
        dev0 detach port c050 2 5 match 0001 -> refused 11 not-there
        dev0 detach port c050 2 4 match 0001 -> done
        dev0 detach port c050 2 4 match 0001 -> refused 11 not-there
        cpu0 out c050 2 0001 -> exit
        cpu0 out c050 2 0003 -> done
        + rang 7
        ",
    ),
    // An acknowledge signals the resample counters of its GSI and no other, in order of registration.
    (
        "resamplers_in_order",
        "
        cpus 1
        cpu0 store fee000f0 4 000001ff -> done
        cpu0 store fec00000 4 00000026 -> done
        cpu0 store fec00010 4 00008054 -> done
        dev0 assign 0 11 resample 3 -> done
        dev0 assign 5 12 resample 2 -> done
        dev0 assign 4 11 -> done
        dev0 assign 6 11 resample 1 -> done
        dev0 write 0 1 -> delivered new=1 stood=0 pic=0
        cpu0 ack -> vector 54
        cpu0 eoi -> ended 54
        + acked io 11 gsi 11
        + resampled 3
        + resampled 1
        dev0 take 1 -> count 1
        dev0 take 2 -> empty
        dev0 take 3 -> count 1
        ",
    ),
    // An acknowledge signals the counter of each notifier of its GSI and no other, in order of registration.
    (
        "notifiers_in_order",
        "
        cpus 1
        cpu0 out 0020 1 11 -> done
        cpu0 out 0021 1 20 -> done
        cpu0 out 0021 1 04 -> done
        cpu0 out 0021 1 01 -> done
        cpu0 out 00a0 1 11 -> done
        cpu0 out 00a1 1 28 -> done
        cpu0 out 00a1 1 02 -> done
        cpu0 out 00a1 1 01 -> done
        dev0 watch 3 8 -> done
        dev0 watch 2 9 -> done
        dev0 watch 1 8 -> done
        dev0 line 8 0 up -> delivered new=0 stood=0 pic=1
        cpu0 ack -> extint 28
        cpu0 out 00a0 1 20 -> done
        + acked pic 8 gsi 8
        + watched 3
        + watched 1
        dev0 take 1 -> count 1
        dev0 take 2 -> empty
        dev0 take 3 -> count 1
        ",
    ),
    // Each refusal of rows, the earlier of two faulty rows, and within a row the first cause. The table at power-on stays: GSIs 5 and 9 go to both chips.
    (
        "rows_are_refused",
        "
        cpus 1
        dev0 reroute 9=io.9 9=io.10 -> refused 4 chip-twice
        dev0 line 5 0 up reaches pic ioapic
        dev0 line 9 0 up reaches pic ioapic
        dev0 reroute 9=io.9 8=io.9 -> refused 6 pin-twice
        dev0 line 5 0 up reaches pic ioapic
        dev0 line 9 0 up reaches pic ioapic
        dev0 reroute 5=msi.fee00000.00000041 5=io.5 -> refused 5 mixed
        dev0 line 5 0 up reaches pic ioapic
        dev0 line 9 0 up reaches pic ioapic
        dev0 reroute 5=io.24 -> refused 3 bad-row
        dev0 line 5 0 up reaches pic ioapic
        dev0 line 9 0 up reaches pic ioapic
        dev0 reroute 5=pic.16 -> refused 3 bad-row
        dev0 line 5 0 up reaches pic ioapic
        dev0 line 9 0 up reaches pic ioapic
        dev0 reroute 4096=pic.0 -> refused 1 no-gsi
        dev0 line 5 0 up reaches pic ioapic
        dev0 line 9 0 up reaches pic ioapic
        dev0 reroute 24=msi.fed00000.00000041 -> refused 17 bad-msi
        dev0 line 5 0 up reaches pic ioapic
        dev0 line 9 0 up reaches pic ioapic
        dev0 reroute 24=msi.1fee00000.00000041 -> refused 17 bad-msi
        dev0 line 5 0 up reaches pic ioapic
        dev0 line 9 0 up reaches pic ioapic
        dev0 reroute 5=io.5 5=io.5 -> refused 4 chip-twice
        dev0 line 5 0 up reaches pic ioapic
        dev0 line 9 0 up reaches pic ioapic
        dev0 reroute 5=pic.1 5=pic.9 -> refused 4 chip-twice
        dev0 line 5 0 up reaches pic ioapic
        dev0 line 9 0 up reaches pic ioapic
        dev0 reroute 5=msi.fee00000.00000041 5=msi.fee00000.00000041 -> refused 5 mixed
        dev0 line 5 0 up reaches pic ioapic
        dev0 line 9 0 up reaches pic ioapic
        dev0 reroute 5=pic.5 4096=io.24 -> refused 1 no-gsi
        dev0 line 5 0 up reaches pic ioapic
        dev0 line 9 0 up reaches pic ioapic
        dev0 reroute 5=io.5 5=io.24 -> refused 3 bad-row
        dev0 line 5 0 up reaches pic ioapic
        dev0 line 9 0 up reaches pic ioapic
        dev0 reroute 5=io.5 5=msi.00000000.00000041 -> refused 17 bad-msi
        dev0 line 5 0 up reaches pic ioapic
        dev0 line 9 0 up reaches pic ioapic
        dev0 reroute 5=msi.fee00000.00000041 6=io.7 5=io.7 -> refused 5 mixed
        dev0 line 5 0 up reaches pic ioapic
        dev0 line 9 0 up reaches pic ioapic
        dev0 reroute 5=io.5 5=io.6 4096=io.7 -> refused 4 chip-twice
        dev0 line 5 0 up reaches pic ioapic
        dev0 line 9 0 up reaches pic ioapic
        dev0 reroute 5=pic.5 5=io.5 6=io.5 -> refused 6 pin-twice
        dev0 line 5 0 up reaches pic ioapic
        dev0 line 9 0 up reaches pic ioapic
        ",
    ),
];

#[test]
fn registries_are_played(rt: HostRuntime) -> Result<(), Fail> {
    all_play(rt.alloc(), &TABLES)
}

// A board with 256 notifiers of one counter.
fn notifiers(alloc: Global) -> Result<String, AllocError> {
    let mut table = String::from_str(alloc, "cpus 1\n")?;
    for gsi in 0..256u32 {
        write!(table, "dev0 watch 3 {gsi} -> done\n")?;
    }
    Ok(table)
}

// The 257th notifier is refused as full, one that is there as such even then; what ends leaves room for one.
#[test]
fn notifiers_up_to_256(rt: HostRuntime) -> Result<(), Fail> {
    let mut table = notifiers(rt.alloc())?;
    table.push_str(
        "
        dev0 watch 3 256 -> refused 9 full
        dev0 watch 4 0 -> refused 9 full
        dev0 watch 3 0 -> refused 10 exists
        dev0 watch 3 255 -> refused 10 exists
        dev0 unwatch 4 0 -> refused 11 not-there
        dev0 unwatch 3 7 -> done
        dev0 unwatch 3 7 -> refused 11 not-there
        dev0 watch 4 0 -> done
        dev0 watch 4 1 -> refused 9 full
        ",
    )?;
    plays(rt.alloc(), table.as_str())
}

// A board with 256 ioeventfds, at ports that fall.
fn ioeventfds(alloc: Global) -> Result<String, AllocError> {
    let mut table = String::from_str(alloc, "cpus 1\n")?;
    for k in 0..256u32 {
        let port = 0x1000 - k;
        write!(table, "dev0 attach port {port:04x} 1 9 -> done\n")?;
    }
    Ok(table)
}

// The 257th ioeventfd is refused as full, one that collides as such even then; each is found.
#[test]
fn ioeventfds_up_to_256(rt: HostRuntime) -> Result<(), Fail> {
    let mut table = ioeventfds(rt.alloc())?;
    table.push_str(
        "
        dev0 attach port 2000 1 9 -> refused 9 full
        dev0 attach port 1000 1 2 -> refused 10 exists
        cpu0 out 0f01 1 00 -> done
        + rang 9
        cpu0 out 0f00 1 00 -> exit
        ",
    )?;
    plays(rt.alloc(), table.as_str())
}
