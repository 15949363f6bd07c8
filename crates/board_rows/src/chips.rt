//! The 8259A pair and the I/O APIC: the cascade, spurious cycles, levels, masks, accesses, and a usual start.
//!
//! Expected values are those of the 8259A and 82093AA data sheets, and of this board's own rules where these leave a choice.
use crate::plays::all_play;
use std::test::Fail;

// The tables, with their names.
const TABLES: [(&str, &str); 7] = [
    // The slave's request goes through level 2 of the master, and an acknowledge notifier hears of its end.
    (
        "the_cascade_and_a_watch",
        "
        cpus 1
        cpu0 out 0020 1 11 -> done
        cpu0 out 0021 1 20 -> done
        cpu0 out 0021 1 04 -> done
        cpu0 out 0021 1 01 -> done
        cpu0 out 00a0 1 11 -> done
        cpu0 out 00a1 1 28 -> done
        cpu0 out 00a1 1 02 -> done
        cpu0 out 00a1 1 01 -> done
        dev0 watch 3 8 -> done
        dev0 line 8 0 up -> delivered new=0 stood=0 pic=1
        cpu0 due extint
        cpu0 ack -> extint 28
        cpu0 out 00a0 1 20 -> done
        + acked pic 8 gsi 8
        + watched 3
        cpu0 out 0020 1 20 -> done
        + acked pic 2 gsi 2
        dev0 take 3 -> count 1
        dev0 unwatch 3 8 -> done
        dev0 unwatch 3 8 -> refused 11 not-there
        ",
    ),
    // A cycle without a request gives the vector of level 7, and sets no bit in service.
    (
        "a_spurious_cycle",
        "
        cpus 1
        cpu0 out 0020 1 11 -> done
        cpu0 out 0021 1 20 -> done
        cpu0 out 0021 1 04 -> done
        cpu0 out 0021 1 01 -> done
        cpu0 out 00a0 1 11 -> done
        cpu0 out 00a1 1 28 -> done
        cpu0 out 00a1 1 02 -> done
        cpu0 out 00a1 1 01 -> done
        cpu0 inta -> vector 27
        cpu0 out 0020 1 0b -> done
        cpu0 in 0020 1 -> value 00
        ",
    ),
    // A level pin that two lines hold: while one holds it, it is requested again at the end of the interrupt.
    (
        "a_level_pin_of_two_lines",
        "
        cpus 1
        cpu0 store fee000f0 4 000001ff -> done
        cpu0 store fec00000 4 00000024 -> done
        cpu0 store fec00010 4 00008051 -> done
        dev0 line 10 0 up -> delivered new=1 stood=0 pic=0
        dev0 line 10 1 up -> coalesced stood=0
        dev0 line 10 0 down -> lowered
        cpu0 ack -> vector 51
        cpu0 eoi -> ended 51
        + acked io 10 gsi 10
        + resent 10 delivered new=1 stood=0 pic=0
        ",
    ),
    // A masked edge is lost, and a masked level is sent when its mask goes.
    (
        "masked_edge_and_level",
        "
        cpus 1
        cpu0 store fee000f0 4 000001ff -> done
        dev0 line 16 0 up -> ignored masked
        cpu0 store fec00000 4 00000030 -> done
        cpu0 store fec00010 4 00000052 -> done
        cpu0 ack -> nothing
        dev0 line 17 0 up -> ignored masked
        cpu0 store fec00000 4 00000032 -> done
        cpu0 store fec00010 4 00008053 -> done
        + resent 17 delivered new=1 stood=0 pic=0
        cpu0 ack -> vector 53
        ",
    ),
    // A GSI that has a pin of both chips raises both: through LINT0 and by the message of its entry.
    (
        "a_pin_of_both_chips",
        "
        cpus 1
        cpu0 out 0020 1 11 -> done
        cpu0 out 0021 1 20 -> done
        cpu0 out 0021 1 04 -> done
        cpu0 out 0021 1 01 -> done
        cpu0 out 00a0 1 11 -> done
        cpu0 out 00a1 1 28 -> done
        cpu0 out 00a1 1 02 -> done
        cpu0 out 00a1 1 01 -> done
        cpu0 store fee000f0 4 000001ff -> done
        cpu0 store fec00000 4 0000001a -> done
        cpu0 store fec00010 4 00000035 -> done
        dev0 line 5 0 up -> delivered new=1 stood=0 pic=1
        dev0 line 5 1 up -> coalesced stood=0
        cpu0 ack -> extint 25
        cpu0 out 0020 1 20 -> done
        + acked pic 5 gsi 5
        cpu0 ack -> vector 35
        cpu0 eoi -> ended 35
        + acked io 5 gsi 5
        dev0 line 5 0 down -> lowered
        dev0 line 5 1 down -> lowered
        dev0 line 5 0 up -> delivered new=1 stood=0 pic=1
        ",
    ),
    // Ports and addresses: each chip answers at its own alone, with its own length; the edge/level registers keep the bits that they have; a
    // length that no access has is refused; what belongs to no chip is the monitor's.
    (
        "accesses",
        "
        cpus 1
        cpu0 in 0021 1 -> value ff
        cpu0 out 04d0 1 ff -> done
        cpu0 in 04d0 1 -> value f8
        cpu0 out 04d1 1 ff -> done
        cpu0 in 04d1 1 -> value de
        cpu0 out 0020 2 0011 -> done
        cpu0 in 0021 4 -> value 00000000
        cpu0 out 0060 4 ffffffff -> exit
        cpu0 in 0060 1 -> exit
        cpu0 load fee00030 4 -> value 00050014
        cpu0 load fee00030 1 -> value 00
        cpu0 load fee00350 4 -> value 00000700
        cpu0 store fec00000 4 00000001 -> done
        cpu0 load fec00010 4 -> value 00170011
        cpu0 load fec00010 8 -> value 0000000000000000
        cpu0 load fec00100 4 -> exit
        cpu0 load fee01000 4 -> exit
        cpu0 store d0000000 4 00000001 -> exit
        ",
    ),
    // A usual start, after what a guest kernel and its monitor do: both masks of the 8259A pair are set, LINT0 is masked, timer and
    // messages go through the I/O APIC and by irqfds, and a doorbell rings by an ioeventfd.
    (
        "a_usual_start",
        "
        cpus 2
        cpu0 out 0020 1 11 -> done
        cpu0 out 0021 1 20 -> done
        cpu0 out 0021 1 04 -> done
        cpu0 out 0021 1 01 -> done
        cpu0 out 00a0 1 11 -> done
        cpu0 out 00a1 1 28 -> done
        cpu0 out 00a1 1 02 -> done
        cpu0 out 00a1 1 01 -> done
        cpu0 out 0021 1 ff -> done
        cpu0 out 00a1 1 ff -> done
        cpu0 store fee00350 4 00010700 -> done
        cpu0 store fee000f0 4 000001ff -> done
        cpu1 store fee000f0 4 000001ff -> done
        cpu0 store fec00000 4 00000018 -> done
        cpu0 store fec00010 4 00000034 -> done
        dev0 reroute 4=pic.4 4=io.4 24=msi.fee01000.00000041 25=msi.fee00000.00004042 -> done
        dev0 assign 0 24 -> done
        dev0 assign 1 25 -> done
        dev0 attach mem fe003000 2 2 match 0000 -> done
        cpu1 store fe003000 2 0000 -> done
        + rang 2
        dev0 take 2 -> count 1
        dev0 write 0 1 -> delivered new=2 stood=0 pic=0
        cpu1 ack -> vector 41
        cpu1 eoi -> ended 41
        dev0 write 1 1 -> delivered new=1 stood=0 pic=0
        cpu0 ack -> vector 42
        cpu0 eoi -> ended 42
        dev1 line 4 0 up -> delivered new=1 stood=0 pic=0
        dev1 line 4 0 down -> lowered
        cpu0 ack -> vector 34
        cpu0 eoi -> ended 34
        + acked io 4 gsi 4
        ",
    ),
];

#[test]
fn chips_are_played(rt: HostRuntime) -> Result<(), Fail> {
    all_play(rt.alloc(), &TABLES)
}
