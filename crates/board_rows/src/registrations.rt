//! Registrations: irqfds and their resamplers, reroutes, ioeventfds, counters and their roles.
//!
//! Expected values are those of the KVM API (KVM_IRQFD, KVM_IOEVENTFD, KVM_SET_GSI_ROUTING) and of eventfd(2).
use crate::plays::all_play;
use std::test::Fail;

// The tables, with their names.
const TABLES: [(&str, &str); 7] = [
    // Both resamplers of a GSI are signalled at its acknowledge.
    (
        "two_resamplers",
        "
        cpus 1
        cpu0 store fee000f0 4 000001ff -> done
        cpu0 store fec00000 4 00000026 -> done
        cpu0 store fec00010 4 00008054 -> done
        dev0 assign 0 11 resample 1 -> done
        dev0 assign 2 11 resample 3 -> done
        dev0 write 0 1 -> delivered new=1 stood=0 pic=0
        cpu0 ack -> vector 54
        cpu0 eoi -> ended 54
        + acked io 11 gsi 11
        + resampled 1
        + resampled 3
        dev0 take 1 -> count 1
        dev0 take 3 -> count 1
        dev0 take 1 -> empty
        ",
    ),
    // The level is held until the last resampler of the GSI ends. Pin 3 of the slave is level, and its request is read back.
    (
        "deassign_while_the_level_is_held",
        "
        cpus 1
        cpu0 out 04d1 1 08 -> done
        dev0 assign 0 11 resample 1 -> done
        dev0 assign 2 11 resample 3 -> done
        dev0 write 0 1 -> ignored masked
        cpu0 in 00a0 1 -> value 08
        dev0 deassign 0 11 -> removed 1
        cpu0 in 00a0 1 -> value 08
        dev0 deassign 2 11 -> removed 1
        cpu0 in 00a0 1 -> value 00
        dev0 write 0 5 -> done
        dev0 take 0 -> count 5
        dev0 deassign 0 11 -> removed 0
        ",
    ),
    // A reroute under a raised line lets go of the pins whose GSI moves, and raises nothing.
    (
        "a_reroute_under_a_raised_line",
        "
        cpus 1
        cpu0 out 04d0 1 60 -> done
        dev0 line 5 0 up -> ignored masked
        cpu0 in 0020 1 -> value 20
        dev0 reroute 5=pic.6 -> done
        cpu0 in 0020 1 -> value 00
        dev0 line 5 0 down -> lowered
        cpu0 in 0020 1 -> value 00
        ",
    ),
    // ioeventfds: one with a match, those that are refused, and writes that fit and that do not.
    (
        "ioevents",
        "
        cpus 1
        dev0 attach port c050 2 4 match 0001 -> done
        dev0 attach port c050 0 5 -> refused 10 exists
        dev0 attach port 0020 1 4 -> refused 13 chip-address
        dev0 attach port c050 3 4 -> refused 12 bad-range
        cpu0 out c050 2 0001 -> done
        + rang 4
        cpu0 out c050 2 0002 -> exit
        cpu0 out c050 1 01 -> exit
        dev0 take 4 -> count 1
        dev0 detach port c050 2 4 match 0001 -> done
        cpu0 out c050 2 0001 -> exit
        ",
    ),
    // An ioeventfd whose counter is a trigger, counters in two roles, and the greatest count.
    (
        "triggers_roles_and_counts",
        "
        cpus 1
        cpu0 store fee000f0 4 000001ff -> done
        dev0 reroute 24=msi.fee00000.00000045 -> done
        dev0 assign 6 24 -> done
        dev0 attach mem d0000000 4 6 -> done
        cpu0 store d0000000 4 00000001 -> done
        + rang 6
        + injected gsi 24 delivered new=1 stood=0 pic=0
        cpu0 ack -> vector 45
        dev0 take 6 -> empty
        dev0 assign 6 25 -> refused 7 busy
        dev0 assign 7 24 resample 6 -> refused 8 role-clash
        dev0 write 7 18446744073709551615 -> refused 15 bad-count
        dev0 write 7 18446744073709551614 -> done
        dev0 write 7 1 -> refused 14 over
        dev0 take 7 -> count 18446744073709551614
        dev0 take 7 -> empty
        ",
    ),
    // A count that an irqfd finds at its trigger injects once, and a write of 0 gives no signal.
    (
        "a_count_before_the_irqfd",
        "
        cpus 1
        dev0 write 0 3 -> done
        dev0 assign 0 24 -> done
        + injected gsi 24 ignored unrouted
        dev0 take 0 -> empty
        dev0 write 0 0 -> done
        dev0 take 0 -> empty
        ",
    ),
    // A counter that stands at the greatest count stays there when it is signalled, and the event is told.
    (
        "a_full_counter_that_is_signalled",
        "
        cpus 1
        dev0 attach port c050 1 4 -> done
        dev0 write 4 18446744073709551614 -> done
        cpu0 out c050 1 07 -> done
        + rang 4
        dev0 take 4 -> count 18446744073709551614
        ",
    ),
];

#[test]
fn registrations_are_played(rt: HostRuntime) -> Result<(), Fail> {
    all_play(rt.alloc(), &TABLES)
}
