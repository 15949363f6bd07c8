//! Refusals, in the order in which they are tried: of the arguments' range, and then the later ones; each leaves the board as it was.
//!
//! The order, and which of them there are, is this board's own rule.
use crate::plays::all_play;
use std::test::Fail;

// The tables, with their names.
const TABLES: [(&str, &str); 9] = [
    // Lines: no such GSI, and then no such line. No pin is raised.
    (
        "of_lines",
        "
        cpus 1
        cpu0 out 04d0 1 60 -> done
        dev0 line 4096 8 up -> refused 1 no-gsi
        dev0 line 4096 8 down -> refused 1 no-gsi
        dev0 line 5 8 up -> refused 16 no-line
        cpu0 in 0020 1 -> value 00
        dev0 line 5 7 up -> ignored masked
        dev0 line 5 8 down -> refused 16 no-line
        cpu0 in 0020 1 -> value 20
        ",
    ),
    // Messages: an address that is not that of a message. Nothing is requested.
    (
        "of_messages",
        "
        cpus 1
        cpu0 store fee000f0 4 000001ff -> done
        dev0 msi fed00000 00000041 -> refused 17 bad-msi
        dev0 msi fef00000 00000041 -> refused 17 bad-msi
        dev0 msi 1fee00000 00000041 -> refused 17 bad-msi
        cpu0 ack -> nothing
        ",
    ),
    // Counts: no such counter, a count that no counter holds, and then one that is too much. The count stays.
    (
        "of_counts",
        "
        cpus 1
        dev0 write 16 18446744073709551615 -> refused 2 no-counter
        dev0 write 7 18446744073709551615 -> refused 15 bad-count
        dev0 take 7 -> empty
        dev0 write 7 18446744073709551614 -> done
        dev0 write 7 18446744073709551615 -> refused 15 bad-count
        dev0 write 7 1 -> refused 14 over
        dev0 take 16 -> refused 2 no-counter
        dev0 take 7 -> count 18446744073709551614
        ",
    ),
    // irqfds: no such counter as trigger, no such GSI, no such counter to resample; then a trigger that is taken, and counters in two
    // roles. None of these is there afterwards.
    (
        "of_irqfds",
        "
        cpus 1
        dev0 assign 16 4096 resample 16 -> refused 2 no-counter
        dev0 assign 0 4096 resample 16 -> refused 1 no-gsi
        dev0 assign 0 24 resample 16 -> refused 2 no-counter
        dev0 assign 0 24 -> done
        dev0 assign 0 25 resample 0 -> refused 7 busy
        dev0 deassign 0 25 -> removed 0
        dev0 assign 1 24 resample 1 -> refused 8 role-clash
        dev0 assign 1 24 resample 0 -> refused 8 role-clash
        dev0 deassign 1 24 -> removed 0
        dev0 assign 2 25 resample 3 -> done
        dev0 assign 3 25 -> refused 8 role-clash
        dev0 deassign 3 25 -> removed 0
        dev0 watch 4 25 -> done
        dev0 assign 4 25 -> refused 8 role-clash
        dev0 deassign 4 25 -> removed 0
        dev0 deassign 16 4096 -> refused 2 no-counter
        dev0 deassign 0 4096 -> refused 1 no-gsi
        dev0 deassign 0 24 -> removed 1
        ",
    ),
    // Rows of a table, in their order, each by the first of these that fits it: no such GSI, no such pin, no address of a message, a second
    // pin of a chip, a message beside another row, a pin that an earlier row names. The table stays.
    (
        "of_rows",
        "
        cpus 1
        cpu0 out 04d0 1 60 -> done
        dev0 reroute 4096=io.24 -> refused 1 no-gsi
        dev0 reroute 4096=msi.fed00000.00000041 -> refused 1 no-gsi
        dev0 reroute 5=io.24 4096=io.1 -> refused 3 bad-row
        dev0 reroute 5=pic.16 -> refused 3 bad-row
        dev0 reroute 5=io.5 5=io.24 -> refused 3 bad-row
        dev0 reroute 5=msi.fee00000.00000041 5=pic.16 -> refused 3 bad-row
        dev0 reroute 5=io.5 5=msi.fed00000.00000041 -> refused 17 bad-msi
        dev0 reroute 9=io.9 9=io.10 -> refused 4 chip-twice
        dev0 reroute 9=pic.9 9=pic.1 -> refused 4 chip-twice
        dev0 reroute 9=io.9 9=io.9 -> refused 4 chip-twice
        dev0 reroute 5=msi.fee00000.00000041 5=io.5 -> refused 5 mixed
        dev0 reroute 5=msi.fee00000.00000041 5=msi.fee00000.00000042 -> refused 5 mixed
        dev0 reroute 4=io.4 5=msi.fee00000.00000041 5=io.4 -> refused 5 mixed
        dev0 reroute 9=io.9 8=io.9 -> refused 6 pin-twice
        dev0 line 5 0 up -> ignored masked
        cpu0 in 0020 1 -> value 20
        dev0 line 9 0 up -> ignored masked
        dev0 reroute -> done
        dev0 line 9 0 down -> ignored unrouted
        ",
    ),
    // ioeventfds: no range, no such counter, the address of a chip, and then one that collides with one that is there. None of these is
    // there afterwards.
    (
        "of_ioeventfds",
        "
        cpus 1
        dev0 attach port 0020 3 16 -> refused 12 bad-range
        dev0 attach port c050 8 16 -> refused 12 bad-range
        dev0 attach port 10000 1 16 -> refused 12 bad-range
        dev0 attach port ffff 2 16 -> refused 12 bad-range
        dev0 attach mem ffffffffffffffff 2 16 -> refused 12 bad-range
        dev0 attach port c050 0 16 match 5 -> refused 12 bad-range
        dev0 attach port c050 1 16 match 0100 -> refused 12 bad-range
        dev0 attach port 0020 1 16 -> refused 2 no-counter
        dev0 attach port 0020 1 4 -> refused 13 chip-address
        dev0 attach port 04d1 1 4 -> refused 13 chip-address
        dev0 attach mem fec000ff 1 4 -> refused 13 chip-address
        dev0 attach mem fee00fff 0 4 -> refused 13 chip-address
        dev0 attach mem fec00100 1 4 -> done
        dev0 attach mem 00000020 8 4 -> done
        dev0 attach port c050 2 4 match 0001 -> done
        dev0 attach port c050 0 5 -> refused 10 exists
        dev0 attach port c050 2 5 -> refused 10 exists
        dev0 attach port c050 2 5 match 0001 -> refused 10 exists
        dev0 attach port c050 2 5 match 0002 -> done
        cpu0 out c050 2 0001 -> done
        + rang 4
        cpu0 out c050 2 0003 -> exit
        dev0 take 5 -> empty
        dev0 detach port c050 3 16 -> refused 12 bad-range
        dev0 detach port c050 2 16 -> refused 2 no-counter
        dev0 detach port c050 2 4 -> refused 11 not-there
        dev0 detach port 0020 1 4 -> refused 11 not-there
        dev0 detach port c050 2 4 match 0001 -> done
        dev0 detach port c050 2 4 match 0001 -> refused 11 not-there
        ",
    ),
    // Acknowledge notifiers: no such counter, no such GSI, a counter that is a trigger, and one that is there.
    (
        "of_watches",
        "
        cpus 1
        cpu0 out 0020 1 11 -> done
        cpu0 out 0021 1 20 -> done
        cpu0 out 0021 1 04 -> done
        cpu0 out 0021 1 01 -> done
        cpu0 out 00a0 1 11 -> done
        cpu0 out 00a1 1 28 -> done
        cpu0 out 00a1 1 02 -> done
        cpu0 out 00a1 1 01 -> done
        dev0 watch 16 4096 -> refused 2 no-counter
        dev0 watch 3 4096 -> refused 1 no-gsi
        dev0 assign 0 24 -> done
        dev0 watch 0 1 -> refused 8 role-clash
        dev0 watch 3 1 -> done
        dev0 watch 3 1 -> refused 10 exists
        dev0 unwatch 16 4096 -> refused 2 no-counter
        dev0 unwatch 3 4096 -> refused 1 no-gsi
        dev0 unwatch 3 2 -> refused 11 not-there
        dev0 line 1 0 up -> delivered new=0 stood=0 pic=1
        cpu0 ack -> extint 21
        cpu0 out 0020 1 20 -> done
        + acked pic 1 gsi 1
        + watched 3
        dev0 take 3 -> count 1
        ",
    ),
    // Accesses: a length that no access of the space has, or a value that does not fit it. No register is written.
    (
        "of_accesses",
        "
        cpus 1
        cpu0 out 0021 3 000000 -> refused 12 bad-range
        cpu0 out 0021 8 00000000 -> refused 12 bad-range
        cpu0 out 0021 1 100 -> refused 12 bad-range
        cpu0 in 0021 1 -> value ff
        cpu0 in 0021 8 -> refused 12 bad-range
        cpu0 in 0021 0 -> refused 12 bad-range
        cpu0 store fee00080 3 00000020 -> refused 12 bad-range
        cpu0 store fee00080 4 100000020 -> refused 12 bad-range
        cpu0 load fee00080 4 -> value 00000000
        cpu0 load fee00080 16 -> refused 12 bad-range
        cpu0 store d0000000 8 ffffffffffffffff -> exit
        ",
    ),
    // Tables and arguments that are refused, one after another; the table stands until one is taken that has no rows.
    (
        "of_tables_and_arguments",
        "
        cpus 1
        dev0 reroute 9=io.9 9=io.10 -> refused 4 chip-twice
        dev0 reroute 9=io.9 8=io.9 -> refused 6 pin-twice
        dev0 reroute 5=msi.fee00000.00000041 5=io.5 -> refused 5 mixed
        dev0 reroute 5=io.24 -> refused 3 bad-row
        dev0 line 9 0 up -> ignored masked
        dev0 reroute -> done
        dev0 line 9 0 down -> ignored unrouted
        dev0 line 4096 0 up -> refused 1 no-gsi
        dev0 line 5 8 up -> refused 16 no-line
        dev0 msi fed00000 00000041 -> refused 17 bad-msi
        dev0 take 16 -> refused 2 no-counter
        ",
    ),
];

#[test]
fn refusals_are_played(rt: HostRuntime) -> Result<(), Fail> {
    all_play(rt.alloc(), &TABLES)
}
