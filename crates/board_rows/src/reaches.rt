//! Which parts a call reaches, as `Board::reach` tells it before the call. The table of reaches is this board's own.
use crate::plays::all_play;
use std::test::Fail;

// The tables, with their names.
const TABLES: [(&str, &str); 4] = [
    // Signals reach the chips on which their GSI has pins, and the local APICs of what is sent; a fall sends nothing.
    (
        "of_signals",
        "
        cpus 2
        cpu0 store fec00000 4 0000002a -> done
        cpu0 store fec00010 4 00000061 -> done
        dev0 line 13 0 up reaches pic ioapic lapic0
        dev0 line 13 0 down reaches pic ioapic
        dev0 line 5 0 up reaches pic ioapic
        dev0 line 20 0 up reaches ioapic
        dev0 line 24 0 up reaches nothing
        dev0 line 4096 0 up reaches nothing
        dev0 msi fee01000 00000041 reaches lapic1
        dev0 msi fee09000 00000041 reaches nothing
        dev0 msi feeff000 00000041 reaches lapic0 lapic1
        dev0 msi fee01004 00000041 reaches lapic0 lapic1
        dev0 msi fee01000 00000541 reaches nothing
        dev0 tick reaches tick pic ioapic
        dev0 tickmode on reaches tick
        ",
    ),
    // Counters, irqfds and other registrations.
    (
        "of_registrations",
        "
        cpus 2
        dev0 reroute 24=msi.fee01000.00000041 5=pic.5 reaches registry pic ioapic
        dev0 reroute 24=msi.fee01000.00000041 5=pic.5 -> done
        dev0 write 3 1 reaches counters
        dev0 take 3 reaches counters
        dev0 write 16 1 reaches nothing
        dev0 assign 3 24 reaches registry counters
        dev0 write 3 1 -> done
        dev0 assign 3 24 reaches registry counters lapic1
        dev0 assign 3 24 -> done
        + injected gsi 24 ignored no-processor
        dev0 write 3 1 reaches lapic1
        dev0 write 3 0 reaches nothing
        dev0 assign 4 5 resample 6 -> done
        dev0 deassign 4 5 reaches registry pic
        dev0 deassign 3 24 reaches registry
        dev0 watch 7 5 reaches registry
        dev0 unwatch 7 5 reaches registry
        dev0 attach port c050 1 7 -> done
        dev0 detach port c050 1 7 reaches registry
        cpu1 out c050 1 00 reaches registry counters
        cpu1 out c051 1 00 reaches registry
        cpu1 in c050 1 reaches nothing
        ",
    ),
    // A processor's own accesses and acknowledges.
    (
        "of_processors",
        "
        cpus 2
        cpu0 store fee000f0 4 000001ff -> done
        cpu1 store fee000f0 4 000001ff -> done
        cpu0 in 0021 1 reaches pic
        cpu1 load fee00080 4 reaches lapic1
        cpu1 load fec00010 4 reaches ioapic
        cpu0 ack reaches pic lapic0
        cpu1 ack reaches lapic1
        cpu0 inta reaches pic
        cpu1 eoi reaches lapic1
        cpu1 store fee00300 4 000c0041 reaches lapic0 lapic1
        cpu1 store fee00300 4 00040041 reaches lapic1
        dev0 msi fee01000 00000041 -> delivered new=2 stood=0 pic=0
        cpu1 ack -> vector 41
        cpu1 eoi reaches ioapic lapic1
        cpu1 store fee000b0 4 00000000 reaches ioapic lapic1
        cpu0 store fee00350 4 00010700 -> done
        cpu0 ack reaches lapic0
        ",
    ),
    // The end of an interrupt whose GSI is marked reaches all that an acknowledge may tell, and whom a level is sent to again.
    (
        "of_marked_acknowledges",
        "
        cpus 2
        cpu0 out 0020 1 11 -> done
        cpu0 out 0021 1 20 -> done
        cpu0 out 0021 1 04 -> done
        cpu0 out 0021 1 01 -> done
        cpu0 out 00a0 1 11 -> done
        cpu0 out 00a1 1 28 -> done
        cpu0 out 00a1 1 02 -> done
        cpu0 out 00a1 1 01 -> done
        cpu0 store fee000f0 4 000001ff -> done
        cpu1 store fee000f0 4 000001ff -> done
        dev0 line 1 0 up -> delivered new=0 stood=0 pic=1
        cpu0 ack -> extint 21
        cpu0 out 0020 1 20 reaches pic
        dev0 watch 3 1 -> done
        cpu0 out 0020 1 20 reaches registry counters tick pic ioapic
        cpu0 out 00a1 1 ff -> done
        cpu0 store fec00000 4 00000025 -> done
        cpu0 store fec00010 4 01000000 -> done
        cpu0 store fec00000 4 00000024 -> done
        cpu0 store fec00010 4 00008051 -> done
        dev0 line 10 0 up -> delivered new=2 stood=0 pic=0
        cpu1 ack -> vector 51
        cpu1 eoi reaches ioapic lapic1
        cpu0 store fec00000 4 00000025 -> done
        cpu0 store fec00010 4 00000000 -> done
        cpu1 eoi reaches ioapic lapic0 lapic1
        ",
    ),
];

#[test]
fn reaches_are_played(rt: HostRuntime) -> Result<(), Fail> {
    all_play(rt.alloc(), &TABLES)
}
