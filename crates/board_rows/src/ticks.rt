//! Ticks and their reinjection, after KVM's reinjection of the 8254's ticks; the rules are this board's own.
use crate::plays::all_play;
use std::test::Fail;

// The tables, with their names.
const TABLES: [(&str, &str); 4] = [
    // Ticks that fall while one is outstanding are held back, and each acknowledge injects the next.
    (
        "ticks_are_reinjected",
        "
        cpus 1
        cpu0 out 0020 1 11 -> done
        cpu0 out 0021 1 20 -> done
        cpu0 out 0021 1 04 -> done
        cpu0 out 0021 1 01 -> done
        dev0 tick -> delivered new=0 stood=0 pic=1
        dev0 tick -> held 2
        dev0 tick -> held 3
        cpu0 ack -> extint 20
        cpu0 out 00a0 1 20 -> done
        cpu0 out 0020 1 20 -> done
        + acked pic 0 gsi 0
        + injected gsi 0 delivered new=0 stood=0 pic=1
        cpu0 ack -> extint 20
        cpu0 out 00a0 1 20 -> done
        cpu0 out 0020 1 20 -> done
        + acked pic 0 gsi 0
        + injected gsi 0 delivered new=0 stood=0 pic=1
        cpu0 ack -> extint 20
        cpu0 out 00a0 1 20 -> done
        cpu0 out 0020 1 20 -> done
        + acked pic 0 gsi 0
        ",
    ),
    // Ticks on a masked pin are ignored, none being outstanding.
    (
        "ticks_on_a_masked_pin",
        "
        cpus 1
        dev0 tick -> ignored masked
        dev0 tick -> ignored masked
        dev0 tick -> ignored masked
        ",
    ),
    // Without reinjection each tick is injected, and an acknowledge injects nothing.
    (
        "ticks_without_reinjection",
        "
        cpus 1
        cpu0 out 0020 1 11 -> done
        cpu0 out 0021 1 20 -> done
        cpu0 out 0021 1 04 -> done
        cpu0 out 0021 1 01 -> done
        dev0 tickmode off -> done
        dev0 tick -> delivered new=0 stood=0 pic=1
        dev0 tick -> coalesced stood=0
        cpu0 ack -> extint 20
        cpu0 out 00a0 1 20 -> done
        cpu0 out 0020 1 20 -> done
        + acked pic 0 gsi 0
        cpu0 ack -> nothing
        dev0 tickmode on -> done
        dev0 tick -> delivered new=0 stood=0 pic=1
        dev0 tick -> held 2
        ",
    ),
    // The header names another GSI for the tick, which the I/O APIC takes.
    (
        "a_tick_on_another_gsi",
        "
        cpus 1
        tick 20
        cpu0 store fee000f0 4 000001ff -> done
        cpu0 store fec00000 4 00000038 -> done
        cpu0 store fec00010 4 00000055 -> done
        dev0 tick -> delivered new=1 stood=0 pic=0
        dev0 tick -> held 2
        cpu0 ack -> vector 55
        cpu0 eoi -> ended 55
        + acked io 20 gsi 20
        + injected gsi 20 delivered new=1 stood=0 pic=0
        ",
    ),
];

#[test]
fn ticks_are_played(rt: HostRuntime) -> Result<(), Fail> {
    all_play(rt.alloc(), &TABLES)
}
