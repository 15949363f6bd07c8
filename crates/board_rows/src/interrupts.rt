//! Processors: messages, merging, vectors, destinations and interprocessor interrupts.
//!
//! Expected values are those of SDM volume 3: determining IPI destination, lowest priority delivery, interrupt command
//! register, error handling.
use crate::plays::all_play;
use std::test::Fail;

// The tables, with their names.
const TABLES: [(&str, &str); 11] = [
    // A message is delivered, given and ended.
    (
        "a_message",
        "
        cpus 1
        cpu0 store fee000f0 4 000001ff -> done
        cpu0 msi fee00000 00000041 -> delivered new=1 stood=0 pic=0
        cpu0 due vector 41
        cpu0 ack -> vector 41
        cpu0 due nothing
        cpu0 eoi -> ended 41
        ",
    ),
    // A local APIC that is not enabled takes nothing.
    (
        "a_disabled_processor",
        "
        cpus 1
        cpu0 msi fee00000 00000041 -> ignored no-processor
        cpu0 ack -> nothing
        cpu0 eoi -> nothing
        ",
    ),
    // A request that stands is coalesced with the next, and given once.
    (
        "merging",
        "
        cpus 1
        cpu0 store fee000f0 4 000001ff -> done
        cpu0 msi fee00000 00000041 -> delivered new=1 stood=0 pic=0
        cpu0 msi fee00000 00000041 -> coalesced stood=1
        cpu0 ack -> vector 41
        cpu0 ack -> nothing
        ",
    ),
    // Vectors below 10h are illegal, and ESR says so.
    (
        "the_boundary_of_vectors",
        "
        cpus 1
        cpu0 store fee000f0 4 000001ff -> done
        cpu0 msi fee00000 0000000f -> ignored bad-vector
        cpu0 store fee00280 4 00000000 -> done
        cpu0 load fee00280 4 -> value 00000040
        cpu0 msi fee00000 00000010 -> delivered new=1 stood=0 pic=0
        cpu0 ack -> vector 10
        ",
    ),
    // Physical and logical destinations of four processors; one that no processor has; a logical one that all have.
    (
        "flat_destinations",
        "
        cpus 4
        cpu0 store fee000f0 4 000001ff -> done
        cpu0 store fee000d0 4 01000000 -> done
        cpu1 store fee000f0 4 000001ff -> done
        cpu1 store fee000d0 4 02000000 -> done
        cpu2 store fee000f0 4 000001ff -> done
        cpu2 store fee000d0 4 04000000 -> done
        cpu3 store fee000f0 4 000001ff -> done
        cpu3 store fee000d0 4 08000000 -> done
        dev0 msi fee00000 00000061 -> delivered new=1 stood=0 pic=0
        dev0 msi fee03004 00000061 -> delivered new=2 stood=1 pic=0
        dev0 msi fee04000 00000061 -> ignored no-processor
        dev0 msi feeff004 00000061 -> delivered new=c stood=3 pic=0
        dev0 msi feeff000 00000061 -> coalesced stood=f
        cpu3 ack -> vector 61
        ",
    ),
    // Lowest priority: the request stays with the processor of least priority, which is another while that one serves.
    (
        "lowest_priority",
        "
        cpus 3
        cpu0 store fee000f0 4 000001ff -> done
        cpu0 store fee000d0 4 01000000 -> done
        cpu1 store fee000f0 4 000001ff -> done
        cpu1 store fee000d0 4 02000000 -> done
        cpu2 store fee000f0 4 000001ff -> done
        cpu2 store fee000d0 4 04000000 -> done
        cpu0 store fee00080 4 00000020 -> done
        cpu1 store fee00080 4 00000010 -> done
        cpu2 store fee00080 4 00000030 -> done
        dev0 msi fee07004 00000162 -> delivered new=2 stood=0 pic=0
        dev0 msi fee07004 00000162 -> coalesced stood=2
        cpu1 ack -> vector 62
        dev0 msi fee07004 00000162 -> delivered new=1 stood=0 pic=0
        ",
    ),
    // Destinations in clusters; one that no processor has.
    (
        "clusters",
        "
        cpus 2
        cpu0 store fee000f0 4 000001ff -> done
        cpu0 store fee000e0 4 0fffffff -> done
        cpu1 store fee000f0 4 000001ff -> done
        cpu1 store fee000e0 4 0fffffff -> done
        cpu0 store fee000d0 4 11000000 -> done
        cpu1 store fee000d0 4 21000000 -> done
        dev0 msi fee11004 00000063 -> delivered new=1 stood=0 pic=0
        dev0 msi fee21004 00000063 -> delivered new=2 stood=0 pic=0
        dev0 msi fee31004 00000063 -> ignored no-processor
        ",
    ),
    // Interprocessor interrupts: by destination, to all but the sender, and of a mode that no local APIC takes.
    (
        "interprocessor_interrupts",
        "
        cpus 2
        cpu0 store fee000f0 4 000001ff -> done
        cpu1 store fee000f0 4 000001ff -> done
        cpu0 store fee00310 4 01000000 -> done
        cpu0 store fee00300 4 00000044 -> done
        + ipi delivered new=2 stood=0 pic=0
        cpu1 ack -> vector 44
        cpu0 store fee00300 4 000c0045 -> done
        + ipi delivered new=2 stood=0 pic=0
        cpu0 store fee00300 4 00000500 -> done
        + ipi ignored mode
        ",
    ),
    // An NMI is given before all else, by a processor that is not enabled too.
    (
        "a_nonmaskable_interrupt",
        "
        cpus 1
        dev0 msi fee00000 00000400 -> delivered new=1 stood=0 pic=0
        dev0 msi fee00000 00000400 -> coalesced stood=1
        cpu0 due nmi
        cpu0 ack -> nmi
        cpu0 ack -> nothing
        ",
    ),
    // The shorthands: to the sender alone, to all, and to all but the sender; an NMI by one of them.
    (
        "shorthands",
        "
        cpus 2
        cpu0 store fee000f0 4 000001ff -> done
        cpu1 store fee000f0 4 000001ff -> done
        cpu1 store fee00300 4 00040051 -> done
        + ipi delivered new=2 stood=0 pic=0
        cpu1 store fee00300 4 00080051 -> done
        + ipi delivered new=1 stood=2 pic=0
        cpu0 ack -> vector 51
        cpu1 ack -> vector 51
        cpu0 store fee00300 4 000c0400 -> done
        + ipi delivered new=2 stood=0 pic=0
        cpu0 store fee00300 4 000c0400 -> done
        + ipi coalesced stood=2
        cpu0 ack -> nothing
        cpu1 ack -> nmi
        ",
    ),
    // An illegal vector is recorded by each processor that is named, and shows in ESR after a write of it; the sender of an interprocessor
    // interrupt records nothing as such, which is this board's own rule.
    (
        "illegal_vectors",
        "
        cpus 3
        cpu0 store fee000f0 4 000001ff -> done
        cpu1 store fee000f0 4 000001ff -> done
        cpu2 store fee000f0 4 000001ff -> done
        dev0 msi fee01000 0000000f -> ignored bad-vector
        cpu0 store fee00300 4 000c000e -> done
        + ipi ignored bad-vector
        cpu0 store fee00280 4 00000000 -> done
        cpu0 load fee00280 4 -> value 00000000
        cpu2 load fee00280 4 -> value 00000000
        cpu2 store fee00280 4 00000000 -> done
        cpu2 load fee00280 4 -> value 00000040
        cpu2 store fee00280 4 00000000 -> done
        cpu2 load fee00280 4 -> value 00000000
        ",
    ),
];

#[test]
fn interrupts_are_played(rt: HostRuntime) -> Result<(), Fail> {
    all_play(rt.alloc(), &TABLES)
}
