//! Limits: of calls, of publications, of rows and of registrations. They are this board's own rule.
use crate::plays::{all_play, plays};
use std::alloc::{AllocError, Global};
use std::fmt::Write;
use std::test::Fail;

// The tables, with their names.
const TABLES: [(&str, &str); 4] = [
    // The limit of calls bars each call before all else.
    (
        "no_call_is_left",
        "
        cpus 1
        calls 5
        cpu0 load fee00030 4 -> value 00050014
        cpu0 load fee00030 4 -> value 00050014
        cpu0 load fee00030 4 -> value 00050014
        cpu0 load fee00030 4 -> value 00050014
        cpu0 load fee00030 4 -> value 00050014
        cpu0 load fee00030 4 -> spent calls 5
        dev0 take 16 -> spent calls 5
        ",
    ),
    // A refused call is a call.
    (
        "refused_calls_count",
        "
        cpus 1
        calls 1
        dev0 take 16 -> refused 2 no-counter
        dev0 take 0 -> spent calls 1
        ",
    ),
    // The limit of publications bars what would change the published words, and nothing else.
    (
        "no_publication_is_left",
        "
        cpus 1
        publications 1
        dev0 assign 0 24 -> done
        dev0 assign 1 24 -> spent publications 1
        dev0 tick -> ignored masked
        dev0 deassign 0 24 -> spent publications 1
        dev0 write 0 1 -> ignored unrouted
        ",
    ),
    // Only what would be a publication is barred: calls that are refused are not, nor is the end of an irqfd that is not there, nor
    // an ioeventfd.
    (
        "publications",
        "
        cpus 1
        publications 0
        dev0 assign 16 24 -> refused 2 no-counter
        dev0 assign 0 24 -> spent publications 0
        dev0 deassign 0 24 -> removed 0
        dev0 watch 16 8 -> refused 2 no-counter
        dev0 watch 3 8 -> spent publications 0
        dev0 unwatch 3 8 -> refused 11 not-there
        dev0 reroute 5=io.24 -> refused 3 bad-row
        dev0 reroute 5=io.5 -> spent publications 0
        dev0 attach port c050 1 4 -> done
        dev0 detach port c050 1 4 -> done
        dev0 line 5 0 up -> ignored masked
        ",
    ),
];

#[test]
fn limits_are_played(rt: HostRuntime) -> Result<(), Fail> {
    all_play(rt.alloc(), &TABLES)
}

// Lines of 256 acknowledge notifiers that are done, of 16 counters and 16 GSIs.
fn watches(alloc: Global) -> Result<String, AllocError> {
    let mut table = String::from_str(alloc, "cpus 1\n")?;
    for k in 0..256u32 {
        let counter = k % 16;
        let gsi = k / 16;
        write!(table, "dev0 watch {counter} {gsi} -> done\n")?;
    }
    Ok(table)
}

// The 257th acknowledge notifier is refused, though one that is there is refused as such.
#[test]
fn the_257th_watch(rt: HostRuntime) -> Result<(), Fail> {
    let mut table = watches(rt.alloc())?;
    table.push_str(
        "
        dev0 watch 0 16 -> refused 9 full
        dev0 watch 15 15 -> refused 10 exists
        dev0 unwatch 15 15 -> done
        dev0 watch 0 16 -> done
        dev0 watch 15 15 -> refused 9 full
        ",
    )?;
    plays(rt.alloc(), table.as_str())
}

// Lines of 256 ioeventfds that are done, at as many ports.
fn ioevents(alloc: Global) -> Result<String, AllocError> {
    let mut table = String::from_str(alloc, "cpus 1\n")?;
    for port in 0xc000..0xc100u32 {
        write!(table, "dev0 attach port {port:04x} 1 4 -> done\n")?;
    }
    Ok(table)
}

// The 257th ioeventfd is refused, though one that is there is refused as such.
#[test]
fn the_257th_ioeventfd(rt: HostRuntime) -> Result<(), Fail> {
    let mut table = ioevents(rt.alloc())?;
    table.push_str(
        "
        dev0 attach port c100 1 4 -> refused 9 full
        dev0 attach port c0ff 1 4 -> refused 10 exists
        cpu0 out c100 1 07 -> exit
        cpu0 out c0ff 1 07 -> done
        + rang 4
        dev0 detach port c0ff 1 4 -> done
        dev0 attach port c100 1 4 -> done
        cpu0 out c0ff 1 07 -> exit
        ",
    )?;
    plays(rt.alloc(), table.as_str())
}

// A table of so many rows for GSIs from 0 on, of messages, and the reply to it.
fn reroute(alloc: Global, rows: u32, reply: &str) -> Result<String, AllocError> {
    let mut table = String::from_str(alloc, "cpus 1\ndev0 reroute")?;
    for gsi in 0..rows {
        write!(table, " {gsi}=msi.fee00000.00000041")?;
    }
    write!(table, " -> {reply}\n")?;
    Ok(table)
}

// A table of 4,096 rows is taken; of 4,097 it is refused before its rows are looked at, the last of which names no GSI.
#[test]
fn rows_of_a_table(rt: HostRuntime) -> Result<(), Fail> {
    let most = reroute(rt.alloc(), 4096, "done")?;
    plays(rt.alloc(), most.as_str())?;
    let more = reroute(rt.alloc(), 4097, "refused 9 full")?;
    plays(rt.alloc(), more.as_str())
}
