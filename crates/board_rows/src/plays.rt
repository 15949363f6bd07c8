//! A table as a test.
use row_table::fault_of;
use std::alloc::Global;
use std::test::Fail;

/// Plays a table, and fails at the first line that its board does not answer so.
pub fn plays(alloc: Global, table: &str) -> Result<(), Fail> {
    match fault_of(alloc, table)? {
        None => Ok(()),
        Some(fault) => Err(Fail::new(fault)),
    }
}

/// Plays tables with their names, and fails at the first that is not answered so.
pub fn all_play(alloc: Global, tables: &[(&str, &str)]) -> Result<(), Fail> {
    for (name, table) in tables {
        if let Some(fault) = fault_of(alloc, table)? {
            return Err(Fail::new(format!(in alloc; "{name}: {fault}")?));
        }
    }
    Ok(())
}

// Whether the table is wrong, with this fault.
fn is_wrong(alloc: Global, table: &str, fault: &str) -> bool {
    match fault_of(alloc, table) {
        Ok(Some(told)) => told.as_str() == fault,
        _ => false,
    }
}

// A line that is answered otherwise; an event too few or too many; words that are no call; no board.
#[test]
fn wrong_tables_are_told(rt: HostRuntime) {
    let alloc = rt.alloc();
    assert!(rt;
        is_wrong(
            alloc,
            "cpus 1\n# none is there\n\ncpu0 ack -> vector 41",
            "the table has: cpu0 ack -> vector 41\nthe board has: cpu0 ack -> nothing"
        )
    );
    assert!(rt;
        is_wrong(
            alloc,
            "cpus 1\ndev0 write 0 1 -> done\ndev0 assign 0 24 -> done",
            "the table has: \nthe board has: + injected gsi 24 ignored unrouted"
        )
    );
    assert!(rt;
        is_wrong(
            alloc,
            "cpus 1\ncpu0 ack -> nothing\n+ rang 1",
            "the table has: + rang 1\nthe board has: "
        )
    );
    assert!(rt;
        is_wrong(
            alloc,
            "cpus 1\ncpu1 ack -> nothing",
            "the table has: cpu1 ack -> nothing\nthe board has: cpu1 ack -> no call"
        )
    );
    assert!(rt;
        is_wrong(
            alloc,
            "cpus 65",
            "the table has: cpus 65\nthe board has: no board"
        )
    );
}
