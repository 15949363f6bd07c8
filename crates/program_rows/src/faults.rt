//! A read or a write that fails: it is a fault, and what was written is a front of what would be.
use crate::asking::{Came, FIRST_SCRIPT, FIRST_TRANSCRIPT, ask};
use io_edge::{MemSink, MemSource, OpenGate};
use irqboard::Outcome;
use std::alloc::{AllocError, Global};
use std::sync::Wait;
use std::test::Fail;
use std::thread::Threads;

// Asks for these words over the script with this text behind it, 7 bytes at a read and 5 at a write. The read and the write of these numbers
// fail, and the sink has that much room.
fn came<R: Threads + Wait + Sync>(
    rt: &R,
    alloc: Global,
    line: &str,
    behind: &str,
    room: usize,
    read: u64,
    write: u64,
) -> Result<Came, AllocError> {
    let mut input = FIRST_SCRIPT.as_bytes().to_vec(alloc)?;
    input.extend_from_slice(behind.as_bytes())?;
    let source = MemSource::of(input, 7, [read].to_vec(alloc)?);
    match MemSink::of(alloc, room, 5, [write].to_vec(alloc)?) {
        Ok(sink) => ask(rt, alloc, line, source, sink, &OpenGate),
        Err(_) => Err(AllocError),
    }
}

// No such call is made.
const NEVER: u64 = u64::MAX;

// The words, what stands behind the script in the input, all that is written, and how many reads and writes that takes, of which the last read
// finds the end: the script has 98 bytes, the transcript 169.
const CALLS: [(&str, &str, &str, u64, u64); 4] = [
    ("replay", "", FIRST_TRANSCRIPT, 15, 34),
    ("run", "", FIRST_TRANSCRIPT, 15, 34),
    ("check", FIRST_TRANSCRIPT, "legal\n", 40, 2),
    (
        "sum 1 0 1",
        "",
        "calls 10\ndelivered 0\ncoalesced 0\nignored 0\nvectors 0\nended 0\ntaken 0\nrefused 0\n",
        0,
        16,
    ),
];

// Whether that is the outcome, and so many bytes of the text are written, or all of a shorter one.
fn is(came: &Came, outcome: Outcome, text: &str, count: u64) -> bool {
    let text = text.as_bytes();
    let count = text.len().min(count as usize);
    came.outcome == outcome && came.sink.bytes() == &text[..count]
}

// Whether a failing read of that number is a fault, and nothing is written.
fn read_fails<R: Threads + Wait + Sync>(
    rt: &R,
    alloc: Global,
    line: &str,
    behind: &str,
    read: u64,
) -> Result<bool, AllocError> {
    let came = came(rt, alloc, line, behind, 1000, read, NEVER)?;
    Ok(is(&came, Outcome::ReadFault, "", 0))
}

// Whether a failing write of that number is a fault, and all that was written before it is a front of the text.
fn write_fails<R: Threads + Wait + Sync>(
    rt: &R,
    alloc: Global,
    line: &str,
    behind: &str,
    text: &str,
    write: u64,
) -> Result<bool, AllocError> {
    let came = came(rt, alloc, line, behind, 1000, NEVER, write)?;
    Ok(is(&came, Outcome::WriteFault, text, write.saturating_mul(5)))
}

// How many of the first so many failing reads are faults.
fn read_faults<R: Threads + Wait + Sync>(
    rt: &R,
    alloc: Global,
    line: &str,
    behind: &str,
    reads: u64,
) -> Result<u64, AllocError> {
    let mut faults: u64 = 0;
    for k in 0..reads {
        faults = faults.saturating_add(u64::from(read_fails(rt, alloc, line, behind, k)?));
    }
    Ok(faults)
}

// How many of the first so many failing writes are faults behind a front of the text.
fn write_faults<R: Threads + Wait + Sync>(
    rt: &R,
    alloc: Global,
    line: &str,
    behind: &str,
    text: &str,
    writes: u64,
) -> Result<u64, AllocError> {
    let mut faults: u64 = 0;
    for k in 0..writes {
        faults = faults.saturating_add(u64::from(write_fails(rt, alloc, line, behind, text, k)?));
    }
    Ok(faults)
}

#[test]
fn each_failing_read_is_a_fault(rt: HostRuntime) -> Result<(), Fail> {
    for (line, behind, _, reads, _) in CALLS {
        assert!(rt;
            read_faults(&rt, rt.alloc(), line, behind, reads)? == reads,
            "{line}"
        );
    }
    Ok(())
}

#[test]
fn each_failing_write_is_a_fault_behind_a_front(rt: HostRuntime) -> Result<(), Fail> {
    for (line, behind, text, _, writes) in CALLS {
        assert!(rt;
            write_faults(&rt, rt.alloc(), line, behind, text, writes)? == writes,
            "{line}"
        );
    }
    Ok(())
}

// The first bytes of a generated script.
const GENERATED: &str =
    "irqboard 1\ncpus 1\ncounters 16\ncalls 2000000\ncpu0 store fee000f0 4 000001ff\ndev0 reroute 24=msi.fee00000.00000050 25=msi.fee00000.00000051 26=msi.fee00";

#[test]
fn a_call_that_comes_no_more_is_no_fault(rt: HostRuntime) -> Result<(), Fail> {
    for (line, behind, text, reads, writes) in CALLS {
        let came = came(&rt, rt.alloc(), line, behind, 1000, reads, writes)?;
        assert!(rt; is(&came, Outcome::Fine, text, 1000), "{line}");
    }
    Ok(())
}

#[test]
fn a_sink_whose_room_ends_keeps_a_front(rt: HostRuntime) -> Result<(), Fail> {
    let came = came(&rt, rt.alloc(), "gen 1 0 1", "", 150, 0, NEVER)?;
    assert!(rt; is(&came, Outcome::WriteFault, GENERATED, 150));
    Ok(())
}
