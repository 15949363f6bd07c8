//! Scripts whose actors run side by side, with the board that is left.
use crate::asking::{Came, FIRST_SCRIPT, ask};
use crate::meeting::Meeting;
use io_edge::{Gate, MemSink, MemSource, OpenGate};
use irq_base::Spent;
use irqboard::Outcome;
use std::alloc::{AllocError, Global};
use std::sync::Wait;
use std::test::Fail;
use std::thread::Threads;

// What comes of the words over these bytes.
fn came<R: Threads + Wait + Sync, G: Gate>(
    rt: &R,
    alloc: Global,
    line: &str,
    input: Vec<u8>,
    gate: &G,
) -> Result<Came, AllocError> {
    let source = MemSource::of(input, 4096, Vec::new(alloc));
    match MemSink::of(alloc, 1 << 22, 4096, Vec::new(alloc)) {
        Ok(sink) => ask(rt, alloc, line, source, sink, gate),
        Err(_) => Err(AllocError),
    }
}

// Whether the transcript ends with the line of that outcome and so many entries.
fn is_ended(
    alloc: Global,
    transcript: &[u8],
    outcome: Outcome,
    entries: u64,
) -> Result<bool, AllocError> {
    let word = if outcome == Outcome::Fine {
        "end"
    } else {
        "spent"
    };
    let line = format!(in alloc; "{word} {entries}\n")?;
    Ok(transcript.ends_with(line.as_bytes()))
}

// Whether a check says that these bytes are a legal run of the script.
fn is_legal<R: Threads + Wait + Sync>(
    rt: &R,
    alloc: Global,
    script: &[u8],
    transcript: &[u8],
) -> Result<bool, AllocError> {
    let mut both = script.to_vec(alloc)?;
    both.extend_from_slice(transcript)?;
    let came = came(rt, alloc, "check", both, &OpenGate)?;
    Ok(came.sink.bytes() == b"legal\n".as_slice())
}

// The outcome and the entries of a run of the script; none where a check does not say that it is legal, or where its last line tells not as many
// entries as the board has that is left.
fn run<R: Threads + Wait + Sync, G: Gate>(
    rt: &R,
    alloc: Global,
    script: &[u8],
    gate: &G,
) -> Result<Option<(Outcome, u64)>, AllocError> {
    let ran = came(rt, alloc, "run", script.to_vec(alloc)?, gate)?;
    let outcome = ran.outcome;
    let Some(entries) = ran.entries else {
        return Ok(None);
    };
    let transcript = ran.sink.bytes();
    if is_ended(alloc, transcript, outcome, entries)? && is_legal(rt, alloc, script, transcript)? {
        Ok(Some((outcome, entries)))
    } else {
        Ok(None)
    }
}

// Scripts, with the limit that is told and the entries: of one actor, of none, of one that a limit stops, of three of which it stops some, and
// where both limits are reached.
const RUNS: [(&str, Option<Spent>, u64); 9] = [
    (FIRST_SCRIPT, None, 4),
    ("irqboard 1\ncpus 1\nend\n", None, 0),
    (
        "irqboard 1\ncpus 1\ncalls 2\ncpu0 repeat 3 load fee00030 4\nend\n",
        Some(Spent::Calls { at: 2 }),
        2,
    ),
    (
        "irqboard 1\ncpus 2\ncalls 3\ncpu0 store fee000f0 4 000001ff\ncpu0 msi fee00000 00000041\ncpu1 store fee000f0 4 000001ff\ncpu1 msi fee00000 00000042\ndev0 tick\nend\n",
        Some(Spent::Calls { at: 3 }),
        3,
    ),
    // on a board of one call and no publication: no call is left, and no publication was
    (
        "irqboard 1\ncpus 1\ncalls 1\npublications 0\ncpu0 repeat 2 ack\nend\n",
        Some(Spent::Calls { at: 1 }),
        1,
    ),
    // a publication, where a call is left
    (
        "irqboard 1\ncpus 1\ncalls 1\npublications 0\ndev0 watch 3 8\nend\n",
        Some(Spent::Publications { at: 0 }),
        0,
    ),
    // a publication, where neither is left
    (
        "irqboard 1\ncpus 1\ncalls 1\npublications 0\ndev0 take 2\ndev0 watch 3 8\nend\n",
        Some(Spent::Calls { at: 1 }),
        1,
    ),
    // one that the board refuses is none
    (
        "irqboard 1\ncpus 1\ncalls 1\npublications 0\ndev0 watch 3 4096\ndev0 watch 3 8\nend\n",
        Some(Spent::Calls { at: 1 }),
        1,
    ),
    // two actors are stopped, of which the first is told
    (
        "irqboard 1\ncpus 1\ncalls 1\npublications 0\ncpu0 repeat 2 ack\ndev0 watch 3 8\nend\n",
        Some(Spent::Calls { at: 1 }),
        1,
    ),
];

// Whether a run of the script is told that limit, or none, and has so many entries.
fn runs_so<R: Threads + Wait + Sync>(
    rt: &R,
    alloc: Global,
    script: &str,
    limit: Option<Spent>,
    entries: u64,
) -> Result<bool, AllocError> {
    let outcome = match limit {
        None => Outcome::Fine,
        Some(spent) => Outcome::Spent { spent },
    };
    Ok(run(rt, alloc, script.as_bytes(), &OpenGate)? == Some((outcome, entries)))
}

#[test]
fn runs_leave_their_boards(rt: HostRuntime) -> Result<(), Fail> {
    for (script, limit, entries) in RUNS {
        assert!(rt;
            runs_so(&rt, rt.alloc(), script, limit, entries)?,
            "{script}"
        );
    }
    Ok(())
}

// Two processors send each other a message, and a device replaces the routing.
const MEETING: &str =
    "irqboard 1\ncpus 2\ncpu0 store fee000f0 4 000001ff\ncpu1 store fee000f0 4 000001ff\ncpu0 msi fee01000 00000041\ncpu1 msi fee00000 00000042\ndev0 reroute 24=msi.fee00000.00000043\nend\n";

#[test]
fn actors_of_a_run_meet(rt: HostRuntime) -> Result<(), Fail> {
    let gate = Meeting::new();
    let ran = run(&rt, rt.alloc(), MEETING.as_bytes(), &gate)?;
    assert!(rt; ran == Some((Outcome::Fine, 5)) && !gate.has_note());
    Ok(())
}

// Four processors serve and four devices signal: messages, a level line with a resampler, and a trigger whose routing is replaced while
// it is written.
const EIGHT: &str =
    "irqboard 1\ncpus 4\ncpu0 store fee000f0 4 000001ff\ncpu1 store fee000f0 4 000001ff\ncpu2 store fee000f0 4 000001ff\ncpu3 store fee000f0 4 000001ff\ncpu0 store fec00000 4 00000022\ncpu0 store fec00010 4 00008041\ndev0 assign 0 24\ndev0 repeat 40 reroute 9=io.9 24=msi.fee01000.00000051\ndev0 repeat 40 reroute 9=io.9 24=msi.fee02000.00000052\ndev1 repeat 200 write 0 1\ndev2 assign 1 9 resample 2\ndev2 repeat 100 write 1 1\ndev3 repeat 200 msi fee03000 00000061\ncpu0 serve 60\ncpu1 serve 60\ncpu2 serve 60\ncpu3 serve 60\ncpu0 repeat 40 eoi\ndev2 deassign 1 9\nend\n";

#[test]
fn a_run_of_eight_actors_leaves_all_entries(rt: HostRuntime) -> Result<(), Fail> {
    let ran = run(&rt, rt.alloc(), EIGHT.as_bytes(), &OpenGate)?;
    assert!(rt; matches!(ran, Some((Outcome::Fine, entries)) if entries >= 869));
    Ok(())
}

// A generated storm of four processors and two devices, each on a thread of its own: 13 calls set the board up.
#[test]
fn a_run_of_a_storm_leaves_all_entries(rt: HostRuntime) -> Result<(), Fail> {
    let alloc = rt.alloc();
    let storm = came(&rt, alloc, "gen 3 20000 4", Vec::new(alloc), &OpenGate)?;
    let ran = run(&rt, alloc, storm.sink.bytes(), &OpenGate)?;
    assert!(rt; ran == Some((Outcome::Fine, 20_013)));
    Ok(())
}
