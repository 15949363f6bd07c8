//! Runs of the program: texts of a command line in, a line on standard error and an exit status out.
use crate::asking::{FIRST_SCRIPT, FIRST_TRANSCRIPT};
use io_edge::{MemSink, MemSource, OpenGate};
use irqboard::{Bench, asked};
use std::alloc::{AllocError, Global};
use std::env::Args;
use std::io;
use std::process::{ExitCode, Termination};
use std::sync::Wait;
use std::test::Fail;
use std::thread::Threads;

// The texts of a command line, which spaces part here, the name first; or why they are not to be had.
#[derive(Clone, Copy)]
enum Texts {
    Are(&'static str),
    NoMemory,
    NoText,
}

// The usage line.
const USAGE: &str =
    "usage: irqboard replay | run | check | gen START LINES CPUS | sum START LINES CPUS\n";

// No such write is made.
const NEVER: u64 = u64::MAX;

// The texts, the write of standard error that fails, the exit status, and what is said, of which the first write takes 50 bytes. A fault of
// standard error changes no status.
const RUNS: [(Texts, u64, u8, &str); 12] = [
    (Texts::Are("irqboard replay"), 0, 0, ""),
    (Texts::Are("irqboard run"), 0, 0, ""),
    (Texts::Are("run run"), 0, 0, ""),
    (Texts::Are("replay replay"), 0, 0, ""),
    (Texts::Are("replay"), NEVER, 1, USAGE),
    (Texts::Are("irqboard"), NEVER, 1, USAGE),
    (Texts::Are(""), NEVER, 1, USAGE),
    (Texts::Are("irqboard replay replay"), NEVER, 1, USAGE),
    (Texts::Are("irqboard"), 0, 1, ""),
    (
        Texts::Are("irqboard"),
        1,
        1,
        "usage: irqboard replay | run | check | gen START L",
    ),
    (Texts::NoMemory, NEVER, 5, "no memory\n"),
    (Texts::NoText, NEVER, 1, USAGE),
];

// The texts as the program gets them.
fn args(alloc: Global, texts: Texts) -> Result<io::Result<Args>, AllocError> {
    let line = match texts {
        Texts::Are(line) => line,
        Texts::NoMemory => return Ok(Err(io::Error::from(io::ErrorKind::OutOfMemory))),
        Texts::NoText => return Ok(Err(io::Error::from(io::ErrorKind::InvalidData))),
    };
    let mut texts = Vec::new(alloc);
    for text in line.split_whitespace() {
        texts.push(String::from_str(alloc, text)?)?;
    }
    Ok(Ok(texts.into_iter()))
}

// A sink with room for all that is said or written, which takes 50 bytes at a write.
fn sink(alloc: Global, write: u64) -> Result<MemSink, AllocError> {
    let fails = [write].to_vec(alloc)?;
    match MemSink::of(alloc, 1000, 50, fails) {
        Ok(sink) => Ok(sink),
        Err(_) => Err(AllocError),
    }
}

// Whether the program ends with that status over the first script, says that, and writes the transcript where the status is 0, else nothing.
fn ends_so<R: Threads + Wait + Sync + Eprint>(
    rt: &R,
    alloc: Global,
    texts: Texts,
    write: u64,
    status: u8,
    said: &str,
) -> Result<bool, AllocError> {
    let mut source = MemSource::of(FIRST_SCRIPT.as_bytes().to_vec(alloc)?, 7, Vec::new(alloc));
    let mut output = sink(alloc, NEVER)?;
    let mut errors = sink(alloc, write)?;
    let mut bench = Bench::empty();
    let texts = args(alloc, texts)?;
    let ended = asked(
        rt,
        alloc,
        texts,
        &mut source,
        &mut output,
        &OpenGate,
        &mut bench,
    )
    .said(&mut errors);
    let written = if status == 0 { FIRST_TRANSCRIPT } else { "" };
    Ok(
        ended.report(rt) == ExitCode::from(status)
            && errors.bytes() == said.as_bytes()
            && output.bytes() == written.as_bytes(),
    )
}

#[test]
fn runs_end_as_the_answer_is(rt: HostRuntime) -> Result<(), Fail> {
    for (texts, write, status, said) in RUNS {
        assert!(rt;
            ends_so(&rt, rt.alloc(), texts, write, status, said)?,
            "{said}"
        );
    }
    Ok(())
}
