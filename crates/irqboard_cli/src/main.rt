//! The program: the top call over the real ends and the words of the command line.
#![tactic(auto)]

use io_edge::{OpenGate, StdSink, StdSource};
use irqboard::{Bench, Ended, asked};
use std::env;

// A run can end in no other way than by what was asked, said and given as the exit status: `Ended` is made by these alone.
fn main(rt: HostRuntime) -> Ended {
    let mut source = StdSource::new(rt.stdin());
    let mut sink = StdSink::new(rt.stdout());
    let mut errors = StdSink::new(rt.stderr());
    let mut bench = Bench::empty();
    let answered = asked(
        &rt,
        rt.alloc(),
        env::args(&rt),
        &mut source,
        &mut sink,
        &OpenGate,
        &mut bench,
    );
    answered.said(&mut errors)
}
