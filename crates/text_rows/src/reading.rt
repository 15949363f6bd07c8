//! What is read of texts: the numbers of a script, and transcripts that are printed again.
ghost use Rattle.std.specs.Prelude.{◌≡◌, ℕ, Ok, IfSome};
ghost use Rattle.transcript.specs.Reading.{transcript_of};
ghost use Rattle.transcript.specs.Text.{text_of};

use irq_base::Shape;
use script_text::{ScriptFault, parse};
use std::alloc::Global;
use transcript::{Transcript, print, read, texts_are_read, transcripts_fit};

/// A shape of one processor, with the numbers that stand for headers that are left out.
const DEFAULTS: Shape = Shape {
    cpus: 1,
    counters: 16,
    tick: 0,
    calls: 1_000_000,
    publications: 1_048_576,
};

// Scripts, each with its shape, its actors and its lines: no header, all of them, and each at its least and at its greatest number.
const SCRIPTS: [(&str, Shape, usize, usize); 4] = [
    (
        "# a comment\n\nirqboard 1\n#\ncpus 64\n\n\n# end\nend\n",
        Shape {
            cpus: 64,
            ..DEFAULTS
        },
        0,
        0,
    ),
    (
        "irqboard 1\ncpus 1\ncounters 256\ntick 4095\ncalls 4000000\npublications 0\n#\ncpu0 ack\n\ncpu0 eoi\nend\n",
        Shape {
            cpus: 1,
            counters: 256,
            tick: 4095,
            calls: 4_000_000,
            publications: 0,
        },
        1,
        2,
    ),
    (
        "irqboard 1\ncpus 1\ncounters 0\ntick 0\ncalls 1\nend\n",
        Shape {
            counters: 0,
            calls: 1,
            ..DEFAULTS
        },
        0,
        0,
    ),
    (
        "irqboard 1\ncpus 64\ncounters 256\ntick 4095\ncalls 4000000\npublications 1048576\nend\n",
        Shape {
            cpus: 64,
            counters: 256,
            tick: 4095,
            calls: 4_000_000,
            publications: 1_048_576,
        },
        0,
        0,
    ),
];

// The shape of a script, its actors and its lines.
fn numbers(alloc: Global, text: &str) -> Option<(Shape, usize, usize)> {
    let bytes = text.as_bytes();
    if bytes.len() >= 0xffff_ffff {
        return None;
    }
    let script = parse(alloc, bytes).ok()?;
    Some((script.shape(), script.actors(), script.lines()))
}

#[test]
fn scripts_have_their_numbers(rt: HostRuntime) {
    for (text, shape, actors, lines) in SCRIPTS {
        assert!(rt;
            numbers(rt.alloc(), text) == Some((shape, actors, lines)),
            "{text}"
        );
    }
}

// Transcripts: two without entries; a message; every kind of call, reply and event; and values, whose width is that of the length in the call.
const TRANSCRIPTS: [&str; 9] = [
    "transcript 1\nend 0\n",
    "transcript 1\nspent 0\n",
    "transcript 1\n\
    0 cpu0 store fee000f0 4 000001ff -> done\n\
    1 dev0 msi fee00000 00000041 -> delivered new=1 stood=0 pic=0\n2 cpu0 ack -> vector 41\n\
    3 cpu0 eoi -> ended 41\nend 4\n",
    "transcript 1\n\
    0 dev0 line 5 0 up -> delivered new=0 stood=0 pic=1\n+ acked pic 5 gsi 5\n\
    + acked io 23 gsi -\n+ resampled 1\n+ watched 65535\n+ rang 0\n+ injected gsi 9 lowered\n\
    + resent 3 coalesced stood=ff00000000000001\n\
    + ipi delivered new=8000000000000000 stood=a pic=0\n\
    1 dev65535 line 4095 7 down -> lowered\n2 cpu63 ack -> nmi\n3 cpu0 ack -> extint 08\n\
    4 cpu0 eoi -> nothing\n5 dev1 take 3 -> count 18446744073709551614\n\
    6 dev1 take 3 -> empty\n7 dev1 tick -> held 12\n8 dev1 deassign 1 2 -> removed 1\n\
    9 cpu0 in 0020 1 -> value 0f\n10 cpu0 load 1fee00000 8 -> value 00000000000000ff\n\
    11 cpu0 load fee00000 0 -> value f\n12 cpu0 out c050 2 0001 -> exit\n+ rang 4\n\
    13 dev2 write 7 1 -> refused 2 no-counter\n\
    14 dev2 reroute 5=pic.3 5=io.4 6=msi.fee00000.00000041 -> refused 17 bad-msi\n\
    15 dev2 reroute -> done\n16 dev2 attach port c050 2 4 match 0001 -> done\n\
    17 dev2 attach mem fee01000 0 4 -> refused 13 chip-address\n\
    18 dev2 detach mem fee01000 8 4 match 0000000000000001 -> done\n\
    19 dev2 assign 1 2 resample 3 -> done\n20 dev2 watch 1 2 -> done\n\
    21 dev2 unwatch 1 2 -> refused 11 not-there\n22 dev2 tickmode on -> done\n\
    23 dev2 tickmode off -> done\n24 cpu0 inta -> vector 07\n\
    25 dev2 msi fee00000 00000000 -> ignored bad-vector\nspent 26\n",
    "transcript 1\n0 cpu60000 attach port c050 2 4 -> value 0005\nend 1\n",
    "transcript 1\n0 cpu60000 in 0020 3 -> value 000005\nend 1\n",
    "transcript 1\n0 cpu60000 load 0000c050 200 -> value 0000000000000005\nend 1\n",
    "transcript 1\n0 cpu60000 load 0000c050 0 -> value 5\nend 1\n",
    "transcript 1\n0 cpu60000 ack -> value 5\nend 1\n",
];

// The run as its text is read; none only where memory is short or the text is long.
fn again(alloc: Global, run: &Transcript, first: u32) -> Option<Transcript>
    ensures { IfSome result (λ again. again ≡ run.now) }
{
    let Ok(text) = print(alloc, run) else {
        return None;
    };
    if text.as_slice().len() > 3000 || first > 1000 {
        return None;
    }
    match read(alloc, text.as_slice(), first) {
        Ok(again) => Some(again),
        Err(ScriptFault::NoMemory) => None,
        Err(ScriptFault::BadLine { .. }) => unreachable!(),
    }
}

// The law of texts serves each run.
fn is_its_text(run: &Transcript)
    ensures { (first : ℕ) → transcript_of first (text_of run.now) ≡ Ok run.now }
{
    transcripts_fit(run);
    texts_are_read();
}

// Whether the text is read, printed again, and then read again.
fn is_read(alloc: Global, text: &str) -> bool {
    let bytes = text.as_bytes();
    if bytes.len() > 3000 {
        return false;
    }
    match read(alloc, bytes, 1) {
        Ok(run) => {
            is_its_text(&run);
            match print(alloc, &run) {
                Ok(printed) => printed.as_slice() == bytes && again(alloc, &run, 7).is_some(),
                Err(_) => false,
            }
        }
        Err(_) => false,
    }
}

#[test]
fn transcripts_are_read_and_printed_again(rt: HostRuntime) {
    for text in TRANSCRIPTS {
        assert!(rt; is_read(rt.alloc(), text), "{text}");
    }
}
