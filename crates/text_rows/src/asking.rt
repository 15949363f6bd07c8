//! What the actors of a script ask, by the replies that they get, which no board need give.
use irq_base::{Caller, Reply};
use script_text::{Progress, Script, parse, push_call};
use std::alloc::Global;
use std::test::Fail;

const SCRIPT: &str =
    "irqboard 1\ncpus 2\ncpu1 ack\ndev5 take 1\n# a comment\ncpu1 repeat 2 eoi\ncpu0 inta\ncpu1 serve 3\ndev5 tick\nend\n";

// The actor, the call that it asks next, and the reply that it gets.
const STEPS: [(usize, &str, Reply); 15] = [
    (0, " ack", Reply::Vector(0x41)),
    (1, " take 1", Reply::Empty),
    (0, " eoi", Reply::Ended(0x41)),
    (2, " inta", Reply::Extint(0x20)),
    (0, " eoi", Reply::Nothing),
    (0, " ack", Reply::Extint(0x28)),
    (0, " out 00a0 1 20", Reply::Done),
    (1, " tick", Reply::Held(2)),
    (0, " out 0020 1 20", Reply::Done),
    (0, " ack", Reply::Nmi),
    (0, " ack", Reply::Vector(0x41)),
    (0, " eoi", Reply::Nothing),
    (1, "", Reply::Done),
    (2, "", Reply::Done),
    (0, "", Reply::Done),
];

// The words of the call that is asked next; none where nothing is.
fn asked(
    alloc: Global,
    script: &Script,
    actor: usize,
    progress: &Progress,
) -> Result<String, Fail> {
    let mut text = String::new(alloc);
    if actor < script.actors() {
        if let Some(call) = script.next(actor, progress) {
            push_call(&mut text, call)?;
        }
    }
    Ok(text)
}

// The first step that is not asked so.
fn first_wrong(alloc: Global, script: &Script) -> Result<Option<usize>, Fail> {
    let mut progress = [Progress::start(); 3];
    for (k, (actor, words, reply)) in STEPS.iter().enumerate() {
        if *actor >= 3 || asked(alloc, script, *actor, &progress[*actor])?.as_str() != *words {
            return Ok(Some(k));
        }
        progress[*actor].after(script, *actor, reply);
    }
    Ok(None)
}

// The callers of the actors, which are numbered by their first lines.
fn callers(script: &Script) -> Option<[Caller; 3]> {
    if script.actors() == 3 {
        Some([
            script.caller_of(0),
            script.caller_of(1),
            script.caller_of(2),
        ])
    } else {
        None
    }
}

// Whether an actor that is none moves no progress.
fn stays(script: &Script, actor: usize) -> bool {
    let mut progress = Progress::start();
    progress.after(script, actor, &Reply::Vector(0x41));
    progress == Progress::start()
}

#[test]
fn actors_ask_by_their_replies(rt: HostRuntime) -> Result<(), Fail> {
    let Ok(script) = parse(rt.alloc(), SCRIPT.as_bytes()) else {
        return Err(Fail::from("no script"));
    };
    assert_eq!(rt; first_wrong(rt.alloc(), &script)?, None);
    assert!(rt; callers(&script) == Some([Caller::Cpu(1), Caller::Device(5), Caller::Cpu(0)]));
    assert!(rt; stays(&script, 3) && stays(&script, usize::MAX));
    Ok(())
}
