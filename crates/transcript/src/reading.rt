//! Texts as transcripts, line by line.
ghost use Rattle.std.specs.Prelude.{◌≡◌, ℕ, ◌+◌, ◌<◌, ◌^◌, List, length, None, Some, Ok, IfOk, MatchOption};
ghost use Rattle.std.specs.declared.option.Option.{Option};
ghost use Rattle.std.specs.declared.result.Result.{Result};
ghost use Rattle.irq_base.specs.declared.call.Call.{Call as SpecCall};
ghost use Rattle.irq_base.specs.declared.fault.LineCause.{LineCause as SpecCause};
ghost use Rattle.script_text.specs.Causes.{of_three, Says};
ghost use Rattle.script_text.specs.Words.{words_of, more_words, BeginsWith};
ghost use Rattle.transcript.specs.Reading as reading;
ghost use Rattle.transcript.specs.Reading.{asked_entry, Reads, transcript_of};
ghost use Rattle.transcript.specs.Text.{text_of};

use crate::arrow::at_arrow;
use crate::fields::reply;
use crate::happenings::event;
use crate::spelled::{is_ending_line, is_entry_line, is_event_line};
use crate::transcript::Transcript;
use irq_base::{Call, Caller, Entry, Event, EventList, History, LineCause, Reply};
use script_text::{
    LineFault, ScriptFault, both, both_in_memory, caller, command, cut, first_word, has_empty_word,
    is_none, is_printable, next_word, one_word,
};
use std::alloc::Global;

/// What stands before a line.
#[derive(Drop)]
pub enum Stage {
    /// Nothing: the header is awaited.
    Awaited,
    /// Entries, and the last one, to which events may still come.
    Within {
        entries: History,
        last: Option<Entry>,
    },
    /// A transcript with its ending.
    Over {
        run: Transcript,
    },
}

fn begins_with_digit(word: &[u8]) -> bool
    ensures { result ≡ reading.begins_with_digit word.now }
{
    match word {
        [] => false,
        [b, ..] => 48 <= *b && *b <= 57,
    }
}

// The last entry, put behind the others.
fn close(entries: History, last: Option<Entry>) -> Result<History, LineFault>
    ensures { Says result (Ok (reading.closed entries last)) }
{
    let mut entries = entries;
    match last {
        None => Ok(entries),
        Some(entry) => match entries.push(entry) {
            Ok(()) => Ok(entries),
            Err(_) => Err(LineFault::NoMemory),
        },
    }
}

// The reply behind an arrow.
fn answer(behind: Option<&[u8]>) -> Result<Reply, LineCause>
    ensures { (words : Option (List (List ℕ))) → MatchOption behind.entry (words ≡ None) (λ r. words ≡ Some (more_words r.now))
        → result ≡ reading.answer words }
{
    match behind {
        None => Err(LineCause::Count),
        Some(tail) => reply(tail),
    }
}

// The entry of a caller, a reply and a call, each judged by itself; it tells no event yet.
fn entry_of(
    alloc: Global,
    who: Result<Caller, LineCause>,
    reply: Result<Reply, LineCause>,
    call: Result<Call, LineFault>,
) -> Result<Entry, LineFault>
    ensures { (read : Result SpecCall SpecCause) → Says call read
        → Says result (of_three (λ w r c. asked_entry w c r) who reply read) }
{
    match both_in_memory(both(who, reply), call) {
        Ok(((caller, reply), call)) => Ok(Entry {
            caller,
            call,
            reply,
            events: EventList::empty(alloc),
        }),
        Err(fault) => Err(fault),
    }
}

// The entry of the words behind a place.
fn entry(alloc: Global, tail: &[u8]) -> Result<Entry, LineFault>
    requires { BeginsWith 32 tail.now }
    ensures { Says result (reading.entry (more_words tail.now)) }
{
    let Some((who, tail)) = next_word(tail) else {
        return Err(LineFault::Bad(LineCause::Word));
    };
    let Some((name, tail)) = next_word(tail) else {
        return Err(LineFault::Bad(LineCause::Word));
    };
    let (args, behind) = at_arrow(tail);
    let call = command(alloc, name, args);
    entry_of(alloc, caller(who), answer(behind), call)
}

// The next entry.
fn entry_stage(
    alloc: Global,
    text: &mut String,
    entries: History,
    line: &[u8],
    tail: &[u8],
) -> Result<Stage, LineFault>
    requires { BeginsWith 32 tail.now }
    ensures { Says result (reading.entry_stage entries line.now (more_words tail.now)) }
{
    let read = match entry(alloc, tail) {
        Ok(read) => read,
        Err(fault) => return Err(fault),
    };
    match is_entry_line(text, entries.len(), &read, line) {
        Ok(true) => Ok(Stage::Within {
            entries,
            last: Some(read),
        }),
        Ok(false) => Err(LineFault::Bad(LineCause::Number)),
        Err(_) => Err(LineFault::NoMemory),
    }
}

// The entry, with one event more.
fn with_event(entry: Entry, told: Event) -> Result<Entry, LineFault>
    ensures { Says result (Ok (reading.with_event entry told)) }
{
    let Entry {
        caller,
        call,
        reply,
        mut events,
    } = entry;
    match events.push(told) {
        Ok(()) => Ok(Entry {
            caller,
            call,
            reply,
            events,
        }),
        Err(_) => Err(LineFault::NoMemory),
    }
}

// An event of the last entry.
fn event_stage(
    text: &mut String,
    entries: History,
    last: Option<Entry>,
    line: &[u8],
    tail: &[u8],
) -> Result<Stage, LineFault>
    ensures { Says result (reading.event_stage entries last line.now (more_words tail.now)) }
{
    let Some(last) = last else {
        return Err(LineFault::Bad(LineCause::Word));
    };
    let told = match event(tail) {
        Ok(told) => told,
        Err(cause) => return Err(LineFault::Bad(cause)),
    };
    match is_event_line(text, &told, line) {
        Ok(true) => match with_event(last, told) {
            Ok(last) => Ok(Stage::Within {
                entries,
                last: Some(last),
            }),
            Err(fault) => Err(fault),
        },
        Ok(false) => Err(LineFault::Bad(LineCause::Number)),
        Err(_) => Err(LineFault::NoMemory),
    }
}

// The ending.
fn ending_stage(
    text: &mut String,
    entries: History,
    spent: bool,
    line: &[u8],
    tail: &[u8],
) -> Result<Stage, LineFault>
    ensures { Says result (reading.ending_stage entries spent line.now (more_words tail.now)) }
{
    if one_word(tail).is_none() {
        return Err(LineFault::Bad(LineCause::Count));
    }
    match is_ending_line(text, spent, entries.len(), line) {
        Ok(true) => Ok(Stage::Over {
            run: Transcript {
                history: entries,
                spent,
            },
        }),
        Ok(false) => Err(LineFault::Bad(LineCause::Number)),
        Err(_) => Err(LineFault::NoMemory),
    }
}

// A line behind the header.
fn line_within(
    alloc: Global,
    text: &mut String,
    entries: History,
    last: Option<Entry>,
    line: &[u8],
) -> Result<Stage, LineFault>
    ensures { Says result (reading.line_within entries last line.now (words_of line.now)) }
{
    let (name, tail) = first_word(line);
    if begins_with_digit(name) {
        match close(entries, last) {
            Ok(entries) => entry_stage(alloc, text, entries, line, tail),
            Err(fault) => Err(fault),
        }
    } else if name == b"+".as_slice() {
        event_stage(text, entries, last, line, tail)
    } else if name == b"end".as_slice() {
        match close(entries, last) {
            Ok(entries) => ending_stage(text, entries, false, line, tail),
            Err(fault) => Err(fault),
        }
    } else if name == b"spent".as_slice() {
        match close(entries, last) {
            Ok(entries) => ending_stage(text, entries, true, line, tail),
            Err(fault) => Err(fault),
        }
    } else {
        Err(LineFault::Bad(LineCause::Word))
    }
}

// What is wrong with a line that is not the header.
fn header_cause(line: &[u8]) -> LineCause
    ensures { result ≡ reading.header_cause (words_of line.now) }
{
    let (name, tail) = first_word(line);
    let is_name = name == b"transcript".as_slice();
    match next_word(tail) {
        None if is_name => LineCause::Count,
        Some((number, _)) if is_name && number == b"1".as_slice() => LineCause::Count,
        _ => LineCause::Word,
    }
}

// The header.
fn header(alloc: Global, line: &[u8]) -> Result<Stage, LineFault>
    ensures { Says result (reading.header line.now (words_of line.now)) }
{
    if b"transcript 1".as_slice() == line {
        Ok(Stage::Within {
            entries: History::empty(alloc),
            last: None,
        })
    } else {
        Err(LineFault::Bad(header_cause(line)))
    }
}

// A line with printable bytes, by what stands before it.
fn by_stage(alloc: Global, text: &mut String, stage: Stage, line: &[u8]) -> Result<Stage, LineFault>
    ensures { Says result (reading.begun stage line.now (words_of line.now)) }
{
    match stage {
        Stage::Over { .. } => Err(LineFault::Bad(LineCause::End)),
        Stage::Awaited => {
            if has_empty_word(line) {
                Err(LineFault::Bad(LineCause::Word))
            } else {
                header(alloc, line)
            }
        }
        Stage::Within { entries, last } => {
            if has_empty_word(line) {
                Err(LineFault::Bad(LineCause::Word))
            } else {
                line_within(alloc, text, entries, last, line)
            }
        }
    }
}

// What a line makes of what stands before it.
#[tactic(auto, unfolding(crate::specs::Reading::judge))]
fn judge(alloc: Global, text: &mut String, stage: Stage, line: &[u8]) -> Result<Stage, LineFault>
    ensures { Says result (reading.judge stage line.now) }
{
    if is_printable(line) {
        by_stage(alloc, text, stage, line)
    } else {
        Err(LineFault::Bad(LineCause::Char))
    }
}

// The transcript, where the text ends behind these lines.
fn at_end(stage: Stage, number: u32, is_whole: bool) -> Result<Transcript, ScriptFault>
    ensures { Reads result (reading.at_end stage number is_whole) }
{
    if !is_whole {
        return Err(ScriptFault::BadLine {
            line: number,
            cause: LineCause::Cut,
        });
    }
    match stage {
        Stage::Over { run } => Ok(run),
        _ => Err(ScriptFault::BadLine {
            line: number,
            cause: LineCause::End,
        }),
    }
}

// The lines of a text, one after another.
#[tactic(auto, using(crate::proofs::Readings::read_rules))]
fn run_of(alloc: Global, bytes: &[u8], first_line: u32) -> Result<Transcript, ScriptFault>
    requires { first_line + length bytes.now < 2 ^ 32 }
    ensures { Reads result (transcript_of first_line bytes.now) }
{
    let mut text = String::new(alloc);
    let mut stage = Stage::Awaited;
    let mut rest = bytes;
    let mut number = first_line;
    while let Some((line, behind)) = cut(rest, b'\n') {
        match judge(alloc, &mut text, stage, line) {
            Ok(next) => stage = next,
            Err(fault) => match fault {
                LineFault::Bad(cause) => return Err(ScriptFault::BadLine {
                    line: number,
                    cause,
                }),
                LineFault::NoMemory => return Err(ScriptFault::NoMemory),
            },
        }
        rest = behind;
        number += 1;
    }
    at_end(stage, number, rest.is_empty())
}

/// The transcript whose text these bytes are. Otherwise the first bad line, the first line of the bytes having the number
/// `first_line`, with the first cause that fits it.
#[tactic(auto, using(crate::proofs::Wholes::whole_rules))]
pub fn read(alloc: Global, bytes: &[u8], first_line: u32) -> Result<Transcript, ScriptFault>
    requires { first_line + length bytes.now < 2 ^ 32 }
    ensures read { Reads result (transcript_of first_line bytes.now) }
    ensures text { IfOk result (λ run. bytes.now ≡ text_of run) }
{
    run_of(alloc, bytes, first_line)
}
