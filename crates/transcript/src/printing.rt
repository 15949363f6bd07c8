//! Transcripts as texts.
ghost use Rattle.std.specs.Prelude.{◌≡◌, ℕ, ◌++◌, Ok, OnOk, IfOk};
ghost use Rattle.std.specs.String.{string_bytes};
ghost use Rattle.transcript.specs.Reading.{transcript_of};
ghost use Rattle.transcript.specs.Text.{event_line, entry_line, ending_line, events_text, entry_text, entries_text, text_of};

use crate::fitting::transcripts_fit;
use crate::laws::texts_are_read;
use crate::replies::{len_of, push_reply};
use crate::transcript::Transcript;
use irq_base::{Bytes, Entry, Event, EventList, History, NoMemory};
use script_text::push_call;
use std::alloc::{AllocError, Global};
use std::fmt::Write;

/// Puts the line of an event, without its line feed, at the end.
pub fn push_event(text: &mut String, event: Event) -> Result<(), AllocError>
    ensures { OnOk result (string_bytes text.new ≡ string_bytes text.old ++ event_line event) }
{
    write!(text, "+ {event}")
}

// Puts the line of an entry, without its line feed, at the end.
pub fn push_entry(text: &mut String, place: usize, entry: &Entry) -> Result<(), AllocError>
    ensures { OnOk result (string_bytes text.new ≡ string_bytes text.old ++ entry_line place entry.now) }
{
    let caller = entry.caller;
    write!(text, "{place} {caller}")?;
    push_call(text, &entry.call)?;
    text.push_str(" -> ")?;
    push_reply(text, len_of(&entry.call), entry.reply)
}

// Puts the last line, behind so many entries, at the end.
pub fn push_ending(text: &mut String, is_spent: bool, count: usize) -> Result<(), AllocError>
    ensures { OnOk result (string_bytes text.new ≡ string_bytes text.old ++ ending_line is_spent count) }
{
    if is_spent {
        write!(text, "spent {count}")
    } else {
        write!(text, "end {count}")
    }
}

// Puts events, each with its line feed, at the end.
#[tactic(auto, using(crate::proofs::Lines::event_rules))]
fn push_events(text: &mut String, events: &EventList) -> Result<(), AllocError>
    ensures { OnOk result (string_bytes text.new ≡ string_bytes text.old ++ events_text events.now) }
{
    for k in 0..events.len() {
        push_event(text, *events.at(k))?;
        text.push_str("\n")?;
    }
    Ok(())
}

// Puts an entry and its events at the end.
fn push_whole(text: &mut String, place: usize, entry: &Entry) -> Result<(), AllocError>
    ensures { OnOk result (string_bytes text.new ≡ string_bytes text.old ++ entry_text place entry.now) }
{
    push_entry(text, place, entry)?;
    text.push_str("\n")?;
    push_events(text, &entry.events)
}

// Puts entries at the end.
#[tactic(auto, using(crate::proofs::Lines::entry_rules))]
fn push_entries(text: &mut String, history: &History) -> Result<(), AllocError>
    ensures { OnOk result (string_bytes text.new ≡ string_bytes text.old ++ entries_text 0 history.now) }
{
    for place in 0..history.len() {
        push_whole(text, place, history.at(place))?;
    }
    Ok(())
}

// The text of a run, where there is memory for it.
fn text_of(alloc: Global, run: &Transcript) -> Result<String, AllocError>
    ensures { IfOk result (λ t. string_bytes t ≡ text_of run.now) }
{
    let mut text = String::from_str(alloc, "transcript 1\n")?;
    push_entries(&mut text, &run.history)?;
    push_ending(&mut text, run.spent, run.history.len())?;
    text.push_str("\n")?;
    Ok(text)
}

/// The text of a run: the line `transcript 1`, each entry with its place, its caller, its call and its reply, each event on
/// a line of its own behind its entry, and a last line with the number of entries. What is printed is read as that run.
pub fn print(alloc: Global, run: &Transcript) -> Result<Bytes, NoMemory>
    ensures text { IfOk result (λ bytes. bytes ≡ text_of run.now) }
    ensures read { IfOk result (λ bytes. (first : ℕ) → transcript_of first bytes ≡ Ok run.now) }
{
    transcripts_fit(run);
    texts_are_read();
    match text_of(alloc, run) {
        Ok(text) => Ok(Bytes::of(text.into_bytes())),
        Err(_) => Err(NoMemory),
    }
}
