//! Whether a line is the one spelling of what was read of it. Each line is spelled into one buffer, which is kept.
ghost use Rattle.std.specs.Prelude.{◌≡◌, IfOk};
ghost use Rattle.script_text.specs.Words.{same_text};
ghost use Rattle.transcript.specs.Text.{entry_line, event_line, ending_line};

use crate::printing::{push_ending, push_entry, push_event};
use irq_base::{Entry, Event, NoMemory};

// Whether the line is that of an entry at that place.
pub fn is_entry_line(
    text: &mut String,
    place: usize,
    entry: &Entry,
    line: &[u8],
) -> Result<bool, NoMemory>
    ensures { IfOk result (λ same. same ≡ same_text (entry_line place entry.now) line.now) }
{
    text.clear();
    match push_entry(text, place, entry) {
        Ok(()) => Ok(text.as_bytes() == line),
        Err(_) => Err(NoMemory),
    }
}

// Whether the line is that of an event.
pub fn is_event_line(text: &mut String, event: &Event, line: &[u8]) -> Result<bool, NoMemory>
    ensures { IfOk result (λ same. same ≡ same_text (event_line event.now) line.now) }
{
    text.clear();
    match push_event(text, *event) {
        Ok(()) => Ok(text.as_bytes() == line),
        Err(_) => Err(NoMemory),
    }
}

// Whether the line is the last one, behind so many entries.
pub fn is_ending_line(
    text: &mut String,
    is_spent: bool,
    count: usize,
    line: &[u8],
) -> Result<bool, NoMemory>
    ensures { IfOk result (λ same. same ≡ same_text (ending_line is_spent count) line.now) }
{
    text.clear();
    match push_ending(text, is_spent, count) {
        Ok(()) => Ok(text.as_bytes() == line),
        Err(_) => Err(NoMemory),
    }
}
