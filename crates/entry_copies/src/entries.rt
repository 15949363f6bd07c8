//! Entries of calls that were answered.
ghost use Rattle.std.specs.Prelude.{◌≡◌, IfOk};

use crate::copies::{call_of, list_of};
use irq_base::{Call, Caller, Entry, Event, NoMemory, Reply};
use std::alloc::Global;

/// The entry of a call with this reply and these events, of which it has copies.
pub fn copied_entry(
    alloc: Global,
    caller: Caller,
    call: &Call,
    reply: Reply,
    events: &[Event],
) -> Result<Entry, NoMemory>
    ensures { IfOk result (λ entry. entry ≡ record { caller = caller; call = call.now; reply = reply; events = events.now }) }
{
    Ok(Entry {
        caller,
        call: call_of(alloc, call)?,
        reply,
        events: list_of(alloc, events)?,
    })
}
