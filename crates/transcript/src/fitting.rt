//! Runs that can be made fit their texts: the functions here read a run and do nothing, and their contracts say so.
ghost use Rattle.std.specs.Prelude.{All};
ghost use Rattle.script_text.specs.Fitting.{FitsCall, FitsCaller, FitsIfThere, FitsRow};
ghost use Rattle.transcript.specs.Fitting.{FitsSet, FitsStatus, FitsReply, FitsPin, FitsEvent, FitsEntry, IsTranscript};

use crate::transcript::Transcript;
use irq_base::{Call, Caller, Entry, Event, EventList, Pin, Reply, Row, Rows, Status};
use irq_bits::CpuSet;

// A set is given back by its word.
fn set_fits(set: &CpuSet)
    ensures { FitsSet set.now }
{
    let _word = set.bits();
}

fn status_fits(status: &Status)
    ensures { FitsStatus status.now }
{
    match status {
        Status::Delivered { new, stood, .. } => {
            set_fits(new);
            set_fits(stood);
        }
        Status::Coalesced { stood } => set_fits(stood),
        Status::Ignored(_) | Status::Lowered => {}
    }
}

fn reply_fits(reply: &Reply)
    ensures { FitsReply reply.now }
{
    match reply {
        Reply::Signal(status) => status_fits(status),
        Reply::Count(n) | Reply::Value(n) | Reply::Held(n) => {
            let _n = *n;
        }
        Reply::Removed(n) | Reply::Vector(n) | Reply::Extint(n) | Reply::Ended(n) => {
            let _n = *n;
        }
        Reply::Done | Reply::Empty | Reply::Exit | Reply::Nmi | Reply::Nothing => {}
        Reply::Refused(_) => {}
    }
}

fn pin_fits(pin: &Pin)
    ensures { FitsPin pin.now }
{
    match pin {
        Pin::Pic(n) | Pin::Ioapic(n) => {
            let _n = *n;
        }
    }
}

fn number_fits(n: &Option<u16>)
    ensures { FitsIfThere 16 n.now }
{
    if let Some(n) = n {
        let _n = *n;
    }
}

fn wide_number_fits(n: &Option<u64>)
    ensures { FitsIfThere 64 n.now }
{
    if let Some(n) = n {
        let _n = *n;
    }
}

fn event_fits(event: &Event)
    ensures { FitsEvent event.now }
{
    match event {
        Event::Acked { pin, gsi } => {
            pin_fits(pin);
            number_fits(gsi);
        }
        Event::Resampled(counter) | Event::Watched(counter) | Event::Rang(counter) => {
            let _counter = *counter;
        }
        Event::Injected { gsi, status } => {
            let _gsi = *gsi;
            status_fits(status);
        }
        Event::Resent { pin, status } => {
            let _pin = *pin;
            status_fits(status);
        }
        Event::Ipi(status) => status_fits(status),
    }
}

fn events_fit(events: &EventList)
    ensures { All FitsEvent events.now }
{
    for k in 0..events.len() {
        event_fits(events.at(k));
    }
}

fn row_fits(row: &Row)
    ensures { FitsRow row.now }
{
    match row {
        Row::Pic { gsi, pin } | Row::Ioapic { gsi, pin } => {
            let _read = (*gsi, *pin);
        }
        Row::Msi {
            gsi,
            address,
            payload,
        } => {
            let _read = (*gsi, *address, *payload);
        }
    }
}

fn rows_fit(rows: &Rows)
    ensures { All FitsRow rows.now }
{
    for k in 0..rows.len() {
        row_fits(rows.at(k));
    }
}

fn call_fits(call: &Call)
    ensures { FitsCall call.now }
{
    match call {
        Call::Line { gsi, line, .. } => {
            let _read = (*gsi, *line);
        }
        Call::Msi { address, payload } => {
            let _read = (*address, *payload);
        }
        Call::Write { counter, n } => {
            let _read = (*counter, *n);
        }
        Call::Take { counter } => {
            let _counter = *counter;
        }
        Call::Assign {
            trigger,
            gsi,
            resample,
        } => {
            let _read = (*trigger, *gsi);
            number_fits(resample);
        }
        Call::Deassign {
            trigger: counter,
            gsi,
        }
        | Call::Watch { counter, gsi }
        | Call::Unwatch { counter, gsi } => {
            let _read = (*counter, *gsi);
        }
        Call::Reroute { rows } => rows_fit(rows),
        Call::Attach {
            address,
            len,
            counter,
            want,
            ..
        }
        | Call::Detach {
            address,
            len,
            counter,
            want,
            ..
        } => {
            let _read = (*address, *len, *counter);
            wide_number_fits(want);
        }
        Call::PortOut { port, len, value } => {
            let _read = (*port, *len, *value);
        }
        Call::PortIn { port, len } => {
            let _read = (*port, *len);
        }
        Call::Store {
            address,
            len,
            value,
        } => {
            let _read = (*address, *len, *value);
        }
        Call::Load { address, len } => {
            let _read = (*address, *len);
        }
        Call::Tick | Call::TickMode { .. } | Call::Ack | Call::Inta | Call::Eoi => {}
    }
}

fn caller_fits(caller: &Caller)
    ensures { FitsCaller caller.now }
{
    match caller {
        Caller::Device(n) | Caller::Cpu(n) => {
            let _n = *n;
        }
    }
}

fn entry_fits(entry: &Entry)
    ensures { FitsEntry entry.now }
{
    caller_fits(&entry.caller);
    call_fits(&entry.call);
    reply_fits(&entry.reply);
    events_fit(&entry.events);
}

/// Each run that can be made fits its text: each number fits its type, and each set has processors alone. This is what
/// `texts_are_read` asks of a run.
pub fn transcripts_fit(run: &Transcript)
    ensures { IsTranscript run.now }
{
    for place in 0..run.history.len() {
        entry_fits(run.history.at(place));
    }
}
