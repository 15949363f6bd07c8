//! Copies of calls and events.
ghost use Rattle.std.specs.Prelude.{◌≡◌, IsTrue, IfOk};
ghost use Rattle.irq_base.specs.Callers.{is_of_processor};
ghost use Rattle.entry_copies.specs.Kinds.{is_signal, is_row_call};

use irq_base::{Call, Event, EventList, NoMemory, Rows};
use std::alloc::Global;

// The same rows.
#[tactic(auto, using(crate::proofs::RowCopies::copy_rules))]
fn rows_of(alloc: Global, rows: &Rows) -> Result<Rows, NoMemory>
    ensures { IfOk result (λ copy. copy ≡ rows.now) }
{
    let mut copy = Rows::empty(alloc);
    'rows: for k in 0..rows.len() {
        copy.push(*rows.at(k))?;
    }
    Ok(copy)
}

/// A list of these events.
pub fn list_of(alloc: Global, events: &[Event]) -> Result<EventList, NoMemory>
    ensures { IfOk result (λ list. list ≡ events.now) }
{
    let mut list = EventList::empty(alloc);
    let mut rest = events;
    'events: while let Some((first, behind)) = rest.split_first() {
        list.push(*first)?;
        rest = behind;
    }
    Ok(list)
}

// The same signal: a line, a message, a write or a read of a counter, or a tick.
fn of_signal(call: &Call) -> Call
    requires { IsTrue (is_signal call.now) }
    ensures { result ≡ call.now }
{
    match call {
        Call::Line { gsi, line, high } => Call::Line {
            gsi: *gsi,
            line: *line,
            high: *high,
        },
        Call::Msi { address, payload } => Call::Msi {
            address: *address,
            payload: *payload,
        },
        Call::Write { counter, n } => Call::Write {
            counter: *counter,
            n: *n,
        },
        Call::Take { counter } => Call::Take { counter: *counter },
        Call::Tick => Call::Tick,
        Call::TickMode { reinject } => Call::TickMode {
            reinject: *reinject,
        },
        _ => unreachable!(),
    }
}

// The same call, which makes or ends an irqfd, an ioeventfd or an acknowledge notifier.
fn of_row(call: &Call) -> Call
    requires { IsTrue (is_row_call call.now) }
    ensures { result ≡ call.now }
{
    match call {
        Call::Assign {
            trigger,
            gsi,
            resample,
        } => Call::Assign {
            trigger: *trigger,
            gsi: *gsi,
            resample: *resample,
        },
        Call::Deassign { trigger, gsi } => Call::Deassign {
            trigger: *trigger,
            gsi: *gsi,
        },
        Call::Attach {
            space,
            address,
            len,
            counter,
            want,
        } => Call::Attach {
            space: *space,
            address: *address,
            len: *len,
            counter: *counter,
            want: *want,
        },
        Call::Detach {
            space,
            address,
            len,
            counter,
            want,
        } => Call::Detach {
            space: *space,
            address: *address,
            len: *len,
            counter: *counter,
            want: *want,
        },
        Call::Watch { counter, gsi } => Call::Watch {
            counter: *counter,
            gsi: *gsi,
        },
        Call::Unwatch { counter, gsi } => Call::Unwatch {
            counter: *counter,
            gsi: *gsi,
        },
        _ => unreachable!(),
    }
}

// The same call of a processor.
fn of_processor(call: &Call) -> Call
    requires { IsTrue (is_of_processor call.now) }
    ensures { result ≡ call.now }
{
    match call {
        Call::PortOut { port, len, value } => Call::PortOut {
            port: *port,
            len: *len,
            value: *value,
        },
        Call::PortIn { port, len } => Call::PortIn {
            port: *port,
            len: *len,
        },
        Call::Store {
            address,
            len,
            value,
        } => Call::Store {
            address: *address,
            len: *len,
            value: *value,
        },
        Call::Load { address, len } => Call::Load {
            address: *address,
            len: *len,
        },
        Call::Ack => Call::Ack,
        Call::Inta => Call::Inta,
        Call::Eoi => Call::Eoi,
        _ => unreachable!(),
    }
}

/// The same call.
pub fn call_of(alloc: Global, call: &Call) -> Result<Call, NoMemory>
    ensures { IfOk result (λ copy. copy ≡ call.now) }
{
    Ok(match call {
        Call::Line { .. } | Call::Msi { .. } | Call::Write { .. } | Call::Take { .. } => of_signal(
            call,
        ),
        Call::Tick | Call::TickMode { .. } => of_signal(call),
        Call::Assign { .. } | Call::Deassign { .. } | Call::Watch { .. } | Call::Unwatch { .. } =>
            of_row(call),
        Call::Attach { .. } | Call::Detach { .. } => of_row(call),
        Call::Reroute { rows } => Call::Reroute {
            rows: rows_of(alloc, rows)?,
        },
        Call::PortOut { .. } | Call::PortIn { .. } | Call::Store { .. } | Call::Load { .. } =>
            of_processor(call),
        Call::Ack | Call::Inta | Call::Eoi => of_processor(call),
    })
}
