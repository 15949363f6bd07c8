//! Whether two calls are one.
ghost use Rattle.std.specs.Prelude.{◌≡◌, ◌↔◌, IsTrue};
ghost use Rattle.board_calls.specs.Families.{is_of_device, is_access};
ghost use Rattle.script_histories.specs.Kinds.{is_of_irqfds, is_of_ioevents};

use irq_base::{Call, Caller, Row, Rows};

// Whether two rows are equal.
fn same_row(row: &Row, other: &Row) -> bool
    ensures { IsTrue result ↔ (row.now ≡ other.now) }
{
    *row == *other
}

// Whether two tables have the same rows.
fn same_rows(rows: &Rows, other: &Rows) -> bool
    ensures { IsTrue result ↔ (rows.now ≡ other.now) }
{
    if rows.len() != other.len() {
        return false;
    }
    for k in 0..rows.len() {
        if !same_row(rows.at(k), other.at(k)) {
            return false;
        }
    }
    true
}

// Whether two callers are one.
pub fn same_caller(caller: Caller, other: Caller) -> bool
    ensures { IsTrue result ↔ (caller ≡ other) }
{
    caller == other
}

// Whether a call of a device, which sets a line, sends a message, or writes or reads a counter, is this other.
fn same_of_device(call: &Call, other: &Call) -> bool
    requires { IsTrue (is_of_device call.now) }
    ensures { IsTrue result ↔ (call.now ≡ other.now) }
{
    match (call, other) {
        (
            Call::Line { gsi, line, high },
            Call::Line {
                gsi: g,
                line: l,
                high: h,
            },
        ) => *gsi == *g && *line == *l && *high == *h,
        (
            Call::Msi { address, payload },
            Call::Msi {
                address: a,
                payload: p,
            },
        ) => *address == *a && *payload == *p,
        (Call::Write { counter, n }, Call::Write { counter: c, n: m }) => *counter == *c
            && *n == *m,
        (Call::Take { counter }, Call::Take { counter: c }) => *counter == *c,
        _ => false,
    }
}

// Whether a call that makes or ends an irqfd or an acknowledge notifier is this other.
fn same_irqfd(call: &Call, other: &Call) -> bool
    requires { IsTrue (is_of_irqfds call.now) }
    ensures { IsTrue result ↔ (call.now ≡ other.now) }
{
    match (call, other) {
        (
            Call::Assign {
                trigger,
                gsi,
                resample,
            },
            Call::Assign {
                trigger: t,
                gsi: g,
                resample: r,
            },
        ) => *trigger == *t && *gsi == *g && *resample == *r,
        (Call::Deassign { trigger, gsi }, Call::Deassign { trigger: t, gsi: g }) => *trigger == *t
            && *gsi == *g,
        (Call::Watch { counter, gsi }, Call::Watch { counter: c, gsi: g }) => *counter == *c
            && *gsi == *g,
        (Call::Unwatch { counter, gsi }, Call::Unwatch { counter: c, gsi: g }) => *counter == *c
            && *gsi == *g,
        _ => false,
    }
}

// Whether a call that makes or ends an ioeventfd is this other.
fn same_ioevent(call: &Call, other: &Call) -> bool
    requires { IsTrue (is_of_ioevents call.now) }
    ensures { IsTrue result ↔ (call.now ≡ other.now) }
{
    match (call, other) {
        (
            Call::Attach {
                space,
                address,
                len,
                counter,
                want,
            },
            Call::Attach {
                space: s,
                address: a,
                len: l,
                counter: c,
                want: w,
            },
        ) => { *space == *s && *address == *a && *len == *l && *counter == *c && *want == *w }
        (
            Call::Detach {
                space,
                address,
                len,
                counter,
                want,
            },
            Call::Detach {
                space: s,
                address: a,
                len: l,
                counter: c,
                want: w,
            },
        ) => { *space == *s && *address == *a && *len == *l && *counter == *c && *want == *w }
        _ => false,
    }
}

// Whether an access of the guest, to a port or to memory, is this other.
fn same_access(call: &Call, other: &Call) -> bool
    requires { IsTrue (is_access call.now) }
    ensures { IsTrue result ↔ (call.now ≡ other.now) }
{
    match (call, other) {
        (
            Call::PortOut { port, len, value },
            Call::PortOut {
                port: p,
                len: l,
                value: v,
            },
        ) => *port == *p && *len == *l && *value == *v,
        (Call::PortIn { port, len }, Call::PortIn { port: p, len: l }) => *port == *p && *len == *l,
        (
            Call::Store {
                address,
                len,
                value,
            },
            Call::Store {
                address: a,
                len: l,
                value: v,
            },
        ) => *address == *a && *len == *l && *value == *v,
        (Call::Load { address, len }, Call::Load { address: a, len: l }) => *address == *a
            && *len == *l,
        _ => false,
    }
}

// Whether two calls are equal.
pub fn same_call(call: &Call, other: &Call) -> bool
    ensures { IsTrue result ↔ (call.now ≡ other.now) }
{
    match (call, other) {
        (Call::Line { .. } | Call::Msi { .. } | Call::Write { .. } | Call::Take { .. }, _) =>
            same_of_device(call, other),
        (
            Call::Assign { .. } | Call::Deassign { .. } | Call::Watch { .. } | Call::Unwatch { .. },
            _,
        ) => same_irqfd(call, other),
        (Call::Attach { .. } | Call::Detach { .. }, _) => same_ioevent(call, other),
        (Call::PortOut { .. } | Call::PortIn { .. } | Call::Store { .. } | Call::Load { .. }, _) =>
            same_access(call, other),
        (Call::Reroute { rows }, Call::Reroute { rows: r }) => same_rows(rows, r),
        (Call::Tick, Call::Tick) => true,
        (Call::TickMode { reinject }, Call::TickMode { reinject: r }) => *reinject == *r,
        (Call::Ack, Call::Ack) => true,
        (Call::Inta, Call::Inta) => true,
        (Call::Eoi, Call::Eoi) => true,
        _ => false,
    }
}
