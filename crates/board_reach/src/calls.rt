//! What a call reaches, by the table of reach.
ghost use Rattle.std.specs.Prelude.{◌≡◌, ◌<◌, ◌≤◌, ◌/◌, ◌^◌, nat_eq, true, None};
ghost use Rattle.irq_base.specs.Callers.{is_allowed, is_of_processor};
ghost use Rattle.irq_base.specs.Refusals.{first_of};
ghost use Rattle.irq_base.specs.declared.shape.Part.TheVariants as parts;
ghost use Rattle.irq_base.specs.declared.call.Call.TheVariants as calls;
ghost use Rattle.tick_reinject.specs.Ticks.{tick_injects};
ghost use Rattle.board_raise.specs.ReachLaws.{of_message};
ghost use Rattle.msi_decode.specs.Messages.{message_in};
ghost use Rattle.board_raise.specs.InHand.{parts_of};
ghost use Rattle.board_step.specs.Whole.{board_of};
ghost use Rattle.board_step.specs.Reach.{of_ack, of_call};
ghost use Rattle.board_reach.specs.ReachNow.{reach_now};
ghost use Rattle.board_calls.specs.Refusals.{range_reasons};
ghost use Rattle.board_reach.specs.Seen.{board_seen, SeenFits, PartsFit, of_pair_given, row, lapic_seen};

use crate::accesses::{of_load, of_port_in, of_port_out, of_store, own_lapic};
use crate::acks::{of_cycle, of_end, pair};
use crate::registrations::{does_inject, does_release, of_write};
use crate::seen::Seen;
use crate::signals::{
    is_counters, is_ioapic, is_lapic, is_pic, is_registry, is_tick, message_of, of_fall_of, of_gsi,
    of_message,
};
use board_calls::{hears_pair, refused_by_range};
use board_raise::Parts;
use board_step::number_of;
use irq_base::{Call, Caller, MsiWord, Part, Shape};
use tick_reinject::TickState;

// A line of a GSI goes high or low.
fn of_line(seen: &Seen, gsi: u16, high: bool, part: Part) -> bool
    requires gsi { gsi < 4096 }
    requires fits { SeenFits seen.now }
    ensures { result ≡ row of_call seen.now 0 (calls.Line gsi 0 high) part }
{
    if high {
        of_gsi(seen, gsi, part)
    } else {
        of_fall_of(seen, gsi, part)
    }
}

// Whether a tick that falls would be injected.
fn injects(tick: &TickState) -> bool
    requires { tick.now.pending ≤ 2 ^ 40 }
    ensures { result ≡ tick_injects tick.now }
{
    let mut copy = tick.copy();
    copy.tick()
}

// The pair, and where its output is active the pins of a cycle.
fn of_pair_given(seen: &Seen, part: Part) -> bool
    requires fits { SeenFits seen.now }
    ensures { result ≡ of_pair_given seen.now part }
{
    is_pic(part) || (pair(seen.pic).output() && of_cycle(seen, part))
}

// What a processor reaches that asks for its next interrupt.
fn of_ack(seen: &Seen, n: u16, part: Part) -> bool
    requires there { n < seen.now.shape.now.cpus }
    requires fits { SeenFits seen.now }
    ensures { result ≡ row of_ack seen.now n (lapic_seen seen.now n) part }
{
    let lapic = own_lapic(seen, n);
    is_lapic(n, part) || (!lapic.has_nmi() && hears_pair(&lapic, n) && of_pair_given(seen, part))
}

// What a processor reaches that ends its interrupt.
fn of_eoi(seen: &Seen, n: u16, part: Part) -> bool
    requires there { n < seen.now.shape.now.cpus }
    requires fits { SeenFits seen.now }
    ensures { result ≡ row of_call seen.now n calls.Eoi part }
{
    let mut lapic = own_lapic(seen, n);
    is_lapic(n, part) || of_end(seen, lapic.eoi(), part)
}

// What an irqfd that is made reaches.
fn of_assign(seen: &Seen, trigger: u16, gsi: u16, resample: Option<u16>, part: Part) -> bool
    requires trigger { trigger < seen.now.shape.now.counters }
    requires gsi { gsi < 4096 }
    requires fits { SeenFits seen.now }
    ensures { result ≡ row of_call seen.now 0 (calls.Assign trigger gsi resample) part }
{
    is_registry(part)
        || (is_counters(part) || (does_inject(seen, trigger, resample) && of_gsi(seen, gsi, part)))
}

// What an irqfd that ends reaches.
fn of_deassign(seen: &Seen, trigger: u16, gsi: u16, part: Part) -> bool
    requires gsi { gsi < 4096 }
    requires fits { SeenFits seen.now }
    ensures { result ≡ row of_call seen.now 0 (calls.Deassign trigger gsi) part }
{
    is_registry(part) || (does_release(seen, trigger, gsi) && of_fall_of(seen, gsi, part))
}

// What a tick reaches.
fn of_fallen_tick(seen: &Seen, part: Part) -> bool
    requires fits { SeenFits seen.now }
    ensures { result ≡ row of_call seen.now 0 calls.Tick part }
{
    is_tick(part) || (injects(seen.tick) && of_gsi(seen, seen.shape.tick, part))
}

// What a call of the caller with that number reaches, its arguments being in range.
fn of_call(seen: &Seen, n: u16, call: &Call, part: Part) -> bool
    requires range { first_of (range_reasons seen.now.shape.now call.now) ≡ None }
    requires there { is_of_processor call.now ≡ true → n < seen.now.shape.now.cpus }
    requires fits { SeenFits seen.now }
    ensures { result ≡ row of_call seen.now n call.now part }
{
    match call {
        Call::Line { gsi, high, .. } => of_line(seen, *gsi, *high, part),
        Call::Msi { address, payload } => of_msi(seen, *address, *payload, part),
        Call::Write { counter, n } => of_write(seen, *counter, *n, part),
        Call::Take { .. } => is_counters(part),
        Call::Assign {
            trigger,
            gsi,
            resample,
        } => of_assign(seen, *trigger, *gsi, *resample, part),
        Call::Deassign { trigger, gsi } => of_deassign(seen, *trigger, *gsi, part),
        Call::Reroute { .. } => is_registry(part) || (is_pic(part) || is_ioapic(part)),
        Call::Attach { .. } | Call::Detach { .. } | Call::Watch { .. } | Call::Unwatch { .. } => {
            is_registry(part)
        }
        Call::Tick => of_fallen_tick(seen, part),
        Call::TickMode { .. } => is_tick(part),
        Call::PortOut { port, len, value } => of_port_out(seen, *port, *len, *value, part),
        Call::PortIn { port, len } => of_port_in(seen, *port, *len, part),
        Call::Store {
            address,
            len,
            value,
        } => of_store(seen, n, *address, *len, *value, part),
        Call::Load { address, .. } => of_load(seen, n, *address, part),
        Call::Ack => of_ack(seen, n, part),
        Call::Inta => is_pic(part) || of_cycle(seen, part),
        Call::Eoi => of_eoi(seen, n, part),
    }
}

// What a message reaches that a device sends.
fn of_msi(seen: &Seen, address: u64, payload: u32, part: Part) -> bool
    requires { nat_eq (address / 2 ^ 20) 0xfee ≡ true }
    ensures { result ≡ of_message (message_in address payload) None seen.now.shape.now.cpus part }
{
    let message = message_of(MsiWord { address, payload });
    of_message(&message, None, seen.shape.cpus, part)
}

// What a call reaches on the board of these parts; one whose arguments are out of range reaches nothing.
fn reach_seen(seen: &Seen, caller: Caller, call: &Call, part: Part) -> bool
    requires allowed { is_allowed caller call.now seen.now.shape.now ≡ true }
    requires fits { SeenFits seen.now }
    ensures { result ≡ reach_now (board_seen seen.now) caller call.now part }
{
    match refused_by_range(seen.shape, call) {
        Some(_) => false,
        None => of_call(seen, number_of(caller), call, part),
    }
}

// What a call reaches on the board of the parts in hand, of which none is missing.
pub(crate) fn reach_in_hand(
    parts: &Parts,
    shape: &Shape,
    caller: Caller,
    call: &Call,
    part: Part,
) -> bool
    requires allowed { is_allowed caller call.now shape.now ≡ true }
    requires fits { PartsFit shape.now parts.now }
    ensures { result ≡ reach_now (board_of shape.now (parts_of parts.now) 0 0) caller call.now part }
{
    match (
        &parts.registry,
        &parts.counters,
        &parts.tick,
        &parts.pic,
        &parts.ioapic,
    ) {
        (Some(registry), Some(counters), Some(tick), Some(pic), Some(ioapic)) => {
            let seen = Seen {
                shape,
                registry,
                counters,
                tick,
                pic,
                ioapic,
                lapics: &parts.lapics,
            };
            reach_seen(&seen, caller, call, part)
        }
        _ => unreachable!(),
    }
}
