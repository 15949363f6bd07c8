//! A part that a call reaches on every board.
ghost use Rattle.std.specs.Prelude.{◌≡◌, ◌≤◌, Some, IfSome};
ghost use Rattle.lapic.specs.Messages.{is_taken};
ghost use Rattle.msi_decode.specs.Messages.{message_of};
ghost use Rattle.board_raise.specs.Fit.{InLimits};
ghost use Rattle.board_calls.specs.Calls.{number_of};
ghost use Rattle.part_reach.specs.Sure.{IsSure, named_alone, chip_or, sure_part};

use board_calls::{is_ioapic_address, is_lapic_address, is_port, refused_by_range};
use irq_base::{Call, Caller, Message, Mode, Part, Shape};
use msi_decode::decode;

// The number of the caller.
#[inline]
pub(crate) fn number_of(caller: Caller) -> u16
    ensures { result ≡ number_of caller }
{
    match caller {
        Caller::Device(d) => d,
        Caller::Cpu(n) => n,
    }
}

// Whether local APICs take messages of the mode.
#[inline]
fn is_taken(mode: Mode) -> bool
    ensures { result ≡ is_taken mode }
{
    matches!(mode, Mode::Fixed | Mode::Lowest | Mode::Nmi)
}

// The local APIC that the message names alone.
#[inline]
fn named_alone(message: Message, cpus: u16) -> Option<Part>
    ensures { result ≡ named_alone (Some message) cpus }
{
    if is_taken(message.mode) && !message.logical && message.dest < u32::from(cpus) {
        Some(Part::Lapic(message.dest as u16))
    } else {
        None
    }
}

// The local APIC that the message of an address and a payload names alone.
#[inline]
fn named_by(address: u64, payload: u32, cpus: u16) -> Option<Part>
    ensures { result ≡ named_alone (message_of address payload) cpus }
{
    match decode(address, payload) {
        Ok(message) => named_alone(message, cpus),
        Err(_) => None,
    }
}

// The chip whose registers stand at the address, or another part where there is none.
#[inline]
fn chip_or(other: Option<Part>, n: u16, address: u64) -> Option<Part>
    ensures { result ≡ chip_or other n address }
{
    if is_ioapic_address(address) {
        Some(Part::Ioapic)
    } else if is_lapic_address(address) {
        Some(Part::Lapic(n))
    } else {
        other
    }
}

// What a call of the caller with that number reaches on every board, its arguments being in range.
#[inline]
fn sure_part(shape: &Shape, n: u16, call: &Call) -> Option<Part>
    ensures { result ≡ sure_part shape.now n call.now }
{
    match call {
        Call::Line { .. } | Call::Write { .. } => None,
        Call::Msi { address, payload } => named_by(*address, *payload, shape.cpus),
        Call::Take { .. } => Some(Part::Counters),
        Call::Tick | Call::TickMode { .. } => Some(Part::Tick),
        Call::PortOut { port, .. } => {
            if is_port(*port as u64) {
                Some(Part::Pic)
            } else {
                Some(Part::Registry)
            }
        }
        Call::PortIn { port, .. } => {
            if is_port(*port as u64) {
                Some(Part::Pic)
            } else {
                None
            }
        }
        Call::Store { address, .. } => chip_or(Some(Part::Registry), n, *address),
        Call::Load { address, .. } => chip_or(None, n, *address),
        Call::Ack | Call::Eoi => Some(Part::Lapic(n)),
        Call::Inta => Some(Part::Pic),
        _ => Some(Part::Registry),
    }
}

// A part that the call reaches on every board of the shape, where the table of reach alone names one. A call that is refused for its
// arguments reaches none.
#[inline]
pub(crate) fn sure(shape: &Shape, caller: Caller, call: &Call) -> Option<Part>
    requires limits { InLimits shape.now }
    ensures { IfSome result (IsSure shape.now caller call.now) }
{
    match refused_by_range(shape, call) {
        Some(_) => None,
        None => sure_part(shape, number_of(caller), call),
    }
}
