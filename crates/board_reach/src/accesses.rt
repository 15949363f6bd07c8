//! What accesses of the guest reach, as rows of the table of reach.
ghost use Rattle.std.specs.Prelude.{◌≡◌, ◌<◌, ◌^◌, true};
ghost use Rattle.lapic.specs.Offsets.{store_effect};
ghost use Rattle.pic_8259a.specs.Pair.{is_port, write_to, read_from};
ghost use Rattle.irq_base.specs.declared.shape.Part.TheVariants as parts;
ghost use Rattle.board_calls.specs.Refusals.{is_ioapic_address, is_lapic_address};
ghost use Rattle.board_calls.specs.Processors.{pic_pin};
ghost use Rattle.board_step.specs.Reach.{of_pair, of_written, of_effect, of_rung, of_ring, of_store, of_load};
ghost use Rattle.board_reach.specs.ReachNow.{of_acknowledges_now};
ghost use Rattle.board_reach.specs.Seen.{routing_seen, SeenFits, of_port_out, of_port_in, row, acks_row, pair_seen, lapic_seen, written_row, rung_row};

use crate::acks::{chip, of_end, of_pic_pin, of_resend, pair};
use crate::registrations::of_counter;
use crate::seen::Seen;
use crate::signals::{is_ioapic, is_lapic, is_pic, is_registry, of_message};
use board_calls::{is_ioapic_address, is_lapic_address, is_port};
use board_raise::IoPart;
use irq_base::{Message, Part, Space};
use lapic::{Effect, Lapic};

// ---- the pair

// A write to the pair, and the pin that it acknowledges.
fn of_pair_write(seen: &Seen, port: u16, len: u8, value: u32, part: Part) -> bool
    requires port { is_port port ≡ true }
    requires value { len ≡ 1 → value < 256 }
    requires fits { SeenFits seen.now }
    ensures { result ≡ row of_pair seen.now len (write_to (pair_seen seen.now) port value).pin part }
{
    is_pic(part) || (len == 1 && of_byte_write(seen, port, value as u8, part))
}

// The pin that a write of a byte to the pair acknowledges.
fn of_byte_write(seen: &Seen, port: u16, value: u8, part: Part) -> bool
    requires port { is_port port ≡ true }
    requires fits { SeenFits seen.now }
    ensures { result ≡ acks_row seen.now (pic_pin (write_to (pair_seen seen.now) port value).pin) part }
{
    let mut pair = pair(seen.pic);
    of_pic_pin(seen, pair.write(port, value), part)
}

// A read of the pair, and the pin that it acknowledges.
fn of_pair_read(seen: &Seen, port: u16, len: u8, part: Part) -> bool
    requires port { is_port port ≡ true }
    requires fits { SeenFits seen.now }
    ensures { result ≡ row of_pair seen.now len (read_from (pair_seen seen.now) port).pin part }
{
    is_pic(part) || (len == 1 && of_byte_read(seen, port, part))
}

// The pin that a read of a byte of the pair acknowledges.
fn of_byte_read(seen: &Seen, port: u16, part: Part) -> bool
    requires port { is_port port ≡ true }
    requires fits { SeenFits seen.now }
    ensures { result ≡ acks_row seen.now (pic_pin (read_from (pair_seen seen.now) port).pin) part }
{
    let mut pair = pair(seen.pic);
    let (_, pin) = pair.read(port);
    of_pic_pin(seen, pin, part)
}

// ---- addresses of no chip

// A write to an address of no chip, and the ioeventfd that it rings.
fn of_ring(seen: &Seen, space: Space, address: u64, len: u8, value: u64, part: Part) -> bool
    requires fits { SeenFits seen.now }
    ensures { result ≡ row of_ring seen.now space address len value part }
{
    is_registry(part) || of_rung(seen, space, address, len, value, part)
}

// The ioeventfd that a write rings, if any.
fn of_rung(seen: &Seen, space: Space, address: u64, len: u8, value: u64, part: Part) -> bool
    requires fits { SeenFits seen.now }
    ensures { result ≡ rung_row seen.now space address len value part }
{
    let registry = seen.registry;
    match registry.ioevents.find(space, address, len, value) {
        None => false,
        Some(counter) => of_counter(seen, counter, part),
    }
}

// ---- ports

// A write to a port.
pub(crate) fn of_port_out(seen: &Seen, port: u16, len: u8, value: u32, part: Part) -> bool
    requires value { len ≡ 1 → value < 256 }
    requires fits { SeenFits seen.now }
    ensures { result ≡ of_port_out seen.now port len value part }
{
    if is_port(port as u64) {
        of_pair_write(seen, port, len, value, part)
    } else {
        of_ring(seen, Space::Port, port as u64, len, value as u64, part)
    }
}

// A read of a port.
pub(crate) fn of_port_in(seen: &Seen, port: u16, len: u8, part: Part) -> bool
    requires fits { SeenFits seen.now }
    ensures { result ≡ of_port_in seen.now port len part }
{
    is_port(port as u64) && of_pair_read(seen, port, len, part)
}

// ---- memory

// What a store to the I/O APIC sends again: the entry that is written, by the chip after it.
fn of_written(seen: &Seen, offset: u8, value: u32, part: Part) -> bool
    requires fits { SeenFits seen.now }
    ensures { result ≡ written_row seen.now offset value part }
{
    let mut chip = chip(seen.ioapic);
    match chip.write(offset, value) {
        None => false,
        Some(pin) => of_resend(seen, chip.resend(pin), part),
    }
}

// A copy of the local APIC of processor n.
pub(crate) fn own_lapic(seen: &Seen, n: u16) -> Lapic
    requires there { n < seen.now.shape.now.cpus }
    requires fits { SeenFits seen.now }
    ensures { result ≡ lapic_seen seen.now n }
{
    match seen.lapics.at(n) {
        Some(lapic) => lapic.copy(),
        None => Lapic::power_on(0),
    }
}

// What a store to the local APIC of processor n brings about.
fn of_effect(seen: &Seen, n: u16, offset: u16, value: u32, part: Part) -> bool
    requires there { n < seen.now.shape.now.cpus }
    requires fits { SeenFits seen.now }
    ensures { result ≡ row of_effect seen.now n (store_effect (lapic_seen seen.now n) offset value) part }
{
    let mut lapic = own_lapic(seen, n);
    match lapic.store(offset, value) {
        Effect::Plain => false,
        Effect::Ended(vector) => of_end(seen, vector, part),
        Effect::Send(ipi) => of_message(&ipi.message, Some((n, ipi.to)), seen.shape.cpus, part),
    }
}

// A store by processor n.
pub(crate) fn of_store(seen: &Seen, n: u16, address: u64, len: u8, value: u64, part: Part) -> bool
    requires there { n < seen.now.shape.now.cpus }
    requires value { len ≡ 4 → value < 2 ^ 32 }
    requires fits { SeenFits seen.now }
    ensures { result ≡ row of_store seen.now n address len value part }
{
    if is_ioapic_address(address) {
        let offset = (address - 0xfec0_0000) as u8;
        is_ioapic(part) || (len == 4 && of_written(seen, offset, value as u32, part))
    } else if is_lapic_address(address) {
        let offset = (address - 0xfee0_0000) as u16;
        is_lapic(n, part) || (len == 4 && of_effect(seen, n, offset, value as u32, part))
    } else {
        of_ring(seen, Space::Memory, address, len, value, part)
    }
}

// A load by processor n.
pub(crate) fn of_load(seen: &Seen, n: u16, address: u64, part: Part) -> bool
    ensures { result ≡ of_load of_acknowledges_now (routing_seen seen.now) seen.now.shape.now n address part }
{
    if is_ioapic_address(address) {
        is_ioapic(part)
    } else {
        is_lapic_address(address) && is_lapic(n, part)
    }
}
