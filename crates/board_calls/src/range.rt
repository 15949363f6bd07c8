//! Why a call is refused for its arguments alone.
ghost use Rattle.std.specs.Prelude.{◌≡◌, ◌∷◌, [], ◌/◌, ◌^◌, ◌-◌, not, nat_eq, nat_lt};
ghost use Rattle.irq_base.specs.Refusals.{first_of};
ghost use Rattle.irq_base.specs.declared.refusal.Refusal.TheVariants.{NoLine, BadMsi, BadCount, ChipAddress};
ghost use Rattle.pic_8259a.specs.Pair.{is_port};
ghost use Rattle.board_calls.specs.Refusals.{bad_gsi, bad_counter, bad_resample, is_length, does_fit, bad_access, match_fits, lies_within, bad_ioevent, is_chip_address, is_ioapic_address, is_lapic_address, range_reasons};

use irq_base::{Call, Refusal, Shape, Space};
use route_table::refusal_of;

/// Why a call is refused for its arguments alone, before anything of the board is looked at: the first reason of the call's,
/// in their order. A board of the shape has the counters below `shape.counters`.
///
/// - `NoGsi`: a GSI of 4,096 or more. `NoCounter`: a counter that the board does not have.
/// - `NoLine`: a line above 7. `BadCount`: the count 2^64 - 1. `BadMsi`: an address that is none of messages.
/// - `BadRange`: an access whose length is not 1, 2 or 4, in memory also 8, or whose value does not fit it; or an ioeventfd
///   whose length is neither 0 nor one of these, whose match stands beside length 0 or does not fit, or whose addresses pass
///   the end of the space.
/// - `ChipAddress`: an ioeventfd that is to be made at the address of a chip.
/// - Of a list of routing rows the reasons are those of `route_table::refusal_of`.
pub fn refused_by_range(shape: &Shape, call: &Call) -> Option<Refusal>
    ensures { result ≡ first_of (range_reasons shape.now call.now) }
{
    match call {
        Call::Line { gsi, line, .. } => bad_gsi(*gsi).or(bad_line(*line)),
        Call::Msi { address, .. } => bad_message(*address),
        Call::Write { counter, n } => bad_counter(shape, *counter).or(bad_count(*n)),
        Call::Take { counter } => bad_counter(shape, *counter),
        Call::Assign {
            trigger,
            gsi,
            resample,
        } => bad_counter(shape, *trigger)
            .or(bad_gsi(*gsi))
            .or(bad_resample(shape, *resample)),
        Call::Deassign { trigger, gsi } => bad_counter(shape, *trigger).or(bad_gsi(*gsi)),
        Call::Reroute { rows } => refusal_of(rows),
        Call::Attach {
            space,
            address,
            len,
            counter,
            want,
        } => bad_ioevent(*space, *address, *len, *want)
            .or(bad_counter(shape, *counter))
            .or(chip_address(*space, *address)),
        Call::Detach {
            space,
            address,
            len,
            counter,
            want,
        } => bad_ioevent(*space, *address, *len, *want).or(bad_counter(shape, *counter)),
        Call::Watch { counter, gsi } => bad_counter(shape, *counter).or(bad_gsi(*gsi)),
        Call::Unwatch { counter, gsi } => bad_counter(shape, *counter).or(bad_gsi(*gsi)),
        Call::PortOut { len, value, .. } => bad_access(Space::Port, *len, *value as u64),
        Call::PortIn { len, .. } => bad_access(Space::Port, *len, 0),
        Call::Store { len, value, .. } => bad_access(Space::Memory, *len, *value),
        Call::Load { len, .. } => bad_access(Space::Memory, *len, 0),
        _ => None,
    }
}

// A GSI of 4,096 or more.
fn bad_gsi(gsi: u16) -> Option<Refusal>
    ensures { result ≡ first_of (bad_gsi gsi ∷ []) }
{
    (gsi >= 4096).then_some(Refusal::NoGsi)
}

// A line above 7.
fn bad_line(line: u8) -> Option<Refusal>
    ensures { result ≡ first_of ((nat_lt 7 line, NoLine) ∷ []) }
{
    (line > 7).then_some(Refusal::NoLine)
}

// An address that is none of messages.
fn bad_message(address: u64) -> Option<Refusal>
    ensures { result ≡ first_of ((not (nat_eq (address / 2 ^ 20) 0xfee), BadMsi) ∷ []) }
{
    (address >> 20 != 0xfee).then_some(Refusal::BadMsi)
}

// The count 2^64 - 1.
fn bad_count(n: u64) -> Option<Refusal>
    ensures { result ≡ first_of ((nat_eq n (2 ^ 64 - 1), BadCount) ∷ []) }
{
    (n == u64::MAX).then_some(Refusal::BadCount)
}

// A counter that a board of the shape does not have.
fn bad_counter(shape: &Shape, counter: u16) -> Option<Refusal>
    ensures { result ≡ first_of (bad_counter shape.now counter ∷ []) }
{
    (counter >= shape.counters).then_some(Refusal::NoCounter)
}

// A resample counter, if there is one, that a board of the shape does not have.
fn bad_resample(shape: &Shape, resample: Option<u16>) -> Option<Refusal>
    ensures { result ≡ first_of (bad_resample shape.now resample) }
{
    match resample {
        None => None,
        Some(counter) => bad_counter(shape, counter),
    }
}

// An access with a length that there is not, or a value that does not fit it.
fn bad_access(space: Space, len: u8, value: u64) -> Option<Refusal>
    ensures { result ≡ first_of (bad_access space len value ∷ []) }
{
    (!(is_length(space, len) && does_fit(value, len))).then_some(Refusal::BadRange)
}

// An ioeventfd with a length, a match or addresses that there are not.
fn bad_ioevent(space: Space, address: u64, len: u8, want: Option<u64>) -> Option<Refusal>
    ensures { result ≡ first_of (bad_ioevent space address len want ∷ []) }
{
    let is_good = (len == 0 || is_length(space, len))
        && match_fits(want, len)
        && lies_within(space, address, len);
    (!is_good).then_some(Refusal::BadRange)
}

// The address of a chip.
fn chip_address(space: Space, address: u64) -> Option<Refusal>
    ensures { result ≡ first_of ((is_chip_address space address, ChipAddress) ∷ []) }
{
    is_chip_address(space, address).then_some(Refusal::ChipAddress)
}

// Whether accesses of the space have that length.
fn is_length(space: Space, len: u8) -> bool
    ensures { result ≡ is_length space len }
{
    match space {
        Space::Port => matches!(len, 1 | 2 | 4),
        Space::Memory => matches!(len, 1 | 2 | 4 | 8),
    }
}

// Whether the value has no more bytes than that.
fn does_fit(value: u64, len: u8) -> bool
    ensures { result ≡ does_fit value len }
{
    len >= 8 || value >> (8 * len) == 0
}

// Whether the match, if there is one, stands beside a length, and fits it.
fn match_fits(want: Option<u64>, len: u8) -> bool
    ensures { result ≡ match_fits want len }
{
    match want {
        None => true,
        Some(value) => len != 0 && does_fit(value, len),
    }
}

// Whether the address is in the space, and so many addresses from it on do not pass the end of the space.
fn lies_within(space: Space, address: u64, len: u8) -> bool
    ensures { result ≡ lies_within space address len }
{
    match space {
        Space::Port => address < 0x1_0000 && address + len as u64 <= 0x1_0000,
        Space::Memory => u64::MAX - address >= (len as u64).saturating_sub(1),
    }
}

// Whether the address is one of a chip, in its space.
fn is_chip_address(space: Space, address: u64) -> bool
    ensures { result ≡ is_chip_address space address }
{
    match space {
        Space::Port => is_port(address),
        Space::Memory => is_ioapic_address(address) || is_lapic_address(address),
    }
}

/// Whether a port is one of the 8259A pair.
pub fn is_port(port: u64) -> bool
    ensures { result ≡ is_port port }
{
    port == 0x20 || port == 0x21 || port == 0xa0 || port == 0xa1 || port == 0x4d0 || port == 0x4d1
}

/// Whether an address is one of the I/O APIC (82093AA data sheet).
pub fn is_ioapic_address(address: u64) -> bool
    ensures { result ≡ is_ioapic_address address }
{
    (0xfec0_0000..=0xfec0_00ff).contains(&address)
}

/// Whether an address is one of the calling processor's own local APIC (SDM volume 3).
pub fn is_lapic_address(address: u64) -> bool
    ensures { result ≡ is_lapic_address address }
{
    (0xfee0_0000..=0xfee0_0fff).contains(&address)
}
