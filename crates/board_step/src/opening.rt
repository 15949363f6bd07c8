//! The parts of a board at power-on.
ghost use Rattle.std.specs.Prelude.{◌≡◌, ◌≤◌, ◌<◌, ◌↔◌, IfOk, IsTrue, List, map, Some, None};
ghost use Rattle.board_raise.specs.Fit.{InLimits, PinsFit};
ghost use Rattle.board_raise.specs.InHand.{registry_of, parts_of, chips_of};
ghost use Rattle.board_model.specs.Hand.{all_parts};
ghost use Rattle.board_step.specs.History.{opening_registry, opening};
ghost use Rattle.board_step.specs.Opening.{opening_row, OpensPic, OpensIoapic, OpensRig};

use ack_notifiers::Watches;
use board_raise::{BoardRig, IoPart, LapicRow, Parts, PicPart, RegistryPart, Words};
use event_counter::Counters;
use ioevent_set::IoEvents;
use irq_base::{NoMemory, Shape};
use irq_bits::MAX_CPUS;
use irqfd_set::Irqfds;
use lapic::Lapic;
use route_table::Table;
use std::alloc::Global;
use tick_reinject::TickState;

// Whether the numbers of a shape are inside the limits.
pub(crate) fn is_in_limits(shape: &Shape) -> bool
    ensures { IsTrue result ↔ InLimits shape.now }
{
    1 <= shape.cpus
        && shape.cpus <= MAX_CPUS
        && shape.counters <= 256
        && shape.tick < 4096
        && 1 <= shape.calls
        && shape.calls <= 1 << 40
        && shape.publications <= 1 << 20
}

// The routing table at power-on, and no registration.
fn registry(alloc: Global) -> Result<RegistryPart, NoMemory>
    ensures { IfOk result (λ registry. registry_of registry ≡ opening_registry) }
{
    let table = Table::power_on(alloc)?;
    let irqfds = Irqfds::power_on(alloc)?;
    let watches = Watches::power_on(alloc)?;
    let ioevents = IoEvents::power_on(alloc)?;
    Ok(RegistryPart {
        table,
        irqfds,
        watches,
        ioevents,
    })
}

// A local APIC at power-on for each processor.
fn lapics(alloc: Global, cpus: u16) -> Result<LapicRow, NoMemory>
    requires { cpus ≤ MAX_CPUS }
    ensures { IfOk result (λ row. row ≡ opening_row cpus 0) }
{
    let mut row = LapicRow::empty(alloc, cpus)?;
    for n in 0..cpus {
        let _ = row.put(n, Some(Lapic::power_on(n)));
    }
    Ok(row)
}

// The 8259A pair at power-on, no pin held.
fn pic() -> PicPart
    ensures { OpensPic result }
{
    PicPart::power_on()
}

// The I/O APIC at power-on, no pin held.
fn ioapic() -> IoPart
    ensures { OpensIoapic result }
{
    IoPart::power_on()
}

// All parts of a board at power-on, and its words.
pub(crate) fn rig(alloc: Global, shape: &Shape) -> Result<BoardRig, NoMemory>
    requires { InLimits shape.now }
    ensures { IfOk result (λ rig. OpensRig shape.now rig) }
{
    let registry_now = registry(alloc)?;
    let published = registry(alloc)?;
    let counters = Counters::power_on(alloc, shape.counters)?;
    let lapics = lapics(alloc, shape.cpus)?;
    let parts = Parts {
        registry: Some(registry_now),
        counters: Some(counters),
        tick: Some(TickState::power_on()),
        pic: Some(pic()),
        ioapic: Some(ioapic()),
        lapics,
    };
    Ok(BoardRig::new(parts, Words::of(published, shape.tick)))
}
