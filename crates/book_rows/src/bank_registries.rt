// Registries that are made of rows, irqfds and watches.
ghost use Rattle.std.specs.Prelude.{◌≡◌};

use crate::bank_machine::Registry;
use ack_notifiers::Watches;
use irq_base::{Items, Row, Rows};
use irqfd_set::Irqfds;
use route_table::Table;
use std::alloc::Global;
use std::test::Fail;

/// What a registry is to have: rows, irqfds and watches.
#[derive(Clone, Copy)]
pub struct Wanted<'a> {
    pub rows: &'a [Row],
    /// The trigger, the GSI and the resample counter.
    pub irqfds: &'a [(u16, u16, Option<u16>)],
    /// The counter and the GSI.
    pub watches: &'a [(u16, u16)],
}

fn table_of(alloc: Global, list: &[Row]) -> Result<Table, Fail> {
    let mut table = Table::power_on(alloc)?;
    let mut rows: Rows = Items::empty(alloc);
    for row in list {
        rows.push(*row)?;
    }
    table.replace(&rows)?;
    Ok(table)
}

fn irqfds_of(alloc: Global, list: &[(u16, u16, Option<u16>)]) -> Result<Irqfds, Fail> {
    let mut irqfds = Irqfds::power_on(alloc)?;
    for (trigger, gsi, resample) in list {
        if *trigger >= 256 {
            return Err(Fail::from("no trigger"));
        }
        if irqfds.of_trigger(*trigger).is_some() {
            return Err(Fail::from("a trigger twice"));
        }
        irqfds.assign(*trigger, *gsi, *resample);
    }
    Ok(irqfds)
}

fn watches_of(alloc: Global, list: &[(u16, u16)]) -> Result<Watches, Fail> {
    let mut watches = Watches::power_on(alloc)?;
    for (counter, gsi) in list {
        watches.watch(*counter, *gsi)?;
    }
    Ok(watches)
}

/// The registry that is wanted.
pub fn registry(alloc: Global, wanted: Wanted) -> Result<Registry, Fail> {
    let table = table_of(alloc, wanted.rows)?;
    let irqfds = irqfds_of(alloc, wanted.irqfds)?;
    let watches = watches_of(alloc, wanted.watches)?;
    Ok(Registry {
        table,
        irqfds,
        watches,
    })
}
