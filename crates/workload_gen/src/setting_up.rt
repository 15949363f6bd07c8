//! The lines that set up.
ghost use Rattle.std.specs.Prelude.{◌≡◌, ◌<◌, ◌≤◌, IfOk};
ghost use Rattle.workload_gen.specs.Workload.{row, each_below, reroute};

use crate::drawing::message_address;
use irq_base::{Call, NoMemory, Row, Rows};
use std::alloc::Global;

// Row j of a turn.
fn row(cpus: u16, turn: u32, j: u16) -> Row
    requires some { 1 ≤ cpus }
    requires turn { turn ≤ 400 }
    requires below { j < 8 }
    ensures { result ≡ row cpus turn j }
{
    Row::Msi {
        gsi: 24 + j,
        address: message_address((u32::from(j) + turn) % u32::from(cpus)),
        payload: 0x50 + u32::from(j),
    }
}

// The eight rows of a turn.
#[tactic(auto, using(crate::proofs::Below::below_rules))]
fn rows(alloc: Global, cpus: u16, turn: u32) -> Result<Rows, NoMemory>
    requires some { 1 ≤ cpus }
    requires turn { turn ≤ 400 }
    ensures { IfOk result (λ rows. rows ≡ each_below (row cpus turn) 8) }
{
    let mut rows = Rows::empty(alloc);
    'rows: for j in 0..8 {
        rows.push(row(cpus, turn, j))?;
    }
    Ok(rows)
}

/// The rows of a turn become the routing table.
pub fn rerouting(alloc: Global, cpus: u16, turn: u32) -> Result<Call, NoMemory>
    requires some { 1 ≤ cpus }
    requires turn { turn ≤ 400 }
    ensures { IfOk result (λ call. call ≡ reroute cpus turn) }
{
    Ok(Call::Reroute {
        rows: rows(alloc, cpus, turn)?,
    })
}
