//! Calls that can be made are typed: the functions here read a call and do nothing, and their contracts say so.

ghost use Rattle.std.specs.Prelude.{All};
ghost use Rattle.board_step.specs.Laws.{PayloadFits, IsTyped};

use irq_base::{Call, Row, Rows};

/// Each call that can be made is typed: this is what a board that answers calls has to know of them.
pub fn calls_are_typed(call: &Call)
    ensures { IsTyped call.now }
{
    if let Call::Reroute { rows } = call {
        payloads_fit(rows);
    }
}

// Each payload of rows has 32 bits.
fn payloads_fit(rows: &Rows)
    ensures { All PayloadFits rows.now }
{
    for k in 0..rows.len() {
        payload_fits(rows.at(k));
    }
}

// The payload of a row has 32 bits, if there is one.
fn payload_fits(row: &Row)
    ensures { PayloadFits row.now }
{
    if let Row::Msi { payload, .. } = row {
        let _payload = *payload;
    }
}
