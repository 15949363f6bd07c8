//! What the rules of rows are for, as laws of the definitions: the functions do nothing.
ghost use Rattle.std.specs.Prelude.{◌≡◌, ℕ, List, ◌↔◌, Some, None, IsTrue};
ghost use Rattle.std.specs.List.{Contains};
ghost use Rattle.irq_base.specs.declared.call.Row.{Row as RouteRow};
ghost use Rattle.irq_base.specs.declared.event.Pin.{Pin as ChipPin};
ghost use Rattle.route_table.specs.Rows.{refusal_of, table_of, targets_of};
ghost use Rattle.route_table.specs.Pins.{has_pin, gsi_of};
ghost use Rattle.route_table.specs.Tables.{HasRow};

/// Rows that keep the rules are given exactly where their table has them, so the table is the set of its rows; and no two
/// GSIs have one pin, so the GSI of a pin is the one that has it.
pub fn table_has_its_rows()
    ensures rows { (rows : List RouteRow) → refusal_of rows ≡ None → (row : RouteRow) → Contains rows row ↔ HasRow (table_of rows) row }
    ensures pins { (rows : List RouteRow) → refusal_of rows ≡ None → (pin : ChipPin) (gsi : ℕ)
        → (gsi_of (table_of rows) pin ≡ Some gsi) ↔ IsTrue (has_pin pin (targets_of (table_of rows) gsi)) }
{}
