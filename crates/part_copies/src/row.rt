//! Copies of local APICs in their row.
ghost use Rattle.std.specs.Prelude.{◌≡◌, ◌<◌, length, slice_set, Some};
ghost use Rattle.board_raise.specs.OnRow.{apic_in};
ghost use Rattle.part_copies.specs.Copied.{or_kept};
ghost use Rattle.irq_bits.specs.declared.limits.TheConstants.{MAX_CPUS};

use board_raise::LapicRow;
use lapic::Lapic;

// Puts a copy of the local APIC at place n of the row.
pub(crate) fn copy_apic(row: &mut LapicRow, n: u32, kept: &Lapic)
    requires place { n < length row.old }
    requires few { n < MAX_CPUS }
    ensures { row.new ≡ slice_set row.old n (Some kept.now) }
{
    let mut copy = Lapic::power_on(0);
    copy.copy_from(kept);
    let _ = row.put(n as u16, Some(copy));
}

// Writes the copy at place n of the row over the local APIC, if there is one.
pub(crate) fn write_apic(row: &LapicRow, n: u32, kept: &mut Lapic)
    requires place { n < length row.now }
    requires few { n < MAX_CPUS }
    ensures { kept.new ≡ or_kept (apic_in row.now n) kept.old }
{
    if let Some(copy) = row.at(n as u16) {
        kept.copy_from(copy);
    }
}
