//! An MSI-X function.
ghost use Rattle.std.specs.Prelude.{◌≤◌};

use crate::entry::Entry;

/// An MSI-X function with N entries, 1 to 64. The table has word w of entry k at offset 16 k + 4 w, in the order address low,
/// address high, payload and control; bit 0 of the control word masks the entry. The function has the bits MSI-X Enable and
/// Function Mask, and a pending bit for each entry.
#[derive(Drop)]
pub struct Function<const N: usize> {
    pub(crate) entries: [Entry; N],
    pub(crate) is_pending: [bool; N],
    pub(crate) enabled: bool,
    pub(crate) masked: bool,
    ghost most: { N ≤ 64 },
}
