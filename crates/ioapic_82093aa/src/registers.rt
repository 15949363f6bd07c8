//! The registers, by the index that IOREGSEL keeps.
ghost use Rattle.std.specs.Prelude.{◌≡◌, ℕ, ◌<◌};
ghost use Rattle.ioapic_82093aa.specs.Registers.{register_rows, nth_register, register_of, writable_of};

use crate::pins::Pin;
use reg_table::{RegRow, RegTable};

/// A register of the chip.
#[derive(Clone, Copy)]
pub enum Register {
    Identity,
    Version,
    Arbitration,
    LowHalf(Pin),
    HighHalf(Pin),
    /// Not there: it reads 0 and takes no write.
    Reserved,
}

/// What an index selects: the register, and the bits of it that a write reaches.
#[derive(Clone, Copy)]
pub struct Selected {
    pub register: Register,
    pub writable: u32,
}

/// The rows of the registers: identity, version, arbitration, and the two halves of each entry.
fn registers() -> RegTable<51>
    ensures { result ≡ register_rows }
{
    macro_rules! row {
        ($offset:expr, $readable:expr, $writable:expr, $reset:expr) => {
            RegRow {
                offset: $offset,
                readable: $readable,
                writable: $writable,
                reset: $reset,
            }
        };
    }
    macro_rules! table {
        ($($entry:literal)*) => {
            RegTable::of([
                row!(0x00, 0x0f00_0000, 0x0f00_0000, 0),
                row!(0x01, 0x0017_0011, 0, 0x0017_0011),
                row!(0x02, 0x0f00_0000, 0, 0),
                $(
                    row!(0x10 + 2 * $entry, 0x0001_efff, 0x0001_afff, 0x0001_0000),
                    row!(0x11 + 2 * $entry, 0xff00_0000, 0xff00_0000, 0),
                )*
            ])
        };
    }
    table!(0 1 2 3 4 5 6 7 8 9 10 11 12 13 14 15 16 17 18 19 20 21 22 23)
}

/// The register at a place of the table.
fn nth_register(k: usize) -> Register
    requires { k < 51 }
    ensures { result ≡ nth_register k }
{
    match k {
        0 => Register::Identity,
        1 => Register::Version,
        2 => Register::Arbitration,
        _ => {
            let half = k as u8 - 3;
            let pin = Pin::of(half / 2);
            if half % 2 == 0 {
                Register::LowHalf(pin)
            } else {
                Register::HighHalf(pin)
            }
        }
    }
}

/// What an index selects.
pub fn register_at(index: u8) -> Selected
    ensures register { result.register ≡ register_of index }
    ensures writable { result.writable ≡ writable_of (register_of index) }
{
    let registers = registers();
    match registers.find(index as u16) {
        None => Selected {
            register: Register::Reserved,
            writable: 0,
        },
        Some(k) => Selected {
            register: nth_register(k),
            writable: registers.row(k).writable,
        },
    }
}
