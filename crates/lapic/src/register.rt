//! The table of registers.
ghost use Rattle.std.specs.Prelude.{◌≡◌, ℕ, ◌<◌, IsTrue, IfSome, map};
ghost use Rattle.std.specs.Option.{option_map};
ghost use Rattle.lapic.specs.Registers.{row_for, is_there, all_registers, register_at};

use reg_table::{RegRow, RegTable};

/// A register of the local APIC; ISR, TMR and IRR are eight words each.
#[derive(Clone, Copy)]
pub(crate) enum Register {
    Id,
    Version,
    Tpr,
    Ppr,
    Eoi,
    Ldr,
    Dfr,
    Svr,
    Isr(u8),
    Tmr(u8),
    Irr(u8),
    Esr,
    Cmci,
    IcrLow,
    IcrHigh,
    Timer,
    Thermal,
    Performance,
    Lint0,
    Lint1,
    Error,
}

const REGISTER_COUNT: usize = 42;

// All registers, in the order of the table.
#[tactic(auto, unfolding(crate::specs::Registers::all_registers))]
fn registers() -> [Register; REGISTER_COUNT]
    ensures { result ≡ all_registers }
{
    [
        Register::Id,
        Register::Version,
        Register::Tpr,
        Register::Ppr,
        Register::Eoi,
        Register::Ldr,
        Register::Dfr,
        Register::Svr,
        Register::Isr(0),
        Register::Isr(1),
        Register::Isr(2),
        Register::Isr(3),
        Register::Isr(4),
        Register::Isr(5),
        Register::Isr(6),
        Register::Isr(7),
        Register::Tmr(0),
        Register::Tmr(1),
        Register::Tmr(2),
        Register::Tmr(3),
        Register::Tmr(4),
        Register::Tmr(5),
        Register::Tmr(6),
        Register::Tmr(7),
        Register::Irr(0),
        Register::Irr(1),
        Register::Irr(2),
        Register::Irr(3),
        Register::Irr(4),
        Register::Irr(5),
        Register::Irr(6),
        Register::Irr(7),
        Register::Esr,
        Register::Cmci,
        Register::IcrLow,
        Register::IcrHigh,
        Register::Timer,
        Register::Thermal,
        Register::Performance,
        Register::Lint0,
        Register::Lint1,
        Register::Error,
    ]
}

// The row of each register: its offset, writable bits and value at power-on.
#[tactic(auto, unfolding(crate::specs::Registers::all_registers))]
fn table() -> RegTable<REGISTER_COUNT>
    ensures { result ≡ map row_for all_registers }
{
    macro_rules! row {
        ($offset:expr, $writable:expr, $reset:expr) => {
            RegRow {
                offset: $offset,
                readable: 0xffff_ffff,
                writable: $writable,
                reset: $reset,
            }
        };
    }
    macro_rules! write_only {
        ($offset:expr) => {
            RegRow {
                offset: $offset,
                readable: 0,
                writable: 0,
                reset: 0,
            }
        };
    }
    macro_rules! words {
        ($offset:expr) => {
            row!($offset, 0, 0)
        };
    }
    macro_rules! masked_entry {
        ($offset:expr) => {
            row!($offset, 0, 0x0001_0000)
        };
    }
    RegTable::of([
        row!(0x20, 0, 0),
        row!(0x30, 0, 0x0005_0014),
        row!(0x80, 0x0000_00ff, 0),
        row!(0xa0, 0, 0),
        write_only!(0xb0),
        row!(0xd0, 0xff00_0000, 0),
        row!(0xe0, 0xf000_0000, 0xffff_ffff),
        row!(0xf0, 0x0000_01ff, 0x0000_00ff),
        words!(0x100),
        words!(0x110),
        words!(0x120),
        words!(0x130),
        words!(0x140),
        words!(0x150),
        words!(0x160),
        words!(0x170),
        words!(0x180),
        words!(0x190),
        words!(0x1a0),
        words!(0x1b0),
        words!(0x1c0),
        words!(0x1d0),
        words!(0x1e0),
        words!(0x1f0),
        words!(0x200),
        words!(0x210),
        words!(0x220),
        words!(0x230),
        words!(0x240),
        words!(0x250),
        words!(0x260),
        words!(0x270),
        row!(0x280, 0, 0),
        masked_entry!(0x2f0),
        row!(0x300, 0x000c_cfff, 0),
        row!(0x310, 0xff00_0000, 0),
        masked_entry!(0x320),
        masked_entry!(0x330),
        masked_entry!(0x340),
        row!(0x350, 0x0001_a7ff, 0x0001_0000),
        row!(0x360, 0x0001_a7ff, 0x0001_0000),
        masked_entry!(0x370),
    ])
}

/// The register at an offset, and its row.
pub(crate) fn register_at(offset: u16) -> Option<(Register, RegRow)>
    ensures found { result ≡ option_map (λ register. (register, row_for register)) (register_at offset) }
    ensures there { IfSome result (λ found. IsTrue (is_there found.0)) }
{
    let table = table();
    let k = table.find(offset)?;
    Some((registers()[k], table.row(k)))
}
