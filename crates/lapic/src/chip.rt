//! One local APIC.
ghost use Rattle.std.specs.Prelude.{◌≡◌, ℕ, ◌<◌, false, IsTrue};
ghost use Rattle.std.specs.FinSet as set;
ghost use Rattle.irq_bits.specs.Members.{greatest_vector};
ghost use Rattle.reg_table.specs.Rows.{ResetsAreReadable};
ghost use Rattle.lapic.specs.Registers.{power_on, row_for, register_rows, is_there, is_enabled};
ghost use Rattle.lapic.specs.Priority.{ppr_of, greatest_above, giveable_of, given, ended};
ghost use Rattle.lapic.specs.Messages.{is_taken, answer_to, accepted, dest_view, with_request, ipi_of, mode_of, shorthand_of};
ghost use Rattle.lapic.specs.Offsets.{value_of, stored, effect_of, load_of, store_to, store_effect, RegistersStartAsTold};

use crate::outcome::{Accepted, Effect, Ipi, Shorthand};
use crate::register::{Register, register_at};
use irq_base::{DestView, Message, Mode};
use irq_bits::Set256;
use reg_table::RegRow;
use std::marker::Model;

// The bit of ESR that tells of a message with an illegal vector.
const RECEIVED_ILLEGAL_VECTOR: u32 = 1 << 6;

// Local vector entries: one of mode ExtINT, which passes on the 8259A, and a masked one.
const EXTINT: u32 = 0b111 << 8;

const MASKED: u32 = 1 << 16;

// The registers that are written. `errors` are recorded for ESR until it is written.
#[derive(Clone, Copy)]
struct Registers {
    tpr: u8,
    ldr: u32,
    dfr: u32,
    svr: u32,
    esr: u32,
    errors: u32,
    icr_low: u32,
    icr_high: u32,
    lint0: u32,
    lint1: u32,
}

/// The local APIC of one processor.
#[derive(Drop)]
pub struct Lapic {
    number: u8,
    irr: Set256,
    isr: Set256,
    tmr: Set256,
    nmi: bool,
    registers: Registers,
}

impl Model for Lapic {
    ghost use Rattle.lapic.specs.Registers.{LocalApic, apic_code};

    ghost Value = { LocalApic };

    ghost coded = { apic_code };

    ghost view = { λ a. record {
      number = a.number;
      irr = a.irr;
      isr = a.isr;
      tmr = a.tmr;
      nmi = a.nmi;
      registers = record {
        tpr = a.registers.tpr;
        ldr = a.registers.ldr;
        dfr = a.registers.dfr;
        svr = a.registers.svr;
        esr = a.registers.esr;
        errors = a.registers.errors;
        icr_low = a.registers.icr_low;
        icr_high = a.registers.icr_high;
        lint0 = a.registers.lint0;
        lint1 = a.registers.lint1;
      };
    } };
}

impl Lapic {
    /// The APIC of processor `number` as it is at power-on: disabled, without requests, its local vector entries masked but
    /// for LINT0 of processor 0, which passes on the 8259A.
    pub fn power_on(number: u16) -> Lapic
        requires { number < 256 }
        ensures { result ≡ power_on number }
    {
        let lint0 = if number == 0 { EXTINT } else { MASKED };
        Lapic {
            number: number as u8,
            irr: Set256::empty(),
            isr: Set256::empty(),
            tmr: Set256::empty(),
            nmi: false,
            registers: Registers {
                tpr: 0,
                ldr: 0,
                dfr: 0xffff_ffff,
                svr: 0x0000_00ff,
                esr: 0,
                errors: 0,
                icr_low: 0,
                icr_high: 0,
                lint0,
                lint1: MASKED,
            },
        }
    }

    /// The processor priority.
    pub fn ppr(&self) -> u8
        ensures { result ≡ ppr_of self.now }
    {
        match self.isr.greatest() {
            None => self.registers.tpr,
            Some(vector) => {
                if vector / 16 <= self.registers.tpr / 16 {
                    self.registers.tpr
                } else {
                    vector / 16 * 16
                }
            }
        }
    }

    // Whether SVR enables the APIC.
    fn is_enabled(&self) -> bool
        ensures { result ≡ is_enabled self.now }
    {
        self.registers.svr >> 8 & 1 == 1
    }

    /// Takes a message.
    pub fn accept(&mut self, message: &Message) -> Accepted
        requires { IsTrue (is_taken message.now.mode) }
        ensures answer { result ≡ answer_to self.old message.now }
        ensures after { self.new ≡ accepted self.old message.now }
    {
        if matches!(message.mode, Mode::Nmi) {
            let stood = self.nmi;
            self.nmi = true;
            if stood {
                Accepted::Stood
            } else {
                Accepted::New
            }
        } else if !self.is_enabled() {
            Accepted::Disabled
        } else if message.vector < 16 {
            self.registers.errors |= RECEIVED_ILLEGAL_VECTOR;
            Accepted::BadVector
        } else if self.request(message) {
            Accepted::Stood
        } else {
            Accepted::New
        }
    }

    // Sets a request, with TMR, and tells whether it stood already.
    fn request(&mut self, message: &Message) -> bool
        ensures stood { result ≡ set.contains self.old.irr message.now.vector }
        ensures after { self.new ≡ with_request self.old message.now }
    {
        let stood = self.irr.has(message.vector);
        self.irr.insert(message.vector);
        if message.level {
            self.tmr.insert(message.vector);
        } else {
            self.tmr.remove(message.vector);
        }
        stood
    }

    /// Whether an NMI is pending.
    pub fn has_nmi(&self) -> bool
        ensures { result ≡ self.now.nmi }
    {
        self.nmi
    }

    /// The vectors that are requested (IRR).
    pub fn requests(&self) -> Set256
        ensures { result ≡ self.now.irr }
    {
        self.irr.copy()
    }

    /// The greatest request whose class is above that of the processor priority: what `give` would give.
    pub fn giveable(&self) -> Option<u8>
        ensures { result ≡ giveable_of self.now }
    {
        greatest_above(&self.irr, self.ppr())
    }

    /// Takes the pending NMI, if there is one.
    pub fn take_nmi(&mut self) -> bool
        ensures pending { result ≡ self.old.nmi }
        ensures after { self.new ≡ record self.old { nmi = false } }
    {
        let pending = self.nmi;
        self.nmi = false;
        pending
    }

    /// Gives the greatest request whose class is above that of the processor priority, which goes into service.
    pub fn give(&mut self) -> Option<u8>
        ensures vector { result ≡ giveable_of self.old }
        ensures after { self.new ≡ given self.old result }
    {
        let vector = self.giveable()?;
        self.irr.remove(vector);
        self.isr.insert(vector);
        Some(vector)
    }

    /// Ends the greatest vector in service, if there is one.
    pub fn eoi(&mut self) -> Option<u8>
        ensures vector { result ≡ greatest_vector self.old.isr }
        ensures after { self.new ≡ ended self.old }
    {
        let vector = self.isr.greatest()?;
        self.isr.remove(vector);
        Some(vector)
    }

    /// The LINT0 entry: bit 16 masks it, bits 10 to 8 are its mode, 111 being ExtINT.
    pub fn lint0(&self) -> u32
        ensures { result ≡ self.now.registers.lint0 }
    {
        self.registers.lint0
    }

    /// What a destination is compared with.
    pub fn dest_view(&self) -> DestView
        ensures { result ≡ dest_view self.now }
    {
        DestView {
            number: self.number as u16,
            enabled: self.is_enabled(),
            ldr: self.registers.ldr,
            dfr: self.registers.dfr,
            ppr: self.ppr(),
        }
    }

    /// Reads the register at an offset, or 0 where there is none.
    pub fn load(&self, offset: u16) -> u32
        ensures { result ≡ load_of self.now offset }
    {
        match register_at(offset) {
            Some((register, row)) => self.value(register, row),
            None => 0,
        }
    }

    // The value of a register, by its row where it never changes.
    fn value(&self, register: Register, row: RegRow) -> u32
        requires there { IsTrue (is_there register) }
        requires row { row ≡ row_for register }
        ensures { result ≡ value_of self.now register }
    {
        match register {
            Register::Id => (self.number as u32) << 24,
            Register::Tpr => self.registers.tpr as u32,
            Register::Ppr => self.ppr() as u32,
            Register::Ldr => self.registers.ldr,
            Register::Dfr => self.registers.dfr,
            Register::Svr => self.registers.svr,
            Register::Isr(k) => self.isr.word(k),
            Register::Tmr(k) => self.tmr.word(k),
            Register::Irr(k) => self.irr.word(k),
            Register::Esr => self.registers.esr,
            Register::IcrLow => self.registers.icr_low,
            Register::IcrHigh => self.registers.icr_high,
            Register::Lint0 => self.registers.lint0,
            Register::Lint1 => self.registers.lint1,
            _ => row.reset,
        }
    }

    /// Writes the register at an offset, if there is one that takes a write, and tells what comes of it.
    pub fn store(&mut self, offset: u16, value: u32) -> Effect
        ensures effect { result ≡ store_effect self.old offset value }
        ensures after { self.new ≡ store_to self.old offset value }
    {
        match register_at(offset) {
            Some((register, row)) => self.put(register, row, value),
            None => Effect::Plain,
        }
    }

    // Writes a register, of the bits that its row lets through.
    fn put(&mut self, register: Register, row: RegRow, value: u32) -> Effect
        requires { row ≡ row_for register }
        ensures effect { result ≡ effect_of self.old register value }
        ensures after { self.new ≡ stored self.old register value }
    {
        let kept = value & row.writable;
        match register {
            Register::Tpr => self.registers.tpr = kept as u8,
            Register::Eoi => return Effect::Ended(self.eoi()),
            Register::Ldr => self.registers.ldr = kept,
            Register::Dfr => self.registers.dfr = kept | 0x0fff_ffff,
            Register::Svr => self.registers.svr = kept,
            Register::Esr => {
                self.registers.esr = self.registers.errors;
                self.registers.errors = 0;
            }
            Register::IcrLow => {
                self.registers.icr_low = kept;
                return Effect::Send(ipi_of(kept, self.registers.icr_high));
            }
            Register::IcrHigh => self.registers.icr_high = kept,
            Register::Lint0 => self.registers.lint0 = kept,
            Register::Lint1 => self.registers.lint1 = kept,
            _ => {}
        }
        Effect::Plain
    }

    /// The same local APIC once more.
    pub fn copy(&self) -> Lapic
        ensures { result ≡ self.now }
    {
        Lapic {
            number: self.number,
            irr: self.irr.copy(),
            isr: self.isr.copy(),
            tmr: self.tmr.copy(),
            nmi: self.nmi,
            registers: self.registers,
        }
    }

    /// Makes the APIC equal to the other.
    pub fn copy_from(&mut self, other: &Lapic)
        ensures { self.new ≡ other.now }
    {
        self.number = other.number;
        self.irr.copy_from(&other.irr);
        self.isr.copy_from(&other.isr);
        self.tmr.copy_from(&other.tmr);
        self.nmi = other.nmi;
        self.registers = other.registers;
    }
}

// The greatest vector whose class is above that of a priority.
#[tactic(auto, using(crate::proofs::Classes::priority_rules))]
fn greatest_above(vectors: &Set256, priority: u8) -> Option<u8>
    ensures { result ≡ greatest_above vectors.now priority }
{
    let vector = vectors.greatest()?;
    if vector / 16 > priority / 16 {
        Some(vector)
    } else {
        None
    }
}

// The delivery mode that bits 10 to 8 of ICR name.
fn mode_of(number: u8) -> Mode
    ensures { result ≡ mode_of number }
{
    match number {
        0 => Mode::Fixed,
        1 => Mode::Lowest,
        2 => Mode::Smi,
        4 => Mode::Nmi,
        5 => Mode::Init,
        6 => Mode::Startup,
        7 => Mode::ExtInt,
        _ => Mode::Reserved,
    }
}

// The shorthand that bits 19 and 18 of ICR name.
fn shorthand_of(number: u8) -> Shorthand
    ensures { result ≡ shorthand_of number }
{
    match number {
        0 => Shorthand::Field,
        1 => Shorthand::OwnOnly,
        2 => Shorthand::All,
        _ => Shorthand::Others,
    }
}

// The message of the two halves of ICR.
fn ipi_of(low: u32, high: u32) -> Ipi
    ensures { result ≡ ipi_of low high }
{
    let message = Message {
        mode: mode_of((low >> 8 & 7) as u8),
        logical: low >> 11 & 1 == 1,
        dest: high >> 24,
        vector: (low & 0xff) as u8,
        level: false,
    };
    Ipi {
        message,
        to: shorthand_of((low >> 18 & 3) as u8),
    }
}

/// A law: what each register loads at power-on on processor `number` is the value of its row in the table, the identity
/// and LINT0 of processor 0 having values of their own, and the bits of the rows' values can all be read.
#[tactic(auto, using(crate::proofs::PowerOn::power_on_rules))]
pub fn registers_start_as_told(number: u16)
    ensures values { RegistersStartAsTold number }
    ensures readable { ResetsAreReadable register_rows }
{}
