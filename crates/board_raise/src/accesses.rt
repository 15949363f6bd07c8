//! The guest reads and writes the registers of the chips in hand, and the processor acknowledges the pair.
ghost use Rattle.std.specs.Prelude.{◌≡◌, ◌<◌, IsTrue, IfSome};
ghost use Rattle.std.specs.FinSet as set;
ghost use Rattle.pic_8259a.specs.Pair.{pair_at_power_on, is_port, write_to as pair_write_to, read_from as pair_read_from, cycle, InRange};
ghost use Rattle.ioapic_82093aa.specs.Pins.{ioapic_at_power_on, write_to, read_from, resend_of};
ghost use Rattle.board_model.specs.Chips.{pair_of, with_pair, ioapic_of as chip_of, with_ioapic};
ghost use Rattle.board_raise.specs.Fit.{PairFits, IoapicFits};
ghost use Rattle.board_raise.specs.InHand.{pic_of, ioapic_of};

use crate::parts::{IoPart, PicPart};
use ioapic_82093aa::Ioapic;
use irq_base::Message;
use pic_8259a::{AckedPins, Pair};
use source_levels::Levels;

impl PicPart {
    /// The pair at power-on, no pin held.
    pub fn power_on() -> PicPart
        ensures pair { result.pair ≡ pair_at_power_on }
        ensures holds { result.levels ≡ set.empty }
        ensures fits { PairFits result.pair result.levels }
    {
        PicPart {
            pair: Pair::power_on(),
            levels: Levels::none(),
        }
    }

    /// Writes a byte to one of the pair's six ports, and gives the pin, of 0 to 15, that an end of interrupt acknowledged.
    pub fn write(&mut self, port: u16, value: u8) -> Option<u8>
        requires port { IsTrue (is_port port) }
        requires fits { PairFits self.old.pair self.old.levels }
        ensures after { pic_of self.new ≡ with_pair (pic_of self.old) (pair_write_to (pair_of (pic_of self.old)) port value).after }
        ensures pin { result ≡ (pair_write_to (pair_of (pic_of self.old)) port value).pin }
        ensures in_range { IfSome result (λ p. p < 16) }
        ensures fits { PairFits self.new.pair self.new.levels }
    {
        self.pair.write(port, value)
    }

    /// Reads one of the pair's six ports, and gives the byte and the pin, of 0 to 15, that a poll acknowledged under
    /// automatic EOI.
    pub fn read(&mut self, port: u16) -> (u8, Option<u8>)
        requires port { IsTrue (is_port port) }
        requires fits { PairFits self.old.pair self.old.levels }
        ensures after { pic_of self.new ≡ with_pair (pic_of self.old) (pair_read_from (pair_of (pic_of self.old)) port).after }
        ensures value { result.0 ≡ (pair_read_from (pair_of (pic_of self.old)) port).value }
        ensures pin { result.1 ≡ (pair_read_from (pair_of (pic_of self.old)) port).pin }
        ensures in_range { IfSome result.1 (λ p. p < 16) }
        ensures fits { PairFits self.new.pair self.new.levels }
    {
        self.pair.read(port)
    }

    /// The acknowledge cycle (INTA) of the processor: the vector, and the pins, of 0 to 15, that count as acknowledged.
    pub fn inta(&mut self) -> (u8, AckedPins)
        requires fits { PairFits self.old.pair self.old.levels }
        ensures after { pic_of self.new ≡ with_pair (pic_of self.old) (cycle (pair_of (pic_of self.old))).after }
        ensures vector { result.0 ≡ (cycle (pair_of (pic_of self.old))).vector }
        ensures pins { result.1 ≡ (cycle (pair_of (pic_of self.old))).pins }
        ensures in_range { InRange result.1 }
        ensures fits { PairFits self.new.pair self.new.levels }
    {
        self.pair.inta()
    }
}

impl IoPart {
    /// The I/O APIC at power-on, no pin held.
    pub fn power_on() -> IoPart
        ensures chip { result.ioapic ≡ ioapic_at_power_on }
        ensures holds { result.levels ≡ set.empty }
        ensures fits { IoapicFits result.ioapic result.levels }
    {
        IoPart {
            ioapic: Ioapic::power_on(),
            levels: Levels::none(),
        }
    }

    /// Writes at an offset of the I/O APIC, and gives the pin, of 0 to 23, whose entry was written.
    pub fn write(&mut self, offset: u8, value: u32) -> Option<u8>
        requires fits { IoapicFits self.old.ioapic self.old.levels }
        ensures after { ioapic_of self.new ≡ with_ioapic (ioapic_of self.old) (write_to (chip_of (ioapic_of self.old)) offset value).after }
        ensures pin { result ≡ (write_to (chip_of (ioapic_of self.old)) offset value).pin }
        ensures in_range { IfSome result (λ p. p < 24) }
        ensures fits { IoapicFits self.new.ioapic self.new.levels }
    {
        self.ioapic.write(offset, value)
    }

    /// Reads at an offset of the I/O APIC.
    pub fn read(&self, offset: u8) -> u32
        requires fits { IoapicFits self.now.ioapic self.now.levels }
        ensures { result ≡ read_from (chip_of (ioapic_of self.now)) offset }
    {
        self.ioapic.read(offset)
    }

    /// The message of a pin, of 0 to 23, that is to be sent again, where it is.
    pub fn resend(&self, pin: u8) -> Option<Message>
        requires pin { pin < 24 }
        requires fits { IoapicFits self.now.ioapic self.now.levels }
        ensures { result ≡ resend_of (chip_of (ioapic_of self.now)) pin }
    {
        self.ioapic.resend(pin)
    }
}
