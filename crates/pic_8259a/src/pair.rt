//! The master and the slave.
ghost use Rattle.std.specs.Prelude.{◌≡◌, ℕ, ◌<◌, IsTrue, IfSome};
ghost use Rattle.pic_8259a.specs.Pair.{pair_at_power_on, slave_pin, master_place, write_to, read_from, is_port, has_output, cycle, pin_set, pin_outcome, SameHigh, InRange};

use crate::chip::{Chip, PinOutcome, Place};
use crate::levels::{Level, Levels};
use crate::ports::{MASTER_ELCR, Port, SLAVE_ELCR, port_at};

/// The pair of chips, the slave's output being level 2 of the master.
#[derive(Clone, Copy)]
pub struct Pair {
    master: Chip,
    slave: Chip,
}

/// The pins, of 0 to 15, that an acknowledge cycle acknowledged: under automatic EOI that of the master's level, and
/// that of the slave's.
#[derive(Clone, Copy)]
pub struct AckedPins {
    pub master: Option<u8>,
    pub slave: Option<u8>,
}

/// The pin of a level of the master.
fn pin_of_master(level: Option<Level>) -> Option<u8>
    ensures pin { result ≡ level }
    ensures in_range { IfSome result (λ p. p < 8) }
{
    Some(level?.number())
}

/// The pin of a level of the slave.
fn pin_of_slave(level: Option<Level>) -> Option<u8>
    ensures pin { result ≡ slave_pin level }
    ensures in_range { IfSome result (λ p. p < 16) }
{
    Some(8 + level?.number())
}

impl Pair {
    /// The pair at power-on: both chips mask every level, level 7 is the lowest, and all else is 0 or off.
    pub fn power_on() -> Pair
        ensures { result ≡ pair_at_power_on }
    {
        Pair {
            master: Chip::power_on(),
            slave: Chip::power_on(),
        }
    }

    /// Where the master stands.
    fn place(&self) -> Place
        ensures { result ≡ master_place self.now }
    {
        Place::Master {
            slave_ready: self.slave.top(Place::Slave).is_some(),
        }
    }

    /// Whether the output to the processor is active: the master has a ready level.
    pub fn output(&self) -> bool
        ensures { result ≡ has_output self.now }
    {
        self.master.top(self.place()).is_some()
    }

    /// Writes a byte to one of the six ports 20h, 21h, A0h, A1h, 4D0h and 4D1h, and gives the pin, of 0 to 15, that an
    /// end of interrupt acknowledged.
    pub fn write(&mut self, port: u16, value: u8) -> Option<u8>
        requires { IsTrue (is_port port) }
        ensures after { self.new ≡ (write_to self.old port value).after }
        ensures pin { result ≡ (write_to self.old port value).pin }
        ensures in_range { IfSome result (λ p. p < 16) }
        ensures high { SameHigh self.old self.new }
    {
        match port_at(port) {
            Port::MasterEven => pin_of_master(self.master.write_even(value)),
            Port::MasterOdd => {
                self.master.write_odd(value);
                None
            }
            Port::SlaveEven => pin_of_slave(self.slave.write_even(value)),
            Port::SlaveOdd => {
                self.slave.write_odd(value);
                None
            }
            Port::MasterElcr => {
                let levels = Levels::of_byte(value).meet(&Levels::of_byte(MASTER_ELCR));
                self.master.write_elcr(levels);
                None
            }
            Port::SlaveElcr => {
                let levels = Levels::of_byte(value).meet(&Levels::of_byte(SLAVE_ELCR));
                self.slave.write_elcr(levels);
                None
            }
        }
    }

    /// Reads one of the six ports, and gives the byte and the pin, of 0 to 15, that a poll acknowledged under automatic
    /// EOI.
    pub fn read(&mut self, port: u16) -> (u8, Option<u8>)
        requires { IsTrue (is_port port) }
        ensures after { self.new ≡ (read_from self.old port).after }
        ensures value { result.0 ≡ (read_from self.old port).value }
        ensures pin { result.1 ≡ (read_from self.old port).pin }
        ensures in_range { IfSome result.1 (λ p. p < 16) }
        ensures high { SameHigh self.old self.new }
    {
        match port_at(port) {
            Port::MasterEven => {
                let place = self.place();
                let (value, level) = self.master.read_even(place);
                (value, pin_of_master(level))
            }
            Port::MasterOdd => {
                let place = self.place();
                let (value, level) = self.master.read_odd(place);
                (value, pin_of_master(level))
            }
            Port::SlaveEven => {
                let (value, level) = self.slave.read_even(Place::Slave);
                (value, pin_of_slave(level))
            }
            Port::SlaveOdd => {
                let (value, level) = self.slave.read_odd(Place::Slave);
                (value, pin_of_slave(level))
            }
            Port::MasterElcr => (self.master.elcr.byte(), None),
            Port::SlaveElcr => (self.slave.elcr.byte(), None),
        }
    }

    /// Makes a pin, of 0 to 15, high or low.
    pub fn set_pin(&mut self, pin: u8, high: bool) -> PinOutcome
        requires { pin < 16 }
        ensures after { self.new ≡ pin_set self.old pin high }
        ensures outcome { result ≡ pin_outcome self.old pin high }
    {
        let level = Level::of(pin);
        if pin < 8 {
            self.master.set_pin(level, high)
        } else {
            self.slave.set_pin(level, high)
        }
    }

    /// The acknowledge cycle (INTA) of the processor: the vector, and the pins that count as acknowledged.
    pub fn inta(&mut self) -> (u8, AckedPins)
        ensures after { self.new ≡ (cycle self.old).after }
        ensures vector { result.0 ≡ (cycle self.old).vector }
        ensures pins { result.1 ≡ (cycle self.old).pins }
        ensures in_range { InRange result.1 }
        ensures high { SameHigh self.old self.new }
    {
        let spurious = Level::of(7);
        let Some(top) = self.master.top(self.place()) else {
            let nothing = AckedPins {
                master: None,
                slave: None,
            };
            return (self.master.base.vector(spurious), nothing);
        };
        let master = pin_of_master(self.master.acknowledge(top));
        if top.number() != 2 {
            return (
                self.master.base.vector(top),
                AckedPins {
                    master,
                    slave: None,
                },
            );
        }
        match self.slave.top(Place::Slave) {
            None => (
                self.slave.base.vector(spurious),
                AckedPins {
                    master,
                    slave: None,
                },
            ),
            Some(level) => {
                let slave = pin_of_slave(self.slave.acknowledge(level));
                (self.slave.base.vector(level), AckedPins { master, slave })
            }
        }
    }

    /// Makes the pair equal to the other.
    pub fn copy_from(&mut self, other: &Pair)
        ensures { self.new ≡ other.now }
    {
        *self = *other;
    }
}
