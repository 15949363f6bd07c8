//! One 8259A.
ghost use Rattle.std.specs.Prelude.{◌≡◌, ℕ, ◌<◌, ◌+◌, ◌*◌, ◌/◌};
ghost use Rattle.irq_bits.specs.Members.{is_set};
ghost use Rattle.pic_8259a.specs.Chip.{chip_at_power_on};
ghost use Rattle.pic_8259a.specs.Priority.{IsTop, requests_of, inhibitors_of, top_of};
ghost use Rattle.pic_8259a.specs.Accesses.{level_acknowledged, ended, commanded, controlled, initialised, even_written, odd_written, polled, even_read, odd_read, with_pin, outcome_of, elcr_written};

use crate::levels::{Level, Levels, first_free};
use std::marker::Model;

/// Where a chip stands in the pair, and what the master hears from the slave.
#[derive(Clone, Copy)]
pub enum Place {
    Slave,
    Master { slave_ready: bool },
}

/// The initialisation command word that the odd port takes next, and which others follow it.
#[derive(Clone, Copy)]
pub enum Expects {
    Nothing,
    Icw2 { icw3: bool, icw4: bool },
    Icw3 { icw4: bool },
    Icw4,
}

/// What came of a new level of a pin.
#[derive(Clone, Copy, Debug, PartialEq, Eq)]
pub enum PinOutcome {
    /// The pin was low and, for an edge pin, no earlier rise was latched.
    New,
    /// The pin was high already, or an earlier rise was latched already.
    Stood,
    /// The level is masked; an edge is latched all the same.
    Masked,
    /// The pin is low.
    Lowered,
}

/// The vector of level 0, a multiple of 8; contracts see its number.
#[derive(Clone, Copy)]
pub struct Base {
    byte: u8,
}

impl Model for Base {
    ghost use Rattle.std.specs.Prelude.{ℕ, ◌≤◌};
    ghost use Rattle.std.specs.Coded.{coded_ℕ};

    ghost Value = { ℕ };

    ghost coded = { coded_ℕ };

    ghost view = { λ a. a.byte };

    ghost invariant = { λ a. a.byte ≤ 248 };

    ghost inverse = { λ n. record { byte = n } };
}

impl Base {
    /// The base of the high five bits.
    pub fn of(byte: u8) -> Base
        ensures { result ≡ byte / 8 * 8 }
    {
        Base { byte: byte / 8 * 8 }
    }

    /// The vector of a level.
    pub fn vector(&self, level: Level) -> u8
        ensures { result ≡ self.now + level }
    {
        self.byte + level.number()
    }
}

/// One chip of the pair.
#[derive(Clone, Copy)]
pub struct Chip {
    /// The mask register (IMR).
    pub(crate) imr: Levels,
    /// The rises that were latched; the requests (IRR) follow from these and from the high pins.
    pub(crate) latches: Levels,
    /// The pins that are high.
    pub(crate) high: Levels,
    /// The in-service register (ISR).
    pub(crate) isr: Levels,
    /// The edge/level register (ELCR): the levels that are level-triggered.
    pub(crate) elcr: Levels,
    /// The vector of level 0.
    pub(crate) base: Base,
    /// The level of lowest priority.
    pub(crate) lowest: Level,
    /// Automatic EOI mode.
    pub(crate) auto_eoi: bool,
    /// Rotate in automatic EOI mode.
    pub(crate) rotates_in_auto_eoi: bool,
    /// Special fully nested mode.
    pub(crate) special_fully_nested: bool,
    /// Special mask mode.
    pub(crate) special_mask: bool,
    /// The next read is a poll.
    pub(crate) poll_pending: bool,
    /// The even port reads the ISR, else the IRR.
    pub(crate) reads_isr: bool,
    /// Where the initialisation stands.
    pub(crate) expects: Expects,
}

/// Whether bit n of a byte is set.
#[tactic(auto, using(std::proofs::lemmas::Nat::Bits::shr_and_one))]
fn has_bit(byte: u8, n: u8) -> bool
    requires { n < 8 }
    ensures { result ≡ is_set byte n }
{
    byte >> n & 1 == 1
}

impl Chip {
    /// The chip at power-on.
    pub fn power_on() -> Chip
        ensures { result ≡ chip_at_power_on }
    {
        Chip {
            imr: Levels::of_byte(0xff),
            latches: Levels::none(),
            high: Levels::none(),
            isr: Levels::none(),
            elcr: Levels::none(),
            base: Base::of(0),
            lowest: Level::of(7),
            auto_eoi: false,
            rotates_in_auto_eoi: false,
            special_fully_nested: false,
            special_mask: false,
            poll_pending: false,
            reads_isr: false,
            expects: Expects::Nothing,
        }
    }

    /// The levels that request (IRR).
    pub fn requests(&self, place: Place) -> Levels
        ensures { result ≡ requests_of self.now place }
    {
        let own = self
            .elcr
            .meet(&self.high)
            .join(&self.latches.minus(&self.elcr));
        match place {
            Place::Master { slave_ready: true } => own.with(Level::of(2)),
            _ => own,
        }
    }

    /// The in-service levels that inhibit.
    pub fn inhibitors(&self) -> Levels
        ensures { result ≡ inhibitors_of self.now }
    {
        if self.special_mask {
            self.isr.minus(&self.imr)
        } else {
            self.isr
        }
    }

    /// The ready level of highest priority.
    #[tactic(auto, using(crate::proofs::Ready::top_rules))]
    pub fn top(&self, place: Place) -> Option<Level>
        ensures value { result ≡ top_of self.now place }
        ensures first { IsTop self.now place result }
    {
        let special = self.special_fully_nested && matches!(place, Place::Master { .. });
        let asking = self.requests(place).minus(&self.imr);
        first_free(special, self.lowest, &asking, &self.inhibitors())
    }

    /// Acknowledges a level, and gives the pin that counts as acknowledged.
    pub fn acknowledge(&mut self, level: Level) -> Option<Level>
        ensures after { self.new ≡ (level_acknowledged self.old level).after }
        ensures pin { result ≡ (level_acknowledged self.old level).pin }
        ensures pins { self.new.high ≡ self.old.high }
    {
        self.latches = self.latches.without(level);
        if self.auto_eoi {
            if self.rotates_in_auto_eoi {
                self.lowest = level;
            }
            self.isr = self.isr.without(level);
            Some(level)
        } else {
            self.isr = self.isr.with(level);
            None
        }
    }

    /// Ends the service of a level, and gives the pin that this acknowledged.
    pub fn end(&mut self, level: Option<Level>) -> Option<Level>
        ensures after { self.new ≡ (ended self.old level).after }
        ensures pin { result ≡ (ended self.old level).pin }
        ensures pins { self.new.high ≡ self.old.high }
    {
        let level = level?;
        let was_in_service = self.isr.has(level);
        self.isr = self.isr.without(level);
        if was_in_service { Some(level) } else { None }
    }

    /// Obeys an OCW2: ends of interrupt and rotation.
    pub fn command(&mut self, value: u8) -> Option<Level>
        ensures after { self.new ≡ (commanded self.old value).after }
        ensures pin { result ≡ (commanded self.old value).pin }
        ensures pins { self.new.high ≡ self.old.high }
    {
        let level = Level::of(value);
        match value / 32 {
            1 => self.end(self.inhibitors().highest(self.lowest)),
            3 => self.end(Some(level)),
            5 => {
                let ended = self.end(self.inhibitors().highest(self.lowest));
                if let Some(ended) = ended {
                    self.lowest = ended;
                }
                ended
            }
            7 => {
                let ended = self.end(Some(level));
                self.lowest = level;
                ended
            }
            4 => {
                self.rotates_in_auto_eoi = true;
                None
            }
            0 => {
                self.rotates_in_auto_eoi = false;
                None
            }
            6 => {
                self.lowest = level;
                None
            }
            _ => None,
        }
    }

    /// Obeys an OCW3: special mask mode, poll command, and the register that the even port reads.
    pub fn control(&mut self, value: u8)
        ensures after { self.new ≡ controlled self.old value }
        ensures pins { self.new.high ≡ self.old.high }
    {
        match value / 32 % 4 {
            3 => self.special_mask = true,
            2 => self.special_mask = false,
            _ => {}
        }
        self.poll_pending = has_bit(value, 2);
        if !self.poll_pending {
            match value % 4 {
                3 => self.reads_isr = true,
                2 => self.reads_isr = false,
                _ => {}
            }
        }
    }

    /// Obeys an ICW1, which begins the initialisation.
    pub fn initialise(&mut self, value: u8)
        ensures after { self.new ≡ initialised self.old value }
        ensures pins { self.new.high ≡ self.old.high }
    {
        let icw4 = has_bit(value, 0);
        self.imr = Levels::none();
        self.latches = Levels::none();
        self.isr = Levels::none();
        self.lowest = Level::of(7);
        self.special_mask = false;
        self.rotates_in_auto_eoi = false;
        self.poll_pending = false;
        self.reads_isr = false;
        self.auto_eoi = self.auto_eoi && icw4;
        self.special_fully_nested = self.special_fully_nested && icw4;
        self.expects = Expects::Icw2 {
            icw3: !has_bit(value, 1),
            icw4,
        };
    }

    /// Obeys a word at the even port, and gives the pin that an end of interrupt acknowledged.
    pub fn write_even(&mut self, value: u8) -> Option<Level>
        ensures after { self.new ≡ (even_written self.old value).after }
        ensures pin { result ≡ (even_written self.old value).pin }
        ensures pins { self.new.high ≡ self.old.high }
    {
        if has_bit(value, 4) {
            self.initialise(value);
            None
        } else if has_bit(value, 3) {
            self.control(value);
            None
        } else {
            self.command(value)
        }
    }

    /// Obeys a word at the odd port: the initialisation word that is expected, else a new mask.
    pub fn write_odd(&mut self, value: u8)
        ensures after { self.new ≡ odd_written self.old value }
        ensures pins { self.new.high ≡ self.old.high }
    {
        match self.expects {
            Expects::Icw2 { icw3, icw4 } => {
                self.base = Base::of(value);
                self.expects = if icw3 {
                    Expects::Icw3 { icw4 }
                } else if icw4 {
                    Expects::Icw4
                } else {
                    Expects::Nothing
                };
            }
            Expects::Icw3 { icw4 } => {
                self.expects = if icw4 {
                    Expects::Icw4
                } else {
                    Expects::Nothing
                };
            }
            Expects::Icw4 => {
                self.auto_eoi = has_bit(value, 1);
                self.special_fully_nested = has_bit(value, 4);
                self.expects = Expects::Nothing;
            }
            Expects::Nothing => self.imr = Levels::of_byte(value),
        }
    }

    /// Ends the poll that is pending and acknowledges the top: 80h and its number or 00h, and the pin that counts as
    /// acknowledged.
    pub fn poll(&mut self, place: Place) -> (u8, Option<Level>)
        ensures after { self.new ≡ (polled self.old place).after }
        ensures value { result.0 ≡ (polled self.old place).value }
        ensures pin { result.1 ≡ (polled self.old place).pin }
        ensures pins { self.new.high ≡ self.old.high }
    {
        let top = self.top(place);
        self.poll_pending = false;
        match top {
            None => (0x00, None),
            Some(level) => {
                let pin = self.acknowledge(level);
                (0x80 + level.number(), pin)
            }
        }
    }

    /// Reads the even port, and gives the pin that a poll acknowledged.
    pub fn read_even(&mut self, place: Place) -> (u8, Option<Level>)
        ensures after { self.new ≡ (even_read self.old place).after }
        ensures value { result.0 ≡ (even_read self.old place).value }
        ensures pin { result.1 ≡ (even_read self.old place).pin }
        ensures pins { self.new.high ≡ self.old.high }
    {
        if self.poll_pending {
            self.poll(place)
        } else if self.reads_isr {
            (self.isr.byte(), None)
        } else {
            (self.requests(place).byte(), None)
        }
    }

    /// Reads the odd port, and gives the pin that a poll acknowledged.
    pub fn read_odd(&mut self, place: Place) -> (u8, Option<Level>)
        ensures after { self.new ≡ (odd_read self.old place).after }
        ensures value { result.0 ≡ (odd_read self.old place).value }
        ensures pin { result.1 ≡ (odd_read self.old place).pin }
        ensures pins { self.new.high ≡ self.old.high }
    {
        if self.poll_pending {
            self.poll(place)
        } else {
            (self.imr.byte(), None)
        }
    }

    /// Makes a pin high or low.
    pub fn set_pin(&mut self, pin: Level, high: bool) -> PinOutcome
        ensures after { self.new ≡ with_pin self.old pin high }
        ensures outcome { result ≡ outcome_of self.old pin high }
    {
        if !high {
            self.high = self.high.without(pin);
            return PinOutcome::Lowered;
        }
        let was_high = self.high.has(pin);
        let is_level = self.elcr.has(pin);
        let was_latched = self.latches.has(pin);
        if !was_high && !is_level {
            self.latches = self.latches.with(pin);
        }
        self.high = self.high.with(pin);
        if self.imr.has(pin) {
            PinOutcome::Masked
        } else if !was_high && (is_level || !was_latched) {
            PinOutcome::New
        } else {
            PinOutcome::Stood
        }
    }

    /// Writes the edge/level register.
    pub fn write_elcr(&mut self, levels: Levels)
        ensures after { self.new ≡ elcr_written self.old levels }
        ensures pins { self.new.high ≡ self.old.high }
    {
        self.elcr = levels;
        self.latches = self.latches.minus(&levels);
    }
}
