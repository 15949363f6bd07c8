//! Why a call was refused.
ghost use Rattle.std.specs.Prelude.{◌≡◌};
ghost use Rattle.irq_base.specs.Refusals.{refusal_number, refusal_word};

use std::fmt;

/// Why a call was refused, by number. A refused call changes nothing.
#[derive(Clone, Copy, Debug, PartialEq, Eq)]
pub enum Refusal {
    /// A GSI of 4,096 or more.
    NoGsi = 1,
    /// A counter that the board does not have.
    NoCounter = 2,
    /// A routing row with a pin that the chip does not have.
    BadRow = 3,
    /// A GSI with two pins of one chip.
    ChipTwice = 4,
    /// A GSI with a message and something else.
    Mixed = 5,
    /// A pin that two rows name.
    PinTwice = 6,
    /// The trigger of a living irqfd.
    Busy = 7,
    /// A counter in two roles that exclude each other.
    RoleClash = 8,
    /// No room for another row.
    Full = 9,
    /// A row that is there, or collides with one.
    Exists = 10,
    /// No such row.
    NotThere = 11,
    /// A length, value or address outside what the access can have.
    BadRange = 12,
    /// The address of a chip.
    ChipAddress = 13,
    /// A count past 2^64 - 2.
    Over = 14,
    /// The count 2^64 - 1.
    BadCount = 15,
    /// A line above 7.
    NoLine = 16,
    /// An address that is none of messages.
    BadMsi = 17,
}

impl Refusal {
    /// The number of the refusal, from 1 to 17.
    pub fn number(&self) -> u8
        ensures { result ≡ refusal_number self.now }
    {
        *self as u8
    }

    /// The word of the refusal.
    pub fn word(&self) -> &'static str
        ensures { result.now ≡ refusal_word self.now }
    {
        match self {
            Refusal::NoGsi => "no-gsi",
            Refusal::NoCounter => "no-counter",
            Refusal::BadRow => "bad-row",
            Refusal::ChipTwice => "chip-twice",
            Refusal::Mixed => "mixed",
            Refusal::PinTwice => "pin-twice",
            Refusal::Busy => "busy",
            Refusal::RoleClash => "role-clash",
            Refusal::Full => "full",
            Refusal::Exists => "exists",
            Refusal::NotThere => "not-there",
            Refusal::BadRange => "bad-range",
            Refusal::ChipAddress => "chip-address",
            Refusal::Over => "over",
            Refusal::BadCount => "bad-count",
            Refusal::NoLine => "no-line",
            Refusal::BadMsi => "bad-msi",
        }
    }
}

impl fmt::Display for Refusal {
    ghost use Rattle.irq_base.specs.Text.{refusal_text};
    ghost use Rattle.std.specs.Prelude.{Some};

    ghost output = { λ r. Some (refusal_text r) };

    fn fmt<W: fmt::Write>(&self, f: &mut fmt::Formatter<W>) -> fmt::Result {
        let number = self.number();
        let word = self.word();
        write!(f, "{number} {word}")
    }
}
