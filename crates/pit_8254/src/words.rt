//! Control words.
ghost use Rattle.std.specs.Prelude.{◌≡◌, ◌<◌};
ghost use Rattle.pit_8254.specs.Words.{access_of, control_of, is_high, is_low_of_two, is_periodic, mode_of, programmed};

/// How a channel counts.
#[derive(Clone, Copy, Debug, PartialEq, Eq)]
pub enum PitMode {
    /// Mode 0, interrupt on terminal count: one tick for each count that is loaded.
    TerminalCount,
    /// Mode 2: ticks as often as the count says.
    RateGenerator,
    /// Mode 3: ticks as mode 2 does.
    SquareWave,
    /// Mode 4, software triggered strobe: one tick for each count that is loaded.
    SoftwareStrobe,
}

/// Which bytes of a count are written and read.
#[derive(Clone, Copy, Debug, PartialEq, Eq)]
pub enum PitAccess {
    Low,
    High,
    LowThenHigh,
}

/// What a control word sets.
#[derive(Clone, Copy)]
pub struct Program {
    pub mode: PitMode,
    pub access: PitAccess,
}

/// What a control word says to channel 0.
#[derive(Clone, Copy)]
pub enum Control {
    /// It is for another channel, or reads back.
    Nothing,
    /// The count is latched.
    Latch,
    /// It asks for decimal counts, or for mode 1 or 5, which this channel has not.
    Bad,
    Program(Program),
}

impl PitMode {
    /// The mode of three bits: 6 and 7 mean 2 and 3; none where they are 1 or 5.
    pub fn of(bits: u8) -> Option<PitMode>
        requires { bits < 8 }
        ensures { result ≡ mode_of bits }
    {
        match bits {
            0 => Some(PitMode::TerminalCount),
            2 | 6 => Some(PitMode::RateGenerator),
            3 | 7 => Some(PitMode::SquareWave),
            4 => Some(PitMode::SoftwareStrobe),
            _ => None,
        }
    }

    /// Whether a count ticks again and again.
    pub fn is_periodic(self) -> bool
        ensures { result ≡ is_periodic self }
    {
        match self {
            PitMode::RateGenerator | PitMode::SquareWave => true,
            PitMode::TerminalCount | PitMode::SoftwareStrobe => false,
        }
    }
}

impl PitAccess {
    /// The access of two bits; none where they latch.
    pub fn of(bits: u8) -> Option<PitAccess>
        requires { bits < 4 }
        ensures { result ≡ access_of bits }
    {
        match bits {
            1 => Some(PitAccess::Low),
            2 => Some(PitAccess::High),
            3 => Some(PitAccess::LowThenHigh),
            _ => None,
        }
    }

    /// Whether the byte is the high one of its count; `second` says whether the one before it was the low byte of two.
    pub fn is_high(self, second: bool) -> bool
        ensures { result ≡ is_high self second }
    {
        match self {
            PitAccess::Low => false,
            PitAccess::High => true,
            PitAccess::LowThenHigh => second,
        }
    }

    /// Whether the byte is the low one of two.
    pub fn is_low_of_two(self, second: bool) -> bool
        ensures { result ≡ is_low_of_two self second }
    {
        match self {
            PitAccess::Low | PitAccess::High => false,
            PitAccess::LowThenHigh => !second,
        }
    }
}

// What a word of this access sets: nothing where it is a bad word.
fn programmed(word: u8, access: PitAccess) -> Control
    ensures { result ≡ programmed word access }
{
    match PitMode::of(word / 2 % 8) {
        Some(mode) if word % 2 == 0 => Control::Program(Program { mode, access }),
        _ => Control::Bad,
    }
}

impl Control {
    /// What the word says.
    pub fn of(word: u8) -> Control
        ensures { result ≡ control_of word }
    {
        if word >= 64 {
            return Control::Nothing;
        }
        match PitAccess::of(word / 16 % 4) {
            None => Control::Latch,
            Some(access) => programmed(word, access),
        }
    }
}
