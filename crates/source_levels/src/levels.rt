//! The holds of the pins of one chip.
ghost use Rattle.std.specs.Prelude.{◌≡◌, ◌+◌, ◌<◌, ◌↔◌, IsTrue, not, nat_eq, true};
ghost use Rattle.std.specs.FinSet as set;
ghost use Rattle.irq_base.specs.declared.message.Source.{Source as Holder};
ghost use Rattle.source_levels.specs.Holds.{hold, is_of, is_high, number_of, IsSource};

use irq_base::Source;
use std::marker::Model;

/// What holds each of a chip's N pins high.
#[derive(Drop)]
pub struct Levels<const N: usize> {
    words: [u16; N],
}

impl<const N: usize> Model for Levels<N> {
    ghost use Rattle.source_levels.specs.Holds.{Holds, holds_code};
    ghost use Rattle.source_levels.specs.Flags.{holds_of};

    ghost Value = { Holds };

    ghost coded = { holds_code };

    ghost view = { λ a. holds_of a.words };
}

// The number of a source, the place of its bit.
#[tactic(auto, unfolding(crate::specs::Holds::number_of))]
fn place_of(source: Source) -> u16
    requires { IsSource source }
    ensures number { result ≡ number_of source }
    ensures range { result < 11 }
{
    match source {
        Source::Pulse => 0,
        Source::Resample => 1,
        Source::Tick => 2,
        Source::Line(line) => line as u16 + 3,
    }
}

#[tactic(auto, using(crate::proofs::FlagLaws::flag_rules))]
impl<const N: usize> Levels<N> {
    /// No source holds a pin.
    pub fn none() -> Levels<N>
        ensures { result ≡ set.empty }
    {
        Levels { words: [0; N] }
    }

    /// The source holds the pin from now on. Lines are numbered 0 to 7.
    pub fn raise(&mut self, pin: u8, source: Source)
        requires pin { pin < N }
        requires line { IsSource source }
        ensures { self.new ≡ set.insert self.old (hold pin source) }
    {
        self.words[pin as usize] |= 1 << place_of(source);
    }

    /// The source does not hold the pin from now on. Lines are numbered 0 to 7.
    pub fn lower(&mut self, pin: u8, source: Source)
        requires pin { pin < N }
        requires line { IsSource source }
        ensures { self.new ≡ set.remove self.old (hold pin source) }
    {
        self.words[pin as usize] &= !(1 << place_of(source));
    }

    /// No source holds the pin from now on.
    pub fn forget(&mut self, pin: u8)
        requires { pin < N }
        ensures { self.new ≡ set.retain self.old (λ h. not (is_of pin h)) }
    {
        self.words[pin as usize] = 0;
    }

    /// Whether some source holds the pin.
    pub fn high(&self, pin: u8) -> bool
        requires { pin < N }
        ensures value { result ≡ is_high self.now pin }
        ensures some { IsTrue result ↔ ((source : Holder) × (set.contains self.now (hold pin source) ≡ true)) }
    {
        self.words[pin as usize] != 0
    }

    /// The same holds once more.
    pub fn copy(&self) -> Levels<N>
        ensures { result ≡ self.now }
    {
        Levels { words: self.words }
    }

    /// Makes the holds equal to the other's.
    pub fn copy_from(&mut self, other: &Levels<N>)
        ensures { self.new ≡ other.now }
    {
        self.words = other.words;
    }
}
