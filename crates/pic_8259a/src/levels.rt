//! The eight levels of a chip, and sets of them.
ghost use Rattle.std.specs.Prelude.{◌≡◌, ℕ, ◌<◌, ◌%◌};
ghost use Rattle.std.specs.FinSet as set;
ghost use Rattle.pic_8259a.specs.Levels.{levels_of, byte_of, highest_of};
ghost use Rattle.pic_8259a.specs.Priority.{first_free};

use std::marker::Model;

/// A level of a chip, from 0 to 7; contracts see its number.
#[derive(Clone, Copy)]
pub struct Level {
    number: u8,
}

impl Model for Level {
    ghost use Rattle.std.specs.Prelude.{ℕ, ◌<◌};
    ghost use Rattle.std.specs.Coded.{coded_ℕ};

    ghost Value = { ℕ };

    ghost coded = { coded_ℕ };

    ghost view = { λ a. a.number };

    ghost invariant = { λ a. a.number < 8 };

    ghost inverse = { λ n. record { number = n } };
}

impl Level {
    /// The level of the low three bits.
    pub fn of(byte: u8) -> Level
        ensures { result ≡ byte % 8 }
    {
        Level { number: byte % 8 }
    }

    /// The number of the level.
    pub fn number(&self) -> u8
        ensures number { result ≡ self.now }
        ensures range { result < 8 }
    {
        self.number
    }
}

/// A set of levels, kept as a byte whose bit n stands for level n.
#[derive(Clone, Copy)]
pub struct Levels {
    byte: u8,
}

impl Model for Levels {
    ghost use Rattle.std.specs.Prelude.{ℕ, ◌<◌, ◌^◌};
    ghost use Rattle.irq_bits.specs.Members.{Numbers, numbers_code};
    ghost use Rattle.pic_8259a.specs.Levels.{levels_of, byte_of};
    ghost use Rattle.pic_8259a.specs.Rules.{level-byte};

    ghost Value = { Numbers };

    ghost coded = { numbers_code };

    ghost view = { λ a. levels_of a.byte };

    ghost invariant = { λ a. a.byte < 2 ^ 8 };

    ghost inverse = { λ s. record { byte = byte_of s } };

    ghost inverse_ok = { λ a fits i. record { byte = level-byte a.byte fits i } };
}

#[tactic(auto, using(crate::specs::Rules::level_rules))]
impl Levels {
    /// No level.
    pub fn none() -> Levels
        ensures { result ≡ set.empty }
    {
        Levels { byte: 0 }
    }

    /// The levels whose bits are set.
    pub fn of_byte(byte: u8) -> Levels
        ensures { result ≡ levels_of byte }
    {
        Levels { byte }
    }

    /// The byte with a bit for each level.
    pub fn byte(&self) -> u8
        ensures { result ≡ byte_of self.now }
    {
        self.byte
    }

    /// Whether the level is in the set.
    pub fn has(&self, level: Level) -> bool
        ensures { result ≡ set.contains self.now level }
    {
        self.byte >> level.number & 1 == 1
    }

    /// The set with the level.
    pub fn with(&self, level: Level) -> Levels
        ensures { result ≡ set.insert self.now level }
    {
        Levels {
            byte: self.byte | 1 << level.number,
        }
    }

    /// The set without the level.
    pub fn without(&self, level: Level) -> Levels
        ensures { result ≡ set.remove self.now level }
    {
        Levels {
            byte: self.byte & !(1 << level.number),
        }
    }

    /// The levels of either set.
    pub fn join(&self, other: &Levels) -> Levels
        ensures { result ≡ set.union self.now other.now }
    {
        Levels {
            byte: self.byte | other.byte,
        }
    }

    /// The levels of both sets.
    pub fn meet(&self, other: &Levels) -> Levels
        ensures { result ≡ set.intersection self.now other.now }
    {
        Levels {
            byte: self.byte & other.byte,
        }
    }

    /// The levels of this set that are not in the other.
    pub fn minus(&self, other: &Levels) -> Levels
        ensures { result ≡ set.difference self.now other.now }
    {
        Levels {
            byte: self.byte & !other.byte,
        }
    }

    /// The member of highest priority, where priority falls from the level after `lowest`.
    #[tactic(auto, using(crate::proofs::Rotation::highest_by_rotation))]
    pub fn highest(&self, lowest: Level) -> Option<Level>
        ensures { result ≡ highest_of lowest self.now }
    {
        let lowest = lowest.number;
        if self.byte == 0 {
            None
        } else {
            let places = self.byte.rotate_right(lowest as u32 + 1).trailing_zeros() as u8;
            Some(Level {
                number: (lowest + 1 + places) % 8,
            })
        }
    }
}

/// The level of highest priority that asks and that no inhibitor holds back; with `special`, level 2 does not hold back
/// itself.
#[tactic(auto, using(crate::proofs::Ready::first_free_is))]
pub fn first_free(
    special: bool,
    lowest: Level,
    asking: &Levels,
    inhibitors: &Levels,
) -> Option<Level>
    ensures { result ≡ first_free special lowest asking.now inhibitors.now }
{
    // the first level that asks or inhibits decides, since an inhibitor holds back all behind it
    let first = asking.join(inhibitors).highest(lowest)?;
    let is_free = !inhibitors.has(first) || (special && first.number() == 2 && asking.has(first));
    if is_free { Some(first) } else { None }
}
