//! A rig over all parts of a board on one thread.
ghost use Rattle.std.specs.Prelude.{◌≡◌, ◌<◌, ◌≤◌, [], length, is_some, IfSome};
ghost use Rattle.board_model.specs.Hand.{part_in};
ghost use Rattle.board_model.specs.Published.{published};
ghost use Rattle.board_raise.specs.BoardRig.{NamesWhatIsThere, words_in};
ghost use Rattle.board_raise.specs.InHand.{parts_of, registry_of};
ghost use Rattle.board_raise.specs.OnRow.{apic_in};

use crate::parts::Parts;
use crate::rig::Rig;
use crate::row::LapicRow;
use crate::wish_list::WishList;
use crate::words::Words;
use board_model::TriggerWord;
use irq_base::{Part, Pin, Targets};
use irq_bits::CpuSet;

/// A rig over parts of its own. It answers the published words from the registry that was published last, which no write to
/// the lent parts changes, so it is never astray.
#[derive(Drop)]
pub struct BoardRig {
    parts: Parts,
    words: Words,
    /// What the next sendings are to choose.
    wishes: WishList,
}

// Whether the local APIC of the processor is in hand.
fn has_lapic(row: &LapicRow, n: u16) -> bool
    ensures { result ≡ is_some (apic_in row.now n) }
{
    (n as usize) < row.len() && row.at(n).is_some()
}

// Whether the part is in hand.
#[tactic(auto, using(crate::proofs::InHand::held_rules))]
fn has_part(parts: &Parts, part: Part) -> bool
    ensures { result ≡ is_some (part_in (parts_of parts.now) part) }
{
    match part {
        Part::Registry => parts.registry.is_some(),
        Part::Counters => parts.counters.is_some(),
        Part::Tick => parts.tick.is_some(),
        Part::Pic => parts.pic.is_some(),
        Part::Ioapic => parts.ioapic.is_some(),
        Part::Lapic(n) => has_lapic(&parts.lapics, n),
    }
}

impl BoardRig {
    /// A rig over these parts, whose board published these words. It wishes for nothing.
    pub fn new(parts: Parts, words: Words) -> BoardRig
        ensures parts { result.parts ≡ parts }
        ensures words { result.words ≡ words }
        ensures wishes { result.wishes ≡ [] }
    {
        BoardRig {
            parts,
            words,
            wishes: WishList::none(),
        }
    }

    /// The next sendings are to choose one processor of these sets each, in order, where they are free to choose; those after
    /// them are not told what to choose.
    pub fn wish_for(&mut self, wishes: &[CpuSet])
        requires { length wishes.now ≤ 561 }
        ensures { self.new ≡ record self.old { wishes = wishes.now } }
    {
        self.wishes.set_to(wishes);
    }

    /// From now on the words are those of the registry in hand, if it is in hand, with ticks on that GSI. It takes no memory.
    pub fn publish(&mut self, tick: u16)
        requires names { IfSome self.old.parts.registry NamesWhatIsThere }
        requires tick { tick < 4096 }
        ensures parts { self.new.parts ≡ self.old.parts }
        ensures words { IfSome self.old.parts.registry (λ registry. words_in self.new.words ≡ published (registry_of registry) tick) }
        ensures wishes { self.new.wishes ≡ self.old.wishes }
    {
        if let Some(registry) = &self.parts.registry {
            self.words.publish(registry, tick);
        }
    }

    /// The parts as they are now.
    pub fn all(&self) -> &Parts
        ensures { result.now ≡ self.now.parts }
    {
        &self.parts
    }

    /// The parts as they are now, and the words.
    pub fn into_parts(self) -> (Parts, Words)
        ensures parts { result.0 ≡ self.parts }
        ensures words { result.1 ≡ self.words }
    {
        (self.parts, self.words)
    }
}

impl Rig for BoardRig {
    ghost use Rattle.std.specs.Prelude.{◌≡◌, false, [], refl};
    ghost use Rattle.board_raise.specs.BoardRig.{with_parts, words_in};

    ghost held = { λ r. r.parts };

    ghost published = { λ r. words_in r.words };

    ghost astray = { λ _. false };

    ghost wishes = { λ r. r.wishes };

    ghost noted = { λ _. [] };

    ghost with_held = { with_parts };

    ghost held_with = { λ r p. refl };

    ghost published_with = { λ r p. refl };

    ghost wishes_with = { λ r p. refl };

    ghost astray_with = { λ r p. refl };

    ghost noted_with = { λ r p. refl };

    fn parts(&mut self) -> &mut Parts {
        &mut self.parts
    }

    fn has(&self, part: Part) -> bool {
        has_part(&self.parts, part)
    }

    fn targets(&mut self, gsi: u16) -> Targets {
        self.words.targets(gsi)
    }

    fn marked(&mut self, gsi: u16) -> bool {
        self.words.marked(gsi)
    }

    fn gsi_of(&mut self, pin: Pin) -> Option<u16> {
        self.words.gsi_of(pin)
    }

    fn trigger(&mut self, trigger: u16) -> Option<TriggerWord> {
        self.words.trigger(trigger)
    }

    fn wish(&mut self) -> CpuSet {
        self.wishes.take_first()
    }
}
