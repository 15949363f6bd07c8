//! A rig over parts in hand.
ghost use Rattle.std.specs.Prelude.{◌≡◌, is_some};
ghost use Rattle.board_model.specs.Hand.{part_in};
ghost use Rattle.board_raise.specs.InHand.{parts_of};
ghost use Rattle.board_raise.specs.OnRow.{apic_in};

use crate::known::Known;
use crate::reading::{gsi_told, marked_told, targets_told, trigger_told};
use board_model::TriggerWord;
use board_raise::{LapicRow, Parts, Rig};
use irq_base::{Part, Pin, Targets};
use irq_bits::CpuSet;

// Whether the local APIC of the processor is in hand.
fn has_lapic(row: &LapicRow, n: u16) -> bool
    ensures { result ≡ is_some (apic_in row.now n) }
{
    (n as usize) < row.len() && row.at(n).is_some()
}

// Whether the part is in hand.
#[tactic(auto, using(board_raise::proofs::InHand::held_rules))]
fn has_part(parts: &Parts, part: Part) -> bool
    ensures { result ≡ is_some (part_in (parts_of parts.now) part) }
{
    match part {
        Part::Registry => parts.registry.is_some(),
        Part::Counters => parts.counters.is_some(),
        Part::Tick => parts.tick.is_some(),
        Part::Pic => parts.pic.is_some(),
        Part::Ioapic => parts.ioapic.is_some(),
        Part::Lapic(n) => has_lapic(&parts.lapics, n),
    }
}

/// Parts in hand, and what is known of the published words.
///
/// It answers the words that count as noted. It is astray once a word was missing, and the answer then is that nothing is
/// routed. It wishes for nothing.
#[derive(Drop)]
pub struct InHand {
    pub parts: Parts,
    pub known: Known,
}

impl Rig for InHand {
    ghost use Rattle.std.specs.Prelude.{◌≡◌, is_some, [], refl};
    ghost use Rattle.part_rig.specs.Knowing.{list_of, kept_of};

    ghost held = { λ r. r.parts };

    ghost published = { λ r. list_of r.known };

    ghost astray = { λ r. is_some r.known.missing };

    ghost wishes = { λ _. [] };

    ghost noted = { λ r. kept_of r.known };

    ghost with_held = { λ r p. record r { parts = p } };

    ghost held_with = { λ r p. refl };

    ghost published_with = { λ r p. refl };

    ghost wishes_with = { λ r p. refl };

    ghost astray_with = { λ r p. refl };

    ghost noted_with = { λ r p. refl };

    fn parts(&mut self) -> &mut Parts {
        &mut self.parts
    }

    fn has(&self, part: Part) -> bool {
        has_part(&self.parts, part)
    }

    fn targets(&mut self, gsi: u16) -> Targets {
        let word = self.known.word(gsi);
        targets_told(word)
    }

    fn marked(&mut self, gsi: u16) -> bool {
        let word = self.known.word(gsi);
        marked_told(word)
    }

    fn gsi_of(&mut self, pin: Pin) -> Option<u16> {
        let word = self.known.pin_word(pin);
        gsi_told(word)
    }

    fn trigger(&mut self, trigger: u16) -> Option<TriggerWord> {
        let word = self.known.word(4096 + trigger);
        trigger_told(word)
    }

    fn wish(&mut self) -> CpuSet {
        CpuSet::empty()
    }
}
