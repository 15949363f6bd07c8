//! The registry of a slot lent to the rig, where a call leaves it as it is.
ghost use Rattle.std.specs.Prelude.{◌≡◌, true, is_some, None};
ghost use Rattle.part_rig.specs.Lending.{registry_in, with_registry, lent, returned, LentComesHome};

use crate::workroom::Workroom;
use part_slots::Slot;
use std::mem;

impl Workroom {
    /// The registry of its slot comes to hand, and the spare one stands in the slot meanwhile: no row is copied.
    ///
    /// The parts in hand are those that a copy would give. `return_registry` brings it home.
    pub fn lend_registry(&mut self, slot: &mut Slot)
        requires slot { is_some (registry_in slot.old) ≡ true }
        requires spare { is_some self.old.registry ≡ true }
        ensures room { self.new ≡ lent slot.old self.old }
        ensures slot { slot.new ≡ with_registry slot.old self.old.registry }
    {
        if let Slot::Registry(home) = slot {
            if let Some(spare) = self.registry.take() {
                self.rig.parts.registry = Some(mem::replace(&mut home.registry, spare));
            }
        }
    }

    /// The registry in hand goes into its slot, and what stood there is spare again. Where it is the one that was lent, the slot
    /// is as it was: `lent_comes_home`.
    pub fn return_registry(&mut self, slot: &mut Slot)
        requires slot { is_some (registry_in slot.old) ≡ true }
        requires in_hand { is_some self.old.rig.parts.registry ≡ true }
        ensures room { self.new ≡ returned slot.old self.old }
        ensures slot { slot.new ≡ with_registry slot.old self.old.rig.parts.registry }
    {
        if let Slot::Registry(home) = slot {
            if let Some(registry) = self.rig.parts.registry.take() {
                self.registry = Some(mem::replace(&mut home.registry, registry));
            }
        }
    }
}

/// A law: a slot whose registry was lent, and to which that registry comes home, is as it was.
pub fn lent_comes_home()
    ensures { LentComesHome }
{}
