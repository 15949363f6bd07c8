//! The published words of a board on one thread.
ghost use Rattle.std.specs.Prelude.{◌≡◌, ◌<◌, All, IsTrue, IfSome, is_some, option_map};
ghost use Rattle.route_table.specs.Pins.{IsPin, gsi_of};
ghost use Rattle.route_table.specs.Rows.{targets_of};
ghost use Rattle.route_table.specs.Words.{is_route};
ghost use Rattle.irqfd_set.specs.Rows.{of_trigger};
ghost use Rattle.board_model.specs.Laws.{PublishesRouting};
ghost use Rattle.board_model.specs.Published.{IsSoundIrqfd};
ghost use Rattle.board_model.specs.Routing.{is_marked, trigger_of};
ghost use Rattle.board_raise.specs.InHand.{registry_of};

use crate::parts::RegistryPart;
use board_model::TriggerWord;
use irq_base::{Pin, Targets};

/// A registry as it was published, with the GSI on which ticks are injected. It answers what the published words of the
/// board tell.
#[derive(Drop)]
pub struct Words {
    registry: RegistryPart,
    tick: u16,
    ghost in_range: { tick < 4096 },
    ghost told: { ∥ PublishesRouting (registry_of registry) tick ∥₁ },
}

#[tactic(auto, using(crate::proofs::Publishing::word_rules))]
impl Words {
    ghost use Rattle.board_model.specs.Published.{routing_of_words};
    ghost use Rattle.board_raise.specs.BoardRig.{words_in};

    /// The words of a registry whose registrations name triggers and GSIs that there are.
    pub fn of(registry: RegistryPart, tick: u16) -> Words
        requires irqfds { All IsSoundIrqfd registry.irqfds }
        requires watches { All (λ row. row.gsi < 4096) registry.watches }
        requires tick { tick < 4096 }
        ensures registry { result.registry ≡ registry }
        ensures tick { result.tick ≡ tick }
    {
        registry.table.keeps_the_rules();
        Words { registry, tick }
    }

    /// From now on the words are those of this registry, with ticks on that GSI. It takes no memory.
    pub fn publish(&mut self, registry: &RegistryPart, tick: u16)
        requires irqfds { All IsSoundIrqfd registry.now.irqfds }
        requires watches { All (λ row. row.gsi < 4096) registry.now.watches }
        requires tick { tick < 4096 }
        ensures registry { self.new.registry ≡ registry.now }
        ensures tick { self.new.tick ≡ tick }
    {
        registry.table.keeps_the_rules();
        self.registry.copy_from(registry);
        self.tick = tick;
    }

    /// Where a GSI goes.
    pub fn targets(&self, gsi: u16) -> Targets
        requires { gsi < 4096 }
        ensures told { result ≡ (routing_of_words (words_in self.now)).targets gsi }
        ensures route { IsTrue (is_route result) }
    {
        targets_in(&self.registry, gsi)
    }

    /// Whether an acknowledge of a GSI is of concern to anybody.
    pub fn marked(&self, gsi: u16) -> bool
        requires { gsi < 4096 }
        ensures { result ≡ (routing_of_words (words_in self.now)).marked gsi }
    {
        marked_in(&self.registry, self.tick, gsi)
    }

    /// The GSI of a pin.
    pub fn gsi_of(&self, pin: Pin) -> Option<u16>
        requires { IsPin pin }
        ensures told { result ≡ (routing_of_words (words_in self.now)).gsi_of pin }
        ensures range { IfSome result (λ gsi. gsi < 4096) }
    {
        gsi_in(&self.registry, pin)
    }

    /// What a trigger injects.
    pub fn trigger(&self, trigger: u16) -> Option<TriggerWord>
        requires { trigger < 256 }
        ensures told { result ≡ (routing_of_words (words_in self.now)).trigger trigger }
        ensures range { IfSome result (λ word. word.gsi < 4096) }
    {
        trigger_in(&self.registry, trigger)
    }
}

// Where the table sends a GSI.
fn targets_in(registry: &RegistryPart, gsi: u16) -> Targets
    requires { gsi < 4096 }
    ensures value { result ≡ targets_of (registry_of registry.now).table gsi }
    ensures route { IsTrue (is_route result) }
{
    registry.table.targets(gsi)
}

// Whether the GSI has a resampler or an acknowledge notifier, or is that of the tick.
fn marked_in(registry: &RegistryPart, tick: u16, gsi: u16) -> bool
    ensures { result ≡ is_marked (registry_of registry.now) tick gsi }
{
    registry.irqfds.has_resampler(gsi) || registry.watches.has_watch(gsi) || gsi == tick
}

// The GSI that the table gives the pin.
fn gsi_in(registry: &RegistryPart, pin: Pin) -> Option<u16>
    requires { IsPin pin }
    ensures value { result ≡ gsi_of (registry_of registry.now).table pin }
    ensures range { IfSome result (λ gsi. gsi < 4096) }
{
    registry.table.gsi_of(pin)
}

// What the irqfd of a trigger injects.
fn trigger_in(registry: &RegistryPart, trigger: u16) -> Option<TriggerWord>
    ensures { result ≡ option_map trigger_of (of_trigger (registry_of registry.now).irqfds trigger) }
{
    match registry.irqfds.of_trigger(trigger) {
        None => None,
        Some(row) => Some(TriggerWord {
            gsi: row.gsi,
            resample: row.resample.is_some(),
        }),
    }
}
