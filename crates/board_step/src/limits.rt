//! Which limit bars a call.
ghost use Rattle.std.specs.Prelude.{◌≡◌, Some, is_some, not};
ghost use Rattle.irq_base.specs.Refusals.{first_of};
ghost use Rattle.std.specs.List.{list_any};
ghost use Rattle.irqfd_set.specs.Rows.{is_named};
ghost use Rattle.board_model.specs.Board.{Board as Whole};
ghost use Rattle.board_raise.specs.InHand.{registry_of, parts_of};
ghost use Rattle.board_calls.specs.Refusals.{range_reasons};
ghost use Rattle.board_step.specs.Publications.{spent_by};
ghost use Rattle.board_step.specs.Step.{would_publish};

use board_calls::{assign_refusal, refused_by_range, unwatch_refusal, watch_refusal};
use board_raise::{Parts, RegistryPart};
use irq_base::{Call, Shape, Spent};

/// Whether the call would be a publication, on a board of this registry; `false` where the registry is not in hand.
pub fn would_publish_in(parts: &Parts, shape: &Shape, call: &Call) -> bool
    ensures { (b : Whole) → Some b.registry ≡ (parts_of parts.now).registry → b.shape ≡ shape.now → result ≡ would_publish b call.now }
{
    match &parts.registry {
        None => false,
        Some(registry) => would_publish(registry, shape, call),
    }
}

// Whether the call is a publication, on a board of this shape and this registry.
#[tactic(auto, using(crate::proofs::Answered::publishes_where, crate::proofs::Answered::named_found))]
fn would_publish(registry: &RegistryPart, shape: &Shape, call: &Call) -> bool
    ensures { (b : Whole) → b.registry ≡ registry_of registry.now → b.shape ≡ shape.now → result ≡ would_publish b call.now }
{
    match call {
        Call::Reroute { .. } => is_in_range(shape, call),
        Call::Assign {
            trigger,
            resample,
            ..
        } => is_in_range(shape, call) && assign_refusal(registry, *trigger, *resample).is_none(),
        Call::Deassign { trigger, gsi } => {
            is_in_range(shape, call) && has_irqfd(registry, *trigger, *gsi)
        }
        Call::Watch { counter, gsi } => {
            is_in_range(shape, call) && watch_refusal(registry, *counter, *gsi).is_none()
        }
        Call::Unwatch { counter, gsi } => {
            is_in_range(shape, call) && unwatch_refusal(registry, *counter, *gsi).is_none()
        }
        _ => false,
    }
}

// Whether the call is not refused for its arguments alone.
fn is_in_range(shape: &Shape, call: &Call) -> bool
    ensures { result ≡ not (is_some (first_of (range_reasons shape.now call.now))) }
{
    refused_by_range(shape, call).is_none()
}

// Whether there is an irqfd of that trigger and that GSI.
fn has_irqfd(registry: &RegistryPart, trigger: u16, gsi: u16) -> bool
    ensures { result ≡ list_any (is_named trigger gsi) registry.now.irqfds }
{
    registry
        .irqfds
        .rows()
        .iter()
        .any(|row| row.trigger == trigger && row.gsi == gsi)
}

/// Which limit bars a call, after so many calls and so many publications: that of calls, or, where the call is a publication,
/// that of publications.
pub fn barred_by(shape: &Shape, calls: u64, publications: u32, publishes: bool) -> Option<Spent>
    ensures { result ≡ spent_by shape.now calls publications publishes }
{
    if calls == shape.calls {
        Some(Spent::Calls { at: calls })
    } else if publishes && publications == shape.publications {
        Some(Spent::Publications { at: publications })
    } else {
        None
    }
}
