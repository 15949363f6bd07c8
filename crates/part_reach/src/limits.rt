//! Which limit bars a call.
ghost use Rattle.std.specs.Prelude.{◌≡◌, true, is_some, IfSome, None, Some};
ghost use Rattle.board_model.specs.Board.{Board as Whole};
ghost use Rattle.board_raise.specs.InHand.{parts_of};
ghost use Rattle.board_step.specs.Step.{would_publish, spent_of};
ghost use Rattle.part_reach.specs.Limits.{IsCounted};

use board_raise::Parts;
use board_step::{barred_by, would_publish_in};
use irq_base::{Call, Shape, Spent};
use turn_book::Front;

// Whether the call is a publication, so far as the parts in hand tell it: without the registry it is taken for none.
fn publishes(parts: &Parts, shape: &Shape, call: &Call) -> bool
    ensures there { (b : Whole) → Some b.registry ≡ (parts_of parts.now).registry → b.shape ≡ shape.now → result ≡ would_publish b call.now }
    ensures only { result ≡ true → is_some (parts_of parts.now).registry ≡ true }
{
    parts.registry.is_some() && would_publish_in(parts, shape, call)
}

// Which limit bars the call, on a board of that shape, so many entries and so many publications; the limit of publications is
// told only with the registry in hand.
pub(crate) fn barred(parts: &Parts, shape: &Shape, had: Front, call: &Call) -> Option<Spent>
    ensures bars { (b : Whole) → IsCounted b shape.now had (parts_of parts.now) → IfSome result (λ spent. spent_of b call.now ≡ Some spent) }
    ensures free { (b : Whole) → IsCounted b shape.now had (parts_of parts.now) →
        (would_publish b call.now ≡ true → is_some (parts_of parts.now).registry ≡ true) → result ≡ None → spent_of b call.now ≡ None }
{
    barred_by(
        shape,
        had.length,
        had.generation,
        publishes(parts, shape, call),
    )
}
