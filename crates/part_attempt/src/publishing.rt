//! The words of a publication.
ghost use Rattle.std.specs.Prelude.{◌≡◌, true, is_some, IfSome};
ghost use Rattle.board_step.specs.Step.{did_publish};
ghost use Rattle.turn_book.specs.Banks.{AreDrafted};
ghost use Rattle.turn_book.specs.Views.{view_of, slots_of};
ghost use Rattle.route_bank.specs.Drafting.{ChangesDrafts};
ghost use Rattle.part_attempt.specs.Attempts.{NamesInRange, words_in_hand};
ghost use Rattle.board_model.specs.declared.width.TheConstants.{WORDS};

use board_raise::Parts;
use irq_base::{Call, Reply, Shape};
use part_machine::RunningBoard;
use route_bank::publish as write_words;
use turn_book::{Pen, TurnBook};

/// Whether a call that was answered so was a publication.
pub fn did_publish(call: &Call, reply: Reply) -> bool
    ensures { result ≡ did_publish call.now reply }
{
    match call {
        Call::Reroute { .. } | Call::Assign { .. } | Call::Watch { .. } | Call::Unwatch { .. } => {
            matches!(reply, Reply::Done)
        }
        Call::Deassign { .. } => matches!(reply, Reply::Removed(1)),
        _ => false,
    }
}

/// For a publication the words of the registry in hand are written to the spare bank.
pub fn draft(
    book: &TurnBook<RunningBoard>,
    pen: &mut Pen<RunningBoard>,
    shape: &Shape,
    parts: &Parts,
    publish: bool,
)
    requires book { pen.old.seat.table_id ≡ book.now.table.shared.table_id }
    requires width { book.now.width ≡ WORDS }
    requires knows { publish ≡ true → is_some (view_of pen.old.seat).knows ≡ true }
    requires range { IfSome parts.now.registry (NamesInRange shape.now.tick) }
    ensures book { pen.new.seat.table_id ≡ pen.old.seat.table_id }
    ensures drafted { publish ≡ true → IfSome parts.now.registry (λ registry. AreDrafted (words_in_hand registry shape.now.tick) (view_of pen.new.seat).drafts) }
    ensures rest { ChangesDrafts (view_of pen.old.seat) (view_of pen.new.seat) }
    ensures slots { slots_of pen.new.seat ≡ slots_of pen.old.seat }
{
    if !publish {
        return;
    }
    if let Some(registry) = &parts.registry {
        write_words(
            book,
            pen,
            &registry.table,
            &registry.irqfds,
            &registry.watches,
            shape.tick,
        );
    }
}
