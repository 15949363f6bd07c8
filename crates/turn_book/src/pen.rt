ghost use Rattle.std.specs.Prelude.{◌≡◌, true, false};
ghost use Rattle.turn_book.specs.Hands.{are_distinct, ArePaired, AreBelow};
ghost use Rattle.turn_book.specs.Views.{LookedUnder, KnowsOnly};

use crate::machine::Machine;
use crate::view::View;
use atomic_table::Seat;

/// A seat at the book's table.
pub(crate) type Hand<M> = Seat<
    <M as Machine>::Part,
    View<<M as Machine>::State, <M as Machine>::Entry, <M as Machine>::Part>,
>;

/// A seat that knows a list of entries.
///
/// The slots that it has in hand are those of the parts that it holds, each once.
#[derive(Drop)]
pub struct Pen<M: Machine> {
    pub(crate) seat: Seat<M::Part, View<M::State, M::Entry, M::Part>>,
    // the generation of its last look, if it has looked
    pub(crate) looked: u32,
    // the generation that it knows, if it knows one
    pub(crate) known: u32,
    pub ghost live: { (seat.me.0).spent ≡ false },
    pub ghost distinct: { are_distinct seat.me.1 ≡ true },
    pub ghost paired: { ArePaired (seat.me.0).held seat.me.1 },
    pub ghost below: { AreBelow seat.table_id.slots (seat.me.0).held },
    pub ghost looks_under: { LookedUnder looked seat.me.0 },
    pub ghost knows_only: { KnowsOnly known seat.me.0 },
}
