//! A ring that many threads call.
ghost use Rattle.std.specs.Prelude.{◌≡◌};

use crate::machine::Ring;
use turn_book::TurnBook;

/// A ring that many threads call, each by a pass of its own. It shares one book of turns, of one part, and nothing else.
#[derive(Drop)]
pub struct WriteRing {
    pub(crate) book: TurnBook<Ring>,
    pub ghost turns: { book.table.shared.table_id.slots ≡ 1 },
}
