//! Laws of every machine, as contracts of functions that do nothing.
ghost use Rattle.turn_book.specs.Banks.{GenerationsHaveWords};

use crate::machine::Machine;

/// A list of entries and a longer one with equally many publications have the same published words.
pub fn generations_have_words<M: Machine>()
    ensures { GenerationsHaveWords M.steps M.published M.is_publication }
{}
