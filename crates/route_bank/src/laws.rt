//! Laws of published words, as contracts of functions that do nothing.
ghost use Rattle.route_bank.specs.Laws.{WordsStandAtIndices};

/// The word of each GSI, trigger and pin stands at its index among the words that a registry publishes.
pub fn words_stand_at_indices()
    ensures { WordsStandAtIndices }
{}
