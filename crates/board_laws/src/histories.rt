//! All laws of histories together: the function does nothing.

ghost use Rattle.board_laws.specs.Lawful.{LegalHistoriesKeepTheLaws};

/// A law: every legal history keeps the laws of histories, all together. A contract that speaks of a legal history cites this.
pub fn legal_histories_keep_the_laws()
    ensures { LegalHistoriesKeepTheLaws }
{}
