//! The law of verdicts: a function with no body, the contract of which is what holds.
ghost use Rattle.legal_check.specs.Verdicts.{HasOneVerdict};

/// A law: a transcript has at most one verdict beside a script.
pub fn has_one_verdict()
    ensures { HasOneVerdict }
{}
