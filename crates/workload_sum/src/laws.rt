//! What holds of all summaries.
ghost use Rattle.workload_sum.specs.Summary.{SummariesAreOne};

/// A law: the summary of a generated script is a function of its three numbers.
pub fn summaries_are_one()
    ensures { SummariesAreOne }
{}
