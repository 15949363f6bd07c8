//! What holds of every generated script.
ghost use Rattle.workload_gen.specs.Laws.{WorkloadsAreRead};

/// Each generated script is a script of the grammar, and its text is read as that script.
pub fn workloads_are_read()
    ensures { WorkloadsAreRead }
{}
