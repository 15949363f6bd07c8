//! What a call reaches, as laws: the functions do nothing.
ghost use Rattle.board_step.specs.Laws.{ReachIsTable, StaysOutsideReach, DependsOnReach};

/// A law: what a call looks at or writes is what the table says, whatever is wished.
#[tactic(auto, using(crate::proofs::ReachCalls::reach_is_table))]
pub fn reach_is_table()
    ensures { ReachIsTable }
{}

/// A law: a step changes no part outside its reach.
pub fn stays_outside_reach()
    ensures { StaysOutsideReach }
{}

/// A law: a step depends on the parts of its reach and on the published words alone: on each sound board that agrees on them
/// the same entry is a step, with the same reach, and it leaves the parts of the reach the same.
pub fn depends_on_reach()
    ensures { DependsOnReach }
{}
