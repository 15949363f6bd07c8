//! The law of all bodies that run calls on parts in hand: functions with no body, the contract of each being a law.

ghost use Rattle.board_step.specs.Bodies.{BodiesStep, DoneLeads};

/// A law: a call that is run on parts in hand, by the published words, is a step from every board of which they are, that is,
/// whose registry is sound, which has those words and agrees with the parts: the parts left are those of the board after it,
/// and all of the reach was in hand. Where the run lacks a part, it is one of the reach that is not in hand. Only the step
/// itself asks that the call may be made there.
#[tactic(auto, using(crate::proofs::BodySteps::bodies_step))]
pub fn bodies_step()
    ensures { BodiesStep }
{}

/// A law: so it is of what a body did in code, whose reply, events and parts are those of the run.
#[tactic(auto, using(crate::proofs::BodySteps::done_leads))]
pub fn done_leads()
    ensures { DoneLeads }
{}
