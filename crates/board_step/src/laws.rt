//! The laws of steps: functions with no body, the contract of each being a law.

ghost use Rattle.board_step.specs.Laws.{LeadsToOne, CallsSteadily, StepsAreFollowed, BoardAfterIsReached, AnswersOnce, AlwaysAnswers, StepsTellFew, RefusesFirst, RefusedRightly, WordsStay};

/// A law: an entry leads from a board to one board at most.
pub fn leads_to_one()
    ensures { LeadsToOne }
{}

/// A law: the choices of a call can be followed, whatever it does: to wish for what it reached is to reach it again.
#[tactic(auto, using(crate::proofs::Following::calls_steadily))]
pub fn calls_steadily()
    ensures { CallsSteadily }
{}

/// A law: whatever wishes made a step, under those that its entry shows it has the same reply, events, log and board. So a step
/// with a given reply and events is there exactly where the run under what they show has them.
pub fn steps_are_followed()
    ensures { StepsAreFollowed }
{}

/// A law: a history leads from a board to one board at most, and that is the one which its entries tell.
#[tactic(auto, using(crate::proofs::Following::board_after_is_reached))]
pub fn board_after_is_reached()
    ensures { BoardAfterIsReached }
{}

/// A law: each call answers exactly once, on every board and under all wishes.
#[tactic(auto, using(crate::proofs::CountingAnswers::answers_once))]
pub fn answers_once()
    ensures { AnswersOnce }
{}

/// A law: on a sound board each call that is allowed to its caller, and that no limit bars, has a step with one reply and at
/// most 560 events.
#[tactic(auto, using(crate::proofs::CountingAnswers::always_answers))]
pub fn always_answers()
    ensures { AlwaysAnswers }
{}

/// A law: each step from a sound board tells at most 560 events.
pub fn steps_tell_few()
    ensures { StepsTellFew }
{}

/// A law: a call that the board refuses answers that refusal alone, tells nothing and changes nothing, whatever is wished.
pub fn refuses_first()
    ensures { RefusesFirst }
{}

/// A law: a call that answers a refusal is one that the board refuses, for that reason.
pub fn refused_rightly()
    ensures { RefusedRightly }
{}

/// A law: a step that is no publication leaves the published words.
pub fn words_stay()
    ensures { WordsStay }
{}
