//! The laws of sound boards: functions with no body, the contract of each being a law.

ghost use Rattle.board_step.specs.Laws.{OpeningIsSound, StepsKeepSound, HistoriesKeepSound};

/// A law: a board at power-on is sound where its shape is in limits.
pub fn opening_is_sound()
    ensures { OpeningIsSound }
{}

/// A law: a step from a sound board leads to a sound board, where its call is typed: a payload in a row of a routing table
/// has 32 bits.
pub fn steps_keep_sound()
    ensures { StepsKeepSound }
{}

/// A law: each board that a legal history of typed calls leads to is sound, where its shape is in limits.
#[tactic(auto, using(crate::proofs::SoundSteps::histories_keep_sound))]
pub fn histories_keep_sound()
    ensures { HistoriesKeepSound }
{}
