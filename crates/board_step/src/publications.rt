//! The laws of publications and of a board's frame: functions with no body, the contract of each being a law.

ghost use Rattle.board_step.specs.Publications.{StepsShowPublications, PublicationsReachTheRegistry, StepsKeepTheFrame};
ghost use Rattle.board_step.specs.Publications.{HistoriesKeepTheFrame, LegalHistoriesCount, LimitsAreTold, WordsStayAlong, ReachIsThere};

/// A law: whether a step is a publication shows in its entry.
pub fn steps_show_publications()
    ensures { StepsShowPublications }
{}

/// A law: a call that would publish reaches the registry.
#[tactic(auto, using(crate::proofs::Publishing::publications_reach_the_registry))]
pub fn publications_reach_the_registry()
    ensures { PublicationsReachTheRegistry }
{}

/// A law: a step leaves the shape and the number of local APICs, adds one to the calls, and one to the publications exactly
/// where its entry is one.
pub fn steps_keep_the_frame()
    ensures { StepsKeepTheFrame }
{}

/// A law: a history leaves the shape and the number of local APICs, and adds the number of its entries to the calls and that
/// of its publications to the publications.
#[tactic(auto, using(crate::proofs::Publishing::histories_keep_the_frame))]
pub fn histories_keep_the_frame()
    ensures { HistoriesKeepTheFrame }
{}

/// A law: the board after a legal history has the shape, a local APIC for each processor, as many calls as there are entries
/// and as many publications as there are among them.
#[tactic(auto, using(crate::proofs::Publishing::legal_histories_count))]
pub fn legal_histories_count()
    ensures { LegalHistoriesCount }
{}

/// A law: after a legal history its entries tell which limit bars a call.
#[tactic(auto, using(crate::proofs::Publishing::limits_are_told))]
pub fn limits_are_told()
    ensures { LimitsAreTold }
{}

/// A law: a history without a publication leaves the published words.
#[tactic(auto, using(crate::proofs::Publishing::words_stay_along))]
pub fn words_stay_along()
    ensures { WordsStayAlong }
{}

/// A law: each local APIC that an allowed call reaches is one of the board's processors.
#[tactic(auto, using(crate::proofs::There::reach_is_there))]
pub fn reach_is_there()
    ensures { ReachIsThere }
{}
