//! Laws: functions with no body, the contract of each being a law.

ghost use Rattle.part_slots.specs.Callers.{CallersAreNumbers};
ghost use Rattle.part_slots.specs.Commits.{HandsAreOfTheBoard, CallsAreEntered, LackingIsReached, KeptPartsAreSlots};
ghost use Rattle.part_slots.specs.Histories.{OpeningsAreTold, RunsAreLegal, StatesStand, StatesGoOn, SlotsKeepParts};
ghost use Rattle.part_slots.specs.Slots.{PartsHavePlaces};

/// A law: each caller has a number of its own, and each number is one of a caller.
#[tactic(auto, using(crate::proofs::Inverse::callers_are_numbers))]
pub fn callers_are_numbers()
    ensures { CallersAreNumbers }
{}

/// A law: each part has a place of its own, and each place is one of a part.
#[tactic(auto, using(crate::proofs::Inverse::parts_have_places))]
pub fn parts_have_places()
    ensures { PartsHavePlaces }
{}

/// A law: the slots of a board at power-on tell the board.
pub fn openings_are_told()
    ensures { OpeningsAreTold }
{}

/// A law: the histories of the book are the legal histories of typed calls.
pub fn runs_are_legal()
    ensures { RunsAreLegal }
{}

/// A law: each state of a history is sound, has the opening shape, and counts the entries and the publications.
pub fn states_stand()
    ensures { StatesStand }
{}

/// A law: each typed call that is allowed and that no limit bars goes on from each state.
pub fn states_go_on()
    ensures { StatesGoOn }
{}

/// A law: the slot at a part's place keeps the part.
pub fn slots_keep_parts()
    ensures { SlotsKeepParts }
{}

/// A law: what is in hand of a pen is of the board that its list leaves, whose registry is sound.
pub fn hands_are_of_the_board()
    ensures { HandsAreOfTheBoard }
{}

/// A law: what a body did on the parts in hand is a step from the board that the pen's list leaves, the pen holds its reach,
/// and the parts left are those of the board to which the entry leads.
pub fn calls_are_entered()
    ensures { CallsAreEntered }
{}

/// A law: a part that a body lacks is in the reach of its call on the board that the pen's list leaves, and is not in hand.
pub fn lacking_is_reached()
    ensures { LackingIsReached }
{}

/// A law: a slot that keeps the part of a board is the board's own, where its pins are those that are held and the
/// registry's has the board's shape.
pub fn kept_parts_are_slots()
    ensures { KeptPartsAreSlots }
{}
