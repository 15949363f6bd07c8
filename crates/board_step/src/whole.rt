//! The laws of whole boards and their parts: functions with no body, the contract of each being a law.

ghost use Rattle.board_step.specs.Whole.{BoardHasItsParts, PartsMakeTheirBoard, AllPartsAreWhole, WholePartsAreAll};

/// A law: the board of some parts has just these, where none is missing.
pub fn board_has_its_parts()
    ensures { BoardHasItsParts }
{}

/// A law: the board of all parts of a board is that board.
#[tactic(auto, using(crate::proofs::WholeParts::parts_make_their_board))]
pub fn parts_make_their_board()
    ensures { PartsMakeTheirBoard }
{}

/// A law: none of all parts of a board is missing, where it has a local APIC for each processor.
pub fn all_parts_are_whole()
    ensures { AllPartsAreWhole }
{}

/// A law: parts of a board, none of which is missing, are all its parts.
#[tactic(auto, using(crate::proofs::WholeParts::whole_parts_are_all))]
pub fn whole_parts_are_all()
    ensures { WholePartsAreAll }
{}
