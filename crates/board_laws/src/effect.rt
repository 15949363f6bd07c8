//! Signals without effect, as laws: the functions do nothing.

ghost use Rattle.board_laws.specs.Points.{OfLegalHistories};
ghost use Rattle.board_laws.specs.Effect.{CoalescedAndIgnoredChangeNoRequest, LapicsStayInPlace, StatusesWithoutEffectChangeNoRequest, PicPinsHaveTheirLines, IgnoredMaskedIsMasked};

/// A law: a reply that is Coalesced or Ignored answers a call with targets, and says what stood there or the cause; every IRR
/// is as before. So it is in each step from a board on which each processor has a local APIC with its number.
#[tactic(auto, using(crate::proofs::EffectCalls::coalesced_and_ignored_change_no_request))]
pub fn coalesced_and_ignored_change_no_request()
    ensures { CoalescedAndIgnoredChangeNoRequest }
{}

/// A law: a step keeps a local APIC for each processor, with its number.
pub fn lapics_stay_in_place()
    ensures { LapicsStayInPlace }
{}

/// A law: in each entry of a legal history a reply that is Coalesced or Ignored answers a call with targets, and says what
/// stood there or the cause; every IRR is as before.
pub fn statuses_without_effect_change_no_request()
    ensures { OfLegalHistories StatusesWithoutEffectChangeNoRequest }
{}

/// A law: each of the 16 pins of the 8259A pair is on the line of its own number.
#[tactic(auto, using(crate::proofs::EffectStood::pic_pins_have_their_lines))]
pub fn pic_pins_have_their_lines()
    ensures { PicPinsHaveTheirLines }
{}

/// A law: in a legal history a reply that is Ignored for the cause Masked answers a call with a target whose pin was masked, by
/// the IMR of its 8259A or by its redirection entry.
pub fn ignored_masked_is_masked()
    ensures { OfLegalHistories IgnoredMaskedIsMasked }
{}
