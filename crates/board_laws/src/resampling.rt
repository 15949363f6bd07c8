//! Resamplers, as laws: the functions do nothing.

ghost use Rattle.board_laws.specs.Points.{OfLegalHistories};
ghost use Rattle.board_laws.specs.Resampling.{EachAcknowledgeResamplesOnce};
ghost use Rattle.board_laws.specs.Holds.{ResampleHoldsForResamplers};

/// A law: in a legal history each acknowledge of a GSI with resamplers signals each of them once, in order, and afterwards
/// no resampler holds a pin of the GSI.
pub fn each_acknowledge_resamples_once()
    ensures { OfLegalHistories EachAcknowledgeResamplesOnce }
{}

/// A law: on each board of a legal history Resample holds a pin only where the pin's GSI has a resampler.
pub fn resample_holds_for_resamplers()
    ensures { OfLegalHistories ResampleHoldsForResamplers }
{}
