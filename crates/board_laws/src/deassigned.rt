//! No signal of a deassigned trigger, as a law: the function does nothing.

ghost use Rattle.board_laws.specs.Points.{OfLegalHistories};
ghost use Rattle.board_laws.specs.Deassigned.{NoSignalOfDeassignedTrigger};

/// A law: from the end of an irqfd to the next of its trigger, a write of its counter, or a guest write that rings it by an
/// ioeventfd, signals nothing: it is refused, or it tells no more than that it rang and changes no more than the count; and
/// no other call tells that it rang.
pub fn no_signal_of_deassigned_trigger()
    ensures { OfLegalHistories NoSignalOfDeassignedTrigger }
{}
