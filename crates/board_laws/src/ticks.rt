//! Ticks, as laws: the functions do nothing.

ghost use Rattle.board_laws.specs.Points.{OfLegalHistories};
ghost use Rattle.board_laws.specs.Ticks.{TicksAreConserved, BusyTicksAreHeldBack, StateIsFreeUnlessReinjects, TicksInjectFree, OtherInjectionsFollowAcknowledges};

/// A law: in a legal history, from the start of reinjection on, at power-on or by `TickMode`, and until the mode is set
/// again, the ticks that fell are those that are pending and those that acknowledges took.
pub fn ticks_are_conserved()
    ensures { OfLegalHistories TicksAreConserved }
{}

/// A law: in each step under reinjection a tick that falls where the state is not free is held back, which tells no event and
/// changes no part but the tick state.
pub fn busy_ticks_are_held_back()
    ensures { BusyTicksAreHeldBack }
{}

/// A law: in a legal history the state of ticks is free wherever ticks are not reinjected.
pub fn state_is_free_unless_reinjects()
    ensures { OfLegalHistories StateIsFreeUnlessReinjects }
{}

/// A law: in a legal history, in either mode, a tick that falls is injected only where the state is free; else it is held back.
pub fn ticks_inject_free()
    ensures { OfLegalHistories TicksInjectFree }
{}

/// A law: where an entry rings no ioeventfd and makes no irqfd, each injection that it tells is of the tick, and follows an
/// acknowledge of the tick's GSI with no other acknowledge and no other injection between.
pub fn other_injections_follow_acknowledges()
    ensures { OtherInjectionsFollowAcknowledges }
{}
