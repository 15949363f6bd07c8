//! Requests stay pending until they are taken, as laws: the functions do nothing.

ghost use Rattle.board_laws.specs.Points.{OfLegalHistories};
ghost use Rattle.board_laws.specs.Pending.{SendingsAreLogged, RequestsStayPending};

/// A law: the sendings of a run that the next law speaks of are those that its log shows, in order.
pub fn sendings_are_logged<A>()
    ensures { SendingsAreLogged A }
{}

/// A law: in a legal history each sending reaches a set of processors that it may reach, and each of these has the request
/// from then on, until it takes it by `Ack`.
pub fn requests_stay_pending()
    ensures { OfLegalHistories RequestsStayPending }
{}
