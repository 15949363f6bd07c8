//! An irqfd injects once, as a law: the function does nothing.

ghost use Rattle.board_laws.specs.Irqfds.{OneInjectionOfAnIrqfd};

/// A law: an entry that makes an irqfd tells no event or one injection of its GSI. A guest write that rings an ioeventfd is
/// refused, or tells that it rang and, where the counter is the trigger of an irqfd, one injection of its GSI; and no other
/// entry tells that a counter rang.
#[tactic(auto, using(crate::proofs::ConservingIrqfds::one_injection_of_an_irqfd))]
pub fn one_injection_of_an_irqfd()
    ensures { OneInjectionOfAnIrqfd }
{}
