//! What an acknowledge does for irqfds with a resample counter (KVM_IRQFD, resample): each such counter of the acknowledged
//! GSI is signalled, so that its device can raise the level again if it still asks.
#![tactic(auto)]

mod resample;

pub use resample::on_ack;
