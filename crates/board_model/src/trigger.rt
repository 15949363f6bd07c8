//! What is published of an irqfd.

/// The published word of the trigger of an irqfd (KVM_IRQFD): the GSI on which it injects, and whether it has a resample
/// counter.
#[derive(Clone, Copy, Debug, PartialEq, Eq)]
pub struct TriggerWord {
    pub gsi: u16,
    pub resample: bool,
}
