//! What a local APIC answers.

use irq_base::Message;

/// What came of a message.
#[derive(Clone, Copy, Debug, PartialEq, Eq)]
pub enum Accepted {
    /// The request was not there before.
    New,
    /// The request was there already.
    Stood,
    /// The vector is below 16, which no request can have.
    BadVector,
    /// The APIC is not enabled.
    Disabled,
}

/// The processors that a message of the interrupt command register is for (SDM volume 3, destination shorthand).
#[derive(Clone, Copy, Debug, PartialEq, Eq)]
pub enum Shorthand {
    /// Those of the destination field.
    Field,
    OwnOnly,
    All,
    Others,
}

/// A message that a processor sends by its interrupt command register.
#[derive(Clone, Copy, Debug, PartialEq, Eq)]
pub struct Ipi {
    pub message: Message,
    pub to: Shorthand,
}

/// What a store brings about beside the registers.
#[derive(Clone, Copy, Debug, PartialEq, Eq)]
pub enum Effect {
    Plain,
    /// An end of interrupt, of this vector or of none.
    Ended(Option<u8>),
    /// The message is to be sent.
    Send(Ipi),
}
