//! What a fire of an entry answers.
use irq_base::Reply;

/// What came of a fire.
#[derive(Clone, Copy, Debug, PartialEq, Eq)]
pub enum Fired {
    /// MSI-X is not enabled, and nothing was requested.
    Off,
    /// The entry was pending before, and the request is one with that.
    Merged,
    /// The entry or the function is masked: the request is pending.
    Pended,
    /// The message was sent, and this was answered.
    Sent(Reply),
}
