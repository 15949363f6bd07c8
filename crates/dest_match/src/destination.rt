//! The destination that means all.

/// Each processor matches this destination of a message, physical or logical.
pub const BROADCAST: u32 = 0xff;
