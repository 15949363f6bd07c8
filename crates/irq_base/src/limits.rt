//! How many callers a board has at most.

/// The devices that ask a board are numbered below this.
pub const MAX_DEVICES: u16 = 64;
