//! How many processors a set of them can name.

/// The processors of a board are numbered below this.
pub const MAX_CPUS: u16 = 64;
